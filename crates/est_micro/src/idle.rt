//! Statements that take no part in an instant.

ghost use Rattle.std.specs.Prelude.{◌≡◌, ◌≤◌, ◌+◌, true, length, IfSome};
ghost use Rattle.est_cells.specs.Tables.{sheet_size};
ghost use Rattle.est_meaning.specs.declared.status.Status.TheVariants.{Absent};
ghost use Rattle.est_net.specs.Cells.{learned};
ghost use Rattle.est_net.specs.Extents.{HasExtents};
ghost use Rattle.est_micro.specs.Inner.Views.{IsIdle};

use crate::cells::StatementPlace;
use crate::extents::past;
use est_kernel::statement::Statement;
use est_meaning::status::Status;
use est_net::net::Net;

/// Whether a statement has parts. One that has none is swept as fast as it is passed over.
fn has_parts(s: &Statement) -> bool {
    match s {
        Statement::Nothing | Statement::Pause(_) | Statement::Emit(_) | Statement::Exit(_) => false,
        Statement::Present(_, _, _)
        | Statement::Suspend(_, _)
        | Statement::Seq(_, _)
        | Statement::Loop(_)
        | Statement::Par(_, _)
        | Statement::Trap(_)
        | Statement::Local(_, _) => true,
    }
}

/// Whether a go cell is false, or is open and its gate says false.
fn is_off(go: Status, gate: Status) -> bool
    ensures { result ≡ true → learned go gate ≡ Absent }
{
    match go {
        Status::Present => false,
        Status::Absent => true,
        Status::Unknown => match gate {
            Status::Absent => true,
            Status::Present | Status::Unknown => false,
        },
    }
}

/// The first place after the cells of a statement with parts that is not begun, by its go cell and
/// the gate, if none of its cells is true.
pub fn past_idle(net: &Net, at: &StatementPlace, s: &Statement, gate: Status) -> Option<usize>
    requires extents { HasExtents net.now.extents.items at.now.number at.now.traps s.now }
    requires within { at.now.cell + sheet_size at.now.main s.now at.now.traps
        ≤ length net.now.cells.items }
    ensures { IfSome result (IsIdle s.now at.now gate net.now.cells.items) }
{
    if !has_parts(s) || !is_off(net.status(at.cell), gate) {
        return None;
    }
    let past = past(net, at, s);
    if net.has_no_true(at.cell, past) {
        Some(past)
    } else {
        None
    }
}
