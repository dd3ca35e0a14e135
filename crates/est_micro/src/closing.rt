//! Closes a `||` whose sides were swept in an order, and each `||` that is its second side: tells
//! its go cell the gate, and its code cells what the codes of the sides say. Then all of its cells
//! are decided as a rule, and the sweep that comes after only reads them.
//!
//! What calls itself here does so on a part of the statement that it was given, and goes as deep as
//! the statement is.

ghost use Rattle.std.specs.Prelude.{◌≡◌, ◌≤◌, ◌+◌, length};
ghost use Rattle.est_kernel.specs.CodeViews.{codes_of};
ghost use Rattle.est_kernel.specs.declared.statement.Statement.TheVariants.{Par'};
ghost use Rattle.est_meaning.specs.Signals.{no_signals};
ghost use Rattle.est_cells.specs.Tables.{sheet_size};
ghost use Rattle.est_net.specs.Cells.{cell_at};
ghost use Rattle.est_net.specs.Extents.{HasExtents};
ghost use Rattle.est_net.specs.Kept.{kept};
ghost use Rattle.est_net.specs.Layout.{possible_codes, sure_codes};
ghost use Rattle.est_net.specs.Owners.{statements};
ghost use Rattle.est_micro.specs.Inner.Closing.{Closes};
ghost use Rattle.est_micro.specs.Inner.Views.{IsJudged};

use crate::cells::{self, CodesRead, StatementPlace};
use crate::extents::{number_after, past};
use crate::learning::tell_cell;
use crate::must_can;
use crate::sweep_kind::LaterSweep;
use est_kernel::statement::Statement;
use est_meaning::signal_set;
use est_meaning::status::Status;
use est_net::net::Net;
use est_rounds::acts::{Acts, MustCan};

/// What is judged of a statement by its codes alone: no signal is emitted.
#[inline(always)]
fn judged_by(codes: CodesRead) -> MustCan
    ensures { IsJudged (codes_of codes.sure) (codes_of codes.possible) no_signals no_signals
        result }
{
    MustCan {
        must: Acts {
            signals: signal_set::no_signal(),
            codes: codes.sure,
        },
        can: Acts {
            signals: signal_set::no_signal(),
            codes: codes.possible,
        },
    }
}

/// Closes a `||`: first what is its second side, and then its own cells. Answers what its code
/// cells then say.
#[cycle(close)]
fn close_par(
    net: &mut Net,
    top: &StatementPlace,
    number: usize,
    cell: usize,
    p: &Statement,
    q: &Statement,
    gate: Status,
) -> CodesRead
    requires first_extents { HasExtents net.old.extents.items (number + 1) top.now.traps p.now }
    requires second_extents { HasExtents net.old.extents.items (number + 1 + statements p.now)
        top.now.traps q.now }
    requires within { cell + top.now.traps + 3 + sheet_size top.now.main p.now top.now.traps
        + sheet_size top.now.main q.now top.now.traps ≤ length net.old.cells.items }
    requires few { top.now.traps ≤ 62 }
    ensures closes { (a b : _) → Closes top.now.main (Par' a p.now b q.now) cell top.now.traps gate
        net.old.cells.items net.new.cells.items }
    ensures sure { codes_of result.sure
        ≡ sure_codes (cell_at net.new.cells.items) (cell + 1) (top.now.traps + 2) }
    ensures possible { codes_of result.possible
        ≡ possible_codes (cell_at net.new.cells.items) (cell + 1) (top.now.traps + 2) }
    ensures kept { kept net.new ≡ kept net.old }
{
    let place = StatementPlace {
        number: number + 1,
        cell: cell + top.traps + 3,
        ..*top
    };
    let next_number = number_after(net, &place, p);
    let next_cell = past(net, &place, p);
    let second = judged_by(close(net, top, next_number, next_cell, q, gate));
    let first = judged_by(cells::read_codes(net, place.cell + 1, top.traps + 2));
    tell_cell::<LaterSweep>(net, cell, gate);
    let own = must_can::beside(&first, &second);
    cells::tell::<LaterSweep>(net, cell + 1, top.traps + 2, &own)
}

/// Closes a `||` of this number whose cells begin here, and which is begun, if at all, by the gate.
/// It is that at the top, or its second side, and so on. Answers what its code cells then say.
/// Nothing is done to another statement: its code cells are read.
#[cycle(close)]
pub fn close(
    net: &mut Net,
    top: &StatementPlace,
    number: usize,
    cell: usize,
    s: &Statement,
    gate: Status,
) -> CodesRead
    requires extents { HasExtents net.old.extents.items number top.now.traps s.now }
    requires within { cell + sheet_size top.now.main s.now top.now.traps
        ≤ length net.old.cells.items }
    requires few { top.now.traps ≤ 62 }
    ensures closes { Closes top.now.main s.now cell top.now.traps gate net.old.cells.items
        net.new.cells.items }
    ensures sure { codes_of result.sure
        ≡ sure_codes (cell_at net.new.cells.items) (cell + 1) (top.now.traps + 2) }
    ensures possible { codes_of result.possible
        ≡ possible_codes (cell_at net.new.cells.items) (cell + 1) (top.now.traps + 2) }
    ensures kept { kept net.new ≡ kept net.old }
{
    match s {
        Statement::Par(p, q) => close_par(net, top, number, cell, p, q, gate),
        _ => cells::read_codes(net, cell + 1, top.traps + 2),
    }
}
