//! What is known of a statement before any instant, looked up by its number.

ghost use Rattle.std.specs.Prelude.{◌≡◌, ◌≤◌, ◌+◌, length};
ghost use Rattle.est_cells.specs.Tables.{sheet_size};
ghost use Rattle.est_kernel.specs.Pauses.{pauses_of};
ghost use Rattle.est_meaning.specs.States.{is_live};
ghost use Rattle.est_net.specs.Extents.{HasExtents};
ghost use Rattle.est_net.specs.Owners.{statements};

use crate::cells::StatementPlace;
use est_kernel::pause_set::PauseSet;
use est_kernel::statement::Statement;
use est_net::net::Net;
use est_rounds::resume::has_live;

/// The first place after the cells of the statement at this place.
#[inline(always)]
pub fn past(net: &Net, at: &StatementPlace, s: &Statement) -> usize
    requires extents { HasExtents net.now.extents.items at.now.number at.now.traps s.now }
    requires within { at.now.cell + sheet_size at.now.main s.now at.now.traps
        ≤ length net.now.cells.items }
    ensures { result ≡ at.now.cell + sheet_size at.now.main s.now at.now.traps }
{
    at.cell + net.extent(at.number).cells(at.main)
}

/// The number of what follows the statement at this place in the text.
#[inline(always)]
pub fn number_after(net: &Net, at: &StatementPlace, s: &Statement) -> usize
    requires extents { HasExtents net.now.extents.items at.now.number at.now.traps s.now }
    ensures { result ≡ at.now.number + statements s.now }
{
    at.number + net.extent(at.number).statements
}

/// Whether a pause of the statement of this number is set. If its pauses are no run of numbers, it
/// is gone through.
#[inline(always)]
pub fn is_live(net: &Net, number: usize, traps: usize, s: &Statement, pauses: &PauseSet) -> bool
    requires extents { HasExtents net.now.extents.items number traps s.now }
    ensures { result ≡ is_live s.now (pauses_of pauses.now) }
{
    match net.extent(number).pauses {
        Some(run) => pauses.has_some(run.first as usize, run.count as usize),
        None => has_live(s, pauses),
    }
}
