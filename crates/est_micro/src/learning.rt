//! What a cell is told. Each cell that is decided by it is decided by a write of the table.

ghost use Rattle.std.specs.Prelude.{◌≡◌, ◌<◌, ◌≤◌, ◌+◌, Some, length, slice_get};
ghost use Rattle.est_meaning.specs.Environments.{verdict};
ghost use Rattle.est_meaning.specs.declared.status.Status.TheVariants.{Absent, Unknown};
ghost use Rattle.est_net.specs.Cells.{AreFalse, Learns, NoneTrue, cell_at};
ghost use Rattle.est_net.specs.Kept.{kept};
ghost use Rattle.est_micro.specs.Inner.Views.{IsFresh};

use crate::sweep_kind::{LaterSweep, SweepKind};
use est_meaning::status::Status;
use est_net::net::Net;

/// Tells an open cell something, and answers what it then knows.
#[inline(always)]
fn tell_open(net: &mut Net, cell: usize, now: Status) -> Status
    requires { slice_get net.old.cells.items cell ≡ Some Unknown }
    ensures learns { Learns cell now net.old.cells.items net.new.cells.items }
    ensures known { result ≡ cell_at net.new.cells.items cell }
    ensures kept { kept net.new ≡ kept net.old }
{
    match now {
        Status::Present => net.write(cell, true),
        Status::Absent => net.write(cell, false),
        Status::Unknown => {}
    }
    now
}

/// Tells an open cell what is judged: it is true if it surely is, and false if it possibly isn't.
#[inline(always)]
pub fn decide_open(net: &mut Net, cell: usize, sure: bool, possible: bool)
    requires { slice_get net.old.cells.items cell ≡ Some Unknown }
    ensures learns { Learns cell (verdict sure possible) net.old.cells.items net.new.cells.items }
    ensures known { cell_at net.new.cells.items cell ≡ verdict sure possible }
    ensures kept { kept net.new ≡ kept net.old }
{
    if sure {
        net.write(cell, true);
    } else if !possible {
        net.write(cell, false);
    }
}

/// Tells a cell something, and answers what it then knows. It is decided by it if it is open and
/// what it is told isn't Unknown. In the first sweep of an instant it is open, and is not read.
#[inline(always)]
pub fn tell_cell<K: SweepKind>(net: &mut Net, cell: usize, now: Status) -> Status
    requires within { cell < length net.old.cells.items }
    requires fresh { IsFresh K.first cell (cell + 1) net.old.cells.items }
    ensures learns { Learns cell now net.old.cells.items net.new.cells.items }
    ensures known { result ≡ cell_at net.new.cells.items cell }
    ensures kept { kept net.new ≡ kept net.old }
{
    if K::is_first() {
        tell_open(net, cell, now)
    } else if net.is_decided(cell) {
        net.status(cell)
    } else {
        tell_open(net, cell, now)
    }
}

/// Tells the cells of a range, of which none is true, that they are false, one after another.
fn tell_false(net: &mut Net, from: usize, past: usize)
    requires range { from ≤ past }
    requires within { past ≤ length net.old.cells.items }
    requires none { NoneTrue from past net.old.cells.items }
    ensures cells { AreFalse from past net.old.cells.items net.new.cells.items }
    ensures kept { kept net.new ≡ kept net.old }
{
    for cell in from..past {
        tell_cell::<LaterSweep>(net, cell, Status::Absent);
    }
}

/// Makes the cells of a range false, of which none is true: where all are open, at once. Where all
/// are decided, nothing is left to do.
pub fn fill_false(net: &mut Net, from: usize, past: usize)
    requires range { from ≤ past }
    requires within { past ≤ length net.old.cells.items }
    requires none { NoneTrue from past net.old.cells.items }
    ensures cells { AreFalse from past net.old.cells.items net.new.cells.items }
    ensures kept { kept net.new ≡ kept net.old }
{
    if from < past && !net.is_decided(from) {
        if net.all_open(from, past) {
            net.fill(from, past);
        } else {
            tell_false(net, from, past);
        }
    } else if !net.all_decided(from, past) {
        tell_false(net, from, past);
    }
}
