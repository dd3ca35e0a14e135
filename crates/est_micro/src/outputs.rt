//! The cells of the signals that may be emitted: they are told what the statement emits, and say
//! what is known.

ghost use Rattle.std.specs.Prelude.{◌≡◌, ◌≢◌, ◌<◌, ◌≤◌, ◌||◌, ◌&&◌, ℕ, true, false, length, ltb};
ghost use Rattle.est_kernel.specs.Bits.{bits};
ghost use Rattle.est_meaning.specs.Rounds.{how_many};
ghost use Rattle.est_cells.specs.Tables.{is_sure, is_possible};
ghost use Rattle.est_net.specs.Cells.{cell_at};
ghost use Rattle.est_net.specs.Kept.{kept};
ghost use Rattle.est_micro.specs.Engine.{IsNetOf};
ghost use Rattle.est_micro.specs.Inner.Outputs.{AreSignalsTold, IsToldOne, told_of};
ghost use Rattle.est_micro.specs.Runs.{AreSignalsUpdated};

use crate::cells::{is_true, may_be_true};
use crate::learning::tell_cell;
use crate::question::Question;
use crate::sweep_kind::LaterSweep;
use est_kernel::code_set::CodeSet;
use est_kernel::mask;
use est_meaning::signal_set::{self, Env, SignalSet};
use est_meaning::status::Status;
use est_net::net::Net;
use est_rounds::acts::{Acts, MustCan};

/// What the cell of a signal is told: it is present where it was offered, and else by what is
/// emitted.
fn gate(inputs: u64, judged: &MustCan, n: u8) -> Status
    requires { n < 64 }
    ensures { result ≡ told_of inputs judged.now n }
{
    if mask::has(inputs, n) {
        Status::Present
    } else {
        signal_set::decide(
            mask::has(judged.must.signals.interface, n),
            mask::has(judged.can.signals.interface, n),
        )
    }
}

/// The mask with this number, if it is to be in it.
fn put(mask: u64, n: u8, is_in: bool) -> u64
    requires { n < 64 }
    ensures here { bits result n ≡ (bits mask n || is_in) }
    ensures others { (k : ℕ) → k ≢ n → bits result k ≡ bits mask k }
{
    if is_in { mask::with(mask, n) } else { mask }
}

/// The signals whose cells are true, those whose cells aren't false, and the next cell.
#[derive(Clone, Copy)]
struct Reading {
    sure: u64,
    possible: u64,
    cell: usize,
}

/// Tells a signal's cell, if it has one, and reads it.
fn update_signal(
    net: &mut Net,
    signals: u64,
    inputs: u64,
    judged: &MustCan,
    so_far: Reading,
    n: u8,
) -> Reading
    requires place { n < 64 }
    requires within { bits signals n ≡ true → so_far.cell < length net.old.cells.items }
    ensures told { IsToldOne (bits signals n) (told_of inputs judged.now n) so_far.cell
        net.old.cells.items net.new.cells.items result.cell }
    ensures sure { bits result.sure n ≡ (bits so_far.sure n || (bits signals n
        && is_sure (cell_at net.new.cells.items so_far.cell))) }
    ensures other_sure { (k : ℕ) → k ≢ n → bits result.sure k ≡ bits so_far.sure k }
    ensures possible { bits result.possible n ≡ (bits so_far.possible n || (bits signals n
        && is_possible (cell_at net.new.cells.items so_far.cell))) }
    ensures other_possible { (k : ℕ) → k ≢ n → bits result.possible k ≡ bits so_far.possible k }
    ensures kept { kept net.new ≡ kept net.old }
{
    if !mask::has(signals, n) {
        return so_far;
    }
    let status = tell_cell::<LaterSweep>(net, so_far.cell, gate(inputs, judged, n));
    Reading {
        sure: put(so_far.sure, n, is_true(status)),
        possible: put(so_far.possible, n, may_be_true(status)),
        cell: so_far.cell + 1,
    }
}

/// Tells the cells of all signals, and reads them.
fn update_all_signals(
    net: &mut Net,
    signals: u64,
    places: usize,
    inputs: u64,
    judged: &MustCan,
) -> Reading
    requires few { places ≤ 64 }
    requires within { how_many (bits signals) places ≤ length net.old.cells.items }
    ensures told { AreSignalsTold (bits signals) places
        (told_of inputs judged.now) net.old.cells.items net.new.cells.items }
    ensures sure { (k : ℕ) → bits result.sure k ≡ (ltb k places && (bits signals k
        && is_sure (cell_at net.new.cells.items (how_many (bits signals) k)))) }
    ensures possible { (k : ℕ) → bits result.possible k ≡ (ltb k places && (bits signals k
        && is_possible (cell_at net.new.cells.items (how_many (bits signals) k)))) }
    ensures kept { kept net.new ≡ kept net.old }
{
    let mut read = Reading {
        sure: 0,
        possible: 0,
        cell: 0,
    };
    for n in 0..places {
        read = update_signal(net, signals, inputs, judged, read, n as u8);
    }
    read
}

/// Tells the cells of the signals what the statement emits. Answers what is then known, by the
/// cells and by what was offered. Of the inputs that are not asked nothing is.
pub fn update_signals(net: &mut Net, question: &Question<'_>, judged: &MustCan) -> Env
    requires net { IsNetOf net.old question.now.kernel.now }
    ensures updated { AreSignalsUpdated question.now.kernel.now.interface
        (bits question.now.unasked) (bits question.now.inputs)
        (bits judged.now.must.signals.interface) (bits judged.now.can.signals.interface)
        net.old.cells.items net.new.cells.items result }
    ensures net { IsNetOf net.new question.now.kernel.now }
    ensures kept { kept net.new ≡ kept net.old }
{
    let inputs = question.inputs;
    let signals = net.emittable();
    let places = question.kernel.interface().len();
    let read = update_all_signals(net, signals, places, inputs, judged);
    Env {
        present: SignalSet {
            interface: mask::difference(mask::union(inputs, read.sure), question.unasked),
            local: 0,
        },
        possible: SignalSet {
            interface: mask::union(mask::union(inputs, read.possible), question.unasked),
            local: 0,
        },
    }
}

/// What is judged before anything is known: nothing is emitted surely, and these signals possibly.
pub fn in_doubt(possible: u64) -> MustCan
    ensures sure { (n : ℕ) → bits result.must.signals.interface n ≡ false }
    ensures possible { result.can.signals.interface ≡ possible }
{
    MustCan {
        must: Acts {
            signals: SignalSet {
                interface: 0,
                local: 0,
            },
            codes: CodeSet::empty(),
        },
        can: Acts {
            signals: SignalSet {
                interface: possible,
                local: 0,
            },
            codes: CodeSet::empty(),
        },
    }
}
