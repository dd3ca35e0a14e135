//! Statements all of whose cells are decided. A sweep changes none of them, so they are only read.
//!
//! What calls itself here does so on a part of the statement that it was given, and goes as deep as
//! the statement is.

ghost use Rattle.std.specs.Prelude.{◌≡◌, ◌↔◌, ◌<◌, ◌≤◌, ◌+◌, true, false, length};
ghost use Rattle.est_kernel.specs.Masks.{FitsMasks, HasSignalBit};
ghost use Rattle.est_kernel.specs.View.{name_of};
ghost use Rattle.est_kernel.specs.declared.statement.Statement.TheVariants.{Loop'};
ghost use Rattle.est_kernel.specs.declared.statement.Statement.TheVariants.{Local' as Binder'};
ghost use Rattle.est_meaning.specs.Signals.{union};
ghost use Rattle.est_meaning.specs.Views.{set_of};
ghost use Rattle.est_cells.specs.Tables.{if_run, is_sure, sheet_size};
ghost use Rattle.est_net.specs.Cells.{AllDecided, cell_at};
ghost use Rattle.est_net.specs.Extents.{HasExtents};
ghost use Rattle.est_micro.specs.Inner.Views.{AddsBoth, AddsEmitted, IsRead};

use crate::cells::{self, StatementPlace, Swept};
use crate::extents::past;
use crate::must_can;
use est_kernel::statement::{LocalSignal, Signal, Statement};
use est_meaning::signal_set::{self, SignalSet};
use est_net::net::Net;
use est_rounds::acts::{Acts, MustCan};

/// Puts the signal of an emission into the set, if its go cell is true.
#[inline(always)]
fn add_emission(net: &Net, cell: usize, signal: Signal, emitted: &mut SignalSet)
    requires bit { HasSignalBit signal }
    requires within { cell + 3 ≤ length net.now.cells.items }
    ensures { set_of emitted.new ≡ union (set_of emitted.old)
        (if_run (is_sure (cell_at net.now.cells.items cell)) (name_of signal)) }
{
    let is_emitted = cells::is_true(net.status(cell));
    *emitted = signal_set::union_of(*emitted, must_can::signal_if(is_emitted, signal));
}

/// Puts the emitted signals of a part into the set. One without parts is looked at here, which
/// saves a call. Answers the first place after its cells.
#[cycle(add)]
#[inline(always)]
fn add_part(
    net: &Net,
    main: bool,
    cell: usize,
    traps: usize,
    s: &Statement,
    emitted: &mut SignalSet,
) -> usize
    requires fits { FitsMasks s.now }
    requires within { cell + sheet_size main s.now traps ≤ length net.now.cells.items }
    ensures { AddsEmitted main s.now cell traps net.now.cells.items emitted.old emitted.new
        result }
{
    match s {
        Statement::Nothing => cell + traps + 3,
        Statement::Pause(_) => cell + traps + 3,
        Statement::Exit(_) => cell + traps + 3,
        Statement::Emit(signal) => {
            add_emission(net, cell, *signal, emitted);
            cell + traps + 3
        }
        _ => add_emitted(net, main, cell, traps, s, emitted),
    }
}

/// Puts the emitted signals of two parts into the set, the second after the first. Answers the
/// first place after their cells.
#[cycle(add)]
#[inline(always)]
fn add_both(
    net: &Net,
    main: bool,
    cell: usize,
    traps: usize,
    p: &Statement,
    q: &Statement,
    emitted: &mut SignalSet,
) -> usize
    requires fits { FitsMasks p.now × FitsMasks q.now }
    requires within { cell + sheet_size main p.now traps + sheet_size main q.now traps
        ≤ length net.now.cells.items }
    ensures { AddsBoth main p.now q.now cell traps net.now.cells.items emitted.old emitted.new
        result }
{
    let past = add_part(net, main, cell, traps, p, emitted);
    add_part(net, main, past, traps, q, emitted)
}

/// Puts the emitted signals of a loop that can go on into the set.
#[cycle(add)]
fn add_loop(
    net: &Net,
    main: bool,
    cell: usize,
    traps: usize,
    p: &Statement,
    emitted: &mut SignalSet,
) -> usize
    requires main { main ≡ true }
    requires fits { FitsMasks p.now }
    requires within { cell + traps + 3 + sheet_size true p.now traps + sheet_size false p.now traps
        ≤ length net.now.cells.items }
    ensures { (a : _)
        → AddsEmitted main (Loop' a p.now) cell traps net.now.cells.items emitted.old emitted.new
        result }
{
    let past = add_emitted(net, main, cell + traps + 3, traps, p, emitted);
    add_emitted(net, false, past, traps, p, emitted)
}

/// Puts the emitted signals of a local signal's scope into the set, but for that signal. It has a
/// frame of its own, so that its caller's last calls need none.
#[cycle(add)]
#[inline(never)]
fn add_local(
    net: &Net,
    main: bool,
    cell: usize,
    traps: usize,
    s: LocalSignal,
    p: &Statement,
    emitted: &mut SignalSet,
) -> usize
    requires fits { (s.index < 64) × FitsMasks p.now }
    requires within { cell + traps + 4 + sheet_size main p.now traps
        ≤ length net.now.cells.items }
    ensures { (a : _)
        → AddsEmitted main (Binder' s a p.now) cell traps net.now.cells.items emitted.old
        emitted.new result }
{
    let mut inside = signal_set::no_signal();
    let past = add_emitted(net, main, cell + traps + 4, traps, p, &mut inside);
    *emitted = signal_set::union_of(*emitted, signal_set::all_but(s, inside));
    past
}

/// Puts the signals that the cells of a statement say are surely emitted into the set. Answers the
/// first place after its cells.
#[cycle(add)]
fn add_emitted(
    net: &Net,
    main: bool,
    cell: usize,
    traps: usize,
    s: &Statement,
    emitted: &mut SignalSet,
) -> usize
    requires fits { FitsMasks s.now }
    requires within { cell + sheet_size main s.now traps ≤ length net.now.cells.items }
    ensures { AddsEmitted main s.now cell traps net.now.cells.items emitted.old emitted.new
        result }
{
    let parts = cell + traps + 3;
    match s {
        Statement::Nothing => parts,
        Statement::Pause(_) => parts,
        Statement::Exit(_) => parts,
        Statement::Emit(signal) => {
            add_emission(net, cell, *signal, emitted);
            parts
        }
        Statement::Present(_, p, q) => add_both(net, main, parts, traps, p, q, emitted),
        Statement::Seq(p, q) => add_both(net, main, parts, traps, p, q, emitted),
        Statement::Par(p, q) => add_both(net, main, parts, traps, p, q, emitted),
        Statement::Suspend(_, p) => add_emitted(net, main, parts, traps, p, emitted),
        Statement::Loop(p) => {
            if main {
                add_loop(net, main, cell, traps, p, emitted)
            } else {
                add_emitted(net, main, parts, traps, p, emitted)
            }
        }
        Statement::Trap(p) => add_emitted(net, main, parts, traps + 1, p, emitted),
        Statement::Local(s, p) => add_local(net, main, cell, traps, *s, p, emitted),
    }
}

/// Whether all cells of a statement are decided. They are gone through only where the codes 0 and 1
/// are decided: as a rule all others are decided then too.
#[inline(always)]
pub fn is_decided(net: &Net, at: &StatementPlace, s: &Statement) -> bool
    requires extents { HasExtents net.now.extents.items at.now.number at.now.traps s.now }
    requires within { at.now.cell + sheet_size at.now.main s.now at.now.traps
        ≤ length net.now.cells.items }
    ensures { (result ≡ true) ↔ AllDecided at.now.cell
        (at.now.cell + sheet_size at.now.main s.now at.now.traps)
        net.now.cells.items }
{
    if !net.is_decided(at.cell + 2) {
        return false;
    }
    if !net.is_decided(at.cell + 1) {
        return false;
    }
    net.all_decided(at.cell, past(net, at, s))
}

/// What is found of a statement all of whose cells are decided.
#[inline(always)]
pub fn read(net: &Net, at: &StatementPlace, s: &Statement) -> Swept
    requires fits { FitsMasks s.now }
    requires within { at.now.cell + sheet_size at.now.main s.now at.now.traps
        ≤ length net.now.cells.items }
    requires few { at.now.traps ≤ 62 }
    requires decided { AllDecided at.now.cell
        (at.now.cell + sheet_size at.now.main s.now at.now.traps)
        net.now.cells.items }
    ensures { IsRead s.now at.now net.now.cells.items result }
{
    let mut emitted = signal_set::no_signal();
    let past = add_emitted(net, at.main, at.cell, at.traps, s, &mut emitted);
    let acts = Acts {
        signals: emitted,
        codes: cells::read_codes(net, at.cell + 1, at.traps + 2).sure,
    };
    let judged = MustCan {
        must: acts,
        can: acts,
    };
    Swept { judged, past }
}
