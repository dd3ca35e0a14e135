//! The pauses at which a statement stands after an instant, read off its cells. A part that does
//! not give code 1 stands at none, and is passed over.
//!
//! What calls itself here does so on a part of the statement that it was given, and goes as deep as
//! the statement is.

ghost use Rattle.std.specs.Prelude.{◌≡◌, ◌≤◌, ◌+◌, ◌||◌, ◌&&◌, ℕ, nat_eq, length, true, false};
ghost use Rattle.est_kernel.specs.PauseNumbers.{has_pause};
ghost use Rattle.est_kernel.specs.Pauses.{pauses_of};
ghost use Rattle.est_kernel.specs.declared.statement.Statement.TheVariants.{Present', Suspend'};
ghost use Rattle.est_kernel.specs.declared.statement.Statement.TheVariants.{Seq', Loop', Par'};
ghost use Rattle.est_cells.specs.Tables.{sheet_size};
ghost use Rattle.est_net.specs.Cells.{cell_at};
ghost use Rattle.est_net.specs.Extents.{HasExtents};
ghost use Rattle.est_net.specs.Layout.{sure_codes};
ghost use Rattle.est_net.specs.Owners.{statements};
ghost use Rattle.est_micro.specs.Inner.Pausing.{Collects, CollectsIn};

use crate::cells::{StatementPlace, is_true};
use crate::direction::Direction;
use crate::extents::{number_after, past};
use est_kernel::pause_set::PauseSet;
use est_kernel::statement::{PauseIndex, Statement};
use est_net::net::Net;

/// Whether a statement gives code 1.
fn gives_pause(net: &Net, cell: usize, traps: usize) -> bool
    requires { cell + traps + 3 ≤ length net.now.cells.items }
    ensures { result ≡ sure_codes (cell_at net.now.cells.items) (cell + 1) (traps + 2) 1 }
{
    is_true(net.status(cell + 2))
}

/// Whether both hold.
fn both(a: bool, b: bool) -> bool
    ensures { result ≡ (a && b) }
{
    a && b
}

/// Puts a pause into the set, if it is to be in it.
fn put_pause(next: &mut PauseSet, n: PauseIndex, is_in: bool)
    ensures { (i : ℕ)
        → pauses_of next.new i ≡ (pauses_of next.old i || (is_in && nat_eq n.index i)) }
{
    if is_in {
        next.insert(n);
    }
}

/// Puts those pauses of two statements into `next` that are in `pauses`, if they are on.
#[cycle(keep_pauses)]
fn keep_pauses_of_two(
    on: bool,
    p: &Statement,
    q: &Statement,
    pauses: &PauseSet,
    next: &mut PauseSet,
)
    ensures { (i : ℕ) → pauses_of next.new i
        ≡ (pauses_of next.old i
        || (on && ((has_pause p.now i || has_pause q.now i) && pauses_of pauses.now i))) }
{
    keep_pauses(on, p, pauses, next);
    keep_pauses(on, q, pauses, next);
}

/// Puts those pauses of a statement into `next` that are in `pauses`, if it is on.
#[cycle(keep_pauses)]
fn keep_pauses(on: bool, s: &Statement, pauses: &PauseSet, next: &mut PauseSet)
    ensures { (i : ℕ) → pauses_of next.new i
        ≡ (pauses_of next.old i || (on && (has_pause s.now i && pauses_of pauses.now i))) }
{
    match s {
        Statement::Nothing => {}
        Statement::Emit(_) => {}
        Statement::Exit(_) => {}
        Statement::Pause(n) => put_pause(next, *n, both(on, pauses.has(*n))),
        Statement::Present(_, p, q) => keep_pauses_of_two(on, p, q, pauses, next),
        Statement::Seq(p, q) => keep_pauses_of_two(on, p, q, pauses, next),
        Statement::Par(p, q) => keep_pauses_of_two(on, p, q, pauses, next),
        Statement::Suspend(_, p) => keep_pauses(on, p, pauses, next),
        Statement::Loop(p) => keep_pauses(on, p, pauses, next),
        Statement::Trap(p) => keep_pauses(on, p, pauses, next),
        Statement::Local(_, p) => keep_pauses(on, p, pauses, next),
    }
}

/// Puts the pauses of two parts into `next`.
#[cycle(collect_pauses)]
#[inline(always)]
fn collect_pauses_of_two(
    net: &Net,
    number: usize,
    main: bool,
    cell: usize,
    traps: usize,
    p: &Statement,
    q: &Statement,
    pauses: &PauseSet,
    next: &mut PauseSet,
)
    requires first_extents { HasExtents net.now.extents.items (number + 1) traps p.now }
    requires second_extents { HasExtents net.now.extents.items (number + 1 + statements p.now) traps
        q.now }
    requires within { cell + traps + 3 + sheet_size main p.now traps + sheet_size main q.now traps
        ≤ length net.now.cells.items }
    ensures present { (t a b : _) → CollectsIn (Present' t a p.now b q.now) main cell traps
        net.now.cells.items pauses.now next.old next.new }
    ensures seq { (a b : _) → CollectsIn (Seq' a p.now b q.now) main cell traps
        net.now.cells.items pauses.now next.old next.new }
    ensures par { (a b : _) → CollectsIn (Par' a p.now b q.now) main cell traps
        net.now.cells.items pauses.now next.old next.new }
{
    let first = StatementPlace {
        number: number + 1,
        main,
        direction: Direction::Forwards,
        cell: cell + traps + 3,
        traps,
    };
    let second = number_after(net, &first, p);
    let past = past(net, &first, p);
    collect_pauses(net, first.number, main, first.cell, traps, p, pauses, next);
    collect_pauses(net, second, main, past, traps, q, pauses, next)
}

/// Puts the pauses of a suspended statement into `next`: where the suspension alone pauses, those
/// that it had.
#[cycle(collect_pauses)]
#[inline(always)]
fn collect_pauses_of_suspend(
    net: &Net,
    number: usize,
    main: bool,
    cell: usize,
    traps: usize,
    p: &Statement,
    pauses: &PauseSet,
    next: &mut PauseSet,
)
    requires extents { HasExtents net.now.extents.items (number + 1) traps p.now }
    requires within { cell + traps + 3 + sheet_size main p.now traps
        ≤ length net.now.cells.items }
    ensures { (t a : _) → CollectsIn (Suspend' t a p.now) main cell traps
        net.now.cells.items pauses.now next.old next.new }
{
    let body = cell + traps + 3;
    if gives_pause(net, body, traps) {
        collect_pauses(net, number + 1, main, body, traps, p, pauses, next)
    } else {
        keep_pauses(true, p, pauses, next)
    }
}

/// Puts the pauses of a loop's body into `next`, and those of its restart.
#[cycle(collect_pauses)]
#[inline(always)]
fn collect_pauses_of_loop(
    net: &Net,
    number: usize,
    main: bool,
    cell: usize,
    traps: usize,
    p: &Statement,
    pauses: &PauseSet,
    next: &mut PauseSet,
)
    requires main { main ≡ true }
    requires extents { HasExtents net.now.extents.items (number + 1) traps p.now }
    requires within { cell + traps + 3 + sheet_size true p.now traps
        + sheet_size false p.now traps
        ≤ length net.now.cells.items }
    ensures { (a : _) → CollectsIn (Loop' a p.now) main cell traps
        net.now.cells.items pauses.now next.old next.new }
{
    let body = StatementPlace {
        number: number + 1,
        main,
        direction: Direction::Forwards,
        cell: cell + traps + 3,
        traps,
    };
    let past = past(net, &body, p);
    collect_pauses(net, body.number, main, body.cell, traps, p, pauses, next);
    collect_pauses(net, body.number, false, past, traps, p, pauses, next)
}

/// Puts the pauses of a statement that gives code 1 into `next`. Its place is handed on by value,
/// so that the last call in each arm needs no frame of its own.
#[cycle(collect_pauses)]
fn collect_pauses_inside(
    net: &Net,
    number: usize,
    main: bool,
    cell: usize,
    traps: usize,
    s: &Statement,
    pauses: &PauseSet,
    next: &mut PauseSet,
)
    requires extents { HasExtents net.now.extents.items number traps s.now }
    requires within { cell + sheet_size main s.now traps ≤ length net.now.cells.items }
    ensures { CollectsIn s.now main cell traps net.now.cells.items pauses.now next.old next.new }
{
    match s {
        Statement::Nothing => {}
        Statement::Emit(_) => {}
        Statement::Exit(_) => {}
        Statement::Pause(n) => put_pause(next, *n, true),
        Statement::Present(_, p, q) => {
            collect_pauses_of_two(net, number, main, cell, traps, p, q, pauses, next)
        }
        Statement::Seq(p, q) => {
            collect_pauses_of_two(net, number, main, cell, traps, p, q, pauses, next)
        }
        Statement::Par(p, q) => {
            collect_pauses_of_two(net, number, main, cell, traps, p, q, pauses, next)
        }
        Statement::Suspend(_, p) => {
            collect_pauses_of_suspend(net, number, main, cell, traps, p, pauses, next)
        }
        Statement::Loop(p) => {
            if main {
                collect_pauses_of_loop(net, number, main, cell, traps, p, pauses, next)
            } else {
                let inside = cell + traps + 3;
                collect_pauses(net, number + 1, main, inside, traps, p, pauses, next)
            }
        }
        Statement::Trap(p) => {
            let body = cell + traps + 3;
            collect_pauses(net, number + 1, main, body, traps + 1, p, pauses, next)
        }
        Statement::Local(_, p) => {
            let status = cell + traps + 3;
            collect_pauses(net, number + 1, main, status + 1, traps, p, pauses, next)
        }
    }
}

/// Puts the pauses at which a statement stands into `next`: none if it does not give code 1. It has
/// this number, is of the incarnation that can go on if `main` says so, and its cells begin here,
/// inside this many traps.
#[cycle(collect_pauses)]
#[inline(always)]
pub fn collect_pauses(
    net: &Net,
    number: usize,
    main: bool,
    cell: usize,
    traps: usize,
    s: &Statement,
    pauses: &PauseSet,
    next: &mut PauseSet,
)
    requires extents { HasExtents net.now.extents.items number traps s.now }
    requires within { cell + sheet_size main s.now traps ≤ length net.now.cells.items }
    ensures { Collects s.now main cell traps net.now.cells.items pauses.now next.old next.new }
{
    if gives_pause(net, cell, traps) {
        collect_pauses_inside(net, number, main, cell, traps, s, pauses, next)
    }
}
