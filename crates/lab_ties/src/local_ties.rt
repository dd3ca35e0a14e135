//! What waits for local signals that are not decided, and what may still emit them.
//!
//! What calls itself here does so on a part of the statement that it was given, and goes as deep as
//! the statement is.

ghost use Rattle.std.specs.Prelude.{◌≡◌, ◌<◌, ◌≤◌, ◌+◌, ◌++◌, false, length, IfOk};
ghost use Rattle.est_kernel.specs.declared.statement.Statement.TheVariants.{Local' as Binder'};
ghost use Rattle.est_cells.specs.Tables.{sheet_size};
ghost use Rattle.est_net.specs.Cells.{cell_at};
ghost use Rattle.lab_ties.specs.Ties.{AreTiedLocals, AreTiedLocalsAgain, AreTiedLocalsBoth};
ghost use Rattle.lab_ties.specs.Ties.{own_ties};

use crate::place::{IncarnationPlace, NextPlace, TwoPlaces};
use crate::tie::{OpenSignal, Tie};
use crate::ties::{Wanted, add_ties, is_open};
use est_kernel::statement::{LocalSignal, Signal, Statement};
use est_net::net::Net;
use lab_instant::seen::Incarnation;
use std::alloc::AllocError;

/// Adds the ties of two parts, the second after the first.
#[cycle(locals)]
fn tie_locals_of_two(
    net: &Net,
    first: IncarnationPlace,
    p: &Statement,
    q: &Statement,
    found: &mut Vec<Tie>,
) -> Result<TwoPlaces, AllocError>
    requires statement { first.at.statement ≤ first.cell }
    requires number { first.at.number ≤ first.cell }
    requires within { first.cell + sheet_size first.main p.now first.traps
        + sheet_size first.main q.now first.traps ≤ length net.now.cells.items }
    ensures { IfOk result (AreTiedLocalsBoth p.now q.now first net.now.cells.items
        found.old.items found.new.items) }
{
    let next = tie_locals(net, first, p, found)?;
    let second = IncarnationPlace {
        at: Incarnation {
            statement: next.statement,
            number: first.at.number,
        },
        cell: next.cell,
        main: first.main,
        traps: first.traps,
    };
    let end = tie_locals(net, second, q, found)?;
    Ok(TwoPlaces {
        second: next.cell,
        after: end,
    })
}

/// Adds the ties of the body of a loop that can go on, and of the body as the restart begins it.
#[cycle(locals)]
fn tie_locals_of_loop(
    net: &Net,
    body: IncarnationPlace,
    p: &Statement,
    found: &mut Vec<Tie>,
) -> Result<NextPlace, AllocError>
    requires statement { body.at.statement ≤ body.cell }
    requires number { body.at.number ≤ body.cell }
    requires within { body.cell + sheet_size body.main p.now body.traps
        + sheet_size false p.now body.traps ≤ length net.now.cells.items }
    ensures { IfOk result (AreTiedLocalsAgain p.now body net.now.cells.items found.old.items
        found.new.items) }
{
    let next = tie_locals(net, body, p, found)?;
    let again = IncarnationPlace {
        at: Incarnation {
            statement: body.at.statement,
            number: 1,
        },
        cell: next.cell,
        main: false,
        traps: body.traps,
    };
    let end = tie_locals(net, again, p, found)?;
    Ok(end)
}

/// Adds the ties of the signal that a statement declares, if it is not decided.
fn tie_own(
    net: &Net,
    declared: Incarnation,
    cell: usize,
    body: IncarnationPlace,
    name: LocalSignal,
    p: &Statement,
    found: &mut Vec<Tie>,
) -> Result<(), AllocError>
    requires own { cell < length net.now.cells.items }
    requires statement { body.at.statement ≤ body.cell }
    requires number { body.at.number ≤ body.cell }
    requires within { body.cell + sheet_size body.main p.now body.traps
        ≤ length net.now.cells.items }
    ensures { IfOk result (λ _. found.new.items ≡ found.old.items
        ++ own_ties name.index declared (cell_at net.now.cells.items cell) p.now body
        net.now.cells.items) }
{
    if is_open(net.status(cell)) {
        let wanted = Wanted {
            name: Signal::Local(name),
            signal: OpenSignal::Local(declared),
        };
        add_ties(net, wanted, body, p, found)?;
    }
    Ok(())
}

/// Adds the ties of the signal that a statement declares, if it is not decided, and those inside.
#[cycle(locals)]
fn tie_local(
    net: &Net,
    place: IncarnationPlace,
    name: LocalSignal,
    p: &Statement,
    found: &mut Vec<Tie>,
) -> Result<NextPlace, AllocError>
    requires statement { place.at.statement ≤ place.cell }
    requires number { place.at.number ≤ place.cell }
    requires within { place.cell + place.traps + 4 + sheet_size place.main p.now place.traps
        ≤ length net.now.cells.items }
    ensures { IfOk result (λ after. (a : _) → AreTiedLocals (Binder' name a p.now)
        place net.now.cells.items found.old.items found.new.items after) }
{
    let body = IncarnationPlace {
        at: Incarnation {
            statement: place.at.statement + 1,
            number: place.at.number,
        },
        cell: place.cell + place.traps + 4,
        main: place.main,
        traps: place.traps,
    };
    let own = place.cell + place.traps + 3;
    tie_own(net, place.at, own, body, name, p, found)?;
    let end = tie_locals(net, body, p, found)?;
    Ok(end)
}

/// Adds what is tied to the local signals of a statement that are not decided, or memory was
/// refused.
#[cycle(locals)]
pub fn tie_locals(
    net: &Net,
    place: IncarnationPlace,
    s: &Statement,
    found: &mut Vec<Tie>,
) -> Result<NextPlace, AllocError>
    requires statement { place.at.statement ≤ place.cell }
    requires number { place.at.number ≤ place.cell }
    requires within { place.cell + sheet_size place.main s.now place.traps
        ≤ length net.now.cells.items }
    ensures { IfOk result (AreTiedLocals s.now place net.now.cells.items found.old.items
        found.new.items) }
{
    let parts = IncarnationPlace {
        at: Incarnation {
            statement: place.at.statement + 1,
            number: place.at.number,
        },
        cell: place.cell + place.traps + 3,
        main: place.main,
        traps: place.traps,
    };
    let next = NextPlace {
        statement: parts.at.statement,
        cell: parts.cell,
    };
    let main = place.main;
    match s {
        Statement::Nothing => Ok(next),
        Statement::Pause(_) => Ok(next),
        Statement::Emit(_) => Ok(next),
        Statement::Exit(_) => Ok(next),
        Statement::Present(_, p, q) => {
            let branches = tie_locals_of_two(net, parts, p, q, found)?;
            Ok(branches.after)
        }
        Statement::Seq(p, q) => {
            let both = tie_locals_of_two(net, parts, p, q, found)?;
            Ok(both.after)
        }
        Statement::Par(p, q) => {
            let sides = tie_locals_of_two(net, parts, p, q, found)?;
            Ok(sides.after)
        }
        Statement::Suspend(_, p) => {
            let after_suspend = tie_locals(net, parts, p, found)?;
            Ok(after_suspend)
        }
        Statement::Loop(p) => {
            if main {
                let after_loop = tie_locals_of_loop(net, parts, p, found)?;
                Ok(after_loop)
            } else {
                let body = IncarnationPlace {
                    at: Incarnation {
                        statement: parts.at.statement,
                        number: place.at.number + 1,
                    },
                    ..parts
                };
                let after_body = tie_locals(net, body, p, found)?;
                Ok(after_body)
            }
        }
        Statement::Trap(p) => {
            let body = IncarnationPlace {
                traps: place.traps + 1,
                ..parts
            };
            let after_trap = tie_locals(net, body, p, found)?;
            Ok(after_trap)
        }
        Statement::Local(name, p) => {
            let after_local = tie_local(net, place, *name, p, found)?;
            Ok(after_local)
        }
    }
}
