//! What waits for a signal that is not decided, and what may still emit it.
//!
//! What calls itself here does so on a part of the statement or of the test that it was given, and
//! goes as deep as they are.

ghost use Rattle.std.specs.Prelude.{◌≡◌, ◌≤◌, ◌+◌, ◌++◌, ◌&&◌, false, length, IfOk};
ghost use Rattle.est_kernel.specs.View.{joint_of, name_of, query_of};
ghost use Rattle.est_kernel.specs.declared.statement.Statement.TheVariants.{Present', Suspend'};
ghost use Rattle.est_cells.specs.Tables.{is_possible, is_sure, sheet_size};
ghost use Rattle.est_meaning.specs.Signals.{same_name};
ghost use Rattle.est_meaning.specs.Environments.{is_unknown};
ghost use Rattle.lab_ties.specs.Ties.{AreTied, AreTiedAgain, AreTiedBoth, is_in_doubt};
ghost use Rattle.lab_ties.specs.Ties.{is_unanswered, reads, reads_of_joint, tie_if};

use crate::place::{IncarnationPlace, NextPlace, TwoPlaces};
use crate::tie::{OpenSignal, Tie, TieKind};
use est_kernel::statement::{Operands, Signal, Statement, Test};
use est_meaning::status::Status;
use est_net::net::Net;
use lab_instant::seen::Incarnation;
use std::alloc::AllocError;

/// A signal that is looked for.
#[derive(Clone, Copy)]
pub struct Wanted {
    /// As statements and tests name it.
    pub name: Signal,
    /// Whose it is.
    pub signal: OpenSignal,
}

/// Whether two names are the same signal.
fn is_same(a: Signal, b: Signal) -> bool
    ensures { result ≡ same_name (name_of a) (name_of b) }
{
    match (a, b) {
        (Signal::Interface(a), Signal::Interface(b)) => a.index == b.index,
        (Signal::Local(a), Signal::Local(b)) => a.index == b.index,
        _ => false,
    }
}

/// Whether a test asks for the signal.
#[cycle(read)]
fn reads(name: Signal, test: &Test) -> bool
    ensures { result ≡ reads (name_of name) (query_of test.now) }
{
    match test {
        Test::Tick => false,
        Test::Status(s) => is_same(*s, name),
        Test::Not(t) => reads(name, t),
        Test::Joined(_, operands) => reads_of_joint(name, operands),
    }
}

/// Whether one of these tests asks for the signal.
#[cycle(read)]
fn reads_of_joint(name: Signal, operands: &Operands) -> bool
    ensures { result ≡ reads_of_joint (name_of name) (joint_of operands.now) }
{
    let first = reads(name, &operands.first);
    let mut found = first || reads(name, &operands.second);
    for test in &operands.later {
        found = found || reads(name, test);
    }
    found
}

/// Whether the test of a `present` is not answered, by the go cells of it and of its branches.
fn is_unanswered(go: Status, first: Status, second: Status) -> bool
    ensures { result ≡ is_unanswered go first second }
{
    match (go, first, second) {
        (Status::Absent, _, _) => false,
        (_, Status::Unknown, Status::Unknown) => true,
        _ => false,
    }
}

/// Whether the test of a `suspend` is not answered, by its go cell and that of its code 1.
fn is_in_doubt(go: Status, pauses: Status) -> bool
    ensures { result ≡ is_in_doubt go (is_sure pauses) (is_possible pauses) }
{
    match (go, pauses) {
        (Status::Absent, Status::Unknown) => true,
        _ => false,
    }
}

/// Whether a cell is open.
pub fn is_open(status: Status) -> bool
    ensures { result ≡ is_unknown status }
{
    match status {
        Status::Present | Status::Absent => false,
        Status::Unknown => true,
    }
}

/// Whether a test is open and asks for the signal.
fn is_asked(left_open: bool, name: Signal, test: &Test) -> bool
    ensures { result ≡ (left_open && reads (name_of name) (query_of test.now)) }
{
    left_open && reads(name, test)
}

/// Whether an emission with this go cell may still come, and is of the signal.
fn is_emission(go: Status, emitted: Signal, name: Signal) -> bool
    ensures { result ≡ (is_unknown go && same_name (name_of emitted) (name_of name)) }
{
    is_open(go) && is_same(emitted, name)
}

/// Adds a tie, if it is to be added.
fn add_if(
    is_tied: bool,
    wanted: Wanted,
    at: Incarnation,
    kind: TieKind,
    found: &mut Vec<Tie>,
) -> Result<(), AllocError>
    ensures { IfOk result (λ _. found.new.items
        ≡ found.old.items ++ tie_if is_tied wanted.signal at kind) }
{
    if is_tied {
        found.push(Tie {
            signal: wanted.signal,
            at,
            kind,
        })?;
    }
    Ok(())
}

/// Adds the ties of two parts, the second after the first.
#[cycle(add_ties)]
fn tie_two(
    net: &Net,
    wanted: Wanted,
    first: IncarnationPlace,
    p: &Statement,
    q: &Statement,
    found: &mut Vec<Tie>,
) -> Result<TwoPlaces, AllocError>
    requires statement { first.at.statement ≤ first.cell }
    requires number { first.at.number ≤ first.cell }
    requires within { first.cell + sheet_size first.main p.now first.traps
        + sheet_size first.main q.now first.traps ≤ length net.now.cells.items }
    ensures { IfOk result (AreTiedBoth wanted p.now q.now first net.now.cells.items
        found.old.items found.new.items) }
{
    let next = add_ties(net, wanted, first, p, found)?;
    let second = IncarnationPlace {
        at: Incarnation {
            statement: next.statement,
            number: first.at.number,
        },
        cell: next.cell,
        main: first.main,
        traps: first.traps,
    };
    let end = add_ties(net, wanted, second, q, found)?;
    Ok(TwoPlaces {
        second: next.cell,
        after: end,
    })
}

/// Adds the ties of a `present`.
#[cycle(add_ties)]
fn tie_present(
    net: &Net,
    wanted: Wanted,
    place: IncarnationPlace,
    test: &Test,
    p: &Statement,
    q: &Statement,
    found: &mut Vec<Tie>,
) -> Result<NextPlace, AllocError>
    requires statement { place.at.statement ≤ place.cell }
    requires number { place.at.number ≤ place.cell }
    requires within { place.cell + place.traps + 3 + sheet_size place.main p.now place.traps
        + sheet_size place.main q.now place.traps ≤ length net.now.cells.items }
    ensures { IfOk result (λ after. (a b : _) → AreTied wanted (Present' test.now a p.now b q.now)
        place net.now.cells.items found.old.items found.new.items after) }
{
    let first = IncarnationPlace {
        at: Incarnation {
            statement: place.at.statement + 1,
            number: place.at.number,
        },
        cell: place.cell + place.traps + 3,
        main: place.main,
        traps: place.traps,
    };
    let both = tie_two(net, wanted, first, p, q, found)?;
    let branch = net.status(first.cell);
    let other = net.status(both.second);
    let left_open = is_unanswered(net.status(place.cell), branch, other);
    let is_tied = is_asked(left_open, wanted.name, test);
    add_if(is_tied, wanted, place.at, TieKind::Waits, found)?;
    Ok(both.after)
}

/// Adds the ties of a `suspend`.
#[cycle(add_ties)]
fn tie_suspend(
    net: &Net,
    wanted: Wanted,
    place: IncarnationPlace,
    test: &Test,
    p: &Statement,
    found: &mut Vec<Tie>,
) -> Result<NextPlace, AllocError>
    requires statement { place.at.statement ≤ place.cell }
    requires number { place.at.number ≤ place.cell }
    requires within { place.cell + place.traps + 3 + sheet_size place.main p.now place.traps
        ≤ length net.now.cells.items }
    ensures { IfOk result (λ after. (a : _) → AreTied wanted (Suspend' test.now a p.now)
        place net.now.cells.items found.old.items found.new.items after) }
{
    let body = IncarnationPlace {
        at: Incarnation {
            statement: place.at.statement + 1,
            number: place.at.number,
        },
        cell: place.cell + place.traps + 3,
        main: place.main,
        traps: place.traps,
    };
    let end = add_ties(net, wanted, body, p, found)?;
    let pauses = net.status(place.cell + 2);
    let left_open = is_in_doubt(net.status(place.cell), pauses);
    let is_tied = is_asked(left_open, wanted.name, test);
    add_if(is_tied, wanted, place.at, TieKind::Waits, found)?;
    Ok(end)
}

/// Adds the ties of the body of a loop that can go on, and of the body as the restart begins it.
#[cycle(add_ties)]
fn tie_loop(
    net: &Net,
    wanted: Wanted,
    body: IncarnationPlace,
    p: &Statement,
    found: &mut Vec<Tie>,
) -> Result<NextPlace, AllocError>
    requires statement { body.at.statement ≤ body.cell }
    requires number { body.at.number ≤ body.cell }
    requires within { body.cell + sheet_size body.main p.now body.traps
        + sheet_size false p.now body.traps ≤ length net.now.cells.items }
    ensures { IfOk result (AreTiedAgain wanted p.now body net.now.cells.items
        found.old.items found.new.items) }
{
    let next = add_ties(net, wanted, body, p, found)?;
    let again = IncarnationPlace {
        at: Incarnation {
            statement: body.at.statement,
            number: 1,
        },
        cell: next.cell,
        main: false,
        traps: body.traps,
    };
    let end = add_ties(net, wanted, again, p, found)?;
    Ok(end)
}

/// Adds the ties of a statement, or memory was refused.
#[cycle(add_ties)]
pub fn add_ties(
    net: &Net,
    wanted: Wanted,
    place: IncarnationPlace,
    s: &Statement,
    found: &mut Vec<Tie>,
) -> Result<NextPlace, AllocError>
    requires statement { place.at.statement ≤ place.cell }
    requires number { place.at.number ≤ place.cell }
    requires within { place.cell + sheet_size place.main s.now place.traps
        ≤ length net.now.cells.items }
    ensures { IfOk result (AreTied wanted s.now place net.now.cells.items found.old.items
        found.new.items) }
{
    let parts = IncarnationPlace {
        at: Incarnation {
            statement: place.at.statement + 1,
            number: place.at.number,
        },
        cell: place.cell + place.traps + 3,
        main: place.main,
        traps: place.traps,
    };
    let next = NextPlace {
        statement: parts.at.statement,
        cell: parts.cell,
    };
    let main = place.main;
    match s {
        Statement::Nothing => Ok(next),
        Statement::Pause(_) => Ok(next),
        Statement::Exit(_) => Ok(next),
        Statement::Emit(signal) => {
            let is_tied = is_emission(net.status(place.cell), *signal, wanted.name);
            add_if(is_tied, wanted, place.at, TieKind::MayEmit, found)?;
            Ok(next)
        }
        Statement::Present(t, p, q) => {
            let after_present = tie_present(net, wanted, place, t, p, q, found)?;
            Ok(after_present)
        }
        Statement::Suspend(t, p) => {
            let after_suspend = tie_suspend(net, wanted, place, t, p, found)?;
            Ok(after_suspend)
        }
        Statement::Seq(p, q) => {
            let both = tie_two(net, wanted, parts, p, q, found)?;
            Ok(both.after)
        }
        Statement::Par(p, q) => {
            let sides = tie_two(net, wanted, parts, p, q, found)?;
            Ok(sides.after)
        }
        Statement::Loop(p) => {
            if main {
                let after_loop = tie_loop(net, wanted, parts, p, found)?;
                Ok(after_loop)
            } else {
                let body = IncarnationPlace {
                    at: Incarnation {
                        statement: parts.at.statement,
                        number: place.at.number + 1,
                    },
                    ..parts
                };
                let after_body = add_ties(net, wanted, body, p, found)?;
                Ok(after_body)
            }
        }
        Statement::Trap(p) => {
            let body = IncarnationPlace {
                traps: place.traps + 1,
                ..parts
            };
            let after_trap = add_ties(net, wanted, body, p, found)?;
            Ok(after_trap)
        }
        Statement::Local(_, p) => {
            let body = IncarnationPlace {
                cell: parts.cell + 1,
                ..parts
            };
            let after_local = add_ties(net, wanted, body, p, found)?;
            Ok(after_local)
        }
    }
}
