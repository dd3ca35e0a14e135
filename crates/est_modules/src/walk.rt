//! The walk over the body of a module, in the order of the text.
//!
//! The functions call each other at most four times for each unit that is open around a place, and
//! the reader lets at most 128 be open at once (`est_syntax`, `MOST_OPEN_UNITS`). A `run` is no
//! call: the module that it runs is walked by itself.
ghost use Rattle.std.specs.Prelude.{◌≡◌, [], OnOk};
ghost use Rattle.std.specs.List.{fold};
ghost use Rattle.est_syntax.specs.Views.{test_view, unit_view, branches_view};
ghost use Rattle.est_syntax.specs.Views.{sequence_view, statement_view};
ghost use Rattle.est_modules.specs.Derived.{unit_derived, branches_derived, sequence_derived};
ghost use Rattle.est_modules.specs.Derived.{statement_derived};
ghost use Rattle.est_modules.specs.Occurrences.{occurrences};
ghost use Rattle.est_modules.specs.NameTables.{IsTable};
ghost use Rattle.est_modules.specs.OpenNames.{IsOpen};
ghost use Rattle.est_modules.specs.Scopes.{binders_of};
ghost use Rattle.est_modules.specs.Inner.Walks.{passed, passed_branches, past_test};

use crate::names::kept::KeptNames;
use crate::names::open::OpenNames;
use crate::names::table::NameTable;
use crate::scope::{Act, Scope};
use crate::test_walk::walk_test;
use crate::visit::Visitor;
use est_syntax::tree::{Branches, Sequence, Statement, Test, Unit};
use std::alloc::{AllocError, Global};

/// Visits the places of a unit.
#[cycle(walk)]
fn walk_unit<V: Visitor>(
    visitor: &V,
    seen: &mut V::Seen,
    kept: &OpenNames<'_, '_, '_>,
    scope: &Scope<'_>,
    unit: &Unit,
) -> Result<(), AllocError>
    requires { IsOpen (V.fits visitor.now) (binders_of scope.now) kept.now }
    ensures { OnOk result (V.state seen.new ≡ passed (V.after visitor.now) (binders_of scope.now)
        (unit_derived (unit_view unit.now)) (V.state seen.old)) }
{
    match unit {
        Unit::Nothing | Unit::Pause | Unit::Halt => Ok(()),
        Unit::Emit(signal) | Unit::Sustain(signal) => {
            visitor.visit(seen, kept, &Act::Emits(*signal), scope)
        }
        Unit::Exit(trap) => visitor.visit(seen, kept, &Act::Exits(*trap), scope),
        Unit::Await(delay) => walk_test(visitor, seen, kept, scope, &delay.test),
        Unit::Present(test, branches) => {
            walk_test(visitor, seen, kept, scope, test)?;
            walk_branches(visitor, seen, kept, scope, branches)
        }
        Unit::Suspend(body, delay, _)
        | Unit::Abort(body, delay, _)
        | Unit::WeakAbort(body, delay, _) => {
            walk_watched(visitor, seen, kept, scope, body, &delay.test)
        }
        Unit::Loop(body, _) | Unit::Group(body) => walk_statement(visitor, seen, kept, scope, body),
        Unit::LoopEach(body, test) => walk_watched(visitor, seen, kept, scope, body, test),
        Unit::Every(delay, body, _) => walk_delayed(visitor, seen, kept, scope, &delay.test, body),
        Unit::Trap(trap, body, _) => {
            let inside = Scope::Trap(*trap, &*scope);
            walk_statement(visitor, seen, kept, &inside, body)
        }
        Unit::Signal(names, body, _) => {
            visitor.visit(seen, kept, &Act::Binds(&*names), scope)?;
            let inside = kept.inside(&*names)?;
            walk_statement(
                visitor,
                seen,
                &inside,
                &Scope::Signals(&*names, &*scope),
                body,
            )
        }
        Unit::Run(module, renamings) => {
            visitor.visit(seen, kept, &Act::Runs(*module, &**renamings), scope)
        }
    }
}

/// Visits the places of a body, and then the test that it is watched by.
#[cycle(walk)]
fn walk_watched<V: Visitor>(
    visitor: &V,
    seen: &mut V::Seen,
    kept: &OpenNames<'_, '_, '_>,
    scope: &Scope<'_>,
    body: &Statement,
    test: &Test,
) -> Result<(), AllocError>
    requires { IsOpen (V.fits visitor.now) (binders_of scope.now) kept.now }
    ensures { OnOk result (V.state seen.new ≡ past_test (V.after visitor.now) (binders_of scope.now)
        (test_view test.now) (passed (V.after visitor.now) (binders_of scope.now)
        (statement_derived (statement_view body.now)) (V.state seen.old))) }
{
    walk_statement(visitor, seen, kept, scope, body)?;
    walk_test(visitor, seen, kept, scope, test)
}

/// Visits the test after which a body begins, and then the places of the body.
#[cycle(walk)]
fn walk_delayed<V: Visitor>(
    visitor: &V,
    seen: &mut V::Seen,
    kept: &OpenNames<'_, '_, '_>,
    scope: &Scope<'_>,
    test: &Test,
    body: &Statement,
) -> Result<(), AllocError>
    requires { IsOpen (V.fits visitor.now) (binders_of scope.now) kept.now }
    ensures { OnOk result (V.state seen.new ≡ passed (V.after visitor.now) (binders_of scope.now)
        (statement_derived (statement_view body.now)) (past_test (V.after visitor.now)
        (binders_of scope.now) (test_view test.now) (V.state seen.old))) }
{
    walk_test(visitor, seen, kept, scope, test)?;
    walk_statement(visitor, seen, kept, scope, body)
}

/// Visits the places of the branches of a `present`.
#[cycle(walk)]
fn walk_branches<V: Visitor>(
    visitor: &V,
    seen: &mut V::Seen,
    kept: &OpenNames<'_, '_, '_>,
    scope: &Scope<'_>,
    branches: &Branches,
) -> Result<(), AllocError>
    requires { IsOpen (V.fits visitor.now) (binders_of scope.now) kept.now }
    ensures { OnOk result (V.state seen.new ≡ passed_branches (V.after visitor.now) (binders_of
        scope.now) (branches_view branches.now) (V.state seen.old)) }
{
    match branches {
        Branches::Then(body, _) | Branches::Else(body, _) => walk_statement(
            visitor, seen, kept, scope, body,
        ),
        Branches::Both(first, second, _) => {
            walk_statement(visitor, seen, kept, scope, first)?;
            walk_statement(visitor, seen, kept, scope, second)
        }
    }
}

/// Visits the places of a sequence.
#[cycle(walk)]
fn walk_sequence<V: Visitor>(
    visitor: &V,
    seen: &mut V::Seen,
    kept: &OpenNames<'_, '_, '_>,
    scope: &Scope<'_>,
    sequence: &Sequence,
) -> Result<(), AllocError>
    requires { IsOpen (V.fits visitor.now) (binders_of scope.now) kept.now }
    ensures { OnOk result (V.state seen.new ≡ passed (V.after visitor.now) (binders_of scope.now)
        (sequence_derived (sequence_view sequence.now)) (V.state seen.old)) }
{
    walk_unit(visitor, seen, kept, scope, &sequence.first)?;
    for unit in &sequence.later {
        walk_unit(visitor, seen, kept, scope, unit)?;
    }
    Ok(())
}

/// Visits the places of a statement.
#[cycle(walk)]
fn walk_statement<V: Visitor>(
    visitor: &V,
    seen: &mut V::Seen,
    kept: &OpenNames<'_, '_, '_>,
    scope: &Scope<'_>,
    statement: &Statement,
) -> Result<(), AllocError>
    requires { IsOpen (V.fits visitor.now) (binders_of scope.now) kept.now }
    ensures { OnOk result (V.state seen.new ≡ passed (V.after visitor.now) (binders_of scope.now)
        (statement_derived (statement_view statement.now)) (V.state seen.old)) }
{
    walk_sequence(visitor, seen, kept, scope, &statement.first)?;
    for sequence in &statement.later {
        walk_sequence(visitor, seen, kept, scope, sequence)?;
    }
    Ok(())
}

/// Visits the places of the body of a module, in the order of the text. The kept names are given as
/// they are outermost, where none is hidden, and are followed into each `signal`.
///
/// # Errors
///
/// What a visit answers, or `AllocError` where memory is refused for the kept names.
#[tactic(auto, using(crate::proofs::Passing::passed_fold))]
pub fn walk_body<V: Visitor>(
    visitor: &V,
    seen: &mut V::Seen,
    alloc: Global,
    table: &NameTable<'_>,
    kept: &KeptNames<'_>,
    body: &Statement,
) -> Result<(), AllocError>
    requires fits { V.fits visitor.now table.now kept.now }
    requires table { IsTable table.now }
    ensures { OnOk result (V.state seen.new ≡ fold (V.after visitor.now) (V.state seen.old)
        (occurrences [] (statement_derived (statement_view body.now)))) }
{
    let open = OpenNames::outermost(alloc, table, kept);
    walk_statement(visitor, seen, &open, &Scope::Module, body)
}
