//! The open body of a module, from its text and the bodies of the modules that it runs.
//!
//! The functions call each other at most five times for each unit that is open around a place, and
//! at most 128 units are open. A `run` is no call: the body of its module was made before.
ghost use Rattle.std.specs.Prelude.{◌≡◌, ◌∷◌, IfOk, length, map, option_map};
ghost use Rattle.est_syntax.specs.Views.{test_view, unit_view, branches_view, sequence_view};
ghost use Rattle.est_syntax.specs.Views.{statement_view, names_view, renaming_view};
ghost use Rattle.est_modules.specs.Derived.{unit_derived, branches_derived, sequence_derived};
ghost use Rattle.est_modules.specs.Derived.{statement_derived};
ghost use Rattle.est_link.specs.Inner.Scopes.{binders_of};
ghost use Rattle.est_modules.specs.Modules.{program_of, program_named};
ghost use Rattle.est_modules.specs.Occurrences.{signals};
ghost use Rattle.est_link.specs.Linking.{linked, interface_bound, interface_run, asked_at};
ghost use Rattle.est_link.specs.Linking.{body_in_run};
ghost use Rattle.est_link.specs.Linking.{emitted, locals_around, signal_at};
ghost use Rattle.est_link.specs.Inner.Tables.{bodies_of};
ghost use Rattle.est_link.specs.Inner.Joins.{joined_by};
ghost use Rattle.est_link.specs.Linking.{meant};
ghost use Rattle.est_link.specs.Inner.OpenBodies.{closed_of, meaning_of};
ghost use Rattle.est_link.specs.Inner.Watches.{watched};
ghost use Rattle.est_reduce.specs.Bodies.{nothing, present, signal, seq, par};
ghost use Rattle.est_reduce.specs.Views.{bound_name as name_view};
ghost use Rattle.est_reduce.specs.Views.{bound_query as query_view};

use crate::bindings::{Binding, locals_around, signal_at, trap_at};
use crate::bound_runs::bind_body;
use crate::bound_tests::bind_test;
use crate::local_names::LocalNames;
use crate::meaning::Meaning;
use crate::module_bodies::ModuleBodies;
use crate::open_body::OpenBody;
use crate::scope::NamedScope;
use crate::watch::Watch;
use est_modules::interface::Declared;
use est_modules::library_modules::{LibraryModule, LibraryModules};
use est_modules::renamings::RunRenamings;
use est_reduce::body::{BoundSignal, Wait};
use est_syntax::tree::{Branches, Delay, Names, Renaming, Sequence, Statement, Test, Unit};
use est_text::identifier::Identifier;
use std::alloc::{AllocError, Global};

/// The modules, the flat bodies of those that are run, and the module whose body is made flat.
#[derive(Clone, Copy)]
pub struct Linker<'a, 'b, 'c> {
    /// Where memory for the body is taken.
    pub alloc: Global,
    /// The modules.
    pub modules: &'a LibraryModules<'b>,
    /// The flat bodies.
    pub bodies: &'a ModuleBodies<'c>,
    /// The module.
    pub home: &'a LibraryModule<'b>,
}

/// The interface of the module that is run.
fn interface_run<'a>(modules: &'a LibraryModules<'_>, name: &Identifier) -> &'a [Declared]
    ensures { result.now ≡ interface_run (program_named (map program_of modules.now) name.now) }
{
    match modules.named(name) {
        Some(home) => home.interface.signals(),
        None => &[],
    }
}

/// The flat statement of a `run`: the body of its module, its interface names bound.
fn flatten_run<'b>(
    linker: &Linker<'_, 'b, '_>,
    scope: &NamedScope<'_, 'b>,
    name: &Identifier,
    renamings: &[Renaming],
) -> Result<OpenBody, AllocError>
    ensures { IfOk result (λ f. closed_of f ≡ body_in_run
        (interface_bound (program_of linker.now.home.now) (binders_of scope.now)
        (map renaming_view renamings.now)
        (interface_run (program_named (map program_of linker.now.modules.now) name.now)))
        (locals_around (binders_of scope.now)) (bodies_of linker.now.bodies.now name.now)) }
{
    let interface = interface_run(linker.modules, name);
    let renamings = RunRenamings::of(linker.alloc, renamings)?;
    let binding = Binding {
        alloc: linker.alloc,
        home: &*linker.home,
        scope: &*scope,
        locals: locals_around(scope)?,
        renamings: &renamings,
        interface,
    };
    match linker.bodies.named(name) {
        Some(body) => bind_body(&binding, body),
        None => Ok(OpenBody::Nothing),
    }
}

/// A place in the module whose body is made flat.
#[derive(Clone, Copy)]
pub struct LinkContext<'a, 'b, 'c> {
    /// The modules, and the module.
    pub linker: &'a Linker<'a, 'b, 'c>,
    /// The binders around the place.
    pub scope: &'a NamedScope<'a, 'b>,
}

/// The signal that a name means.
pub fn find_signal(
    place: &LinkContext<'_, '_, '_>,
    name: &Identifier,
) -> Result<Meaning, AllocError>
    ensures { IfOk result (λ m. meaning_of m ≡ meant (signal_at
        (program_of place.now.linker.now.home.now) (binders_of place.now.scope.now) name.now)) }
{
    signal_at(place.linker.home, place.scope, name)
}

/// The signal that the emission of a name means.
fn bind_emitted(
    place: &LinkContext<'_, '_, '_>,
    name: &Identifier,
) -> Result<BoundSignal, AllocError>
    ensures { IfOk result (λ n. name_view n ≡ emitted (signal_at
        (program_of place.now.linker.now.home.now) (binders_of place.now.scope.now) name.now)) }
{
    Ok(find_signal(place, name)?.signal)
}

/// What is waited for.
fn bind_wait(place: &LinkContext<'_, '_, '_>, delay: &Delay) -> Result<Wait, AllocError>
    ensures immediate { IfOk result (λ w. w.immediate ≡ delay.now.immediate) }
    ensures test { IfOk result (λ w. query_view w.test
        ≡ asked_at (program_of place.now.linker.now.home.now) (binders_of place.now.scope.now)
        (test_view delay.now.test)) }
{
    Ok(Wait {
        immediate: delay.immediate,
        test: bind_test(place, &delay.test)?,
    })
}

/// `nothing`, in a box.
fn box_nothing(alloc: Global) -> Result<Box<OpenBody>, AllocError>
    ensures { IfOk result (λ b. closed_of b.value ≡ nothing) }
{
    Ok(Box::new(alloc, OpenBody::Nothing)?)
}

/// The flat statement of a `present`, its branches being flat.
fn flatten_present(
    at: &LinkContext<'_, '_, '_>,
    test: &Test,
    first: Box<OpenBody>,
    second: Box<OpenBody>,
) -> Result<OpenBody, AllocError>
    ensures { IfOk result (λ f. closed_of f ≡ present
        (asked_at (program_of at.now.linker.now.home.now) (binders_of at.now.scope.now)
        (test_view test.now)) (closed_of first.value) (closed_of second.value)) }
{
    Ok(OpenBody::Present(bind_test(at, test)?, first, second))
}

/// The flat statement of a unit.
#[cycle(flat)]
fn flat_unit<'b>(at: &LinkContext<'_, 'b, '_>, unit: &'b Unit) -> Result<OpenBody, AllocError>
    ensures { IfOk result (λ f. closed_of f ≡ linked (map program_of at.now.linker.now.modules.now)
        (bodies_of at.now.linker.now.bodies.now) (program_of at.now.linker.now.home.now)
        (binders_of at.now.scope.now) (unit_derived (unit_view unit.now))) }
{
    match unit {
        Unit::Nothing => Ok(OpenBody::Nothing),
        Unit::Pause => Ok(OpenBody::Pause),
        Unit::Halt => Ok(OpenBody::Halt),
        Unit::Emit(name) => Ok(OpenBody::Emit(bind_emitted(at, name)?)),
        Unit::Sustain(name) => Ok(OpenBody::Sustain(bind_emitted(at, name)?)),
        Unit::Exit(name) => Ok(OpenBody::Exit(trap_at(at.scope, name)?)),
        Unit::Await(delay) => Ok(OpenBody::Await(bind_wait(at, delay)?)),
        Unit::Present(test, branches) => flat_test(at, test, branches),
        Unit::Suspend(p, delay, _) => flat_watched(at, Watch::Suspend, p, delay),
        Unit::Abort(p, delay, _) => flat_watched(at, Watch::Abort, p, delay),
        Unit::WeakAbort(p, delay, _) => flat_watched(at, Watch::WeakAbort, p, delay),
        Unit::Loop(p, _) => Ok(OpenBody::Loop(box_body(at, p)?)),
        Unit::LoopEach(p, test) => {
            let p = box_body(at, p)?;
            Ok(OpenBody::LoopEach(bind_test(at, test)?, p))
        }
        Unit::Every(delay, p, _) => flat_watched(at, Watch::Every, p, delay),
        Unit::Trap(name, p, _) => {
            let scope = NamedScope::Trap(*name, &*at.scope);
            Ok(OpenBody::Trap(box_inside(at, &scope, p)?))
        }
        Unit::Signal(names, p, _) => flat_signal(at, names, p),
        Unit::Run(name, renamings) => flatten_run(at.linker, at.scope, name, renamings),
        Unit::Group(p) => flat_statement(at, p),
    }
}

/// The flat statement of a `signal`.
#[cycle(flat)]
fn flat_signal<'b>(
    at: &LinkContext<'_, 'b, '_>,
    names: &'b Names,
    statement: &'b Statement,
) -> Result<OpenBody, AllocError>
    ensures { IfOk result (λ f. closed_of f ≡ signal (length (names.now.first ∷
        names.now.later.items)) (linked (map program_of at.now.linker.now.modules.now)
        (bodies_of at.now.linker.now.bodies.now) (program_of at.now.linker.now.home.now)
        (signals (names_view names.now) ∷ binders_of at.now.scope.now)
        (statement_derived (statement_view statement.now)))) }
{
    let names = LocalNames::of(at.linker.alloc, names)?;
    let count = names.count()?;
    let scope = NamedScope::Signals(names, &*at.scope);
    Ok(OpenBody::Signal(count, box_inside(at, &scope, statement)?))
}

/// The flat statement of a statement that waits for something while another runs.
#[cycle(flat)]
fn flat_watched<'b>(
    at: &LinkContext<'_, 'b, '_>,
    watch: Watch,
    statement: &'b Statement,
    delay: &Delay,
) -> Result<OpenBody, AllocError>
    ensures { IfOk result (λ f. closed_of f ≡ watched watch delay.now.immediate
        (asked_at (program_of at.now.linker.now.home.now) (binders_of at.now.scope.now)
        (test_view delay.now.test)) (linked (map program_of at.now.linker.now.modules.now)
        (bodies_of at.now.linker.now.bodies.now) (program_of at.now.linker.now.home.now)
        (binders_of at.now.scope.now) (statement_derived (statement_view statement.now)))) }
{
    let body = box_body(at, statement)?;
    Ok(OpenBody::Watched(watch, bind_wait(at, delay)?, body))
}

/// The flat statement of a `present`, with its branches.
#[cycle(flat)]
fn flat_test<'b>(
    at: &LinkContext<'_, 'b, '_>,
    test: &Test,
    branches: &'b Branches,
) -> Result<OpenBody, AllocError>
    ensures { IfOk result (λ f. closed_of f ≡ linked (map program_of at.now.linker.now.modules.now)
        (bodies_of at.now.linker.now.bodies.now) (program_of at.now.linker.now.home.now)
        (binders_of at.now.scope.now) (branches_derived (test_view test.now)
        (branches_view branches.now))) }
{
    match branches {
        Branches::Then(body, _) => {
            let first = box_body(at, body)?;
            flatten_present(at, test, first, box_nothing(at.linker.alloc)?)
        }
        Branches::Else(body, _) => {
            let second = box_body(at, body)?;
            flatten_present(at, test, box_nothing(at.linker.alloc)?, second)
        }
        Branches::Both(body, other, _) => {
            let first = box_body(at, body)?;
            flatten_present(at, test, first, box_body(at, other)?)
        }
    }
}

/// `p ; q`, or p where nothing follows.
fn then(alloc: Global, p: OpenBody, rest: Option<Box<OpenBody>>) -> Result<OpenBody, AllocError>
    ensures { IfOk result (λ f. closed_of f ≡ joined_by seq (closed_of p)
        (option_map (λ b. closed_of b.value) rest)) }
{
    match rest {
        None => Ok(p),
        Some(q) => Ok(OpenBody::Seq(Box::new(alloc, p)?, q)),
    }
}

/// `p || q`, or p where nothing stands beside it.
fn beside(alloc: Global, p: OpenBody, rest: Option<Box<OpenBody>>) -> Result<OpenBody, AllocError>
    ensures { IfOk result (λ f. closed_of f ≡ joined_by par (closed_of p)
        (option_map (λ b. closed_of b.value) rest)) }
{
    match rest {
        None => Ok(p),
        Some(q) => Ok(OpenBody::Par(Box::new(alloc, p)?, q)),
    }
}

/// The flat statement of a sequence.
#[cycle(flat)]
fn flat_sequence<'b>(
    at: &LinkContext<'_, 'b, '_>,
    sequence: &'b Sequence,
) -> Result<OpenBody, AllocError>
    ensures { IfOk result (λ f. closed_of f ≡ linked (map program_of at.now.linker.now.modules.now)
        (bodies_of at.now.linker.now.bodies.now) (program_of at.now.linker.now.home.now)
        (binders_of at.now.scope.now) (sequence_derived (sequence_view sequence.now))) }
{
    let units = sequence.later.as_slice();
    let mut rest = None;
    let mut left = units.len();
    while left > 0 {
        left -= 1;
        let flat = flat_unit(at, &units[left])?;
        rest = Some(Box::new(at.linker.alloc, then(at.linker.alloc, flat, rest)?)?);
    }
    let flat = flat_unit(at, &sequence.first)?;
    then(at.linker.alloc, flat, rest)
}

/// The flat statement of sequences side by side.
#[cycle(flat)]
pub fn flat_statement<'b>(
    at: &LinkContext<'_, 'b, '_>,
    statement: &'b Statement,
) -> Result<OpenBody, AllocError>
    ensures { IfOk result (λ f. closed_of f ≡ linked (map program_of at.now.linker.now.modules.now)
        (bodies_of at.now.linker.now.bodies.now) (program_of at.now.linker.now.home.now)
        (binders_of at.now.scope.now) (statement_derived (statement_view statement.now))) }
{
    let sequences = statement.later.as_slice();
    let mut rest = None;
    let mut left = sequences.len();
    while left > 0 {
        left -= 1;
        let flat = flat_sequence(at, &sequences[left])?;
        rest = Some(Box::new(at.linker.alloc, beside(at.linker.alloc, flat, rest)?)?);
    }
    let flat = flat_sequence(at, &statement.first)?;
    beside(at.linker.alloc, flat, rest)
}

/// The flat statement of sequences side by side, in a box.
#[cycle(flat)]
fn box_body<'b>(
    at: &LinkContext<'_, 'b, '_>,
    statement: &'b Statement,
) -> Result<Box<OpenBody>, AllocError>
    ensures { IfOk result (λ b. closed_of b.value ≡ linked (map program_of
        at.now.linker.now.modules.now) (bodies_of at.now.linker.now.bodies.now)
        (program_of at.now.linker.now.home.now) (binders_of at.now.scope.now)
        (statement_derived (statement_view statement.now))) }
{
    Ok(Box::new(at.linker.alloc, flat_statement(at, statement)?)?)
}

/// The flat statement of sequences side by side inside one binder more, in a box.
#[cycle(flat)]
fn box_inside<'b>(
    at: &LinkContext<'_, 'b, '_>,
    scope: &NamedScope<'_, 'b>,
    statement: &'b Statement,
) -> Result<Box<OpenBody>, AllocError>
    ensures { IfOk result (λ b. closed_of b.value ≡ linked (map program_of
        at.now.linker.now.modules.now) (bodies_of at.now.linker.now.bodies.now)
        (program_of at.now.linker.now.home.now) (binders_of scope.now)
        (statement_derived (statement_view statement.now))) }
{
    let inside = LinkContext {
        linker: &*at.linker,
        scope: &*scope,
    };
    box_body(&inside, statement)
}
