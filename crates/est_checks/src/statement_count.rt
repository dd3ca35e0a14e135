//! How many statements a linked module has before reduction, worked out before any `run` is
//! replaced: chains of runs that double the number at each step cost no more than their texts, and
//! no number goes past the limit plus one.
//!
//! The functions call each other at most four times for each unit that is open around a place, and
//! at most 128 units are open. A `run` is no call: its module was counted before.
ghost use Rattle.std.specs.Prelude.{◌≡◌, ℕ, ◌+◌, ◌<◌, ◌≤◌, List, Some, length, map, min, slice_get};
ghost use Rattle.std.specs.Prelude.{IfOk};
ghost use Rattle.est_syntax.specs.Views.{test_view, unit_view, branches_view};
ghost use Rattle.est_syntax.specs.Views.{sequence_view, statement_view};
ghost use Rattle.est_modules.specs.Derived.{unit_derived, branches_derived, sequence_derived};
ghost use Rattle.est_modules.specs.Derived.{statement_derived};
ghost use Rattle.est_modules.specs.Modules.{Program, program_of};
ghost use Rattle.est_checks.specs.Counting.{counted, IsCountOf};
ghost use Rattle.est_modules.specs.ModuleOrders.{IsOrderOf};
ghost use Rattle.est_modules.specs.Tests.{test_words};
ghost use Rattle.est_checks.specs.Inner.Numbers.{number_of, numbers_of, IsFilled};

use crate::word_count::test_words;
use est_kernel::limits::MOST_STATEMENTS;
use est_modules::library_modules::LibraryModules;
use est_order::place_order::Order;
use est_syntax::tree::{Branches, Sequence, Statement, Test, Unit};
use est_text::identifier::Identifier;
use std::alloc::{AllocError, Global};

/// One more than `MOST_STATEMENTS`, which bounds a linked module before reduction as it bounds a
/// kernel. Where a number would be larger, it is this one.
pub const TOO_MANY: u16 = MOST_STATEMENTS + 1;

/// The modules, and the numbers of statements of those that were counted, each at its module's
/// place.
#[derive(Clone, Copy)]
struct Numbers<'a, 'b> {
    modules: &'a LibraryModules<'b>,
    numbers: &'a [u16],
}

/// The number of statements that the linked module `main` has before reduction, or `None` if it
/// has more than `MOST_STATEMENTS`. A module that isn't there counts as 0 statements.
///
/// # Errors
/// Memory was refused.
pub fn count_statements(
    alloc: Global,
    modules: &LibraryModules<'_>,
    order: &Order,
    main: &Identifier,
) -> Result<Option<u16>, AllocError>
    requires { IsOrderOf (map program_of modules.now) order.now }
    ensures { IfOk result (λ answer. IsCountOf (map program_of modules.now) main.now answer) }
{
    let numbers = count_modules(alloc, modules, order.places())?;
    let number = number_of_module(
        &Numbers {
            modules: &*modules,
            numbers: &numbers,
        },
        main,
    );
    if number <= MOST_STATEMENTS {
        Ok(Some(number))
    } else {
        Ok(None)
    }
}

/// The numbers of all modules, each worked out after those of the modules that it runs.
fn count_modules(
    alloc: Global,
    modules: &LibraryModules<'_>,
    order: &[usize],
) -> Result<Vec<u16>, AllocError>
    requires { IsOrderOf (map program_of modules.now) order.now }
    ensures { IfOk result (λ numbers. IsFilled (map program_of modules.now) order.now
        numbers.items) }
{
    let mut numbers = vec![in alloc; 0; modules.as_slice().len()]?;
    for place in order {
        let number = count_body(&*modules, &numbers, *place);
        numbers[*place] = number;
    }
    Ok(numbers)
}

/// The number of the module at a place.
fn count_body<'a>(modules: &'a LibraryModules<'_>, numbers: &'a [u16], place: usize) -> u16
    requires { place < length modules.now }
    ensures { (p : Program) → slice_get (map program_of modules.now) place ≡ Some p
        → result ≡ min TOO_MANY (counted (number_of (map program_of modules.now) numbers.now)
        p.body) }
{
    let home = &modules.as_slice()[place];
    count_statement(&Numbers { modules, numbers }, home.body)
}

/// A sum, cut.
pub fn sum(first: u16, second: u16) -> u16
    requires first { first ≤ TOO_MANY }
    requires second { second ≤ TOO_MANY }
    ensures { result ≡ min TOO_MANY (first + second) }
{
    (first + second).min(TOO_MANY)
}

/// The number of a module that was counted before.
#[tactic(auto, using(est_modules::proofs::Ordering::place_found))]
fn number_of_module(numbers: &Numbers<'_, '_>, name: &Identifier) -> u16
    ensures { result ≡ min TOO_MANY (numbers_of numbers.now name.now) }
{
    match numbers.modules.place(name) {
        Some(place) => match numbers.numbers.get(place) {
            Some(number) => (*number).min(TOO_MANY),
            None => 0,
        },
        None => 0,
    }
}

/// The statements of a unit.
#[cycle(count)]
#[tactic(auto, using(crate::proofs::Sums::capped))]
fn count_unit(numbers: &Numbers<'_, '_>, unit: &Unit) -> u16
    ensures { result ≡ min TOO_MANY (counted (numbers_of numbers.now)
        (unit_derived (unit_view unit.now))) }
{
    match unit {
        Unit::Await(delay) => sum(test_words(&delay.test), 1),
        Unit::Present(test, branches) => count_test(numbers, test, branches),
        Unit::Suspend(body, delay, _)
        | Unit::Abort(body, delay, _)
        | Unit::WeakAbort(body, delay, _)
        | Unit::Every(delay, body, _) => count_watched(numbers, &delay.test, body),
        Unit::LoopEach(body, test) => count_watched(numbers, test, body),
        Unit::Loop(body, _) | Unit::Trap(_, body, _) | Unit::Signal(_, body, _) => {
            sum(count_statement(numbers, body), 1)
        }
        Unit::Run(name, _) => number_of_module(numbers, name),
        Unit::Group(body) => count_statement(numbers, body),
        _ => 1,
    }
}

/// The statements of a unit with a body and a test.
#[cycle(count)]
#[tactic(auto, using(crate::proofs::Sums::capped))]
fn count_watched(numbers: &Numbers<'_, '_>, test: &Test, body: &Statement) -> u16
    ensures { result ≡ min TOO_MANY (test_words (test_view test.now) + counted
        (numbers_of numbers.now) (statement_derived (statement_view body.now)) + 1) }
{
    sum(sum(test_words(test), count_statement(numbers, body)), 1)
}

/// The statements of a `present`, with its test and its branches.
#[cycle(count)]
#[tactic(auto, using(crate::proofs::Sums::capped))]
fn count_test(numbers: &Numbers<'_, '_>, test: &Test, branches: &Branches) -> u16
    ensures { result ≡ min TOO_MANY (counted (numbers_of numbers.now)
        (branches_derived (test_view test.now) (branches_view branches.now))) }
{
    let words = test_words(test);
    match branches {
        Branches::Then(body, _) | Branches::Else(body, _) => {
            sum(sum(words, count_statement(numbers, body)), 1)
        }
        Branches::Both(body, other, _) => {
            let both = sum(
                count_statement(numbers, body),
                count_statement(numbers, other),
            );
            sum(sum(words, both), 1)
        }
    }
}

/// The statements of a sequence, each `;` one.
#[cycle(count)]
#[tactic(auto, using(crate::proofs::Sums::capped))]
fn count_sequence(numbers: &Numbers<'_, '_>, sequence: &Sequence) -> u16
    ensures { result ≡ min TOO_MANY (counted (numbers_of numbers.now)
        (sequence_derived (sequence_view sequence.now))) }
{
    let mut count = count_unit(numbers, &sequence.first);
    for unit in &sequence.later {
        count = sum(sum(count, count_unit(numbers, unit)), 1);
    }
    count
}

/// The statements of sequences side by side, each `||` one.
#[cycle(count)]
#[tactic(auto, using(crate::proofs::Sums::capped))]
fn count_statement(numbers: &Numbers<'_, '_>, statement: &Statement) -> u16
    ensures { result ≡ min TOO_MANY (counted (numbers_of numbers.now)
        (statement_derived (statement_view statement.now))) }
{
    let mut count = count_sequence(numbers, &statement.first);
    for sequence in &statement.later {
        count = sum(sum(count, count_sequence(numbers, sequence)), 1);
    }
    count
}
