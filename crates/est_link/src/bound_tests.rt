//! What a test of a text asks, by what its names mean at its place.
//!
//! The functions call each other once for each `not` and three times for each parenthesis that is
//! open; both count among the 128 units that the reader lets be open at once.
ghost use Rattle.std.specs.Prelude.{◌≡◌, IfOk};
ghost use Rattle.est_syntax.specs.Views.{literal_view, conjunction_view, expression_view};
ghost use Rattle.est_syntax.specs.Views.{test_view};
ghost use Rattle.est_modules.specs.Modules.{program_of};
ghost use Rattle.est_link.specs.Inner.Scopes.{binders_of};
ghost use Rattle.est_reduce.specs.Views.{bound_query as query_view};
ghost use Rattle.est_link.specs.Asking.{literal_asked, conjunction_asked, expression_asked};
ghost use Rattle.est_link.specs.Linking.{asked_at, signal_at};

use crate::flatten::{LinkContext, find_signal};
use est_kernel::statement::Connective;
use est_reduce::body::BoundTest;
use est_syntax::tree::{Conjunction, Expression, Literal, Test};
use std::alloc::AllocError;

/// What a literal asks.
#[cycle(tests)]
fn find_literal(place: &LinkContext<'_, '_, '_>, literal: &Literal) -> Result<BoundTest, AllocError>
    ensures { IfOk result (λ t. query_view t ≡ literal_asked
        (signal_at (program_of place.now.linker.now.home.now) (binders_of place.now.scope.now))
        (literal_view literal.now)) }
{
    match literal {
        Literal::Signal(name) => Ok(find_signal(place, name)?.test()),
        Literal::Not(inner) => {
            BoundTest::negated(place.linker.alloc, find_literal(place, inner)?)
        }
        Literal::Group(inner) => find_expression(place, inner),
    }
}

/// What literals with `and` between them ask.
#[cycle(tests)]
fn find_conjunction(
    place: &LinkContext<'_, '_, '_>,
    conjunction: &Conjunction,
) -> Result<BoundTest, AllocError>
    ensures { IfOk result (λ t. query_view t ≡ conjunction_asked
        (signal_at (program_of place.now.linker.now.home.now) (binders_of place.now.scope.now))
        (conjunction_view conjunction.now)) }
{
    let Some((second, others)) = conjunction.later.split_first() else {
        return find_literal(place, &conjunction.first);
    };
    let mut later = Vec::new(place.linker.alloc);
    for literal in others {
        later.push(find_literal(place, literal)?)?;
    }
    let first = find_literal(place, &conjunction.first)?;
    let second = find_literal(place, second)?;
    BoundTest::joined(place.linker.alloc, Connective::And, first, second, later)
}

/// What an expression asks.
#[cycle(tests)]
fn find_expression(
    place: &LinkContext<'_, '_, '_>,
    expression: &Expression,
) -> Result<BoundTest, AllocError>
    ensures { IfOk result (λ t. query_view t ≡ expression_asked
        (signal_at (program_of place.now.linker.now.home.now) (binders_of place.now.scope.now))
        (expression_view expression.now)) }
{
    let Some((second, others)) = expression.later.split_first() else {
        return find_conjunction(place, &expression.first);
    };
    let mut later = Vec::new(place.linker.alloc);
    for conjunction in others {
        later.push(find_conjunction(place, conjunction)?)?;
    }
    let first = find_conjunction(place, &expression.first)?;
    let second = find_conjunction(place, second)?;
    BoundTest::joined(place.linker.alloc, Connective::Or, first, second, later)
}

/// What a test asks.
pub fn bind_test(place: &LinkContext<'_, '_, '_>, test: &Test) -> Result<BoundTest, AllocError>
    ensures { IfOk result (λ t. query_view t ≡ asked_at
        (program_of place.now.linker.now.home.now) (binders_of place.now.scope.now)
        (test_view test.now)) }
{
    match test {
        Test::Bare(asked) | Test::Bracketed(asked) => find_expression(place, asked),
    }
}
