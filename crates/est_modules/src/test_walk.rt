//! The walk over a test, in the order of the text.
//!
//! The functions call each other once for each `not` and three times for each parenthesis that is
//! open around a name; both count among the 128 units that the reader lets be open at once.
ghost use Rattle.std.specs.Prelude.{◌≡◌, OnOk};
ghost use Rattle.est_syntax.specs.Views.{literal_view, conjunction_view, expression_view};
ghost use Rattle.est_syntax.specs.Views.{test_view};
ghost use Rattle.est_modules.specs.OpenNames.{IsOpen};
ghost use Rattle.est_modules.specs.Scopes.{binders_of};
ghost use Rattle.est_modules.specs.Tests.{literal_names, conjunction_names, expression_names};
ghost use Rattle.est_modules.specs.Inner.Walks.{past_names, past_test};

use crate::names::open::OpenNames;
use crate::scope::{Act, Scope};
use crate::visit::Visitor;
use est_syntax::tree::{Conjunction, Expression, Literal, Test};
use std::alloc::AllocError;

/// Visits the names of a literal.
#[cycle(tests)]
fn walk_literal<V: Visitor>(
    visitor: &V,
    seen: &mut V::Seen,
    kept: &OpenNames<'_, '_, '_>,
    scope: &Scope<'_>,
    literal: &Literal,
) -> Result<(), AllocError>
    requires { IsOpen (V.fits visitor.now) (binders_of scope.now) kept.now }
    ensures { OnOk result
        (V.state seen.new ≡ past_names (V.after visitor.now) (binders_of scope.now)
        (literal_names (literal_view literal.now)) (V.state seen.old)) }
{
    match literal {
        Literal::Signal(name) => visitor.visit(seen, kept, &Act::Tests(*name), scope),
        Literal::Not(inner) => walk_literal(visitor, seen, kept, scope, inner),
        Literal::Group(inner) => walk_expression(visitor, seen, kept, scope, inner),
    }
}

/// Visits the names of literals with `and` between them.
#[cycle(tests)]
fn walk_conjunction<V: Visitor>(
    visitor: &V,
    seen: &mut V::Seen,
    kept: &OpenNames<'_, '_, '_>,
    scope: &Scope<'_>,
    conjunction: &Conjunction,
) -> Result<(), AllocError>
    requires { IsOpen (V.fits visitor.now) (binders_of scope.now) kept.now }
    ensures { OnOk result
        (V.state seen.new ≡ past_names (V.after visitor.now) (binders_of scope.now)
        (conjunction_names (conjunction_view conjunction.now)) (V.state seen.old)) }
{
    walk_literal(visitor, seen, kept, scope, &conjunction.first)?;
    for literal in &conjunction.later {
        walk_literal(visitor, seen, kept, scope, literal)?;
    }
    Ok(())
}

/// Visits the names of an expression.
#[cycle(tests)]
fn walk_expression<V: Visitor>(
    visitor: &V,
    seen: &mut V::Seen,
    kept: &OpenNames<'_, '_, '_>,
    scope: &Scope<'_>,
    expression: &Expression,
) -> Result<(), AllocError>
    requires { IsOpen (V.fits visitor.now) (binders_of scope.now) kept.now }
    ensures { OnOk result
        (V.state seen.new ≡ past_names (V.after visitor.now) (binders_of scope.now)
        (expression_names (expression_view expression.now)) (V.state seen.old)) }
{
    walk_conjunction(visitor, seen, kept, scope, &expression.first)?;
    for conjunction in &expression.later {
        walk_conjunction(visitor, seen, kept, scope, conjunction)?;
    }
    Ok(())
}

/// Visits the names of a test.
pub fn walk_test<V: Visitor>(
    visitor: &V,
    seen: &mut V::Seen,
    kept: &OpenNames<'_, '_, '_>,
    scope: &Scope<'_>,
    test: &Test,
) -> Result<(), AllocError>
    requires { IsOpen (V.fits visitor.now) (binders_of scope.now) kept.now }
    ensures { OnOk result (V.state seen.new ≡ past_test (V.after visitor.now) (binders_of scope.now)
        (test_view test.now) (V.state seen.old)) }
{
    match test {
        Test::Bare(asked) | Test::Bracketed(asked) => {
            walk_expression(visitor, seen, kept, scope, asked)
        }
    }
}
