//! How many `not`, `and` and `or` a test has: each is one statement. No number goes past the limit
//! plus one.
//!
//! The functions call each other once for each `not` and three times for each parenthesis that is
//! open; both count among the 128 units that the reader lets be open at once.
ghost use Rattle.std.specs.Prelude.{◌≡◌, min};
ghost use Rattle.est_syntax.specs.Views.{literal_view, conjunction_view, expression_view};
ghost use Rattle.est_syntax.specs.Views.{test_view};
ghost use Rattle.est_modules.specs.Tests.{literal_words, conjunction_words, expression_words};
ghost use Rattle.est_modules.specs.Tests.{test_words};
ghost use Rattle.est_checks.specs.declared.statement_count.TheConstants.{TOO_MANY};

use crate::statement_count::sum;
use est_syntax::tree::{Conjunction, Expression, Literal, Test};

/// The words of a literal.
#[cycle(words)]
#[tactic(auto, using(crate::proofs::Sums::capped))]
fn literal_words(literal: &Literal) -> u16
    ensures { result ≡ min TOO_MANY (literal_words (literal_view literal.now)) }
{
    match literal {
        Literal::Signal(_) => 0,
        Literal::Not(inner) => sum(literal_words(inner), 1),
        Literal::Group(inner) => expression_words(inner),
    }
}

/// The words of literals with `and` between them.
#[cycle(words)]
#[tactic(auto, using(crate::proofs::Sums::capped))]
fn conjunction_words(conjunction: &Conjunction) -> u16
    ensures { result ≡ min TOO_MANY (conjunction_words (conjunction_view conjunction.now)) }
{
    let mut count = literal_words(&conjunction.first);
    for literal in &conjunction.later {
        count = sum(sum(count, literal_words(literal)), 1);
    }
    count
}

/// The words of an expression.
#[cycle(words)]
#[tactic(auto, using(crate::proofs::Sums::capped))]
fn expression_words(expression: &Expression) -> u16
    ensures { result ≡ min TOO_MANY (expression_words (expression_view expression.now)) }
{
    let mut count = conjunction_words(&expression.first);
    for conjunction in &expression.later {
        count = sum(sum(count, conjunction_words(conjunction)), 1);
    }
    count
}

/// The words of a test.
pub fn test_words(test: &Test) -> u16
    ensures { result ≡ min TOO_MANY (test_words (test_view test.now)) }
{
    match test {
        Test::Bare(asked) | Test::Bracketed(asked) => expression_words(asked),
    }
}
