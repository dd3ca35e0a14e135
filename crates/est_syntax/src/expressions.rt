//! From tokens to the tree of a test.
//!
//! The functions call one another in a cycle. Each `not` and each `(` takes one from `room`, and
//! lists are read by loops. So on any text the recursion ends, and goes no deeper than `room`.
ghost use Rattle.std.specs.Prelude.{◌∷◌, [], None, IfOk, IfErr};
ghost use Rattle.est_syntax.specs.Inner.Machine.{test as test_want, expression as expression_want};
ghost use Rattle.est_syntax.specs.Inner.Machine.{expression_tail, conjunction as conjunction_want};
ghost use Rattle.est_syntax.specs.Inner.Machine.{conjunction_tail, literal as literal_want};
ghost use Rattle.est_syntax.specs.Inner.Parsing.{FailsIn};
ghost use Rattle.est_syntax.specs.Inner.Parts.{IsLiteral, AreLaterLiterals, IsConjunction};
ghost use Rattle.est_syntax.specs.Inner.Parts.{AreLaterConjunctions, IsExpression, IsTest, IsDelay};
ghost use Rattle.est_syntax.specs.Inner.Parts.{delay_wants};

use crate::cursor::Cursor;
use crate::fault::ParserStop;
use crate::tree::{Conjunction, Delay, Expression, Literal, Test};
use est_text::keyword::Keyword;
use est_text::token::Symbol;
use std::alloc::Global;

/// One literal. `room` units may be opened in one another from here on.
#[cycle(parse)]
fn literal(alloc: Global, cursor: &mut Cursor, room: usize) -> Result<Literal, ParserStop>
    ensures ok { IfOk result (λ l. IsLiteral room l cursor.old cursor.new) }
    ensures err { IfErr result (λ e. FailsIn room None (literal_want ∷ []) cursor.old e) }
{
    let here = cursor.count();
    if cursor.take_keyword(Keyword::Not) {
        if room == 0 {
            return Err(ParserStop::TooDeep(here));
        }
        let inner = literal(alloc, cursor, room - 1)?;
        let inner = Box::new(alloc, inner)?;
        return Ok(Literal::Not(inner));
    }
    if cursor.take_symbol(Symbol::OpenParenthesis) {
        if room == 0 {
            return Err(ParserStop::TooDeep(here));
        }
        let inner = expression(alloc, cursor, room - 1)?;
        cursor.expect_symbol(Symbol::CloseParenthesis)?;
        return Ok(Literal::Group(inner));
    }
    let name = cursor.expect_name()?;
    Ok(Literal::Signal(name))
}

/// The further literals of a conjunction, each after an `and`.
#[cycle(parse)]
fn later_literals(
    alloc: Global,
    cursor: &mut Cursor,
    room: usize,
) -> Result<Vec<Literal>, ParserStop>
    ensures ok { IfOk result (λ ls. AreLaterLiterals room ls.items cursor.old cursor.new) }
    ensures err { IfErr result (λ e. FailsIn room None (conjunction_tail ∷ []) cursor.old e) }
{
    let mut literals = Vec::new(alloc);
    'literals: while cursor.take_keyword(Keyword::And) {
        let next = literal(alloc, cursor, room)?;
        literals.push(next)?;
    }
    Ok(literals)
}

/// Literals with `and` between them.
#[cycle(parse)]
fn conjunction(alloc: Global, cursor: &mut Cursor, room: usize) -> Result<Conjunction, ParserStop>
    ensures ok { IfOk result (λ c. IsConjunction room c cursor.old cursor.new) }
    ensures err { IfErr result (λ e. FailsIn room None (conjunction_want ∷ []) cursor.old e) }
{
    let first = literal(alloc, cursor, room)?;
    let later = later_literals(alloc, cursor, room)?;
    let first = Box::new(alloc, first)?;
    Ok(Conjunction { first, later })
}

/// The further conjunctions of an expression, each after an `or`.
#[cycle(parse)]
fn later_conjunctions(
    alloc: Global,
    cursor: &mut Cursor,
    room: usize,
) -> Result<Vec<Conjunction>, ParserStop>
    ensures ok { IfOk result (λ cs. AreLaterConjunctions room cs.items cursor.old cursor.new) }
    ensures err { IfErr result (λ e. FailsIn room None (expression_tail ∷ []) cursor.old e) }
{
    let mut conjunctions = Vec::new(alloc);
    'conjunctions: while cursor.take_keyword(Keyword::Or) {
        let next = conjunction(alloc, cursor, room)?;
        conjunctions.push(next)?;
    }
    Ok(conjunctions)
}

/// Conjunctions with `or` between them.
#[cycle(parse)]
fn expression(alloc: Global, cursor: &mut Cursor, room: usize) -> Result<Expression, ParserStop>
    ensures ok { IfOk result (λ e. IsExpression room e cursor.old cursor.new) }
    ensures err { IfErr result (λ e. FailsIn room None (expression_want ∷ []) cursor.old e) }
{
    let first = conjunction(alloc, cursor, room)?;
    let later = later_conjunctions(alloc, cursor, room)?;
    let first = Box::new(alloc, first)?;
    Ok(Expression { first, later })
}

/// What is asked. Its brackets open no unit.
pub fn test(alloc: Global, cursor: &mut Cursor, room: usize) -> Result<Test, ParserStop>
    ensures ok { IfOk result (λ t. IsTest room t cursor.old cursor.new) }
    ensures err { IfErr result (λ e. FailsIn room None (test_want ∷ []) cursor.old e) }
{
    if !cursor.take_symbol(Symbol::OpenBracket) {
        let asked = expression(alloc, cursor, room)?;
        return Ok(Test::Bare(asked));
    }
    let asked = expression(alloc, cursor, room)?;
    cursor.expect_symbol(Symbol::CloseBracket)?;
    Ok(Test::Bracketed(asked))
}

/// A test that is waited for.
pub fn delay(alloc: Global, cursor: &mut Cursor, room: usize) -> Result<Delay, ParserStop>
    ensures ok { IfOk result (λ d. IsDelay room d cursor.old cursor.new) }
    ensures err { IfErr result (λ e. FailsIn room None delay_wants cursor.old e) }
{
    let immediate = cursor.take_keyword(Keyword::Immediate);
    let test = test(alloc, cursor, room)?;
    Ok(Delay { immediate, test })
}
