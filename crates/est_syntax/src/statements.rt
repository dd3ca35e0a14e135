//! From tokens to the tree of a statement.
//!
//! The functions call one another in a cycle. Each unit that holds a statement takes one from
//! `room`, which begins at `MOST_OPEN_UNITS`, and lists are read by loops. So on any text the
//! recursion ends, and goes no deeper than `room`.
ghost use Rattle.std.specs.Prelude.{◌∷◌, [], suc, None, Some, IfOk, IfErr};
ghost use Rattle.est_syntax.specs.Inner.Machine.{unit as unit_want, branches as branches_want};
ghost use Rattle.est_syntax.specs.Inner.Machine.{sequence as sequence_want, sequence_tail};
ghost use Rattle.est_syntax.specs.Inner.Machine.{statement as statement_want, statement_tail};
ghost use Rattle.est_syntax.specs.Inner.Parsing.{FailsIn, IsUnitStart};
ghost use Rattle.est_syntax.specs.Inner.Parts.{IsUnit, IsBranches, AreLaterUnits, IsSequence};
ghost use Rattle.est_syntax.specs.Inner.Parts.{AreLaterSequences, IsStatement};
ghost use Rattle.est_syntax.specs.Inner.Frames.{IsOpened, frame_wants, opener_wants};

use crate::closings::end_again;
use crate::cursor::Cursor;
use crate::expressions::test;
use crate::fault::ParserStop;
use crate::tree::{Branches, Sequence, Statement, Unit};
use crate::units::{Frame, Opener, head_of, opener_of, plain_unit, tail};
use est_text::keyword::Keyword;
use est_text::token::{Symbol, Token};
use std::alloc::Global;

/// One unit. `room` units may be opened in one another from here on; `ends` tells whether what is
/// around may go on with `end`.
#[cycle(parse)]
fn unit(alloc: Global, cursor: &mut Cursor, room: usize, ends: bool) -> Result<Unit, ParserStop>
    ensures ok { IfOk result (λ u. IsUnit room ends u cursor.old cursor.new) }
    ensures err { IfErr result (λ e. FailsIn room (Some ends) (unit_want ∷ []) cursor.old e) }
{
    let here = cursor.count();
    let Some(first) = cursor.next() else {
        return Err(ParserStop::Syntax(here));
    };
    if let Some(plain) = plain_unit(alloc, cursor, first, room)? {
        return Ok(plain);
    }
    let Some(opener) = opener_of(first) else {
        return Err(ParserStop::Syntax(here));
    };
    if room == 0 {
        return Err(ParserStop::TooDeep(here));
    }
    match opener {
        Opener::Test => tested(alloc, cursor, room - 1),
        Opener::Frame(frame) => framed(alloc, cursor, frame, room - 1, ends),
    }
}

/// A `present`, after its first word.
#[cycle(parse)]
fn tested(alloc: Global, cursor: &mut Cursor, room: usize) -> Result<Unit, ParserStop>
    ensures ok { IfOk result (λ u. IsOpened room None (Opener.Test) u cursor.old cursor.new) }
    ensures err { IfErr result
        (λ e. FailsIn (suc room) None (opener_wants Opener.Test) cursor.old e) }
{
    let asked = test(alloc, cursor, room)?;
    let chosen = branches(alloc, cursor, room)?;
    Ok(Unit::Present(asked, chosen))
}

/// A frame, after its first token.
#[cycle(parse)]
fn framed(
    alloc: Global,
    cursor: &mut Cursor,
    frame: Frame,
    room: usize,
    ends: bool,
) -> Result<Unit, ParserStop>
    ensures ok { IfOk result
        (λ u. IsOpened room (Some ends) (Opener.Frame frame) u cursor.old cursor.new) }
    ensures err { IfErr result
        (λ e. FailsIn (suc room) (Some ends) (frame_wants frame) cursor.old e) }
{
    let head = head_of(alloc, cursor, frame, room)?;
    let body = statement(alloc, cursor, room, head.takes_end())?;
    tail(alloc, cursor, head, body, room, ends)
}

/// The branches of a `present`, and its end.
#[cycle(parse)]
fn branches(alloc: Global, cursor: &mut Cursor, room: usize) -> Result<Branches, ParserStop>
    ensures ok { IfOk result (λ b. IsBranches room b cursor.old cursor.new) }
    ensures err { IfErr result (λ e. FailsIn room None (branches_want ∷ []) cursor.old e) }
{
    if !cursor.take_keyword(Keyword::Then) {
        cursor.expect_keyword(Keyword::Else)?;
        let other = statement(alloc, cursor, room, true)?;
        let again = end_again(cursor, Keyword::Present)?;
        return Ok(Branches::Else(other, again));
    }
    let body = statement(alloc, cursor, room, true)?;
    if !cursor.take_keyword(Keyword::Else) {
        let again = end_again(cursor, Keyword::Present)?;
        return Ok(Branches::Then(body, again));
    }
    let other = statement(alloc, cursor, room, true)?;
    let again = end_again(cursor, Keyword::Present)?;
    Ok(Branches::Both(body, other, again))
}

/// The further units, and whether a `;` closes them.
#[cycle(parse)]
fn later_units(
    alloc: Global,
    cursor: &mut Cursor,
    room: usize,
    ends: bool,
) -> Result<(Vec<Unit>, bool), ParserStop>
    ensures ok { IfOk result (λ p. AreLaterUnits room ends p.0.items p.1 cursor.old cursor.new) }
    ensures err { IfErr result (λ e. FailsIn room (Some ends) (sequence_tail ∷ []) cursor.old e) }
{
    let mut units = Vec::new(alloc);
    'units: while cursor.take_symbol(Symbol::Semicolon) {
        if !begins_unit(cursor) {
            return Ok((units, true));
        }
        let next = unit(alloc, cursor, room, ends)?;
        units.push(next)?;
    }
    Ok((units, false))
}

/// Whether a unit begins there.
fn begins_unit(cursor: &Cursor) -> bool
    ensures { IsUnitStart result cursor.now }
{
    let Some(first) = cursor.peek() else {
        return false;
    };
    match first {
        Token::Keyword(
            Keyword::Nothing
            | Keyword::Pause
            | Keyword::Halt
            | Keyword::Emit
            | Keyword::Sustain
            | Keyword::Exit
            | Keyword::Await
            | Keyword::Run,
        ) => true,
        _ => opener_of(first).is_some(),
    }
}

/// Units one after another.
#[cycle(parse)]
fn sequence(
    alloc: Global,
    cursor: &mut Cursor,
    room: usize,
    ends: bool,
) -> Result<Sequence, ParserStop>
    ensures ok { IfOk result (λ q. IsSequence room ends q cursor.old cursor.new) }
    ensures err { IfErr result (λ e. FailsIn room (Some ends) (sequence_want ∷ []) cursor.old e) }
{
    let first = unit(alloc, cursor, room, ends)?;
    let (later, closed) = later_units(alloc, cursor, room, ends)?;
    let first = Box::new(alloc, first)?;
    Ok(Sequence {
        first,
        later,
        closed,
    })
}

/// The further sequences.
#[cycle(parse)]
fn later_sequences(
    alloc: Global,
    cursor: &mut Cursor,
    room: usize,
    ends: bool,
) -> Result<Vec<Sequence>, ParserStop>
    ensures ok { IfOk result (λ qs. AreLaterSequences room ends qs.items cursor.old cursor.new) }
    ensures err { IfErr result (λ e. FailsIn room (Some ends) (statement_tail ∷ []) cursor.old e) }
{
    let mut sequences = Vec::new(alloc);
    'sequences: while cursor.take_symbol(Symbol::Parallel) {
        let next = sequence(alloc, cursor, room, ends)?;
        sequences.push(next)?;
    }
    Ok(sequences)
}

/// Sequences side by side.
#[cycle(parse)]
pub fn statement(
    alloc: Global,
    cursor: &mut Cursor,
    room: usize,
    ends: bool,
) -> Result<Statement, ParserStop>
    ensures ok { IfOk result (λ t. IsStatement room ends t cursor.old cursor.new) }
    ensures err { IfErr result (λ e. FailsIn room (Some ends) (statement_want ∷ []) cursor.old e) }
{
    let first = sequence(alloc, cursor, room, ends)?;
    let later = later_sequences(alloc, cursor, room, ends)?;
    let first = Box::new(alloc, first)?;
    Ok(Statement { first, later })
}
