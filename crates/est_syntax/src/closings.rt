//! The ends of units.
ghost use Rattle.std.specs.Prelude.{◌≡◌, ◌∷◌, [], None, IfOk, IfErr};
ghost use Rattle.est_syntax.specs.Grammar.{weak_end_onto};
ghost use Rattle.est_syntax.specs.Views.{weak_end_view};
ghost use Rattle.est_syntax.specs.Inner.Machine.{may_end_weak};
ghost use Rattle.est_syntax.specs.Inner.Parts.{end_again_onto, end_again_wants, end_pair_onto};
ghost use Rattle.est_syntax.specs.Inner.Parts.{end_pair_wants, IsWhen, when_wants};
ghost use Rattle.est_syntax.specs.Inner.Parsing.{Fails, FailsIn, Reads, FailsBefore, ReadsBefore};
ghost use Rattle.est_syntax.specs.Inner.Parsing.{NotMemory};

use crate::cursor::Cursor;
use crate::expressions::delay;
use crate::fault::ParserStop;
use crate::tree::{Delay, WeakEnd};
use est_text::keyword::Keyword;
use std::alloc::Global;

/// `end`, and whether the keyword stands again after it.
pub fn end_again(cursor: &mut Cursor, keyword: Keyword) -> Result<bool, ParserStop>
    ensures spelt { IfOk result (λ again. cursor.old ≡ end_again_onto again keyword cursor.new) }
    ensures reads { IfOk result (λ _. Reads (end_again_wants keyword) cursor.old cursor.new) }
    ensures err { IfErr result (λ e. Fails (end_again_wants keyword) cursor.old e) }
    ensures memory { IfErr result NotMemory }
{
    cursor.expect_keyword(Keyword::End)?;
    Ok(cursor.take_keyword(keyword))
}

/// The test after the body of a unit.
pub fn watched(alloc: Global, cursor: &mut Cursor, room: usize) -> Result<Delay, ParserStop>
    ensures ok { IfOk result (λ d. IsWhen room d cursor.old cursor.new) }
    ensures err { IfErr result (λ e. FailsIn room None when_wants cursor.old e) }
{
    cursor.expect_keyword(Keyword::When)?;
    delay(alloc, cursor, room)
}

/// Reads `end` and the keyword, if both stand there. An `end` without the keyword belongs to what
/// is around the unit, if that can go on with it.
pub fn end_pair(cursor: &mut Cursor, keyword: Keyword, ends: bool) -> Result<bool, ParserStop>
    ensures spelt { IfOk result (λ written. cursor.old ≡ end_pair_onto written keyword cursor.new) }
    ensures reads { IfOk result
        (λ _. ReadsBefore ends (end_pair_wants keyword) cursor.old cursor.new) }
    ensures err { IfErr result (λ e. FailsBefore ends (end_pair_wants keyword) cursor.old e) }
    ensures memory { IfErr result NotMemory }
{
    let mut ahead = cursor.fork();
    if !ahead.take_keyword(Keyword::End) {
        return Ok(false);
    }
    let left = ahead.count();
    if ahead.take_keyword(keyword) {
        *cursor = ahead;
        return Ok(true);
    }
    if !ends || left == 0 {
        return Err(ParserStop::Syntax(left));
    }
    Ok(false)
}

/// How the `end` of a `weak abort` is written.
pub fn weak_end(cursor: &mut Cursor, ends: bool) -> Result<WeakEnd, ParserStop>
    ensures spelt { IfOk result (λ w. cursor.old ≡ weak_end_onto (weak_end_view w) cursor.new) }
    ensures reads { IfOk result (λ _. ReadsBefore ends (may_end_weak ∷ []) cursor.old cursor.new) }
    ensures err { IfErr result (λ e. FailsBefore ends (may_end_weak ∷ []) cursor.old e) }
    ensures memory { IfErr result NotMemory }
{
    let mut ahead = cursor.fork();
    if !ahead.take_keyword(Keyword::End) {
        return Ok(WeakEnd::LeftOut);
    }
    let left = ahead.count();
    if ahead.take_keyword(Keyword::Abort) {
        *cursor = ahead;
        return Ok(WeakEnd::EndAbort);
    }
    if ahead.take_keyword(Keyword::Weak) {
        ahead.expect_keyword(Keyword::Abort)?;
        *cursor = ahead;
        return Ok(WeakEnd::EndWeakAbort);
    }
    if !ends || left == 0 {
        return Err(ParserStop::Syntax(left));
    }
    Ok(WeakEnd::LeftOut)
}
