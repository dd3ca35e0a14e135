//! The parts of units that hold no statement.
ghost use Rattle.std.specs.Prelude.{◌≡◌, ◌≤◌, ◌+◌, ◌∷◌, ◌++◌, [], List, length, suc, Some, None};
ghost use Rattle.std.specs.Prelude.{IfOk, IfErr, MatchOption, map};
ghost use Rattle.est_syntax.specs.Grammar.{unit_onto, unit_depth, statement_onto, statement_depth};
ghost use Rattle.est_syntax.specs.Views.{unit_view, statement_view};
ghost use Rattle.est_syntax.specs.Inner.Machine.{unit as unit_want};
ghost use Rattle.est_syntax.specs.Inner.Parsing.{Fails, FailsIn, NotMemory};
ghost use Rattle.est_syntax.specs.Inner.Frames.{IsPlain, frame_token, IsOpener, frame_wants};
ghost use Rattle.est_syntax.specs.Inner.Frames.{head_onto, head_wants, body_end, IsHead, IsTail};
ghost use Rattle.est_syntax.specs.Inner.Frames.{IsTailAlways};

use crate::closings::{end_again, end_pair, watched, weak_end};
use crate::cursor::Cursor;
use crate::expressions::{delay, test};
use crate::fault::ParserStop;
use crate::names::{names, renamings};
use crate::tree::{Delay, Names, Statement, Unit};
use est_text::identifier::Identifier;
use est_text::keyword::Keyword;
use est_text::token::{Symbol, Token};
use std::alloc::Global;

/// A unit without a body, after its first token, if that token begins one. `room` units may be
/// opened in its test.
pub fn plain_unit(
    alloc: Global,
    cursor: &mut Cursor,
    first: &Token,
    room: usize,
) -> Result<Option<Unit>, ParserStop>
    ensures ok { IfOk result (λ u. IsPlain room first.now u cursor.old cursor.new) }
    ensures err { IfErr result
        (λ e. FailsIn room None (unit_want ∷ []) (first.now ∷ cursor.old) e) }
{
    let Token::Keyword(word) = first else {
        return Ok(None);
    };
    match word {
        Keyword::Nothing => Ok(Some(Unit::Nothing)),
        Keyword::Pause => Ok(Some(Unit::Pause)),
        Keyword::Halt => Ok(Some(Unit::Halt)),
        Keyword::Emit => {
            let signal = cursor.expect_name()?;
            Ok(Some(Unit::Emit(signal)))
        }
        Keyword::Sustain => {
            let signal = cursor.expect_name()?;
            Ok(Some(Unit::Sustain(signal)))
        }
        Keyword::Exit => {
            let trap = cursor.expect_name()?;
            Ok(Some(Unit::Exit(trap)))
        }
        Keyword::Await => {
            let awaited = delay(alloc, cursor, room)?;
            Ok(Some(Unit::Await(awaited)))
        }
        Keyword::Run => {
            let module = cursor.expect_name()?;
            let renamings = renamings(alloc, cursor)?;
            Ok(Some(Unit::Run(module, renamings)))
        }
        _ => Ok(None),
    }
}

/// What is around one statement.
#[derive(Clone, Copy, PartialEq, Eq)]
pub enum Frame {
    Suspend,
    Abort,
    WeakAbort,
    Loop,
    Every,
    Trap,
    Signal,
    Group,
}

/// What begins a unit with a body: a `present`, or a frame.
#[derive(Clone, Copy, PartialEq, Eq)]
pub enum Opener {
    /// `present`: its test comes first, and then its branches.
    Test,
    /// The first token of a frame.
    Frame(Frame),
}

/// The opener that a token is, if it is one.
pub fn opener_of(first: &Token) -> Option<Opener>
    ensures { IsOpener first.now result }
{
    match first {
        Token::Keyword(Keyword::Present) => Some(Opener::Test),
        Token::Keyword(Keyword::Suspend) => Some(Opener::Frame(Frame::Suspend)),
        Token::Keyword(Keyword::Abort) => Some(Opener::Frame(Frame::Abort)),
        Token::Keyword(Keyword::Weak) => Some(Opener::Frame(Frame::WeakAbort)),
        Token::Keyword(Keyword::Loop) => Some(Opener::Frame(Frame::Loop)),
        Token::Keyword(Keyword::Every) => Some(Opener::Frame(Frame::Every)),
        Token::Keyword(Keyword::Trap) => Some(Opener::Frame(Frame::Trap)),
        Token::Keyword(Keyword::Signal) => Some(Opener::Frame(Frame::Signal)),
        Token::Symbol(Symbol::OpenBracket) => Some(Opener::Frame(Frame::Group)),
        _ => None,
    }
}

/// A frame, with what stands before its body.
#[derive(Drop)]
pub enum Head {
    Suspend,
    Abort,
    WeakAbort,
    Loop,
    Every(Delay),
    Trap(Identifier),
    Signal(Names),
    Group,
}

/// What stands before the body, after the frame's first token.
pub fn head_of(
    alloc: Global,
    cursor: &mut Cursor,
    frame: Frame,
    room: usize,
) -> Result<Head, ParserStop>
    ensures ok { IfOk result (λ h. IsHead room frame h cursor.old cursor.new) }
    ensures err { IfErr result (λ e. FailsIn (suc room) None (frame_wants frame) cursor.old e) }
{
    match frame {
        Frame::Suspend => Ok(Head::Suspend),
        Frame::Abort => Ok(Head::Abort),
        Frame::WeakAbort => {
            cursor.expect_keyword(Keyword::Abort)?;
            Ok(Head::WeakAbort)
        }
        Frame::Loop => Ok(Head::Loop),
        Frame::Every => {
            let awaited = delay(alloc, cursor, room)?;
            cursor.expect_keyword(Keyword::Do)?;
            Ok(Head::Every(awaited))
        }
        Frame::Trap => {
            let name = cursor.expect_name()?;
            cursor.expect_keyword(Keyword::In)?;
            Ok(Head::Trap(name))
        }
        Frame::Signal => {
            let names = names(alloc, cursor)?;
            cursor.expect_keyword(Keyword::In)?;
            Ok(Head::Signal(names))
        }
        Frame::Group => Ok(Head::Group),
    }
}

impl Head {
    /// Whether `end` may stand after the body.
    pub fn takes_end(&self) -> bool
        ensures { result ≡ body_end self.now }
    {
        match self {
            Head::Suspend | Head::Abort | Head::WeakAbort | Head::Group => false,
            Head::Loop | Head::Every(_) | Head::Trap(_) | Head::Signal(_) => true,
        }
    }
}

/// The end of a `suspend`.
fn suspended(
    alloc: Global,
    cursor: &mut Cursor,
    body: Statement,
    room: usize,
    ends: bool,
) -> Result<Unit, ParserStop>
    ensures ok { IfOk result
        (λ u. IsTail room (Some ends) (Head.Suspend) (statement_view body) u
        cursor.old cursor.new) }
    ensures err { IfErr result
        (λ e. FailsIn (suc room) (Some ends) (head_wants (Head.Suspend)) cursor.old e) }
{
    let watch = watched(alloc, cursor, room)?;
    let written = end_pair(cursor, Keyword::Suspend, ends)?;
    Ok(Unit::Suspend(body, watch, written))
}

/// The end of an `abort`.
fn aborted(
    alloc: Global,
    cursor: &mut Cursor,
    body: Statement,
    room: usize,
    ends: bool,
) -> Result<Unit, ParserStop>
    ensures ok { IfOk result
        (λ u. IsTail room (Some ends) (Head.Abort) (statement_view body) u cursor.old cursor.new) }
    ensures err { IfErr result
        (λ e. FailsIn (suc room) (Some ends) (head_wants (Head.Abort)) cursor.old e) }
{
    let watch = watched(alloc, cursor, room)?;
    let written = end_pair(cursor, Keyword::Abort, ends)?;
    Ok(Unit::Abort(body, watch, written))
}

/// The end of a `weak abort`.
fn weakly_aborted(
    alloc: Global,
    cursor: &mut Cursor,
    body: Statement,
    room: usize,
    ends: bool,
) -> Result<Unit, ParserStop>
    ensures ok { IfOk result
        (λ u. IsTail room (Some ends) (Head.WeakAbort)
        (statement_view body) u cursor.old cursor.new) }
    ensures err { IfErr result
        (λ e. FailsIn (suc room) (Some ends) (head_wants (Head.WeakAbort)) cursor.old e) }
{
    let watch = watched(alloc, cursor, room)?;
    let written = weak_end(cursor, ends)?;
    Ok(Unit::WeakAbort(body, watch, written))
}

/// The end of a loop.
fn looped(
    alloc: Global,
    cursor: &mut Cursor,
    body: Statement,
    room: usize,
) -> Result<Unit, ParserStop>
    ensures ok { IfOk result
        (λ u. IsTail room None (Head.Loop) (statement_view body) u cursor.old cursor.new) }
    ensures err { IfErr result
        (λ e. FailsIn (suc room) None (head_wants (Head.Loop)) cursor.old e) }
{
    if cursor.take_keyword(Keyword::Each) {
        let each = test(alloc, cursor, room)?;
        return Ok(Unit::LoopEach(body, each));
    }
    let again = end_again(cursor, Keyword::Loop)?;
    Ok(Unit::Loop(body, again))
}

/// The end of an `every`.
fn repeated(cursor: &mut Cursor, every: Delay, body: Statement) -> Result<Unit, ParserStop>
    ensures ok { IfOk result
        (λ u. IsTailAlways (Head.Every every) (statement_view body) u cursor.old cursor.new) }
    ensures err { IfErr result (λ e. Fails (head_wants (Head.Every every)) cursor.old e) }
    ensures memory { IfErr result NotMemory }
{
    let again = end_again(cursor, Keyword::Every)?;
    Ok(Unit::Every(every, body, again))
}

/// The end of a `trap`.
fn trapped(cursor: &mut Cursor, name: Identifier, body: Statement) -> Result<Unit, ParserStop>
    ensures ok { IfOk result
        (λ u. IsTailAlways (Head.Trap name) (statement_view body) u cursor.old cursor.new) }
    ensures err { IfErr result (λ e. Fails (head_wants (Head.Trap name)) cursor.old e) }
    ensures memory { IfErr result NotMemory }
{
    let again = end_again(cursor, Keyword::Trap)?;
    Ok(Unit::Trap(name, body, again))
}

/// The end of a `signal`.
fn local(cursor: &mut Cursor, names: Names, body: Statement) -> Result<Unit, ParserStop>
    ensures ok { IfOk result
        (λ u. IsTailAlways (Head.Signal names) (statement_view body) u cursor.old cursor.new) }
    ensures err { IfErr result (λ e. Fails (head_wants (Head.Signal names)) cursor.old e) }
    ensures memory { IfErr result NotMemory }
{
    let again = end_again(cursor, Keyword::Signal)?;
    Ok(Unit::Signal(names, body, again))
}

/// The end of a group.
fn grouped(cursor: &mut Cursor, body: Statement) -> Result<Unit, ParserStop>
    ensures ok { IfOk result
        (λ u. IsTailAlways (Head.Group) (statement_view body) u cursor.old cursor.new) }
    ensures err { IfErr result (λ e. Fails (head_wants (Head.Group)) cursor.old e) }
    ensures memory { IfErr result NotMemory }
{
    cursor.expect_symbol(Symbol::CloseBracket)?;
    Ok(Unit::Group(body))
}

/// What stands after the body of a frame. `room` units may be opened in its test.
pub fn tail(
    alloc: Global,
    cursor: &mut Cursor,
    head: Head,
    body: Statement,
    room: usize,
    ends: bool,
) -> Result<Unit, ParserStop>
    ensures ok { IfOk result
        (λ u. IsTail room (Some ends) head (statement_view body) u cursor.old cursor.new) }
    ensures err { IfErr result
        (λ e. FailsIn (suc room) (Some ends) (head_wants head) cursor.old e) }
{
    match head {
        Head::Suspend => suspended(alloc, cursor, body, room, ends),
        Head::Abort => aborted(alloc, cursor, body, room, ends),
        Head::WeakAbort => weakly_aborted(alloc, cursor, body, room, ends),
        Head::Loop => looped(alloc, cursor, body, room),
        Head::Every(every) => repeated(cursor, every, body),
        Head::Trap(name) => trapped(cursor, name, body),
        Head::Signal(names) => local(cursor, names, body),
        Head::Group => grouped(cursor, body),
    }
}
