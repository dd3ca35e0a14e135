//! A connection to its end: each line is answered, over any reader and writer, by whatever answers
//! lines.
ghost use Rattle.std.specs.Prelude.{◌≡◌, ◌<◌, ◌⊎◌, ℕ, List, [], true, map, MatchResult, IfOk, OnOk};
ghost use Rattle.std.specs.Prelude.{OnErr, Ok, Err};
ghost use Rattle.std.specs.Cow.{cow_slice_items};
ghost use Rattle.std.specs.Io.KnownBytes.{prepend_known};
ghost use Rattle.wire_reader.specs.Meters.{IsStopped, has_failed};
ghost use Rattle.wire_reader.specs.Readers.{held_bytes, last_line, weight};
ghost use Rattle.wire_reader.specs.Inner.Turns.{IsSound, Turns, IsNextOf};
ghost use Rattle.wire_reader.specs.Serving.{BetweenLines, between, Exchange, Runs, KnownCuts};
ghost use Rattle.wire_reader.specs.Serving.{Serves};
ghost use Rattle.wire_reader.specs.Replies.{waiting_bytes};
ghost use Rattle.wire_reader.specs.Writing.{WritesUpTo, WritesFront};
ghost use Rattle.wire_reader.specs.declared.serving.EndReason.TheVariants as why;
ghost use Rattle.wire_reader.specs.declared.lines.Line.TheVariants as line;
ghost use Rattle.wire_reader.specs.declared.lines.LineFault.TheVariants as fault;

use crate::exchange::write_then_read_line;
use crate::lines::{Line, LineFault, LineReader};
use crate::meter::{MeteredMemory, MeteredReader, MeteredWriter};
use crate::replies::{ReplyBuffer, WriteFault};
use std::alloc::{AllocError, Global};
use std::borrow::CowSlice;
use std::io::{Read, Write};

/// The text of an answer: a constant, which takes no memory, or bytes that were made for it.
pub type AnswerText = CowSlice<'static, u8, Global>;

/// What answers the lines of a connection; for each it is lent a desk to ask.
pub trait Answerer<D> {
    /// Relates answerer and desk before, the line, the text of its answer, and both after.
    ghost tells: { (Self × D) → List ℕ → List ℕ → (Self × D) → Type 0 };

    /// The same where memory was refused for the text: answerer and desk before, the line, and both
    /// after.
    ghost fails: { (Self × D) → List ℕ → (Self × D) → Type 0 };

    /// The answer to a line, which comes without its LF.
    ///
    /// # Errors
    ///
    /// Where memory was refused for the text of the answer.
    fn answer(&mut self, alloc: Global, desk: &mut D, line: &[u8]) -> Result<AnswerText, AllocError>
        ensures { MatchResult result
            (λ text. tells (self.old, desk.old) line.now (cow_slice_items text)
            (self.new, desk.new))
            (λ _. fails (self.old, desk.old) line.now (self.new, desk.new)) };
}

/// Why a connection ended.
#[derive(Clone, Copy, PartialEq, Eq, Debug)]
pub enum EndReason {
    /// The reader is at its end, and each line was answered.
    Closed,
    /// A line was longer than 65,536 bytes.
    TooLong,
    /// The reader failed, or was read too often.
    ReadFault,
    /// The writer failed, or took nothing.
    WriteFault,
    /// Memory was refused.
    Memory,
}

/// The next line. What waits is written first if a read is needed for it. After a fault it may not
/// be asked for again; after the end of the bytes it may.
fn take_line<R: Read, W: Write>(
    lines: &mut LineReader,
    replies: &mut ReplyBuffer,
    reader: &mut MeteredReader<R>,
    writer: &mut MeteredWriter<W>,
) -> Result<Result<Line, LineFault>, WriteFault>
    requires { IsSound lines.old.ending (held_bytes lines.old) (R.remaining reader.old.device) }
    ensures next { IfOk result (λ answer.
        IsNextOf (prepend_known (held_bytes lines.old) (R.remaining reader.old.device)) answer
        (last_line lines.new)
        (prepend_known (held_bytes lines.new) (R.remaining reader.new.device))) }
    ensures sound { IfOk result (λ answer. answer ≡ Ok line.Whole →
        IsSound lines.new.ending (held_bytes lines.new) (R.remaining reader.new.device)) }
    ensures stopped { IfOk result (λ answer. answer ≡ Err fault.Read →
        IsStopped (has_failed reader.old.faults reader.new.faults) reader.new.left) }
    ensures unfailed_reader { IfOk result (λ answer.
        OnOk answer (reader.new.faults ≡ reader.old.faults)) }
    ensures less { IfOk result (λ answer. answer ≡ Ok line.Whole →
        weight reader.new.left lines.new < weight reader.old.left lines.old) }
    ensures writes { OnOk result (WritesUpTo (W.contents writer.old.device)
        (W.contents writer.new.device) (waiting_bytes replies.old) (waiting_bytes replies.new)) }
    ensures err { OnErr result (WritesFront (W.contents writer.old.device)
        (W.contents writer.new.device) (waiting_bytes replies.old)) }
    ensures unfailed { OnOk result (writer.new.faults ≡ writer.old.faults) }
    ensures failed { OnErr result (has_failed writer.old.faults writer.new.faults ≡ true) }
{
    write_then_read_line(lines, replies, reader, writer)
}

/// Answers the next line, or says why the connection ends.
fn answer_next<R: Read, W: Write, D, A: Answerer<D>>(
    alloc: Global,
    lines: &mut LineReader,
    replies: &mut ReplyBuffer,
    reader: &mut MeteredReader<R>,
    writer: &mut MeteredWriter<W>,
    answerer: &mut A,
    desk: &mut D,
    too_long_answer: &[u8],
) -> Result<(), EndReason>
    requires { IsSound lines.old.ending (held_bytes lines.old) (R.remaining reader.old.device) }
    ensures turns { Turns A.tells A.fails too_long_answer.now
        (between (prepend_known (held_bytes lines.old) (R.remaining reader.old.device))
        (answerer.old, desk.old))
        result
        (between (prepend_known (held_bytes lines.new) (R.remaining reader.new.device))
        (answerer.new, desk.new))
        (W.contents writer.old.device) (W.contents writer.new.device)
        (waiting_bytes replies.old) (waiting_bytes replies.new) }
    ensures sound { OnOk result
        (IsSound lines.new.ending (held_bytes lines.new) (R.remaining reader.new.device)) }
    ensures less { OnOk result
        (weight reader.new.left lines.new < weight reader.old.left lines.old) }
    ensures read_fault { result ≡ Err why.ReadFault →
        IsStopped (has_failed reader.old.faults reader.new.faults) reader.new.left }
    ensures write_fault { result ≡ Err why.WriteFault →
        has_failed writer.old.faults writer.new.faults ≡ true }
    ensures unfailed { OnOk result ((reader.new.faults ≡ reader.old.faults)
        × (writer.new.faults ≡ writer.old.faults)) }
    ensures unfailed_writer { (result ≡ Err why.WriteFault → ⊥) →
        writer.new.faults ≡ writer.old.faults }
{
    match take_line(lines, replies, reader, writer) {
        Ok(Ok(Line::Whole)) => {}
        Ok(Ok(Line::End)) => return Err(EndReason::Closed),
        Ok(Err(LineFault::Read)) => return Err(EndReason::ReadFault),
        Ok(Err(LineFault::TooLong)) => {
            let Ok(()) = replies.add(writer, too_long_answer) else {
                return Err(EndReason::WriteFault);
            };
            return Err(EndReason::TooLong);
        }
        Err(WriteFault) => return Err(EndReason::WriteFault),
    }
    let Ok(text) = answerer.answer(alloc, desk, lines.line()) else {
        return Err(EndReason::Memory);
    };
    let Ok(()) = replies.add(writer, text.as_slice()) else {
        return Err(EndReason::WriteFault);
    };
    Ok(())
}

/// Answers lines until the connection ends. Replies that are not written by then still wait.
fn answer_all<R: Read, W: Write, D, A: Answerer<D>>(
    alloc: Global,
    lines: &mut LineReader,
    replies: &mut ReplyBuffer,
    reader: &mut MeteredReader<R>,
    writer: &mut MeteredWriter<W>,
    answerer: &mut A,
    desk: &mut D,
    too_long_answer: &[u8],
) -> EndReason
    requires { IsSound lines.old.ending (held_bytes lines.old) (R.remaining reader.old.device) }
    ensures serves { Serves A.tells A.fails too_long_answer.now
        (between (prepend_known (held_bytes lines.old) (R.remaining reader.old.device))
        (answerer.old, desk.old))
        result (answerer.new, desk.new) (W.contents writer.old.device)
        (W.contents writer.new.device)
        (waiting_bytes replies.old) (waiting_bytes replies.new) }
    ensures read_fault { result ≡ why.ReadFault →
        IsStopped (has_failed reader.old.faults reader.new.faults) reader.new.left }
    ensures write_fault { result ≡ why.WriteFault →
        has_failed writer.old.faults writer.new.faults ≡ true }
    ensures unfailed_writer { (result ≡ why.WriteFault → ⊥) →
        writer.new.faults ≡ writer.old.faults }
{
    loop {
        if let Err(why) = answer_next(
            alloc,
            lines,
            replies,
            reader,
            writer,
            answerer,
            desk,
            too_long_answer,
        ) {
            return why;
        }
    }
}

/// Answers a connection to its end: each line that the reader gives is answered by the desk, in
/// turn. Answers wait until no whole line is held, or no more have room, and are written before the
/// next read and before the end. An over-long line is answered by `too_long_answer`, and ends the
/// connection.
pub fn answer_connection<R: Read, W: Write, D, A: Answerer<D>>(
    memory: &mut MeteredMemory,
    reader: &mut MeteredReader<R>,
    writer: &mut MeteredWriter<W>,
    answerer: &mut A,
    desk: &mut D,
    too_long_answer: &[u8],
) -> EndReason
    // Serves, or (the second half) the allocator refused the buffers.
    ensures serves { Serves A.tells A.fails too_long_answer.now
        (between (R.remaining reader.old.device) (answerer.old, desk.old))
        result (answerer.new, desk.new) (W.contents writer.old.device)
        (W.contents writer.new.device) [] []
        ⊎ ((result ≡ why.Memory) × (reader.new ≡ reader.old) × (writer.new ≡ writer.old)
        × (answerer.new ≡ answerer.old) × (desk.new ≡ desk.old)
        × (has_failed memory.old.refusals memory.new.refusals ≡ true)) }
    ensures read_fault { result ≡ why.ReadFault →
        IsStopped (has_failed reader.old.faults reader.new.faults) reader.new.left }
    ensures write_fault { result ≡ why.WriteFault →
        has_failed writer.old.faults writer.new.faults ≡ true }
    ensures unfailed_writer { (result ≡ why.WriteFault → ⊥) →
        writer.new.faults ≡ writer.old.faults }
{
    let Ok(mut lines) = LineReader::new(memory) else {
        return EndReason::Memory;
    };
    let Ok(mut replies) = ReplyBuffer::new(memory) else {
        return EndReason::Memory;
    };
    match answer_all(
        memory.allocator(),
        &mut lines,
        &mut replies,
        reader,
        writer,
        answerer,
        desk,
        too_long_answer,
    ) {
        EndReason::WriteFault => EndReason::WriteFault,
        why => {
            let Ok(()) = replies.write_out(writer) else {
                return EndReason::WriteFault;
            };
            why
        }
    }
}

/// Whatever answers the lines: the lines that are answered are those of the bytes in turn.
pub fn lines_are_answered_in_turn<D, A: Answerer<D>>()
    ensures { (before after : BetweenLines (A × D)) (exchanges : List Exchange)
        → Runs A.tells before exchanges after
        → KnownCuts before.ahead (map (λ e. e.line) exchanges) after.ahead }
{}
