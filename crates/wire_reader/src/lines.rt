//! A reader of lines.
//!
//! Bytes are read into a fixed buffer. A line ends with LF, and a last line without one counts if
//! it is not empty.
ghost use Rattle.std.specs.Prelude.{ℕ, List, [], ◌≡◌, ◌≤◌, ◌<◌, ◌+◌, ◌-◌, ◌∷◌, ◌++◌, ◌⊎◌, ◌↔◌};
ghost use Rattle.std.specs.Prelude.{true, length, take, drop, slice_range, MatchOption, IfOk, OnOk};
ghost use Rattle.std.specs.Prelude.{OnErr, IfSome, IfNone, IsTrue, Some, None, Ok, Err};
ghost use Rattle.wire_reader.specs.Lines.{HasNoEnd, IsNext, IsTooLong};
ghost use Rattle.wire_reader.specs.Meters.{Reads, IsStopped, has_failed};
ghost use Rattle.wire_reader.specs.declared.lines.TheConstants.{LINE_BUFFER_BYTES, LINE_BYTES};

use crate::meter::{MeteredMemory, MeteredReader};
use memchr::memchr;
use std::alloc::AllocError;
use std::io::Read;

/// The most bytes that a line may have, without its LF.
pub const LINE_BYTES: usize = 65_536;

/// How many bytes the buffer holds. With this size, no more bytes are moved to the front than were
/// read since the last move.
const LINE_BUFFER_BYTES: usize = 131_073;

/// What is next.
#[derive(Clone, Copy, PartialEq, Eq)]
pub enum Line {
    /// A line, which the reader of lines lends until the next is asked for.
    Whole,
    /// The reader is at its end.
    End,
}

/// Why there is no next line.
#[derive(Clone, Copy, PartialEq, Eq)]
pub enum LineFault {
    /// More than 65,536 bytes stand before the next LF, or the end.
    TooLong,
    /// The reader failed, or was read too often.
    Read,
}

/// Why no more lines come.
#[derive(Clone, Copy, PartialEq, Eq)]
pub enum Ending {
    /// The end was reached.
    End,
    /// A line was over its limit.
    TooLong,
    /// The reader failed, or was read too often.
    Read,
}

/// The place of the first LF.
fn first_end(bytes: &[u8]) -> Option<usize>
    ensures { MatchOption result (HasNoEnd bytes.now) (λ p. HasNoEnd (take p bytes.now)
        × (p < length bytes.now)
        × (bytes.now ≡ take p bytes.now ++ 10 ∷ drop (p + 1) bytes.now)) }
{
    memchr(b'\n', bytes)
}

/// Moves a part to the front.
fn move_to_front(bytes: &mut [u8], start: usize, end: usize)
    requires order { start ≤ end }
    requires within { end ≤ length bytes.old }
    ensures len { length bytes.new ≡ length bytes.old }
    ensures front { take (end - start) bytes.new ≡ slice_range bytes.old start end }
{
    bytes.copy_within(start..end, 0);
}

/// Reads once, from a place on.
fn read_from<R: Read>(
    bytes: &mut Vec<u8>,
    at: usize,
    reader: &mut MeteredReader<R>,
) -> Option<usize>
    requires { at < length bytes.old.items }
    ensures len { length bytes.new.items ≡ length bytes.old.items }
    ensures front { take at bytes.new.items ≡ take at bytes.old.items }
    ensures bound { IfSome result (λ n. at + n ≤ length bytes.new.items) }
    ensures bytes { Reads (R.remaining reader.old.device) (R.remaining reader.new.device)
        result (drop at bytes.new.items) }
    ensures left { reader.new.left ≡ reader.old.left - 1 }
    ensures gave { IfSome result (λ _. (0 < reader.old.left)
        × (reader.new.faults ≡ reader.old.faults)) }
    ensures stopped { IfNone result ((has_failed reader.old.faults reader.new.faults ≡ true)
        ⊎ (reader.old.left ≡ 0)) }
{
    reader.read(&mut bytes[at..])
}

/// A reader of lines, over a buffer of fixed size. Each byte is compared with LF once, however the
/// reads are cut, and bytes move only when the buffer is full.
#[derive(Drop)]
pub struct LineReader {
    /// The buffer.
    bytes: Vec<u8>,
    /// Where the last line that was told begins.
    from: usize,
    /// Where it ends.
    to: usize,
    /// Where the bytes begin that are in no line yet.
    start: usize,
    /// How far they were searched: from `start` up to here there is no LF.
    scanned: usize,
    /// Where they end.
    end: usize,
    /// Why no more lines come, once that is known.
    ending: Option<Ending>,
    ghost room: { length bytes.items ≡ LINE_BUFFER_BYTES },
    ghost line: { (from ≤ to) × (to ≤ LINE_BUFFER_BYTES) },
    ghost places: { (start ≤ scanned) × (scanned ≤ end) × (end ≤ LINE_BUFFER_BYTES) },
    ghost no_end: { HasNoEnd (slice_range bytes.items start scanned) },
}

impl LineReader {
    ghost use Rattle.wire_reader.specs.Lines.{Gives};
    ghost use Rattle.wire_reader.specs.Readers.{held_bytes, last_line, answer_after, Leaves};
    ghost use Rattle.wire_reader.specs.Readers.{weight, IsReady};
    ghost use Rattle.wire_reader.specs.Inner.Places.{Adds, HasFirstEnd, Tells, TellsLast, Notes};
    ghost use Rattle.wire_reader.specs.declared.lines.Ending.TheVariants as ending;
    ghost use Rattle.wire_reader.specs.declared.lines.LineFault.TheVariants as fault;
    ghost use Rattle.wire_reader.specs.declared.lines.Line.TheVariants as line;

    /// A reader of lines that has read nothing. This takes all the memory that it ever needs.
    pub fn new(memory: &mut MeteredMemory) -> Result<LineReader, AllocError>
        ensures empty { IfOk result (λ r. (held_bytes r ≡ []) × (r.ending ≡ None)) }
        ensures gave { OnOk result (memory.new.refusals ≡ memory.old.refusals) }
        ensures refused { OnErr result
            (has_failed memory.old.refusals memory.new.refusals ≡ true) }
    {
        let bytes = memory.zeros(LINE_BUFFER_BYTES)?;
        Ok(LineReader {
            bytes,
            from: 0,
            to: 0,
            start: 0,
            scanned: 0,
            end: 0,
            ending: None,
        })
    }

    /// The last line that `next_line` told, without its LF.
    pub fn line(&self) -> &[u8]
        ensures { result.now ≡ last_line self.now }
    {
        &self.bytes[self.from..self.to]
    }

    /// The place of the first LF that is held, if one is.
    fn find_line_end(&mut self) -> Option<usize>
        ensures same { (self.new.bytes ≡ self.old.bytes) × (self.new.start ≡ self.old.start)
            × (self.new.end ≡ self.old.end) × (self.new.ending ≡ self.old.ending)
            × (last_line self.new ≡ last_line self.old) }
        ensures found { MatchOption result (HasNoEnd (held_bytes self.new))
            (λ p. HasFirstEnd self.old.bytes.items self.old.start p self.old.end) }
    {
        match first_end(&self.bytes[self.scanned..self.end]) {
            None => {
                self.scanned = self.end;
                None
            }
            Some(more) => {
                self.scanned += more;
                Some(self.scanned)
            }
        }
    }

    /// Makes room for one more byte at least.
    fn make_room(&mut self)
        requires { length (held_bytes self.old) ≤ LINE_BYTES }
        ensures held { held_bytes self.new ≡ held_bytes self.old }
        ensures room { self.new.end < LINE_BUFFER_BYTES }
        ensures ending { self.new.ending ≡ self.old.ending }
    {
        if self.end == LINE_BUFFER_BYTES {
            move_to_front(&mut self.bytes, self.start, self.end);
            self.end -= self.start;
            self.scanned -= self.start;
            self.start = 0;
        }
    }

    /// Reads once, and holds what came.
    fn fill<R: Read>(&mut self, reader: &mut MeteredReader<R>) -> Option<usize>
        requires { length (held_bytes self.old) ≤ LINE_BYTES }
        ensures adds { Adds (held_bytes self.old) (R.remaining reader.old.device) result
            (held_bytes self.new) (R.remaining reader.new.device) }
        ensures len { length (held_bytes self.new)
            ≤ length (held_bytes self.old) + LINE_BUFFER_BYTES }
        ensures left { reader.new.left ≡ reader.old.left - 1 }
        ensures gave { IfSome result (λ _. (0 < reader.old.left)
            × (reader.new.faults ≡ reader.old.faults)) }
        ensures stopped { IfNone result ((has_failed reader.old.faults reader.new.faults ≡ true)
            ⊎ (reader.old.left ≡ 0)) }
        ensures ending { self.new.ending ≡ self.old.ending }
    {
        self.make_room();
        let Some(count) = read_from(&mut self.bytes, self.end, reader) else {
            return None;
        };
        self.end += count;
        Some(count)
    }

    /// Tells the line before an LF, and holds what follows.
    fn cut(&mut self, at: usize) -> Result<Line, LineFault>
        requires going { self.old.ending ≡ None }
        requires found { HasFirstEnd self.old.bytes.items self.old.start at self.old.end }
        ensures tells { Tells (held_bytes self.old) result (last_line self.new)
            (held_bytes self.new) }
        ensures ending { Notes result self.new.ending }
        ensures less { result ≡ Ok line.Whole →
            length (held_bytes self.new) < length (held_bytes self.old) }
    {
        if at - self.start > LINE_BYTES {
            self.ending = Some(Ending::TooLong);
            return Err(LineFault::TooLong);
        }
        self.from = self.start;
        self.to = at;
        self.start = at + 1;
        self.scanned = at + 1;
        Ok(Line::Whole)
    }

    /// Tells what is held at the end, which no LF ends.
    fn cut_last(&mut self) -> Line
        ensures tells { TellsLast (held_bytes self.old) result (last_line self.new)
            (held_bytes self.new) }
        ensures ending { self.new.ending ≡ Some ending.End }
    {
        self.ending = Some(Ending::End);
        if self.start == self.end {
            return Line::End;
        }
        self.from = self.start;
        self.to = self.end;
        self.start = self.end;
        self.scanned = self.end;
        Line::Whole
    }

    /// The next line of what is held and what the reader has left, if no ending was met before.
    fn advance<R: Read>(&mut self, reader: &mut MeteredReader<R>) -> Result<Line, LineFault>
        requires { self.old.ending ≡ None }
        ensures gives { Gives (held_bytes self.old) (R.remaining reader.old.device) result
            (last_line self.new) (held_bytes self.new) (R.remaining reader.new.device) }
        ensures leaves { Leaves result self.new.ending (held_bytes self.new)
            (R.remaining reader.new.device) }
        ensures stopped { result ≡ Err fault.Read →
            IsStopped (has_failed reader.old.faults reader.new.faults) reader.new.left
            × HasNoEnd (held_bytes self.new) }
        ensures unfailed { OnOk result (reader.new.faults ≡ reader.old.faults) }
        ensures unfailed_long { result ≡ Err fault.TooLong →
            reader.new.faults ≡ reader.old.faults }
        ensures less { result ≡ Ok line.Whole →
            weight reader.new.left self.new < weight reader.old.left self.old }
        ensures unread { ¬ (HasNoEnd (held_bytes self.old)) → reader.new ≡ reader.old }
    {
        loop {
            if let Some(at) = self.find_line_end() {
                return self.cut(at);
            }
            if self.end - self.start > LINE_BYTES {
                self.ending = Some(Ending::TooLong);
                return Err(LineFault::TooLong);
            }
            match self.fill(reader) {
                None => {
                    self.ending = Some(Ending::Read);
                    return Err(LineFault::Read);
                }
                Some(0) => return Ok(self.cut_last()),
                Some(_) => {}
            }
        }
    }

    /// The next line of what is held and what the reader has left, however it is cut into reads. It
    /// takes no memory. After the end or a fault each later call answers the same, and reads
    /// nothing. It reads nothing either where a whole line is held.
    ///
    /// # Errors
    ///
    /// `TooLong` where more than 65,536 bytes stand before the next LF, or the end. `Read` where no
    /// whole line is held and the reader failed or was read 1,000,000 times.
    pub fn next_line<R: Read>(&mut self, reader: &mut MeteredReader<R>) -> Result<Line, LineFault>
        ensures again { IfSome self.old.ending (λ e. (result ≡ answer_after e)
            × (self.new ≡ self.old) × (reader.new ≡ reader.old)) }
        ensures gives { self.old.ending ≡ None →
            Gives (held_bytes self.old) (R.remaining reader.old.device) result
            (last_line self.new) (held_bytes self.new) (R.remaining reader.new.device) }
        ensures leaves { self.old.ending ≡ None →
            Leaves result self.new.ending (held_bytes self.new) (R.remaining reader.new.device) }
        ensures stopped { self.old.ending ≡ None → result ≡ Err fault.Read →
            IsStopped (has_failed reader.old.faults reader.new.faults) reader.new.left
            × HasNoEnd (held_bytes self.new) }
        ensures unfailed { OnOk result (reader.new.faults ≡ reader.old.faults) }
        ensures unfailed_long { result ≡ Err fault.TooLong →
            reader.new.faults ≡ reader.old.faults }
        ensures less { result ≡ Ok line.Whole →
            weight reader.new.left self.new < weight reader.old.left self.old }
        ensures unread { IsReady self.old → reader.new ≡ reader.old }
    {
        match self.ending {
            Some(Ending::End) => Ok(Line::End),
            Some(Ending::TooLong) => Err(LineFault::TooLong),
            Some(Ending::Read) => Err(LineFault::Read),
            None => self.advance(reader),
        }
    }

    /// Whether the next line is held whole, or an ending was met: then `next_line` reads nothing.
    pub fn is_ready(&mut self) -> bool
        ensures same { (held_bytes self.new ≡ held_bytes self.old)
            × (last_line self.new ≡ last_line self.old) × (self.new.ending ≡ self.old.ending) }
        ensures ready { IsTrue result ↔ IsReady self.new }
    {
        self.ending.is_some() || self.find_line_end().is_some()
    }
}

/// Bytes have at most one next line, with one rest. If more bytes than a line may have stand before
/// an LF or the end, they have none.
pub fn bytes_have_one_next_line()
    ensures one { (bytes line others other rest : List ℕ) → IsNext bytes line others
        → IsNext bytes other rest → (line ≡ other) × (others ≡ rest) }
    ensures short { (bytes line others : List ℕ) → IsNext bytes line others
        → IsTooLong bytes → ⊥ }
{}
