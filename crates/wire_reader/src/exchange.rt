//! Lines in and replies out: what waits is written before a read that could wait.
ghost use Rattle.std.specs.Prelude.{◌≡◌, ◌<◌, ◌⊎◌, [], true, IfOk, IfSome, OnOk, OnErr, Ok, Err};
ghost use Rattle.std.specs.Prelude.{None};
ghost use Rattle.wire_reader.specs.Lines.{Gives, HasNoEnd};
ghost use Rattle.wire_reader.specs.Meters.{IsStopped, has_failed};
ghost use Rattle.wire_reader.specs.Readers.{held_bytes, last_line, answer_after, Leaves, weight};
ghost use Rattle.wire_reader.specs.Readers.{IsReady};
ghost use Rattle.wire_reader.specs.Replies.{waiting_bytes};
ghost use Rattle.wire_reader.specs.Writing.{WritesUpTo, WritesFront};
ghost use Rattle.wire_reader.specs.declared.lines.Line.TheVariants as line;
ghost use Rattle.wire_reader.specs.declared.lines.LineFault.TheVariants as fault;

use crate::lines::{Line, LineFault, LineReader};
use crate::meter::{MeteredReader, MeteredWriter};
use crate::replies::{ReplyBuffer, WriteFault};
use std::io::{Read, Write};

/// Writes out what waits, unless the next line is there without a read.
fn make_ready<W: Write>(
    lines: &mut LineReader,
    replies: &mut ReplyBuffer,
    writer: &mut MeteredWriter<W>,
) -> Result<(), WriteFault>
    ensures same { (held_bytes lines.new ≡ held_bytes lines.old)
        × (last_line lines.new ≡ last_line lines.old) × (lines.new.ending ≡ lines.old.ending) }
    ensures ok { OnOk result (WritesUpTo (W.contents writer.old.device)
        (W.contents writer.new.device) (waiting_bytes replies.old) (waiting_bytes replies.new)) }
    ensures ready { OnOk result (IsReady lines.new ⊎ (waiting_bytes replies.new ≡ [])) }
    ensures unfailed { OnOk result (writer.new.faults ≡ writer.old.faults) }
    ensures err { OnErr result (WritesFront (W.contents writer.old.device)
        (W.contents writer.new.device) (waiting_bytes replies.old)) }
    ensures failed { OnErr result (has_failed writer.old.faults writer.new.faults ≡ true) }
{
    if lines.is_ready() {
        return Ok(());
    }
    let Ok(()) = replies.write_out(writer) else {
        return Err(WriteFault);
    };
    Ok(())
}

/// The next line. It is asked for only if it is held already, or nothing waits to be written.
fn read_line<R: Read>(
    lines: &mut LineReader,
    _replies: &ReplyBuffer,
    reader: &mut MeteredReader<R>,
) -> Result<Line, LineFault>
    requires { IsReady lines.old ⊎ (waiting_bytes _replies.now ≡ []) }
    ensures again { IfSome lines.old.ending (λ e. (result ≡ answer_after e)
        × (lines.new ≡ lines.old) × (reader.new ≡ reader.old)) }
    ensures gives { lines.old.ending ≡ None →
        Gives (held_bytes lines.old) (R.remaining reader.old.device) result
        (last_line lines.new) (held_bytes lines.new) (R.remaining reader.new.device) }
    ensures leaves { lines.old.ending ≡ None →
        Leaves result lines.new.ending (held_bytes lines.new) (R.remaining reader.new.device) }
    ensures stopped { lines.old.ending ≡ None → result ≡ Err fault.Read →
        IsStopped (has_failed reader.old.faults reader.new.faults) reader.new.left
        × HasNoEnd (held_bytes lines.new) }
    ensures unfailed { OnOk result (reader.new.faults ≡ reader.old.faults) }
    ensures less { result ≡ Ok line.Whole →
        weight reader.new.left lines.new < weight reader.old.left lines.old }
    ensures first { (reader.new ≡ reader.old) ⊎ (waiting_bytes _replies.now ≡ []) }
{
    lines.next_line(reader)
}

/// The next line, as `LineReader::next_line` gives it. Where it asks for a read, what waits is
/// written out first: a writer that fails leaves the reader as it was.
///
/// # Errors
///
/// Where the writer failed or took nothing, and then a beginning of what waited was written.
pub fn write_then_read_line<R: Read, W: Write>(
    lines: &mut LineReader,
    replies: &mut ReplyBuffer,
    reader: &mut MeteredReader<R>,
    writer: &mut MeteredWriter<W>,
) -> Result<Result<Line, LineFault>, WriteFault>
    ensures again { IfOk result (λ answer. IfSome lines.old.ending (λ e.
        (answer ≡ answer_after e) × (reader.new ≡ reader.old))) }
    ensures gives { IfOk result (λ answer. lines.old.ending ≡ None →
        Gives (held_bytes lines.old) (R.remaining reader.old.device) answer
        (last_line lines.new) (held_bytes lines.new) (R.remaining reader.new.device)) }
    ensures leaves { IfOk result (λ answer. lines.old.ending ≡ None →
        Leaves answer lines.new.ending (held_bytes lines.new) (R.remaining reader.new.device)) }
    ensures stopped { IfOk result (λ answer. lines.old.ending ≡ None → answer ≡ Err fault.Read →
        IsStopped (has_failed reader.old.faults reader.new.faults) reader.new.left
        × HasNoEnd (held_bytes lines.new)) }
    ensures unfailed_reader { IfOk result (λ answer.
        OnOk answer (reader.new.faults ≡ reader.old.faults)) }
    ensures less { IfOk result (λ answer. answer ≡ Ok line.Whole →
        weight reader.new.left lines.new < weight reader.old.left lines.old) }
    ensures writes { OnOk result (WritesUpTo (W.contents writer.old.device)
        (W.contents writer.new.device) (waiting_bytes replies.old) (waiting_bytes replies.new)) }
    ensures written_first { OnOk result ((reader.new ≡ reader.old)
        ⊎ (waiting_bytes replies.new ≡ [])) }
    ensures unfailed { OnOk result (writer.new.faults ≡ writer.old.faults) }
    ensures err { OnErr result (WritesFront (W.contents writer.old.device)
        (W.contents writer.new.device) (waiting_bytes replies.old)) }
    ensures failed { OnErr result (has_failed writer.old.faults writer.new.faults ≡ true) }
    ensures unread { OnErr result (reader.new ≡ reader.old) }
{
    let Ok(()) = make_ready(lines, replies, writer) else {
        return Err(WriteFault);
    };
    Ok(read_line(lines, replies, reader))
}
