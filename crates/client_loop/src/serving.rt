//! Serves a connection to its end, over any reader and writer, and any desk that is lent.
ghost use Rattle.std.specs.Prelude.{◌≡◌, true};
ghost use Rattle.wire_reader.specs.Meters.{IsStopped, has_failed};
ghost use Rattle.wire_reader.specs.declared.serving.EndReason.TheVariants as why;
ghost use Rattle.client_loop.specs.LineSteps.{with_login};
ghost use Rattle.client_loop.specs.Logins.{session_of, LogsOutHeld};
ghost use Rattle.client_loop.specs.Serving.{too_long_text, ServesLines, ServesDesk};

use crate::desk::Desk;
use crate::line_answerer::LineAnswerer;
use crate::login::Login;
use std::io::{Read, Write};
use wire_lines::reading::RequestReader;
use wire_reader::meter::{MeteredMemory, MeteredReader, MeteredWriter};
use wire_reader::serving;
use wire_reader::serving::EndReason;

/// The answer to an over-long line.
const TOO_LONG: &str = "{\"code\":1,\"fault\":\"TooLong\"}\n";

/// How a connection ended. Whoever gets it has to spend the login that is left.
pub struct ServedEnd {
    /// Why it ended.
    pub why: EndReason,
    /// The login that the connection held at its end, where memory was refused for its logout.
    pub left: Option<Login>,
}

/// The answer to an over-long line, from a constant: it takes no memory.
fn too_long_line() -> &'static [u8]
    ensures { result.now ≡ too_long_text }
{
    TOO_LONG.as_bytes()
}

/// Answers the lines of a connection to its end, and gives the login that it holds then.
fn serve_lines<R: Read, W: Write, D: Desk>(
    memory: &mut MeteredMemory,
    reader: &mut MeteredReader<R>,
    writer: &mut MeteredWriter<W>,
    desk: &mut D,
) -> (EndReason, Option<Login>)
    ensures serves { ServesLines D.answers (has_failed memory.old.refusals memory.new.refusals)
        (R.remaining reader.old.device) desk.old result.0
        (with_login desk.new (session_of result.1))
        (W.contents writer.old.device) (W.contents writer.new.device) }
    ensures read_fault { result.0 ≡ why.ReadFault →
        IsStopped (has_failed reader.old.faults reader.new.faults) reader.new.left }
    ensures write_fault { result.0 ≡ why.WriteFault →
        has_failed writer.old.faults writer.new.faults ≡ true }
    ensures unfailed_writer { (result.0 ≡ why.WriteFault → ⊥) →
        writer.new.faults ≡ writer.old.faults }
{
    let mut answerer = LineAnswerer {
        login: None,
        requests: RequestReader::new(memory.allocator()),
    };
    let why = serving::answer_connection(
        memory,
        reader,
        writer,
        &mut answerer,
        desk,
        too_long_line(),
    );
    let LineAnswerer { login, requests: _ } = answerer;
    (why, login)
}

/// Logs out if a login is held. If memory is refused for that, the login comes back.
fn leave<D: Desk>(desk: &mut D, held: Option<Login>) -> Option<Login>
    ensures { LogsOutHeld D.answers (session_of held) desk.old desk.new (session_of result) }
{
    let Some(login) = held else {
        return None;
    };
    match login.logout(desk) {
        Ok(_) => None,
        Err((_, login)) => Some(login),
    }
}

/// Serves a connection to its end over this desk, and logs out the login that it holds then. Each
/// line that the reader gives is answered in turn. Answers are gathered, and are written before a
/// read that could wait and before the end. An over-long line is answered TooLong, and ends the
/// connection.
pub fn serve<R: Read, W: Write, D: Desk>(
    memory: &mut MeteredMemory,
    reader: &mut MeteredReader<R>,
    writer: &mut MeteredWriter<W>,
    desk: &mut D,
) -> ServedEnd
    ensures serves { ServesDesk D.answers (has_failed memory.old.refusals memory.new.refusals)
        (R.remaining reader.old.device) desk.old result.why desk.new (session_of result.left)
        (W.contents writer.old.device) (W.contents writer.new.device) }
    ensures read_fault { result.why ≡ why.ReadFault →
        IsStopped (has_failed reader.old.faults reader.new.faults) reader.new.left }
    ensures write_fault { result.why ≡ why.WriteFault →
        has_failed writer.old.faults writer.new.faults ≡ true }
    ensures unfailed_writer { (result.why ≡ why.WriteFault → ⊥) →
        writer.new.faults ≡ writer.old.faults }
{
    let (why, held) = serve_lines(memory, reader, writer, desk);
    let left = leave(desk, held);
    ServedEnd { why, left }
}
