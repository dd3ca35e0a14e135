//! A connection of a source, served to its end.
ghost use Rattle.std.specs.Prelude.{◌≡◌, true};
ghost use Rattle.wire_reader.specs.Meters.{IsStopped, has_failed};
ghost use Rattle.wire_reader.specs.declared.serving.EndReason.TheVariants as why;
ghost use Rattle.client_loop.specs.Connections.{LogsOutLeft, ServesConnection};
ghost use Rattle.client_loop.specs.Logins.{session_of};

use crate::desk::Desk;
use crate::login::Login;
use crate::serving::{ServedEnd, serve};
use crate::source::{Connection, Served};
use std::alloc::Global;
use std::io::{Read, Write};
use std::sync::Wait;
use wire_reader::meter::{MeteredMemory, MeteredReader, MeteredWriter};

/// Logs out the login that a connection left, if it left one. It asks again for as long as memory
/// is refused.
pub fn finish_logout<R: Wait, D: Desk>(rt: &R, desk: &mut D, left: Option<Login>)
    ensures { LogsOutLeft D.answers (session_of left) desk.old desk.new }
{
    match left {
        Some(login) => {
            login.logout_at_last(rt, desk);
        }
        None => {}
    }
}

/// Serves a connection to its end over this desk. If memory is refused for the logout at the end,
/// the logout is asked again until it is done.
pub fn serve_connection<R: Wait, I: Read + Drop, O: Write + Drop, D: Desk>(
    rt: &R,
    alloc: Global,
    connection: Connection<I, O>,
    desk: &mut D,
) -> Served<I, O>
    ensures serves { ServesConnection D.answers (has_failed 0 result.memory.refusals)
        (I.remaining connection.reader) desk.old result.why desk.new
        (O.contents connection.writer) (O.contents result.output.device) }
    ensures read_fault { result.why ≡ why.ReadFault →
        IsStopped (has_failed 0 result.input.faults) result.input.left }
    ensures write_fault { result.why ≡ why.WriteFault →
        has_failed 0 result.output.faults ≡ true }
{
    let Connection { reader, writer } = connection;
    let mut memory = MeteredMemory::new(alloc);
    let mut input = MeteredReader::new(reader);
    let mut output = MeteredWriter::new(writer);
    let ServedEnd { why, left } = serve(&mut memory, &mut input, &mut output, desk);
    finish_logout(rt, desk, left);
    Served {
        why,
        input,
        output,
        memory,
    }
}
