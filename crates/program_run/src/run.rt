//! A run of the program, over any words and streams.
ghost use Rattle.std.specs.Prelude.{◌≡◌, Err, map, string_bytes};
ghost use Rattle.wire_reader.specs.Meters.{has_failed};
ghost use Rattle.wire_reader.specs.declared.serving.EndReason.TheVariants.{ReadFault, WriteFault};
ghost use Rattle.program_run.specs.declared.fault.Fault.TheVariants as fault;
ghost use Rattle.program_run.specs.Runs.{EndsScript, CannotWrite, RunsScript, Obeys, NamesDevices};
ghost use Rattle.program_run.specs.Runs.{Runs};

use crate::fault::{Fault, outcome, tell};
use crate::reports::write_report;
use crate::server::serve as serve_socket;
use access_core::single::Single;
use client_loop::connections::finish_logout;
use client_loop::serving::{ServedEnd, serve};
use log::sink::Writer;
use log::{Level, Logged, info};
use program_words::invocation::Invocation;
use std::alloc::Global;
use std::fs::Files;
use std::io::{Read, Write};
use std::net::Net;
use std::sync::Wait;
use std::thread::Threads;
use wire_reader::meter::{MeteredMemory, MeteredReader, MeteredWriter};
use wire_reader::serving::EndReason;

/// Writes a line on how the connection ended.
fn log_end<E: Write>(errors: &mut E, why: EndReason) {
    let log = Logged::new((), Level::Info, Writer::new(errors));
    info!(log; "connection ended: {why:?}");
}

/// What follows the end of a connection: its fault, or the report, if one was asked for.
fn finish<O: Write>(
    alloc: Global,
    why: EndReason,
    desk: Single,
    output: &mut MeteredWriter<O>,
    report: bool,
) -> Result<(), Fault>
    ensures ends { EndsScript report why desk result (O.contents output.old.device)
        (O.contents output.new.device) }
    ensures read { result ≡ Err fault.Read → why ≡ ReadFault }
    ensures write { result ≡ Err fault.Write →
        CannotWrite why output.old.faults output.new.faults }
{
    match why {
        EndReason::Closed | EndReason::TooLong => {
            if !report {
                return Ok(());
            }
            let (policy, slots) = desk.into_journals();
            write_report(alloc, &policy, &slots, output)
        }
        EndReason::ReadFault | EndReason::WriteFault | EndReason::Memory => outcome(why),
    }
}

/// Serves input and output as one connection over a new desk. Then writes the report on the desk,
/// if one was asked for.
fn script<R: Wait, I: Read, O: Write, E: Write>(
    rt: &R,
    memory: &mut MeteredMemory,
    input: &mut MeteredReader<I>,
    output: &mut MeteredWriter<O>,
    errors: &mut E,
    log: bool,
    report: bool,
) -> Result<(), Fault>
    ensures runs { RunsScript (has_failed memory.old.refusals memory.new.refusals) report
        (I.remaining input.old.device) result
        (O.contents output.old.device) (O.contents output.new.device) }
    ensures devices { NamesDevices result (has_failed input.old.faults input.new.faults)
        input.new.left (has_failed output.old.faults output.new.faults) }
{
    let Ok(mut desk) = Single::new(memory.allocator()) else {
        return Err(Fault::Memory);
    };
    let ServedEnd { why, left } = serve(memory, input, output, &mut desk);
    finish_logout(rt, &mut desk, left);
    if log {
        log_end(errors, why);
    }
    finish(memory.allocator(), why, desk, output, report)
}

/// Does what the words ask for.
fn obey<R: Threads + Wait + Net + Files + Sync, I: Read, O: Write, E: Write>(
    rt: &R,
    memory: &mut MeteredMemory,
    words: &[String],
    input: &mut MeteredReader<I>,
    output: &mut MeteredWriter<O>,
    errors: &mut E,
) -> Result<(), Fault>
    ensures obeys { Obeys (map string_bytes words.now)
        (has_failed memory.old.refusals memory.new.refusals)
        (I.remaining input.old.device) result (O.contents output.old.device)
        (O.contents output.new.device) }
    ensures devices { NamesDevices result (has_failed input.old.faults input.new.faults)
        input.new.left (has_failed output.old.faults output.new.faults) }
{
    match Invocation::from_words(memory.allocator(), words)? {
        Invocation::Script { log, report } => {
            script(rt, memory, input, output, errors, log, report)
        },
        Invocation::Serve(service) => serve_socket(rt, memory.allocator(), &service, output),
    }
}

/// Runs the program on these words (the first is its own name) and answers its status. A fault is
/// also told by a line on `errors`, if that can be written.
pub fn run<R: Threads + Wait + Net + Files + Sync, I: Read, O: Write, E: Write>(
    rt: &R,
    memory: &mut MeteredMemory,
    words: &[String],
    input: &mut MeteredReader<I>,
    output: &mut MeteredWriter<O>,
    errors: &mut E,
) -> u8
    ensures { Runs (map string_bytes words.now)
        (has_failed memory.old.refusals memory.new.refusals) (I.remaining input.old.device)
        (O.contents output.old.device) (O.contents output.new.device)
        (has_failed input.old.faults input.new.faults) input.new.left
        (has_failed output.old.faults output.new.faults) result }
{
    match obey(rt, memory, words, input, output, errors) {
        Ok(()) => 0,
        Err(fault) => {
            let _ = tell(&fault, errors);
            fault.status()
        }
    }
}
