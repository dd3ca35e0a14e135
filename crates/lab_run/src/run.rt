//! A run of the program, over any words and streams.

ghost use Rattle.std.specs.Prelude.{◌≡◌, IfErr, IfOk, OnOk, map, string_bytes};
ghost use Rattle.std.specs.Io.KnownBytes.{Appends};
ghost use Rattle.lab_lines.specs.Offers.{FirstNotOfferable};
ghost use Rattle.lab_run.specs.Proving.{IsAmong, TellsOfModule, TellsOfText};
ghost use Rattle.lab_run.specs.Runs.{Proves, ProvesText, Runs, ServesAll, TellsSo};
ghost use Rattle.lab_run.specs.Runs.{status_of_end};

use crate::answer::{LabAnswerer, line_of};
use crate::invocation::{Invocation, ProveOptions, WordFault};
use crate::lab::{Lab, LabReply, explore_among, limits};
use crate::status::{FAILS, UNKNOWN, UNREAD, status_of};
use crate::stepped_module::refusal_of;
use access_core::refusal::Refusal;
use est_kernel::interface::Interface;
use est_relations::refusal::PendingRefusal;
use lab_lines::offers::signals_of_names;
use reactor_core::kernel_module::Module;
use reactor_core::reading::read_module;
use std::alloc::{AllocError, Global};
use std::fs;
use std::fs::Files;
use std::io::{Read, Write};
use wire_reader::meter::{MeteredMemory, MeteredReader, MeteredWriter};
use wire_reader::replies::{ReplyBuffer, WriteFault};
use wire_reader::serving::{EndReason, answer_connection};

/// The status after the end of the lines.
fn status_of_end(why: EndReason) -> u8
    ensures { result ≡ status_of_end why }
{
    match why {
        EndReason::Closed | EndReason::TooLong => 0,
        EndReason::ReadFault | EndReason::WriteFault => FAILS,
        EndReason::Memory => UNKNOWN,
    }
}

/// Answers the lines of a reader.
fn serve<I: Read, O: Write>(
    memory: &mut MeteredMemory,
    input: &mut MeteredReader<I>,
    output: &mut MeteredWriter<O>,
) -> u8
    ensures { ServesAll (I.remaining input.old.device) result (O.contents output.old.device)
        (O.contents output.new.device) }
{
    let Ok(refusal) = line_of(memory.allocator(), LabReply::Refused(Refusal::TooLong)) else {
        return UNKNOWN;
    };
    let mut answerer = LabAnswerer::new(memory.allocator());
    let mut lab = Lab::new();
    let why = answer_connection(
        memory,
        input,
        output,
        &mut answerer,
        &mut lab,
        refusal.as_slice(),
    );
    status_of_end(why)
}

/// The texts of claims.
fn texts_of<'a>(alloc: Global, claims: &'a [String]) -> Result<Vec<&'a str>, AllocError>
    ensures { IfOk result (λ texts. map (λ t. t.now) texts.items ≡ map string_bytes claims.now) }
{
    let mut texts = Vec::new(alloc);
    for claim in claims {
        texts.push(claim.as_str())?;
    }
    Ok(texts)
}

/// The signals that somebody may offer: those of these names, or without names all that may be
/// offered.
fn offerable_of(interface: &Interface, names: &[&str]) -> Result<u64, PendingRefusal>
    ensures allowed { IfOk result (IsAmong interface.now (map (λ t. t.now) names.now)) }
    ensures fault { IfErr result (FirstNotOfferable interface.now (map (λ t. t.now) names.now)) }
{
    if names.is_empty() {
        Ok(interface.offerable())
    } else {
        signals_of_names(interface, names)
    }
}

/// Judges the claims on a module.
fn prove_module(
    alloc: Global,
    proof: &ProveOptions<'_>,
    loaded: &Module,
) -> Result<LabReply, AllocError>
    ensures { IfOk result (TellsOfModule loaded.now proof.now) }
{
    let allowed = match offerable_of(loaded.kernel.interface(), proof.inputs.as_slice()) {
        Ok(allowed) => allowed,
        Err(refused) => return Ok(LabReply::Refused(refusal_of(refused))),
    };
    let claims = texts_of(alloc, proof.claims.as_slice())?;
    let value = explore_among(
        alloc,
        loaded,
        claims.as_slice(),
        allowed,
        limits(proof.most),
    )?;
    Ok(LabReply::Json(value))
}

/// Judges the claims on the module of a text.
fn prove_text(alloc: Global, proof: &ProveOptions<'_>, text: &str) -> Result<LabReply, AllocError>
    ensures { IfOk result (TellsOfText proof.now text.now) }
{
    match read_module(alloc, proof.main, text) {
        Ok(loaded) => {
            let told = prove_module(alloc, proof, &loaded)?;
            Ok(told)
        }
        Err(refusal) => Ok(LabReply::Refused(Refusal::from(refusal))),
    }
}

/// Writes a line.
fn write_line<O: Write>(
    memory: &mut MeteredMemory,
    output: &mut MeteredWriter<O>,
    line: &[u8],
) -> Result<(), WriteFault>
    ensures { OnOk result (Appends (O.contents output.old.device) (O.contents output.new.device)
        line.now) }
{
    let Ok(mut waiting) = ReplyBuffer::new(memory) else {
        return Err(WriteFault);
    };
    waiting.add(output, line)?;
    waiting.write_out(output)
}

/// Writes what is told, and answers its status.
fn tell<O: Write>(memory: &mut MeteredMemory, output: &mut MeteredWriter<O>, told: LabReply) -> u8
    ensures { TellsSo told result (O.contents output.old.device) (O.contents output.new.device) }
{
    let status = status_of(&told);
    let Ok(line) = line_of(memory.allocator(), told) else {
        return UNKNOWN;
    };
    match write_line(memory, output, line.as_slice()) {
        Ok(()) => status,
        Err(_) => UNKNOWN,
    }
}

/// Judges the claims on the module of a text, and writes what is told.
fn prove_and_tell<O: Write>(
    memory: &mut MeteredMemory,
    proof: &ProveOptions<'_>,
    text: &str,
    output: &mut MeteredWriter<O>,
) -> u8
    ensures { ProvesText proof.now text.now result (O.contents output.old.device)
        (O.contents output.new.device) }
{
    match prove_text(memory.allocator(), proof, text) {
        Ok(told) => tell(memory, output, told),
        Err(_) => UNKNOWN,
    }
}

/// Judges the claims on the module of a file.
fn prove<R: Files + Alloc<A = Global> + Sync, O: Write, E: Write>(
    rt: &R,
    memory: &mut MeteredMemory,
    proof: &ProveOptions<'_>,
    output: &mut MeteredWriter<O>,
    errors: &mut E,
) -> u8
    ensures { Proves proof.now result (O.contents output.old.device)
        (O.contents output.new.device) }
{
    match fs::read_to_string(rt, proof.file) {
        Ok(text) => prove_and_tell(memory, proof, text.as_str(), output),
        Err(_) => {
            let _ = errors.write_all(b"estlab: the file can't be read\n");
            UNREAD
        }
    }
}

/// Runs the program on these words (the first is its own name) and answers its status.
pub fn run<R: Files + Alloc<A = Global> + Sync, I: Read, O: Write, E: Write>(
    rt: &R,
    memory: &mut MeteredMemory,
    words: &[String],
    input: &mut MeteredReader<I>,
    output: &mut MeteredWriter<O>,
    errors: &mut E,
) -> u8
    ensures { Runs (I.remaining input.old.device) result (O.contents output.old.device)
        (O.contents output.new.device) }
{
    match Invocation::from_words(memory.allocator(), words) {
        Ok(Invocation::Serve) => serve(memory, input, output),
        Ok(Invocation::Prove(proof)) => prove(rt, memory, &proof, output, errors),
        Err(WordFault::Words(fault)) => {
            let _ = write!(errors, "{fault}");
            UNREAD
        }
        Err(WordFault::Memory) => UNKNOWN,
    }
}
