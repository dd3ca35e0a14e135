//! The program: a shared simulator of Pure Esterel modules under role-based access control, one
//! JSON command a line.
//!
//! It calls `run` of `program_run` with the words and streams of its process. What is proved of the
//! program is the contract of `run`. That `main` calls it with these is not proved: read it.
#![tactic(auto)]

use program_run::fault::{Fault, taking_fault, tell};
use program_run::run::run;
use std::env;
use std::process::ExitCode;
use wire_reader::meter::{MeteredMemory, MeteredReader, MeteredWriter};

/// The words of the command line, the program's own name first.
fn words_of(rt: &HostRuntime) -> Result<Vec<String>, Fault> {
    let mut words = Vec::new(rt.alloc());
    for word in env::args(rt).map_err(|error| taking_fault(&error))? {
        words.push(word).map_err(|_| Fault::Memory)?;
    }
    Ok(words)
}

fn main(rt: HostRuntime) -> ExitCode {
    let mut errors = rt.stderr();
    let words = match words_of(&rt) {
        Ok(words) => words,
        Err(fault) => {
            let _ = tell(&fault, &mut errors);
            return ExitCode::from(fault.status());
        }
    };
    let mut memory = MeteredMemory::new(rt.alloc());
    let mut input = MeteredReader::new(rt.stdin());
    let mut output = MeteredWriter::new(rt.stdout());
    let status = run(
        &rt,
        &mut memory,
        words.as_slice(),
        &mut input,
        &mut output,
        &mut errors,
    );
    ExitCode::from(status)
}
