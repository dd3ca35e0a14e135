//! The program: what all runs of a Pure Esterel module have in common, one JSON command a line.
//!
//! It calls `run` of `lab_run` with the words and streams of its process. What is proved of the
//! program is the contract of `run`. That `main` calls it with these is not proved: read it.
#![tactic(auto)]

use lab_run::run::run;
use std::process::ExitCode;
use std::{env, io};
use wire_reader::meter::{MeteredMemory, MeteredReader, MeteredWriter};

/// The words of the command line, the program's own name first.
fn words_of(rt: &HostRuntime) -> io::Result<Vec<String>> {
    let mut words = Vec::new(rt.alloc());
    for word in env::args(rt)? {
        words.push(word)?;
    }
    Ok(words)
}

fn main(rt: HostRuntime) -> ExitCode {
    let mut errors = rt.stderr();
    let Ok(words) = words_of(&rt) else {
        return ExitCode::from(2);
    };
    let mut memory = MeteredMemory::new(rt.alloc());
    let mut input = MeteredReader::new(rt.stdin());
    let mut output = MeteredWriter::new(rt.stdout());
    let status = run(
        &rt,
        &mut memory,
        words.as_slice(),
        &mut input,
        &mut output,
        &mut errors,
    );
    ExitCode::from(status)
}
