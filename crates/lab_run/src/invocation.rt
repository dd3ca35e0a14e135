//! The words of the command line, as `clap` reads them.

use clap::builder::ValueParser;
use clap::error::ErrorKind;
use clap::{Arg, ArgAction, ArgMatches, Command, Error};
use std::alloc::{AllocError, Global};
use std::convert::AsStr;

/// The version of the program: that of the file VERSION, as scripts/version.py writes it.
const VERSION: &str = "0.3.0";

/// How many states and reactions a search may find, where the words don't say.
const DEFAULT_MOST: u64 = 1_000_000;

/// A proof of claims on a module of a file.
#[derive(Drop)]
pub struct ProveOptions<'a> {
    pub file: &'a str,
    pub main: &'a str,
    /// Each is `never T` or `always T`.
    pub claims: Vec<String>,
    /// The names of the signals that somebody may offer; without names all that may be offered.
    pub inputs: Vec<&'a str>,
    /// With more states than this, or more reactions, the search ends.
    pub most: u64,
}

/// What the words ask for.
#[derive(Drop)]
pub enum Invocation<'a> {
    /// To answer the lines of standard input.
    Serve,
    /// To prove claims.
    Prove(ProveOptions<'a>),
}

/// An option of this name, which may be given several times.
fn list_option<'a>(alloc: Global, name: &'a str, value: &'a str, help: &'a str) -> Arg<'a> {
    Arg::new(alloc, name)
        .long(name)
        .value_name(value)
        .help(help)
        .action(ArgAction::Append)
}

/// The words that ask for a proof.
fn prove_words<'a>(alloc: Global) -> Result<Command<'a>, AllocError> {
    let file = Arg::new(alloc, "FILE")
        .help("The text of the module")
        .required(true)
        .action(ArgAction::Set);
    let main = Arg::new(alloc, "main")
        .long("main")
        .value_name("NAME")
        .help("The module")
        .required(true)
        .action(ArgAction::Set);
    let most = Arg::new(alloc, "most")
        .long("most")
        .value_name("N")
        .help("How many states, and how many reactions, may be found")
        .action(ArgAction::Set)
        .value_parser(ValueParser::unsigned(1, 1_000_000_000));
    Command::new(alloc, "prove")
        .about("Judges claims over all runs of a module")
        .arg(file)?
        .arg(main)?
        .arg(list_option(alloc, "never", "TEST", "This is never so"))?
        .arg(list_option(alloc, "always", "TEST", "This is always so"))?
        .arg(list_option(alloc, "inputs", "NAME", "An input that somebody may offer"))?
        .arg(most)
}

/// The command line of the program, as `clap` is told it.
fn command_line<'a>(alloc: Global) -> Result<Command<'a>, AllocError> {
    Command::new(alloc, "estlab")
        .about("What all runs of a Pure Esterel module have in common")
        .version(VERSION)
        .subcommand(prove_words(alloc)?)
}

/// Adds the claims that are given by the option of this name.
fn add_claims(
    alloc: Global,
    matches: &ArgMatches<'_>,
    name: &str,
    claims: &mut Vec<String>,
) -> Result<(), AllocError> {
    let Some(tests) = matches.get_strs(name) else {
        return Ok(());
    };
    for test in tests {
        claims.push(format!(in alloc; "{name} {test}")?)?;
    }
    Ok(())
}

/// The names that are given by the option `inputs`.
fn inputs_of<'a>(alloc: Global, matches: &ArgMatches<'a>) -> Result<Vec<&'a str>, AllocError> {
    let mut names = Vec::new(alloc);
    if let Some(given) = matches.get_strs("inputs") {
        for name in given {
            names.push(*name)?;
        }
    }
    Ok(names)
}

/// The proof that the words after `prove` ask for.
fn proof_of<'a>(alloc: Global, matches: &ArgMatches<'a>) -> Result<ProveOptions<'a>, AllocError> {
    let mut claims = Vec::new(alloc);
    add_claims(alloc, matches, "never", &mut claims)?;
    add_claims(alloc, matches, "always", &mut claims)?;
    Ok(ProveOptions {
        file: matches.get_str("FILE").unwrap_or(""),
        main: matches.get_str("main").unwrap_or(""),
        claims,
        inputs: inputs_of(alloc, matches)?,
        most: matches.get_one("most").unwrap_or(DEFAULT_MOST),
    })
}

/// Why words give no invocation.
#[derive(Drop)]
pub enum WordFault {
    /// The words are no invocation, or ask for help. clap's text about them is for the user.
    Words(Error),
    /// Memory was refused.
    Memory,
}

impl<'a> Invocation<'a> {
    /// The invocation that the words give, of which the first is the program's own name.
    pub fn from_words<S: AsStr>(
        alloc: Global,
        words: &'a [S],
    ) -> Result<Invocation<'a>, WordFault> {
        let Ok(command) = command_line(alloc) else {
            return Err(WordFault::Memory);
        };
        let matches = match command.try_get_matches_from(words) {
            Ok(matches) => matches,
            Err(fault) if fault.kind() == ErrorKind::OutOfMemory => return Err(WordFault::Memory),
            Err(fault) => return Err(WordFault::Words(fault)),
        };
        let Some(prove) = matches.subcommand_matches("prove") else {
            return Ok(Invocation::Serve);
        };
        match proof_of(alloc, prove) {
            Ok(proof) => Ok(Invocation::Prove(proof)),
            Err(_) => Err(WordFault::Memory),
        }
    }
}
