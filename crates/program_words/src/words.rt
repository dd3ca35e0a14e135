//! The words of the command line, as `clap` reads them.
ghost use Rattle.std.specs.Prelude.{◌≡◌, IfOk, IfErr, map, codes};
ghost use Rattle.clap.specs.Words.{app_of, rule_of, rows_of, found_of};
ghost use Rattle.clap.specs.Words.{HasKind, fault_of, subcommand_rows_of};
ghost use Rattle.program_words.specs.Words.{flag_rule, option_rule, socket_rule, number_rule};
ghost use Rattle.program_words.specs.Words.{script_line, serve_line, command_line};
ghost use Rattle.program_words.specs.Words.{IsNamed, IsService, Gives, IsInvocation, IsRefused};
ghost use Rattle.program_words.specs.Words.{is_set, workers_in};
ghost use Rattle.program_words.specs.declared.invocation.TheConstants.{MOST_CONNECTIONS};
ghost use Rattle.program_words.specs.declared.invocation.TheConstants.{MOST_WORKERS};

use crate::fault::WordFault;
use crate::invocation::{Invocation, MOST_CONNECTIONS, MOST_WORKERS, ServeOptions, WorkerCount};
use clap::builder::ValueParser;
use clap::error::ErrorKind;
use clap::{Arg, ArgAction, ArgMatches, Command, Error};
use std::alloc::{AllocError, Global};
use std::convert::AsStr;

/// The version of the program: that of the file VERSION, as scripts/version.py writes it.
const VERSION: &str = "0.3.0";

/// A flag of this name.
fn flag<'a>(alloc: Global, name: &'a str, help: &'a str) -> Arg<'a>
    ensures { rule_of result ≡ flag_rule name.entry.now }
{
    Arg::new(alloc, name)
        .long(name)
        .help(help)
        .action(ArgAction::SetTrue)
}

/// The words of the invocation to serve standard input and standard output.
fn script_words<'a>(alloc: Global) -> Result<Command<'a>, AllocError>
    ensures { IfOk result (λ words. app_of words ≡ script_line) }
{
    let log = flag(
        alloc,
        "log",
        "Tells on standard error how the connection ended",
    );
    let report = flag(
        alloc,
        "report",
        "Ends with the report of an audit of the journals",
    );
    Command::new(alloc, "script")
        .about("Serves standard input and standard output as one connection")
        .arg(log)?
        .arg(report)
}

/// An option of this name, which has one value.
fn option<'a>(alloc: Global, name: &'a str, value: &'a str, help: &'a str) -> Arg<'a>
    ensures { rule_of result ≡ option_rule name.entry.now }
{
    Arg::new(alloc, name)
        .long(name)
        .value_name(value)
        .help(help)
        .action(ArgAction::Set)
}

/// The option that says where the socket is made.
fn socket_option<'a>(alloc: Global) -> Arg<'a>
    ensures { rule_of result ≡ socket_rule }
{
    option(alloc, "socket", "PATH", "Where the socket is made").required(true)
}

/// The option that says how many connections are served at a time.
fn workers_option<'a>(alloc: Global) -> Arg<'a>
    ensures { rule_of result ≡ number_rule (codes "workers") MOST_WORKERS }
{
    let help = "How many connections are served at a time, 4 where it isn't given";
    let numbers = ValueParser::unsigned(1, MOST_WORKERS as u64);
    option(alloc, "workers", "N", help).value_parser(numbers)
}

/// The option that says after how many connections a worker ends.
fn connections_option<'a>(alloc: Global) -> Arg<'a>
    ensures { rule_of result ≡ number_rule (codes "connections") MOST_CONNECTIONS }
{
    let help = "After how many connections each worker ends";
    let numbers = ValueParser::unsigned(1, MOST_CONNECTIONS);
    option(alloc, "connections", "C", help).value_parser(numbers)
}

/// The words of the invocation to serve the connections of a socket.
fn serve_words<'a>(alloc: Global) -> Result<Command<'a>, AllocError>
    ensures { IfOk result (λ words. app_of words ≡ serve_line) }
{
    Command::new(alloc, "serve")
        .about("Serves the connections of a Unix socket side by side")
        .arg(socket_option(alloc))?
        .arg(workers_option(alloc))?
        .arg(connections_option(alloc))
}

/// The words of the program.
fn program_words<'a>(alloc: Global) -> Result<Command<'a>, AllocError>
    ensures { IfOk result (λ words. app_of words ≡ command_line) }
{
    let script = script_words(alloc)?;
    let serve = serve_words(alloc)?;
    Command::new(alloc, "estserve")
        .about("Pure Esterel simulation under role-based access control, protocol version 1")
        .version(VERSION)
        .subcommand_required(true)
        .subcommand(script)?
        .subcommand(serve)
}

/// Whether the flag is set: it has the value `true` where it is used, and else `false`.
fn has_flag(matches: &ArgMatches<'_>, name: &str) -> bool
    ensures { result ≡ is_set name.now (rows_of (found_of matches.now)) }
{
    match matches.get_str(name) {
        Some(value) => value == "true",
        None => false,
    }
}

/// How many workers the words after `serve` ask for.
fn workers_of(matches: &ArgMatches<'_>) -> WorkerCount
    ensures { result ≡ workers_in (rows_of (found_of matches.now)) }
{
    match matches.get_one("workers") {
        Some(count) => WorkerCount::new(count).unwrap_or_default(),
        None => WorkerCount::default(),
    }
}

/// The service that the words after `serve` ask for.
fn service_of<'a>(matches: &ArgMatches<'a>) -> ServeOptions<'a>
    ensures { IsService (rows_of (found_of matches.now)) result }
{
    ServeOptions {
        path: matches.get_str("socket").unwrap_or(""),
        workers: workers_of(matches),
        connections: matches.get_one("connections"),
    }
}

/// The invocation that the matches name.
fn invocation_of<'a>(matches: &ArgMatches<'a>) -> Invocation<'a>
    requires { IsNamed (subcommand_rows_of matches.now) }
    ensures { Gives (subcommand_rows_of matches.now) result }
{
    if let Some(serve) = matches.subcommand_matches("serve") {
        return Invocation::Serve(service_of(serve));
    }
    match matches.subcommand_matches("script") {
        Some(script) => Invocation::Script {
            log: has_flag(script, "log"),
            report: has_flag(script, "report"),
        },
        None => unreachable!(),
    }
}

/// The invocation that the words give, of which the first is the program's own name.
fn parse<'a, S: AsStr>(alloc: Global, words: &'a [S]) -> Result<Invocation<'a>, Error>
    ensures ok { IfOk result (IsInvocation (map S.text words.entry.now)) }
    ensures err { IfErr result (HasKind (fault_of command_line (map S.text words.entry.now))) }
{
    let command = program_words(alloc)?;
    let matches = command.try_get_matches_from(words)?;
    Ok(invocation_of(&matches))
}

impl<'a> Invocation<'a> {
    /// The invocation that the words give, of which the first is the program's own name.
    ///
    /// # Errors
    ///
    /// - Words, where they are no invocation, or ask for help;
    /// - Memory, where memory was refused.
    pub fn from_words<S: AsStr>(alloc: Global, words: &'a [S]) -> Result<Invocation<'a>, WordFault>
        ensures ok { IfOk result (IsInvocation (map S.text words.entry.now)) }
        ensures refused { IfErr result (IsRefused (map S.text words.entry.now)) }
    {
        match parse(alloc, words) {
            Ok(invocation) => Ok(invocation),
            Err(error) if error.kind() == ErrorKind::OutOfMemory => Err(WordFault::Memory),
            Err(error) => Err(WordFault::Words(error)),
        }
    }
}
