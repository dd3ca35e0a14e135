//! What `make bench` times: what is done with texts, the engines, a policy, and an echo.
//!
//! `benches WORK COUNT < TEXT` does a work as often as the count says, and prints a line:
//!
//! - `lex`, `parse`, `load`: a text is cut into its tokens; its tree is read too; its module `M` is
//!   made a kernel (src/texts.rt);
//! - `plain`, `micro`: a module runs for that many instants on the plain engine or on the microstep
//!   engine (src/alone.rt); `pairs`: on both, instant by instant (src/pairs.rt); `tables`: on the
//!   microstep engine, with each cell of each instant (src/tables.rt);
//! - any other word is asked of a policy (src/policies.rt).
//!
//! `benches` alone takes each line of its input for a work, its count and its text.
//! `benches echo` sends back what comes in (src/echo.rt).
//!
//! Proved: that it is safe, whatever its words and its input, that all but the echo ends, and that
//! what it calls may be called so. No clause speaks of the printed lines, of how often a work is
//! done, or of time, which is taken from outside (`bench/`).
#![tactic(auto)]

mod alone;
mod cases;
mod echo;
mod office;
mod pairs;
mod policies;
mod tables;
mod texts;

use crate::alone::run_alone;
use crate::echo::send_back;
use crate::pairs::run_pair;
use crate::policies::ask_again;
use crate::tables::run_tables;
use crate::texts::read_again;
use anyhow::{Result, bail};
use std::alloc::Global;
use std::{env, io};

/// A number of the command line or of a line of the input.
fn number(word: &str) -> Result<u64> {
    let Ok(number) = u64::from_str_radix(word, 10) else {
        bail!("{word} is no number");
    };
    Ok(number)
}

/// Does a work as often as the count says, and prints its line.
fn work(rt: &(impl Alloc<A = Global> + Print), word: &str, count: u64, text: &str) -> Result<()> {
    match word {
        "lex" | "parse" | "load" => read_again(rt, word, count, text),
        "plain" | "micro" => run_alone(rt, word, count, text),
        "pairs" => run_pair(rt, count, text),
        "tables" => run_tables(rt, count, text),
        _ => ask_again(rt, word, count),
    }
}

/// Does the work of a line: its word, its count and its text, with blanks between them.
fn work_line(rt: &(impl Alloc<A = Global> + Print), line: &str) -> Result<()> {
    let Some((word, rest)) = line.split_once(' ') else {
        bail!("no work: {line}");
    };
    let (count, text) = rest.split_once(' ').unwrap_or((rest, ""));
    work(rt, word, number(count)?, text)
}

fn main(rt: HostRuntime) -> Result<()> {
    let mut words = env::args(&rt)?.skip(1);
    let (first, second) = (words.next(), words.next());
    match first {
        Some(word) => match second {
            Some(count) => {
                let text = io::read_to_string(rt.alloc(), rt.reader())?;
                work(&rt, word.as_str(), number(count.as_str())?, text.as_str())
            }
            None => {
                if word.as_str() != "echo" {
                    bail!("{word} takes a count");
                }
                send_back(&mut rt.reader(), &mut io::writer(&rt))
            }
        },
        None => {
            let text = io::read_to_string(rt.alloc(), rt.reader())?;
            for line in text.as_str().lines() {
                work_line(&rt, line)?;
            }
            Ok(())
        }
    }
}
