//! Module texts and what the reader answers to them, `lex` and then `parse`, as far as no line of
//! the protocol shows it: where a unit too many is opened, and trees.
mod nesting;
mod trees;

use crate::told::expect_holds;
use est_syntax::parse::{ParseFault, parse};
use est_text::lex::{LexFault, lex};
use std::alloc::Global;
use std::process::Abort;

/// What the reader answers to a text: a word, and of a fault its line and its column.
type Answer = (&'static str, u64, u64);

const ACCEPTED: Answer = ("accepted", 0, 0);

/// The text of a module around a body.
fn module_of(rt: &impl Abort, alloc: Global, body: &str) -> String {
    format!(in alloc; "module M: {body} end module").expect(rt, "room")
}

/// The answer to a text.
fn answer_of(alloc: Global, text: &str) -> Answer {
    let tokens = match lex(alloc, text) {
        Ok(tokens) => tokens,
        Err(LexFault::Lexical(place)) => return ("lexical", place.line, place.column),
        Err(LexFault::Memory) => return ("memory", 0, 0),
    };
    match parse(alloc, &tokens) {
        Ok(_) => ACCEPTED,
        Err(ParseFault::Syntax(place)) => ("syntax", place.line, place.column),
        Err(ParseFault::TooLarge(place)) => ("too large", place.line, place.column),
        Err(ParseFault::Memory) => ("memory", 0, 0),
    }
}

/// Fails where a text has another answer.
fn expect_answer(rt: &impl Abort, alloc: Global, text: &str, answer: Answer) {
    expect_holds(rt, answer_of(alloc, text) == answer, text);
}
