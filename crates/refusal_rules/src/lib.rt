//! Refusals: by which rules a command is refused, and what a refusal tells.
//!
//! The definitions stand in `specs/`, and nothing here runs. They are over any refusal and any
//! answer.
//!
//! - A rule (specs/Rules) says when it refuses and with which refusal, and what it hands on where
//!   it lets pass. The answer by an ordered list of rules is the refusal of the first that doesn't
//!   let pass; or the command is accepted. The crates above say by them what they answer, and take
//!   the lemmas of `proofs/`.
//! - A row (specs/Rows) is a refusal's number, its name, and what it names under each key. A layer
//!   that refuses (the policy, the module, the desk) gives each of its refusals one row, in one
//!   table of its own; the writer of lines spells a row and knows no refusal. That a table tells
//!   its refusals apart, by number and fields alone, is each layer's law.
#![tactic(auto)]

pub mod laws;
