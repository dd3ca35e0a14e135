//! The command line of the program: which words are an invocation, and which invocation they are.
//! An invocation is `script` or `serve`, with its options.
//!
//! `clap` reads the words. Its contracts say what it makes of any words, so they determine the
//! invocation: `specs/Words` says which, and `Invocation::from_words` answers exactly that.
#![tactic(auto)]

pub mod fault;
pub mod invocation;
pub mod laws;
pub mod words;
