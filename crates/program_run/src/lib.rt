//! A run of the program, over any words and streams.
//!
//! With `script`, standard input and standard output are one connection, which `client_loop`
//! serves. With `serve`, `server` serves the connections of a socket (`socket`). `run` is both.
//! `program_words` reads the words, `reports` writes the report of an audit, and `fault` says how
//! the program ends.
//!
//! It is a library, so that the prover has less to read for each of its wrong bodies than it has
//! for a program: for that it reads all that the program is linked from.
#![tactic(auto)]

pub mod fault;
pub mod reports;
pub mod run;
pub mod server;
pub mod socket;
