//! What public calls of the server's crates answer, by their contracts.
//!
//! Of `policy_board` and `slot_table`: boards, seats, slots and their closing. Of `audit_report`
//! and `est_left`: audits, and the terms that they compare. Of `server_threads` and
//! `program_words`: threads, and the words of the command line.
//!
//! Each function makes one public call of these crates and has the contract of that call. A wrong
//! body of must-fail/ makes a mistake in what is asked or answered there, and so shows that the
//! contract refuses that answer. The wrong bodies stand here, since the prover reads a whole crate
//! for each of them, and this one is small. The tests of `server_tests` call these functions, so
//! that a worked example fails with each mistake.
#![tactic(auto)]

pub mod audits;
pub mod boards;
pub mod closing;
pub mod seats;
pub mod slots;
pub mod terms;
pub mod threads;
pub mod words;
