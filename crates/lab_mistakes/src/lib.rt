//! What the public calls of `lab_lines`, `lab_claims` and `lab_run` answer, by their contracts.
//!
//! Each function makes one public call of these crates and has the contract of that call. A wrong
//! body of must-fail/ makes a mistake in what is asked or answered there, and so shows that the
//! contract refuses that answer. The wrong bodies stand here, since the first of a crate takes the
//! whole proof of that crate, and this one is small. The tests of `language_tests` call these
//! functions, so that a worked example fails with each mistake.
#![tactic(auto)]

pub mod claims;
pub mod obeying;
pub mod telling;
