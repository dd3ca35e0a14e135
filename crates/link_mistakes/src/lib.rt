//! What the public calls of `est_checks` and `est_link` answer, by their contracts; and one call of
//! `est_modules`, `callers_name`.
//!
//! Each function makes a public call of these crates and has the contract of that call, or it makes
//! a few calls in turn and says what they answer together. A wrong body of must-fail/ makes a
//! mistake in what is asked or answered there, and so shows that the contract refuses that answer.
//! The wrong bodies stand here, since the prover reads a whole crate for each of them, and this one
//! is small. The tests of `language_tests` call these functions, so that a worked example fails
//! with each mistake.
#![tactic(auto)]

pub mod bodies;
pub mod emitting;
pub mod faults;
