//! What an engine promises that reacts for a kernel, and a plain engine.
//!
//! `Engine` says it: an outcome exactly when the constructive semantics has a reaction, and else
//! exactly the undecided outputs. `PartEngine` says what an engine promises that reacts where only
//! some inputs are asked. `Rounds` keeps these promises for every kernel and takes no memory: it
//! goes over the whole program, round after round, until a round decides nothing more. It is slow.
//! The audit of journals and the tests ask it; servers run `est_micro`.
//!
//! `start` and `resume` say what a statement must do and can do, as `acts`. `step` and
//! `resume_step` are the step that it takes once each signal is decided.
#![tactic(auto)]

pub mod acts;
pub mod answer;
pub mod engine;
mod judged;
pub mod part_engine;
pub mod resume;
mod resume_step;
pub mod rounds;
mod start;
mod step;
