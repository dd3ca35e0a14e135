//! Runs of events: policy commands and commands on slots in any order, what they are answered, and
//! what they leave.
//!
//! A moment is an event with its reply and the state before and after it; a run is a list of
//! moments that follow one another from the opening state on. `run_events` makes the run of a list
//! of events, and `laws` states what holds of each moment of each run.
#![tactic(auto)]

pub mod event;
mod event_desk;
pub mod laws;
pub mod run;
