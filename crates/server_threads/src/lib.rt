//! Threads that work side by side. Each has a seat of its own, and takes a number of turns, or as
//! many as there are.
#![tactic(auto)]

pub mod workers;
