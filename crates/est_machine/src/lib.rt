//! A module that runs without a journal, for programs that hold their own inputs and outputs.
//!
//! A `Machine` reacts to a mask of inputs, stays as it was where it refuses them, and goes back to
//! its beginning. Where it stands can be kept as words and restored later, in a machine of the same
//! module alone. A reaction takes no memory. The contracts promise that its outputs and what is
//! left are those of the constructive reaction, and which fault decided each refusal.
#![tactic(auto)]

mod input_checks;
pub mod machine;
pub mod refusal;
mod saved;
mod valid_states;
