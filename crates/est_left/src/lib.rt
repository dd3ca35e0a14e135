//! Whether two states of a kernel's statement leave the same term.
//!
//! A state is a set of pauses, and several sets stand for one term: after `present S then pause
//! else pause end` both branches leave `nothing`. So terms are compared here, and not pauses.
#![tactic(auto)]

mod head;
pub mod order;
mod same_term;
mod same_test;
pub mod states;
