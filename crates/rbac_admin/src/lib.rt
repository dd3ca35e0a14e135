//! Whether a policy command is accepted, and else which refusal answers it.
//!
//! A `Policy` is tables that represent a list of accepted entries. `decide` answers a policy
//! command as the policy step does on that list: with the command's entry, or with the first
//! refusal. `rules` has a test for each rule of refusal, and `room` tells whether the list has room
//! for an entry.
#![tactic(auto)]

pub mod laws;
pub mod policy_step;
pub mod refusal;
pub mod room;
mod rules;
