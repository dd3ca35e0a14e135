//! The answers to commands on slots and on the policy, judged by the permissions of the session
//! that gives them.
//!
//! A `Policy` is tables that represent a list of accepted entries. `decide_slot` answers one
//! command on one slot as the slot step does on that list. `Single` is a policy with its list and
//! sixteen slots, for one owner, without locks: each accepted command but a look and an audit adds
//! exactly one entry to exactly one of the lists, and each refused one changes nothing.
//!
//! A `Reply` is a refusal, or what an accepted command answers; it shows no signal that its session
//! may not observe. A `Refusal` has a number, a name and what decided it.
#![tactic(auto)]

pub mod admission;
pub mod command;
pub mod laws;
pub mod refusal;
pub mod reply;
mod shown;
pub mod single;
pub mod slot;
pub mod slot_step;
