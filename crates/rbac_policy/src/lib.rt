//! The policy of role-based access control: what a list of accepted entries says, and the fixed
//! tables that stand for it. Tables stand for a list if each of their answers is what the list
//! says.
//!
//! `names`, `objects` and `commands` are plain data of fixed size, and `texts` reads and writes
//! them. `policy` takes entries into the tables, without memory; `tables` has the steps on single
//! tables. `queries` answers what has to be asked of a policy before a policy command is accepted,
//! and `separation` finds the separation set that is violated first. `journal` is the list of
//! entries, `opening` its first four, and `laws` is for proofs about lists.
#![tactic(auto)]

mod below;
pub mod commands;
pub mod journal;
pub mod laws;
pub mod names;
pub mod objects;
pub mod opening;
pub mod policy;
pub mod queries;
mod rows;
pub mod separation;
mod separation_sets;
pub mod sizes;
mod tables;
pub mod texts;
