//! A running module and its journal.
//!
//! A `Journal` is the list of what was accepted in one slot, each entry with the policy version
//! that it was judged at and the session that gave it. A `Reactor` is a journal whose last load
//! still runs: it offers and discards inputs, and steps, until it is unloaded. Each of these adds
//! one entry where it is accepted. A reactor also shows instants, which adds none. The contracts
//! promise that state, pending inputs and instants are those that the journal means, that a step's
//! outputs and next state are those of the constructive reaction, and that a refusal leaves journal
//! and reactor as they were.
#![tactic(auto)]

pub mod entry;
pub mod journal;
pub mod kernel_module;
pub mod laws;
pub mod nesting;
pub mod reactor;
pub mod reading;
pub mod refusal;
pub mod text;
