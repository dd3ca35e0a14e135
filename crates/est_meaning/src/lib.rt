//! The meaning of kernel terms, after Berry's constructive semantics of Pure Esterel.
//!
//! The definitions stand in `specs/`: environments and what is known of a signal, what a term must
//! and can do, the behaviour rules, the rounds over the outputs, the reaction to the inputs of an
//! instant, and the term that a state stands for. The functions of `laws` promise that these fit
//! together. `signal_set` keeps a set of signals as masks, and what is known of each signal as two
//! such sets.
#![tactic(auto)]

pub mod laws;
pub mod signal_set;
pub mod status;
