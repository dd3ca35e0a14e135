//! What all runs of a module have in common: whether it always reacts, whether tests hold in each
//! instant, and whether two modules do the same.
//!
//! It promises that a verdict is right (`specs/Verdicts`): *holds* is said of every finite run of
//! lawful inputs; *fails* gives a shortest run that shows it; *too many* says that the limits were
//! met, and nothing else. The definitions speak of terms of the semantics, not of states of an
//! engine.
//!
//! `judge` judges claims on one module, `comparison` compares two. Both are one search of
//! `state_search` over a system (`one_module`, `two_modules`); `est_cover` splits the inputs only
//! where a reaction depends on them. `table` hands out what the search found: each state with its
//! reactions.
#![tactic(auto)]

pub mod claim;
pub mod comparison;
pub mod judge;
pub mod one_module;
pub mod reads;
pub mod table;
pub mod two_modules;
pub mod verdict;
