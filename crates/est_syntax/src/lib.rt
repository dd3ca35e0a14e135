//! The grammar of Pure Esterel: from the tokens of a text to its tree.
//!
//! `parse` answers the tree that the tokens are spelt from, or the first place where they stop
//! being the beginning of a library. The definitions in `specs/` say which tokens a library is
//! spelt with (`Grammar`) and which token is the first with which the tokens so far begin no
//! library, or opens one unit too many (`Faults`). `laws` says that the grammar is unambiguous, and
//! that there is one first fault.
#![tactic(auto)]

mod closings;
mod cursor;
mod declarations;
mod expressions;
mod fault;
pub mod laws;
mod modules;
mod names;
pub mod parse;
mod statements;
pub mod tree;
mod units;
