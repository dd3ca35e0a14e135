//! Claims of all runs of a module, as texts.
//!
//! `asking` reads a test, and `claims` a claim, which is `never T` or `always T` of a test T.
#![tactic(auto)]

mod asking;
pub mod claims;
