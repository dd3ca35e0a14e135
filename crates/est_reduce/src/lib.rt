//! From the statements of Pure Esterel to the kernel: flat modules, in which every name is bound
//! and nothing is run, and the kernel statement that each of their statements stands for.
//!
//! It promises that every name of a flat module is bound (`IsBound`), and that `reduce` answers the
//! kernel of the module by the table of reductions (`specs/Reductions.antt`), or the first limit
//! that it passes, or that a loop takes no time.
#![tactic(auto)]

pub mod body;
mod builder;
pub mod fault;
pub mod flat;
pub mod laws;
mod pieces;
pub mod reduce;
mod size;
