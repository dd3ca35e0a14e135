//! All that something does with the lawful sets of its inputs, by parts of them: signals that do
//! not matter are not enumerated.
//!
//! An instant is first asked by few of its inputs. An answer stands for all sets of inputs that are
//! the same where it was asked; else the part is split at a signal that was not asked.
#![tactic(auto)]

pub mod answered;
mod cover;
mod forced;
pub mod lawful_inputs;
mod part;
pub mod reactive;
