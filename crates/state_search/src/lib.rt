//! A search of all states that a transition system reaches, breadth first.
#![tactic(auto)]

pub mod found;
mod places;
pub mod search;
pub mod transition_system;
pub mod word;
