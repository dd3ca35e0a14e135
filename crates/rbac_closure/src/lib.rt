//! The order of roles: sets of roles, and the edges between roles with all that lies below and
//! above each.
//!
//! A role is named by its place in a table. How many places there are, and the word that a set of
//! them fits in, stand in `role_sets` alone.
#![tactic(auto)]

pub mod hierarchy;
pub mod role_sets;
