//! The comparison of a closed server's journals with the receipts that its seats keep: whether one
//! list of events has them all as its parts, and else where they differ.
//!
//! The receipts of all seats are merged into one order: by policy version, first the policy command
//! that made it, and then the slot commands by their numbers. The entry of each receipt has to
//! stand in its place. If there are then as many receipts as entries, each entry has exactly one
//! receipt. `compare` takes no memory, and a time that grows with the receipts and the seats alone.
#![tactic(auto)]

pub mod compare;
pub mod laws;
mod merge;
pub mod order;
mod places;
mod same;
