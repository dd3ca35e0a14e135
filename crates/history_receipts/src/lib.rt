//! What a seat keeps of its own calls: a receipt for each entry that they added, in the order of
//! the calls.
//!
//! The entries themselves stand in the journals. When a server is closed, its journals are compared
//! with the receipts of all seats, so that each entry is shown to be one that somebody asked for.
#![tactic(auto)]

pub mod mismatch;
pub mod receipt;
pub mod receipt_list;
