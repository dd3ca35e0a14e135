//! The laws on what `history_merge` compares. Journals and receipts that are the parts of one list
//! of events are those of a run of exactly those calls, one at a time.
//!
//! So whatever order the threads of a server ran in, what stands in its journals and what its seats
//! keep receipts of is what clients that take turns could have done.
#![tactic(auto)]

pub mod laws;
