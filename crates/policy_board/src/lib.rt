//! The board: one policy, which one writer at a time changes, and which any number of readers ask
//! without waiting.
//!
//! A server opens one board. Policy commands take turns under the admin lock (`board`). Each is
//! answered by the policy step on the whole list of accepted entries: it publishes its one entry,
//! or leaves the list unchanged. Permission checks take no lock: a seat (`seat`) asks its own
//! reader (`reader`). If the list that it reads is shorter than the seat's seen number, the answer
//! is Behind. Otherwise the list begins with all that the seat has seen and was told of. A slot's
//! reader gives the policy itself, with the list that it stands for.
//!
//! There is one list (`board_list`): whoever holds a prefix of it knows how it begins. An
//! acceptance has such a prefix, of which another seat may learn. No clause says that a wait ends,
//! or that a read finds an entry of which the seat was not told.
#![tactic(auto)]

pub mod board;
pub mod board_list;
pub mod board_name;
pub mod growth_rule;
mod locked_policy;
pub mod opening;
mod published;
mod publisher;
pub mod reader;
pub mod refusal;
pub mod seat;
pub mod sharing;
