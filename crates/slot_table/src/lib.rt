//! The slots of a server, which many threads share: sixteen locks, and under each a slot with a
//! policy reader of its own.
//!
//! A command on a slot (`table`) takes that slot's lock alone, so that commands on two slots
//! proceed side by side. Under the lock (`slot`) the slot's own reader reads the policy. If the
//! list that it reads is shorter than the seat's seen number, the answer is Behind. Otherwise the
//! slot step answers the command on that list, which begins with all that this reader and the
//! caller's seat had seen. Whenever a lock is free, its journal is legal over the list that its
//! reader has seen.
//!
//! A reply that tells of an entry leaves its receipt with the seat (`receipts`). When the server is
//! closed (`closing`), its journals are given out only if they and the receipts of all seats are
//! the parts of one list of events. No clause says that a wait ends.
#![tactic(auto)]

pub mod closing;
pub mod conversions;
pub mod laws;
mod receipts;
mod slot;
pub mod table;
