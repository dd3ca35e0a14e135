//! Why an instant is stuck: what waits for each signal that is not decided, and what may still emit
//! it.
//!
//! After a Stuck exactly those cells are open that the meaning leaves open. A test is tied to an
//! open signal if it asks for it and is not answered, and an emission if it is open whether it is
//! begun. Both are read off the cells.
#![tactic(auto)]

mod local_ties;
mod place;
pub mod stuck;
pub mod tie;
mod ties;
