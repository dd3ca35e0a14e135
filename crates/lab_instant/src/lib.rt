//! What happens inside an instant: what began, what went on, and what each local signal is.
//!
//! After a run the table of cells says of each statement whether it was begun and which code it
//! gave, and of each local signal whether it is present. Here that is read off the table, cell by
//! cell, in the order of the cells. After a Stuck those cells are open that the meaning leaves
//! open.
#![tactic(auto)]

pub mod instant;
pub mod laws;
mod list;
mod owners;
mod reading;
pub mod seen;
