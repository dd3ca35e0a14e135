//! The table of cells of a kernel.
//!
//! Each statement stands in the table once for each incarnation, with one cell for whether it is
//! begun, one for each code that it may give, and one for the status of its local signal. Each
//! signal that may be emitted has a cell too. `Net::build` promises a table of exactly these cells,
//! all of them open. A cell is decided once, by one assignment, which changes no other cell.
//!
//! Beside it the table keeps what is known of each statement before any instant (`extents`), and a
//! guess in which order the sides of a `||` are best looked at (`side_order`).
#![tactic(auto)]

mod cell_set;
pub mod emissions;
pub mod extents;
pub mod laws;
pub mod net;
pub mod owners;
pub mod pause_run;
pub mod reach;
mod reading;
pub mod side_order;
mod table;
