//! The meaning of cells: what each cell of a kernel's table follows from, and what it is in a
//! reaction.
//!
//! A cell says one thing of an instant: whether a statement is begun, whether it gives a code,
//! whether a signal is present. `specs/` defines the sheets of cells (`Tables`), the gates by which
//! a cell follows from others (`Gates`), what Must and Can say of each cell (`Meaning`, `Whole`),
//! and its value in a reaction, by the derivation (`Values`, `Decided`).
//!
//! The functions of `laws` promise that these fit together. What the gates decide agrees with Must
//! and Can; and where the gates decide nothing more, all that Must and Can decide is decided. So an
//! engine that follows the gates until nothing changes has found the reaction, or there is none.
#![tactic(auto)]

pub mod laws;
