//! The checks of a library of modules that is to be linked: its first fault, or that it has none.
//!
//! Most checks are asked of each place of a body in the order of the text, and answer the first
//! that has their fault (`place_check`). Others look at the names of modules and interfaces, at who
//! runs whom, and at the relations and the limits of the main module. `check_library` asks all
//! checks in their order, before any run is replaced by the module that it runs: so its time
//! depends on the text, and not on what the text would be with all runs replaced.
//! `specs/FirstFaults` says which fault is the first; `laws`, that there is only one.
#![tactic(auto)]

mod allowed_names;
pub mod around_order;
pub mod bad_renamings;
mod declared_names;
pub mod duplicates;
pub mod emission;
mod emitted_numbers;
pub mod fault;
pub mod input_emissions;
pub mod interface_names;
pub mod lawless_relations;
pub mod laws;
pub mod library_check;
mod limits;
pub mod missing_modules;
pub mod module_emissions;
pub mod place_check;
pub mod run_emissions;
mod run_names;
pub mod statement_count;
pub mod unknown_names;
mod word_count;
