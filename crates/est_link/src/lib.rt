//! Linking: the flat main module of a library, its runs replaced and each name bound to the number
//! of its binder.
//!
//! `link` asks all checks first (`est_checks`). Then it builds the body of main and of each module
//! that main runs, each after those that it runs. Runs stay open there (`open_body`) until, last of
//! all, main's body is closed. `specs/Linking` says what a flat body is, `specs/FlatModules` what
//! `link` answers; `laws`, that there is one answer.
#![tactic(auto)]

mod bindings;
mod body_table;
mod bound_runs;
mod bound_tests;
mod closing;
mod flatten;
pub mod laws;
pub mod link;
pub mod linked_module;
mod local_names;
mod main_module;
mod meaning;
mod module_bodies;
mod needed;
mod numbers;
mod open_body;
mod run_meanings;
mod scope;
mod signal_meanings;
mod signal_table;
mod used_signals;
mod watch;
