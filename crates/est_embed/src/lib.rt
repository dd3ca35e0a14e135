//! The engine for C: a module that runs, behind one call.
//!
//! `est_load_module` reads a module from a text and hands out a machine; `est_ask` asks it
//! something. The header `estserve_react.h` has a function for each question. The contract of
//! `est_load_module` says that a machine lies at the pointer after status 0; that of `est_ask` that
//! one lies there before and afterwards, and what was answered.
#![tactic(auto)]

mod exports;
mod handed;
#[cfg(test)]
mod tests;
