//! The order of the modules of a library, over their places alone.
//!
//! A list has, for each module, the places of those that it runs (`RunRows`). `order_modules` puts
//! the places into an order in which each stands after all that it runs, or answers the first from
//! which a chain of runs leads back to it. It takes as long as a search over all modules and runs
//! and a sort of the places. It doesn't call itself, so a long chain takes no more stack.
//!
//! The search gives each module a level (`level_guess`). It isn't proved: the levels are a guess,
//! and the code checks them before it relies on them (`levels`). So the answer is proved, and the
//! time isn't. Were the levels wrong, a search for each module would give others (`ranks`).
#![tactic(auto)]

mod level_guess;
mod levels;
pub mod order_fault;
pub mod place_order;
mod ranks;
mod reach;
