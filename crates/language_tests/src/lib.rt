//! The worked examples of the language, from texts to instants, through public calls alone, as far
//! as no line of the protocol shows them: texts, their tokens, trees and faults; kernels at their
//! limits and reductions; libraries that are linked (`linking`); whole programs on both engines,
//! those of the literature among them (`literature`); machines for C (`machines`); and claims over
//! all runs (`lab`). What lines show is a dialogue of tests/dialogues, or a test of tests/hostile
//! or tests/lab.
//!
//! This crate has tests and what they need, nothing else, and stands above the crates that it
//! calls, so that each of those is proved once. It is one crate, since each costs a minute or two
//! before its first function. A value that has to be let go is owned by few functions, which end in
//! one way only; the others borrow it.
#![tactic(auto)]

#[cfg(test)]
mod kernels;
#[cfg(test)]
mod lab;
#[cfg(test)]
mod linking;
#[cfg(test)]
mod literature;
#[cfg(test)]
mod machines;
#[cfg(test)]
mod microsteps;
#[cfg(test)]
mod modules;
#[cfg(test)]
mod openers;
#[cfg(test)]
mod owners;
#[cfg(test)]
mod parts;
#[cfg(test)]
mod pending;
#[cfg(test)]
mod reductions;
#[cfg(test)]
mod texts;
#[cfg(test)]
mod tokens;
#[cfg(test)]
mod told;
