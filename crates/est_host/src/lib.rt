//! A machine for a program in another language: it is loaded from bytes, and asked by numbers.
//!
//! `loading` reads a module and tells the fault of one that is refused, with the server's number.
//! `answering` answers each question about a machine that runs, and takes no memory. What is asked
//! and told are numbers, since C has nothing else in common with this language.
#![tactic(auto)]

pub mod answering;
pub mod loading;
pub mod question;
pub mod running;
