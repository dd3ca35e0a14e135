//! Lines: the request that a line asks for, and the line of a reply.
//!
//! `reading` reads the request of a line; if there is none, it tells whether the line is no JSON or
//! no request. `commands` matches the command's word and reads the keys that have to follow it; the
//! definition is the table in specs/Inner/Commands. `members` takes the members of a line one after
//! another, token by token.
//!
//! `reply` writes a reply. `accepted` joins a reply that has only numbers and a command's word from
//! constant texts; refusals and looks are written token by token, with a `line_writer`.
#![tactic(auto)]

mod accepted;
mod commands;
pub mod line_writer;
pub mod members;
pub mod reading;
pub mod reply;
pub mod request;
