//! The rules of one connection: a client logs in, is answered line by line, and is logged out at
//! its end.
//!
//! `serving` answers the lines of one connection, over any reader and writer, and logs out at its
//! end, or hands the login back if memory is refused for that. `connections` asks again until that
//! logout is done. `login` is a session that someone has to end.
//!
//! `desk` is what commands are asked of; `shared_desk` is the desk of a worker, at a board and a
//! table that all workers share. `workers` runs a thread for each seat, which serves the
//! connections of a `source` one after another.
#![tactic(auto)]

pub(crate) mod answer;
pub mod connections;
pub mod desk;
pub(crate) mod line_answerer;
pub mod login;
pub mod serving;
pub mod shared_desk;
pub mod source;
pub mod workers;
