//! The program `estlab` as a library: a module is loaded, and then each line asks a question about
//! all its runs, or about one instant, and is answered by one line.
//!
//! It promises that each line is answered as `specs/Lines` says: a verdict is right for every run
//! of the loaded module, an instant is its reaction, and a line that is refused moves nothing.
//! Where the program ends by itself, its status is that of `specs/Statuses`.
//!
//! `answer` takes a line to its answer. It stands on `lab`, which does what is asked of what is
//! loaded, and `stepped_module`, which holds that, makes instants and goes back. `invocation` reads
//! the words of the command line, `status` says how the program ends, and `run` is the program.
#![tactic(auto)]

pub mod answer;
pub mod invocation;
pub mod lab;
pub mod run;
pub mod status;
pub mod stepped_module;
