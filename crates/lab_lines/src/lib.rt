//! What is asked about all runs of a module, and what is answered, as JSON.
//!
//! `reading` reads the request of a JSON value, `instant_lines` that of an instant's line token by
//! token, and `offers` the signals that somebody may offer.
//! `asked_test` is a test over the signals of a module. `exploring` judges tests over all runs,
//! `comparing` compares two modules, and `table_json` gives the closed table; each answers a JSON
//! value, of which `found_json` makes the parts. `statements` lists the statements of a kernel.
//! `inside` writes the line of an instant from inside, with the `ties` of one that is stuck, token
//! by token; `line_parts` writes the names and the state in it. `refusal` has the numbers of the
//! lab's own refusals.
#![tactic(auto)]

pub mod asked_test;
pub mod comparing;
pub mod exploring;
pub mod found_json;
pub mod inside;
pub mod instant_lines;
mod line_parts;
pub mod offers;
mod pauses;
pub mod reading;
pub mod refusal;
pub mod request;
pub mod statements;
pub mod table_json;
mod ties;
