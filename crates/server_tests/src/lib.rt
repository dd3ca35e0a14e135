//! The worked examples of the server, as far as no command line and no line of the protocol shows
//! them, through public calls alone.
//!
//! Of the policy: what it says of entries that it takes in, of which no server accepts some
//! (`policies`), as many sessions as may live (`sessions`), and what the seats of a board keep
//! (`board`); all else that commands on it come to is a story of tests/journals. Of slots: runs of
//! events by several seats, each judged at a version of its own (`events`), an instant that is
//! given up (`instants`), journals and receipts that fit or don't (`merges`), audits of journals as
//! they are and changed (`audit`), and the table of slots that threads share, up to its closing
//! (`table`). Of connections: devices that cut anywhere or fail (`protocol`), and threads that
//! serve side by side (`threads`). A full policy list, and session numbers that are used up
//! (`used_up`), take a million calls: seconds as `rt ci` builds them, and many minutes where `rt
//! try` checks each step.
//!
//! Where a command is asked for, it is a line of the protocol, and so is what it is told (`lines`).
//!
//! This crate has tests and what they need, nothing else, and stands above the crates that it
//! calls, so that each of those is proved once. It is one crate, since each costs a minute or two
//! before its first function.
#![tactic(auto)]

#[cfg(test)]
mod audit;
#[cfg(test)]
mod board;
#[cfg(test)]
mod events;
#[cfg(test)]
mod instants;
#[cfg(test)]
mod lines;
#[cfg(test)]
mod merges;
#[cfg(test)]
mod policies;
#[cfg(test)]
mod protocol;
#[cfg(test)]
mod sessions;
#[cfg(test)]
mod table;
#[cfg(test)]
mod threads;
#[cfg(test)]
mod used_up;
#[cfg(test)]
mod words;
