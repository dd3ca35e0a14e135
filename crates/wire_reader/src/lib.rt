//! The two sides of a connection's bytes: the lines that any reader gives, and the replies that
//! wait to be written.
//!
//! `lines` cuts what a reader gives into lines, in a fixed buffer, whatever the sizes of the reads.
//! `replies` gathers replies in a fixed buffer and writes them in order, whatever parts the writer
//! takes. `meter` wraps a reader or a writer: it counts how often the device failed, and lets a
//! bounded number of reads through. `exchange` brings both sides together: what waits is written
//! before a read that could wait. `serving` answers the lines of a connection to its end, by
//! whatever answers lines. All memory but that of the answers is taken when the buffers are made.
#![tactic(auto)]

pub mod exchange;
pub mod lines;
pub mod meter;
pub mod replies;
pub mod serving;
