//! Where connections come from.
ghost use Rattle.std.specs.Prelude.{ℕ, IfSome};
ghost use Rattle.client_loop.specs.declared.source.Connection.{Connection};
ghost use Rattle.client_loop.specs.declared.source.Served.{Served};

use std::io::{Read, Write};
use wire_reader::meter::{MeteredMemory, MeteredReader, MeteredWriter};
use wire_reader::serving::EndReason;

/// A connection: what its client writes is read here, and what is written here its client reads.
#[derive(Drop)]
pub struct Connection<I, O> {
    /// The lines of its client.
    pub reader: I,
    /// The answers to its client.
    pub writer: O,
}

/// A connection that was served to its end.
#[derive(Drop)]
pub struct Served<I, O> {
    /// Why it ended.
    pub why: EndReason,
    /// The lines of its client, in the meter through which they were read.
    pub input: MeteredReader<I>,
    /// The answers to its client, in the meter through which they were written.
    pub output: MeteredWriter<O>,
    /// The memory that its buffers were asked of.
    pub memory: MeteredMemory,
}

/// Where workers get their connections. Workers, and the connections of each, are counted from 0.
///
/// A contract that speaks of any source knows nothing of `gave` and `took` but what `accept` and
/// `take_back` say. So whoever claims one of them has made that very call.
pub trait Source {
    /// The reading half of a connection.
    type Reader: Read + Send + Drop;

    /// The writing half of a connection.
    type Writer: Write + Send + Drop;

    /// This worker was given this connection, as the one of this number.
    ghost gave: { ℕ → ℕ → Connection Self.Reader Self.Writer → Type 0 };

    /// What was left of this worker's connection of this number was taken back.
    ghost took: { ℕ → ℕ → Served Self.Reader Self.Writer → Type 0 };

    /// A worker's connection of this number; none at the end, or where it could not be accepted.
    fn accept(&self, worker: usize, number: u64) -> Option<Connection<Self::Reader, Self::Writer>>
        ensures { IfSome result (λ connection. gave worker number connection) };

    /// Takes back what is left of a worker's connection of this number, which was served.
    fn take_back(&self, worker: usize, number: u64, served: Served<Self::Reader, Self::Writer>)
        ensures { took worker number served };
}
