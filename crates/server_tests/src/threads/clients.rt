//! Clients over memory: one for each worker.
ghost use Rattle.std.specs.Prelude.{⊤};

use crate::threads::meeting::Meeting;
use client_loop::source::{Connection, Served, Source};
use std::io;
use std::io::{Read, Write};
use std::sync::atomic::{AtomicBool, AtomicU64, Ordering};
use std::time::Clock;
use wire_reader::serving::EndReason;

/// A client: what it sends, whether a worker has its connection, whether that was served to the end
/// of its lines, and how many answers it got.
#[derive(Drop)]
pub(crate) struct Client {
    lines: &'static str,
    is_served: AtomicBool,
    is_closed: AtomicBool,
    accepted: AtomicU64,
    refused: AtomicU64,
}

impl Client {
    /// One that sends these lines.
    pub(crate) fn new(lines: &'static str) -> Client {
        Client {
            lines,
            is_served: AtomicBool::new(false),
            is_closed: AtomicBool::new(false),
            accepted: AtomicU64::new(0),
            refused: AtomicU64::new(0),
        }
    }

    /// Whether its connection was served to the end of its lines.
    pub(crate) fn is_closed(&self) -> bool {
        self.is_closed.load(Ordering::SeqCst)
    }

    /// How many of its commands were accepted, and how many were refused.
    pub(crate) fn counts(&self) -> (u64, u64) {
        (
            self.accepted.load(Ordering::SeqCst),
            self.refused.load(Ordering::SeqCst),
        )
    }
}

/// Gives this worker the lines of a client, as many bytes as fit. Before each read the worker comes
/// to the meeting.
#[derive(Drop)]
pub(crate) struct Lines<'a, R> {
    bytes: &'static [u8],
    worker: usize,
    meeting: &'a Meeting<'a, R>,
}

impl<R: Clock> Read for Lines<'_, R> {
    fn read(&mut self, buf: &mut [u8]) -> io::Result<usize> {
        self.meeting.come_to_read(self.worker);
        let count = self.bytes.len().min(buf.len());
        let (prefix, rest) = self.bytes.split_at(count);
        buf[..count].copy_from_slice(prefix);
        self.bytes = rest;
        Ok(count)
    }
}

/// Counts the answers to a client: a refusal has a `"fault"`, and no other answer here has a text
/// that begins with f. The meeting is told that this worker wrote them.
#[derive(Drop)]
pub(crate) struct Answers<'a, R> {
    worker: usize,
    meeting: &'a Meeting<'a, R>,
    client: &'a Client,
    is_refusal: bool,
    last: u8,
}

impl<R> Answers<'_, R> {
    /// Takes in one byte.
    fn take(&mut self, byte: u8) {
        if byte == b'\n' {
            let count = if self.is_refusal {
                &self.client.refused
            } else {
                &self.client.accepted
            };
            count.fetch_add(1, Ordering::SeqCst);
            self.is_refusal = false;
        } else if self.last == b'"' && byte == b'f' {
            self.is_refusal = true;
        }
        self.last = byte;
    }
}

impl<R: Clock> Write for Answers<'_, R> {
    fn write(&mut self, buf: &[u8]) -> io::Result<usize> {
        for byte in buf {
            self.take(*byte);
        }
        self.meeting.note_answers(self.worker);
        Ok(buf.len())
    }

    fn flush(&mut self) -> io::Result<()> {
        Ok(())
    }
}

/// Gives each worker the connection of its client, once. All workers come to one meeting.
#[derive(Drop)]
pub(crate) struct Clients<'a, R> {
    pub clients: &'a [Client],
    pub meeting: &'a Meeting<'a, R>,
}

impl<'a, R: Clock + Sync> Source for Clients<'a, R> {
    type Reader = Lines<'a, R>;

    type Writer = Answers<'a, R>;

    ghost gave = { λ worker number connection. ⊤ };

    ghost took = { λ worker number served. ⊤ };

    fn accept(
        &self,
        worker: usize,
        _number: u64,
    ) -> Option<Connection<Lines<'a, R>, Answers<'a, R>>> {
        let client = self.clients.get(worker)?;
        if client.is_served.swap(true, Ordering::SeqCst) {
            return None;
        }
        Some(Connection {
            reader: Lines {
                bytes: client.lines.as_bytes(),
                worker,
                meeting: self.meeting,
            },
            writer: Answers {
                worker,
                meeting: self.meeting,
                client,
                is_refusal: false,
                last: 0,
            },
        })
    }

    fn take_back(&self, worker: usize, _number: u64, served: Served<Lines<'a, R>, Answers<'a, R>>)
        ensures { ⊤ }
    {
        if let Some(client) = self.clients.get(worker) {
            let is_closed = served.why == EndReason::Closed;
            client.is_closed.store(is_closed, Ordering::SeqCst);
        }
    }
}
