//! A reader and a writer that take few bytes at once, and that fail at some of their calls.
use std::alloc::Global;
use std::io;
use std::io::{ErrorKind, Read, Write};

/// More calls or bytes than any test needs.
pub const AMPLE: usize = 1_000_000;

/// The calls of a device. Those from `first` on and before `end` fail, where the first of all is
/// number 0.
#[derive(Drop)]
pub struct Calls {
    made: usize,
    first: usize,
    end: usize,
}

impl Calls {
    /// Those of this number and later ones fail.
    pub fn that_fail_from(first: usize) -> Calls {
        Calls {
            made: 0,
            first,
            end: usize::MAX,
        }
    }

    /// The first alone fails.
    pub fn of_which_one_fails() -> Calls {
        Calls {
            made: 0,
            first: 0,
            end: 1,
        }
    }

    /// One more call is made. Whether it fails.
    fn fails_next(&mut self) -> bool {
        let number = self.made;
        self.made = number.saturating_add(1);
        self.first <= number && number < self.end
    }
}

/// Gives at most `step` of its bytes at once.
#[derive(Drop)]
pub struct Input<'a> {
    pub bytes: &'a [u8],
    pub step: usize,
    pub calls: Calls,
}

impl Read for Input<'_> {
    fn read(&mut self, buf: &mut [u8]) -> io::Result<usize> {
        if self.calls.fails_next() {
            return Err(io::Error::from(ErrorKind::Other));
        }
        let count = self.bytes.len().min(self.step).min(buf.len());
        let (prefix, rest) = self.bytes.split_at(count);
        buf[..count].copy_from_slice(prefix);
        self.bytes = rest;
        Ok(count)
    }
}

/// Takes at most eleven bytes at once.
#[derive(Drop)]
pub struct Output {
    pub written: Vec<u8>,
    calls: Calls,
}

impl Output {
    /// One that has taken nothing.
    pub fn new(alloc: Global, calls: Calls) -> Output {
        Output {
            written: Vec::new(alloc),
            calls,
        }
    }
}

/// How many bytes an output takes at once.
pub const STEP: usize = 11;

impl Write for Output {
    fn write(&mut self, buf: &[u8]) -> io::Result<usize> {
        if self.calls.fails_next() {
            return Err(io::Error::from(ErrorKind::Other));
        }
        let count = buf.len().min(STEP);
        match self.written.extend_from_slice(&buf[..count]) {
            Ok(()) => Ok(count),
            Err(_) => Err(io::Error::from(ErrorKind::OutOfMemory)),
        }
    }

    fn flush(&mut self) -> io::Result<()> {
        Ok(())
    }
}
