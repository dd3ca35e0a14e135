//! Meters on a reader, a writer and an allocator. Each counts how often its device failed or
//! refused; that of a reader also lets only a bounded number of reads through.
ghost use Rattle.std.specs.Prelude.{◌≡◌, ◌≤◌, ◌<◌, ◌-◌, ◌⊎◌, length, take, true, MatchOption};
ghost use Rattle.std.specs.Prelude.{IfNone, IfSome, IfOk, OnOk, OnErr, IsTrue, IsFalse};
ghost use Rattle.std.specs.Io.KnownBytes.{Appends, Keeps};
ghost use Rattle.wire_reader.specs.Meters.{Reads, has_failed};
ghost use Rattle.wire_reader.specs.declared.meter.TheConstants.{MOST_READS};

use std::alloc::{AllocError, Global};
use std::io::{Read, Write};

/// The most reads that one meter lets through.
pub const MOST_READS: u32 = 1_000_000;

/// The most faults that one meter counts.
pub const MOST_FAULTS: u64 = u64::MAX;

/// The count of faults with one more. At its top it stays.
fn one_more(faults: u64) -> u64
    ensures { has_failed faults result ≡ true }
{
    if faults < MOST_FAULTS {
        faults + 1
    } else {
        faults
    }
}

/// A reader, with how many reads it still lets through, and how many have failed.
#[derive(Drop)]
pub struct MeteredReader<R> {
    device: R,
    left: u32,
    faults: u64,
}

impl<R> MeteredReader<R> {
    /// A meter on a reader that has let nothing through.
    pub fn new(device: R) -> Self
        ensures device { result.device ≡ device }
        ensures left { result.left ≡ MOST_READS }
        ensures faults { result.faults ≡ 0 }
    {
        MeteredReader {
            device,
            left: MOST_READS,
            faults: 0,
        }
    }

    /// How many reads it still lets through.
    pub fn reads_left(&self) -> u32
        ensures { result ≡ self.now.left }
    {
        self.left
    }

    /// How often the reader failed.
    pub fn faults(&self) -> u64
        ensures { result ≡ self.now.faults }
    {
        self.faults
    }
}

impl<R: Read> MeteredReader<R> {
    /// Reads once, and says how many bytes came, or none where the reader failed or no read is
    /// left.
    pub fn read(&mut self, room: &mut [u8]) -> Option<usize>
        ensures bound { IfSome result (λ n. n ≤ length room.new) }
        ensures bytes { Reads (R.remaining self.old.device) (R.remaining self.new.device)
            result room.new }
        ensures left { self.new.left ≡ self.old.left - 1 }
        ensures gave { IfSome result (λ _. (0 < self.old.left)
            × (self.new.faults ≡ self.old.faults)) }
        ensures stopped { IfNone result ((has_failed self.old.faults self.new.faults ≡ true)
            ⊎ (self.old.left ≡ 0)) }
        ensures spent { self.old.left ≡ 0 → self.new ≡ self.old }
    {
        if self.left == 0 {
            return None;
        }
        self.left -= 1;
        let Ok(count) = self.device.read(room) else {
            self.faults = one_more(self.faults);
            return None;
        };
        Some(count)
    }
}

/// A writer, and how often it failed or took nothing.
#[derive(Drop)]
pub struct MeteredWriter<W> {
    device: W,
    faults: u64,
}

impl<W> MeteredWriter<W> {
    /// A meter on a writer that was given nothing.
    pub fn new(device: W) -> Self
        ensures device { result.device ≡ device }
        ensures faults { result.faults ≡ 0 }
    {
        MeteredWriter { device, faults: 0 }
    }

    /// How often the writer failed or took nothing.
    pub fn faults(&self) -> u64
        ensures { result ≡ self.now.faults }
    {
        self.faults
    }

    /// The writer itself.
    pub fn into_device(self) -> W
        ensures { result ≡ self.device }
    {
        self.device
    }
}

impl<W: Write> MeteredWriter<W> {
    /// Writes once, and says how many bytes were taken, or none where the writer failed or took
    /// nothing.
    pub fn write(&mut self, bytes: &[u8]) -> Option<usize>
        ensures bound { IfSome result (λ n. (0 < n) × (n ≤ length bytes.now)) }
        ensures bytes { MatchOption result
            (Keeps (W.contents self.old.device) (W.contents self.new.device))
            (λ n. Appends (W.contents self.old.device) (W.contents self.new.device)
            (take n bytes.now)) }
        ensures took { IfSome result (λ _. self.new.faults ≡ self.old.faults) }
        ensures failed { IfNone result (has_failed self.old.faults self.new.faults ≡ true) }
    {
        match self.device.write(bytes) {
            Ok(0) | Err(_) => {
                self.faults = one_more(self.faults);
                None
            }
            Ok(count) => Some(count),
        }
    }

    /// Flushes the writer, and says whether it could.
    pub fn flush(&mut self) -> bool
        ensures bytes { Keeps (W.contents self.old.device) (W.contents self.new.device) }
        ensures flushed { IsTrue result → self.new.faults ≡ self.old.faults }
        ensures failed { IsFalse result → has_failed self.old.faults self.new.faults ≡ true }
    {
        if self.device.flush().is_err() {
            self.faults = one_more(self.faults);
            return false;
        }
        true
    }
}

/// An allocator, and how often it refused a buffer.
#[derive(Drop)]
pub struct MeteredMemory {
    alloc: Global,
    refusals: u64,
}

impl MeteredMemory {
    /// A meter on an allocator that was asked for nothing.
    pub fn new(alloc: Global) -> MeteredMemory
        ensures { result.refusals ≡ 0 }
    {
        MeteredMemory { alloc, refusals: 0 }
    }

    /// The allocator itself, for what is no buffer: what it refuses then is not counted.
    pub fn allocator(&self) -> Global {
        self.alloc
    }

    /// How often the allocator refused a buffer.
    pub fn refusals(&self) -> u64
        ensures { result ≡ self.now.refusals }
    {
        self.refusals
    }

    /// A buffer of `count` zeros.
    ///
    /// # Errors
    ///
    /// Where the allocator refused it, which is counted.
    pub fn zeros(&mut self, count: usize) -> Result<Vec<u8>, AllocError>
        ensures len { IfOk result (λ zeros. length zeros.items ≡ count) }
        ensures gave { OnOk result (self.new.refusals ≡ self.old.refusals) }
        ensures refused { OnErr result
            (has_failed self.old.refusals self.new.refusals ≡ true) }
    {
        match vec![in self.alloc; 0; count] {
            Ok(zeros) => Ok(zeros),
            Err(refused) => {
                self.refusals = one_more(self.refusals);
                Err(refused)
            }
        }
    }
}
