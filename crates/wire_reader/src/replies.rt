//! Replies that wait to be written, in a fixed buffer.
//!
//! They are written in order, and before a read that could wait. A writer may take a text in parts.
ghost use Rattle.std.specs.Prelude.{◌≡◌, ◌≤◌, ◌+◌, ◌++◌, [], length, take, true, IfOk, OnOk, OnErr};
ghost use Rattle.std.specs.Io.KnownBytes.{Appends};
ghost use Rattle.wire_reader.specs.Meters.{has_failed};
ghost use Rattle.wire_reader.specs.Writing.{WritesUpTo, WritesFront};
ghost use Rattle.wire_reader.specs.declared.replies.TheConstants.{REPLY_BUFFER_BYTES};

use crate::meter::{MeteredMemory, MeteredWriter};
use std::alloc::AllocError;
use std::io::Write;

/// How many bytes may wait.
const REPLY_BUFFER_BYTES: usize = 65_536;

/// The writer failed, or took nothing.
#[derive(Clone, Copy, PartialEq, Eq)]
pub struct WriteFault;

/// Writes a text, in parts where the writer takes no more at once.
fn put<W: Write>(writer: &mut MeteredWriter<W>, text: &[u8]) -> Result<(), WriteFault>
    ensures ok { OnOk result (Appends (W.contents writer.old.device)
        (W.contents writer.new.device) text.now) }
    ensures err { OnErr result (WritesFront (W.contents writer.old.device)
        (W.contents writer.new.device) text.now) }
    ensures failed { OnErr result (has_failed writer.old.faults writer.new.faults ≡ true) }
    ensures unfailed { OnOk result (writer.new.faults ≡ writer.old.faults) }
{
    let mut rest = text;
    while !rest.is_empty() {
        let Some(count) = writer.write(rest) else {
            return Err(WriteFault);
        };
        rest = rest.split_at(count).1;
    }
    Ok(())
}

/// Copies a text to a place.
fn copy_at(bytes: &mut Vec<u8>, at: usize, text: &[u8])
    requires { at + length text.now ≤ length bytes.old.items }
    ensures len { length bytes.new.items ≡ length bytes.old.items }
    ensures placed { take (at + length text.now) bytes.new.items
        ≡ take at bytes.old.items ++ text.now }
{
    bytes[at..at + text.len()].copy_from_slice(text);
}

/// Replies that wait, in the order of their lines. The buffer never grows: what finds no room
/// is written out.
#[derive(Drop)]
pub struct ReplyBuffer {
    bytes: Vec<u8>,
    filled: usize,
    ghost room: { length bytes.items ≡ REPLY_BUFFER_BYTES },
    ghost within: { filled ≤ REPLY_BUFFER_BYTES },
}

impl ReplyBuffer {
    ghost use Rattle.wire_reader.specs.Replies.{waiting_bytes};

    /// No reply waits. This takes all the memory that is ever needed.
    pub fn new(memory: &mut MeteredMemory) -> Result<ReplyBuffer, AllocError>
        ensures empty { IfOk result (λ r. waiting_bytes r ≡ []) }
        ensures gave { OnOk result (memory.new.refusals ≡ memory.old.refusals) }
        ensures refused { OnErr result
            (has_failed memory.old.refusals memory.new.refusals ≡ true) }
    {
        let bytes = memory.zeros(REPLY_BUFFER_BYTES)?;
        Ok(ReplyBuffer { bytes, filled: 0 })
    }

    /// Writes out all that waits.
    ///
    /// # Errors
    ///
    /// Where the writer failed or took nothing, and then a beginning of what waits was written.
    pub fn write_out<W: Write>(&mut self, writer: &mut MeteredWriter<W>) -> Result<(), WriteFault>
        ensures ok { OnOk result (Appends (W.contents writer.old.device)
            (W.contents writer.new.device) (waiting_bytes self.old)) }
        ensures none { OnOk result ((waiting_bytes self.new ≡ []) × (self.new.filled ≡ 0)) }
        ensures err { OnErr result (WritesFront (W.contents writer.old.device)
            (W.contents writer.new.device) (waiting_bytes self.old)) }
        ensures failed { OnErr result (has_failed writer.old.faults writer.new.faults ≡ true) }
        ensures unfailed { OnOk result (writer.new.faults ≡ writer.old.faults) }
    {
        if self.filled == 0 {
            return Ok(());
        }
        let Ok(()) = put(writer, &self.bytes[..self.filled]) else {
            return Err(WriteFault);
        };
        if !writer.flush() {
            return Err(WriteFault);
        }
        self.filled = 0;
        Ok(())
    }

    /// Lets a reply wait, for which there is room.
    fn hold(&mut self, text: &[u8])
        requires { self.old.filled + length text.now ≤ REPLY_BUFFER_BYTES }
        ensures { waiting_bytes self.new ≡ waiting_bytes self.old ++ text.now }
    {
        copy_at(&mut self.bytes, self.filled, text);
        self.filled += text.len();
    }

    /// Adds a reply. Where it finds no room, what waits is written out first, and a reply longer
    /// than the buffer with it.
    ///
    /// # Errors
    ///
    /// Where the writer failed or took nothing, and then a beginning of what waited and of the
    /// reply was written.
    pub fn add<W: Write>(
        &mut self,
        writer: &mut MeteredWriter<W>,
        text: &[u8],
    ) -> Result<(), WriteFault>
        ensures ok { OnOk result (WritesUpTo (W.contents writer.old.device)
            (W.contents writer.new.device) (waiting_bytes self.old ++ text.now)
            (waiting_bytes self.new)) }
        ensures err { OnErr result (WritesFront (W.contents writer.old.device)
            (W.contents writer.new.device) (waiting_bytes self.old ++ text.now)) }
        ensures failed { OnErr result (has_failed writer.old.faults writer.new.faults ≡ true) }
        ensures unfailed { OnOk result (writer.new.faults ≡ writer.old.faults) }
    {
        if text.len() <= REPLY_BUFFER_BYTES - self.filled {
            self.hold(text);
            return Ok(());
        }
        let Ok(()) = self.write_out(writer) else {
            return Err(WriteFault);
        };
        if text.len() <= REPLY_BUFFER_BYTES {
            self.hold(text);
            return Ok(());
        }
        let Ok(()) = put(writer, text) else {
            return Err(WriteFault);
        };
        Ok(())
    }
}
