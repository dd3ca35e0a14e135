//! What does a round trip over a Unix socket cost where nothing is done? Sends back what comes in,
//! where standard input and output are a socket. No clause speaks of what passes.

use anyhow::Result;
use std::io;
use std::io::{Read, Write};

/// Sends back what comes in, until that ends.
pub fn send_back<R: Read, W: Write>(reader: &mut R, writer: &mut W) -> Result<()> {
    io::copy(reader, writer)?;
    Ok(())
}
