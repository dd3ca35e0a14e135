//! From a line to its request.
//!
//! A line is read token by token where its keys stand in order. Of any other line the JSON value is
//! read as a tree, and written anew with its keys in order; that text is then read in the same way.
ghost use Rattle.std.specs.Prelude.{◌≡◌, List, ℕ};
ghost use Rattle.wire_lines.specs.Requests.{IsReadAs, IsRequest, Fits, members_of};
ghost use Rattle.wire_lines.specs.Inner.Ordering.{IsOrdered};
ghost use Rattle.wire_lines.specs.declared.request.Request.{Request};

use crate::commands::request_at;
use crate::request::Request;
use access_core::refusal::Refusal;
use json::Scratch;
use serde_json::Value;
use serde_json::error::Category;
use std::alloc::Global;

/// The JSON value of a line, written with the keys of each object in order; or NotJson or Memory.
fn in_order(alloc: Global, line: &[u8]) -> Result<String, Refusal>
    ensures { IsOrdered line.now result }
{
    let value = match Value::from_slice(alloc, line) {
        Ok(value) => value,
        Err(fault) if fault.classify() == Category::Memory => return Err(Refusal::Memory),
        Err(_) => return Err(Refusal::NotJson),
    };
    match value.to_string(alloc) {
        Ok(text) => Ok(text),
        Err(_) => Err(Refusal::Memory),
    }
}

/// The request of a line, whatever the order of its keys, or NotJson, NotARequest or Memory.
fn read_reordered(alloc: Global, scratch: &mut Scratch, line: &[u8]) -> Result<Request, Refusal>
    ensures { IsReadAs line.now result }
{
    let text = in_order(alloc, line)?;
    match request_at(alloc, scratch, text.as_str()) {
        Ok(Some(request)) => Ok(request),
        Ok(None) => Err(Refusal::NotARequest),
        Err(_) => Err(Refusal::Memory),
    }
}

/// The reader of a connection's lines. The memory that it took for one line serves the next.
#[derive(Drop)]
pub struct RequestReader {
    scratch: Scratch,
}

impl RequestReader {
    /// A reader that has read nothing. It takes no memory.
    pub fn new(alloc: Global) -> RequestReader {
        RequestReader {
            scratch: Scratch::new(alloc),
        }
    }

    /// The request of a line, or NotJson, NotARequest or Memory.
    pub fn read(&mut self, alloc: Global, line: &[u8]) -> Result<Request, Refusal>
        ensures { IsReadAs line.now result }
    {
        let Ok(text) = std::str::from_utf8(line) else {
            return read_reordered(alloc, &mut self.scratch, line);
        };
        match request_at(alloc, &mut self.scratch, text) {
            Ok(Some(request)) => Ok(request),
            Ok(None) => read_reordered(alloc, &mut self.scratch, line),
            Err(_) => Err(Refusal::Memory),
        }
    }
}

/// The request of a line by itself, or NotJson, NotARequest or Memory.
pub fn request(alloc: Global, line: &[u8]) -> Result<Request, Refusal>
    ensures { IsReadAs line.now result }
{
    RequestReader::new(alloc).read(alloc, line)
}

/// A line has at most one request, and a request is spelt by one JSON value alone.
pub fn requests_are_told_apart()
    ensures line { (line : List ℕ) (one other : Request) → IsRequest line one → IsRequest line other
        → one ≡ other }
    ensures members { (one other : Request) → Fits one → Fits other
        → members_of one ≡ members_of other → one ≡ other }
{}
