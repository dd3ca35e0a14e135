//! The lines of accepted commands that have only numbers and a command's word: they are joined from
//! constant texts.
ghost use Rattle.std.specs.Prelude.{◌≡◌, ◌++◌, codes, decimal, IfOk, OnOk};
ghost use Rattle.access_core.specs.declared.reply.Reply.TheVariants.{Added as AddedReply};
ghost use Rattle.access_core.specs.declared.reply.Reply.TheVariants.{Changed, Check, Login, Audit};
ghost use Rattle.wire_lines.specs.Replies.{line_of};
ghost use Rattle.wire_lines.specs.Inner.Pieces.{added_begin};

use access_core::reply::{Added, PolicyWord};
use itoa::Buffer;
use rbac_policy::commands::SessionId;
use reactor_core::entry::SlotWord;
use std::alloc::{AllocError, Global};

/// The room, in bytes, with which a line begins: these lines are shorter.
const USUAL_BYTES: usize = 128;

/// The line of a check that is allowed.
const ALLOWED: &str = "{\"allowed\":true,\"ok\":\"check\"}\n";

/// The line of a check that is not allowed.
const DENIED: &str = "{\"allowed\":false,\"ok\":\"check\"}\n";

/// Adds a text, and a number after it.
fn add_number(line: &mut Vec<u8>, text: &[u8], number: u64) -> Result<(), AllocError>
    ensures { OnOk result (line.new.items ≡ line.old.items ++ (text.now ++ decimal number)) }
{
    let mut digits = Buffer::new();
    line.extend_from_slice(text)?;
    line.extend_from_slice(digits.format(number).as_bytes())?;
    Ok(())
}

/// Adds a version, and the end of the line.
fn add_version(line: &mut Vec<u8>, version: u64) -> Result<(), AllocError>
    ensures { OnOk result (line.new.items
        ≡ line.old.items ++ (codes ",\"version\":" ++ (decimal version ++ codes "}\n"))) }
{
    add_number(line, b",\"version\":", version)?;
    line.extend_from_slice(b"}\n")?;
    Ok(())
}

/// The beginning of the line of a step, up to its word.
fn begin_step(alloc: Global, instant: u64) -> Result<Vec<u8>, AllocError>
    ensures { IfOk result (λ line. line.items
        ≡ (codes "{\"instant\":" ++ decimal instant) ++ codes ",\"ok\":\"") }
{
    let mut line = Vec::with_capacity(alloc, USUAL_BYTES)?;
    add_number(&mut line, b"{\"instant\":", instant)?;
    line.extend_from_slice(b",\"ok\":\"")?;
    Ok(line)
}

/// The beginning of a line that has nothing before its word.
fn begin_plain(alloc: Global) -> Result<Vec<u8>, AllocError>
    ensures { IfOk result (λ line. line.items ≡ codes "{\"ok\":\"") }
{
    let mut line = Vec::with_capacity(alloc, USUAL_BYTES)?;
    line.extend_from_slice(b"{\"ok\":\"")?;
    Ok(line)
}

/// The beginning of the line of a command that added an entry, up to its word.
fn begin_line(alloc: Global, word: SlotWord, instants: u64) -> Result<Vec<u8>, AllocError>
    ensures { IfOk result (λ line. line.items ≡ added_begin word instants) }
{
    if word.is_step() {
        return begin_step(alloc, instants);
    }
    begin_plain(alloc)
}

/// The line of a command that added an entry.
pub(crate) fn added_line(alloc: Global, added: &Added) -> Result<Vec<u8>, AllocError>
    ensures { IfOk result (λ line. line.items ≡ line_of (AddedReply added.now)) }
{
    let mut line = begin_line(alloc, added.word, added.instants)?;
    line.extend_from_slice(added.word.text().as_bytes())?;
    add_number(&mut line, b"\",\"place\":", added.place)?;
    add_version(&mut line, added.version)?;
    Ok(line)
}

/// The line of a login.
pub(crate) fn login_line(
    alloc: Global,
    session: &SessionId,
    version: u64,
) -> Result<Vec<u8>, AllocError>
    ensures { IfOk result (λ line. line.items ≡ line_of (Login session.now version)) }
{
    let mut line = Vec::with_capacity(alloc, USUAL_BYTES)?;
    let session = u64::from(session.number());
    add_number(&mut line, b"{\"ok\":\"login\",\"session\":", session)?;
    add_version(&mut line, version)?;
    Ok(line)
}

/// The line of an audit.
pub(crate) fn audit_line(
    alloc: Global,
    entries: u64,
    instants: u64,
    version: u64,
) -> Result<Vec<u8>, AllocError>
    ensures { IfOk result (λ line. line.items ≡ line_of (Audit entries instants version)) }
{
    let mut line = Vec::with_capacity(alloc, USUAL_BYTES)?;
    add_number(&mut line, b"{\"entries\":", entries)?;
    add_number(&mut line, b",\"instants\":", instants)?;
    line.extend_from_slice(b",\"ok\":\"audit\"")?;
    add_version(&mut line, version)?;
    Ok(line)
}

/// A line that tells the word of an accepted command, and a version.
fn word_line(alloc: Global, word: &str, version: u64) -> Result<Vec<u8>, AllocError>
    ensures { IfOk result (λ line. line.items ≡ codes "{\"ok\":\"" ++ (word.now ++ (codes "\""
        ++ (codes ",\"version\":" ++ (decimal version ++ codes "}\n"))))) }
{
    let mut line = Vec::with_capacity(alloc, USUAL_BYTES)?;
    line.extend_from_slice(b"{\"ok\":\"")?;
    line.extend_from_slice(word.as_bytes())?;
    line.push(b'"')?;
    add_version(&mut line, version)?;
    Ok(line)
}

/// The line of a change of the policy.
pub(crate) fn changed_line(
    alloc: Global,
    change: &PolicyWord,
    version: u64,
) -> Result<Vec<u8>, AllocError>
    ensures { IfOk result (λ line. line.items ≡ line_of (Changed change.now version)) }
{
    word_line(alloc, change.text(), version)
}

/// The line of a check.
pub(crate) fn check_line(alloc: Global, allowed: bool) -> Result<Vec<u8>, AllocError>
    ensures { IfOk result (λ line. line.items ≡ line_of (Check allowed)) }
{
    if allowed {
        return Vec::from_slice(alloc, ALLOWED.as_bytes());
    }
    Vec::from_slice(alloc, DENIED.as_bytes())
}
