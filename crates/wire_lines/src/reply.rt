//! Reply lines, as exact bytes.
ghost use Rattle.std.specs.Prelude.{◌≡◌, ◌≢◌, ◌++◌, ℕ, List, codes, decimal, IfOk, OnOk};
ghost use Rattle.std.specs.Prelude.{OnErr, true, false};
ghost use Rattle.std.specs.Cow.{cow_slice_items};
ghost use Rattle.json.specs.Print.{quoted};
ghost use Rattle.serde_json.specs.Data.{no_members};
ghost use Rattle.rbac_admin.specs.Refusals.{row_of as policy_row};
ghost use Rattle.reactor_core.specs.Refusals.{row_of as module_row};
ghost use Rattle.wire_lines.specs.Requests.{text_member, number_member};
ghost use Rattle.wire_lines.specs.Replies.{refusal_members, refused_with, row_members, line_of};
ghost use Rattle.wire_lines.specs.Inner.ReplyTokens.{member_tokens};
ghost use Rattle.reactor_core.specs.declared.entry.SlotWord.{SlotWord};
ghost use Rattle.reactor_core.specs.declared.entry.SlotWord.TheVariants as word;
ghost use Rattle.reactor_core.specs.Meaning.{word_text, is_step};
ghost use Rattle.access_core.specs.declared.reply.Reply.TheVariants.{Refused, Login, Changed};
ghost use Rattle.access_core.specs.declared.reply.Reply.TheVariants.{Added, Audit, Check, Look};
ghost use Rattle.access_core.specs.declared.reply.PolicyWord.TheVariants as change;
ghost use Rattle.access_core.specs.declared.refusal.Refusal.TheVariants as refusal;
ghost use Rattle.rbac_admin.specs.declared.refusal.PolicyRefusal.TheVariants as policy;
ghost use Rattle.reactor_core.specs.declared.refusal.ModuleRefusal.TheVariants as of_module;
ghost use Rattle.est_text.specs.declared.place.Place.{Place};

use crate::accepted::{added_line, audit_line, changed_line, check_line, login_line};
use crate::line_writer::LineWriter;
use access_core::refusal::Refusal;
use access_core::reply::{Reply, ShownSignal};
use est_relations::refusal::PendingRefusal;
use est_text::identifier::Identifier;
use est_text::place::Place;
use rbac_admin::refusal::{PolicyRefusal, table_text};
use reactor_core::refusal::{ModuleRefusal, limit_text};
use std::alloc::{AllocError, Global};
use std::borrow::CowSlice;

/// Writes what a refusal of the policy says.
fn write_policy_refusal(
    alloc: Global,
    line: &mut LineWriter,
    refusal: &PolicyRefusal,
) -> Result<(), AllocError>
    ensures { OnOk result (line.new
        ≡ line.old ++ member_tokens (row_members (policy_row refusal.now))) }
{
    let (code, fault) = refusal.label();
    line.label(code, fault)?;
    match refusal {
        PolicyRefusal::Permission { operation, object } => {
            line.text("object", object.text(alloc)?.as_str())?;
            line.text("op", operation.text())
        }
        PolicyRefusal::DsdViolated { set, session } => {
            line.number("session", u64::from(session.number()))?;
            line.text("set", set.as_str())
        }
        PolicyRefusal::NotAuthorized { role }
        | PolicyRefusal::AlreadyActive { role }
        | PolicyRefusal::NotActive { role }
        | PolicyRefusal::UnknownRole { role }
        | PolicyRefusal::RoleExists { role } => line.text("role", role.as_str()),
        PolicyRefusal::UnknownUser { user } | PolicyRefusal::UserExists { user } => {
            line.text("user", user.as_str())
        }
        PolicyRefusal::DsdExists { set }
        | PolicyRefusal::NoDsd { set }
        | PolicyRefusal::RoleInDsd { set } => line.text("set", set.as_str()),
        PolicyRefusal::Full { table } => line.text("table", table_text(table)),
        PolicyRefusal::NoSession
        | PolicyRefusal::SessionsExhausted
        | PolicyRefusal::Cycle
        | PolicyRefusal::AlreadyAssigned
        | PolicyRefusal::NotAssigned
        | PolicyRefusal::AlreadyGranted
        | PolicyRefusal::NotGranted
        | PolicyRefusal::EdgeExists
        | PolicyRefusal::NoEdge
        | PolicyRefusal::DsdShape => Ok(()),
    }
}

/// Writes what a refusal at a place of a module's text says.
fn write_place(
    line: &mut LineWriter,
    code: u8,
    fault: &str,
    place: &Place,
) -> Result<(), AllocError>
    ensures { OnOk result (line.new ≡ line.old ++ member_tokens (number_member (codes "code") code
        (number_member (codes "column") place.now.column (text_member (codes "fault")
        fault.now (number_member (codes "line") place.now.line no_members))))) }
{
    line.number("code", u64::from(code))?;
    line.number("column", place.column)?;
    line.text("fault", fault)?;
    line.number("line", place.line)
}

/// Writes what a refusal of a relation that excludes a signal says.
fn write_excluded(
    line: &mut LineWriter,
    code: u8,
    fault: &str,
    relation: u8,
    signal: &Identifier,
) -> Result<(), AllocError>
    ensures { OnOk result (line.new ≡ line.old ++ member_tokens (refused_with code fault.now
        (number_member (codes "relation") relation (text_member (codes "signal") signal.now
        no_members)))) }
{
    line.label(code, fault)?;
    line.number("relation", u64::from(relation))?;
    line.text("signal", signal.as_str())
}

/// Writes what a refusal of a module says.
fn write_module_refusal(line: &mut LineWriter, refusal: &ModuleRefusal) -> Result<(), AllocError>
    ensures { OnOk result (line.new
        ≡ line.old ++ member_tokens (row_members (module_row refusal.now))) }
{
    let (code, fault) = refusal.label();
    match refusal {
        ModuleRefusal::Lexical(place) | ModuleRefusal::Syntax(place) => {
            write_place(line, code, fault, place)
        }
        ModuleRefusal::Pending(PendingRefusal::Excluded { relation, signal }) => {
            write_excluded(line, code, fault, *relation, signal)
        }
        ModuleRefusal::Pending(PendingRefusal::Implied { relation, missing }) => {
            line.label(code, fault)?;
            line.text("missing", missing.as_str())?;
            line.number("relation", u64::from(*relation))
        }
        ModuleRefusal::UnknownModule(name)
        | ModuleRefusal::RecursiveRun(name)
        | ModuleRefusal::UnknownName(name)
        | ModuleRefusal::DuplicateName(name)
        | ModuleRefusal::EmitInput(name)
        | ModuleRefusal::BadRename(name) => {
            line.label(code, fault)?;
            line.text("name", name.as_str())
        }
        ModuleRefusal::TooLarge(limit) => {
            line.label(code, fault)?;
            line.text("limit", limit_text(limit))
        }
        ModuleRefusal::Semantics(relation) => {
            line.label(code, fault)?;
            line.number("relation", *relation as u64)
        }
        ModuleRefusal::Pending(PendingRefusal::UnknownSignal)
        | ModuleRefusal::Pending(PendingRefusal::NotInput)
        | ModuleRefusal::Pending(PendingRefusal::AlreadyOffered)
        | ModuleRefusal::NoInstant
        | ModuleRefusal::MisnamedMain
        | ModuleRefusal::InstantLoop => line.label(code, fault),
    }
}

/// Writes what a refusal says.
fn write_refusal(alloc: Global, line: &mut LineWriter, refusal: &Refusal) -> Result<(), AllocError>
    ensures { OnOk result (line.new ≡ line.old ++ member_tokens (refusal_members refusal.now)) }
{
    let (code, fault) = refusal.label();
    match refusal {
        Refusal::Policy(refusal) => write_policy_refusal(alloc, line, refusal),
        Refusal::Module(refusal) => write_module_refusal(line, refusal),
        Refusal::Stuck { undecided } => {
            line.label(code, fault)?;
            line.names("undecided", undecided.as_slice())
        }
        Refusal::Behind { found, seen } => {
            line.label(code, fault)?;
            line.number("found", *found)?;
            line.number("seen", *seen)
        }
        Refusal::TooLong
        | Refusal::NotJson
        | Refusal::NotARequest
        | Refusal::AlreadyLoggedIn
        | Refusal::NoSlot
        | Refusal::Occupied
        | Refusal::Empty
        | Refusal::JournalFull
        | Refusal::Memory => line.label(code, fault),
    }
}

/// The line of a refusal.
fn refused_line(alloc: Global, refusal: &Refusal) -> Result<Vec<u8>, AllocError>
    ensures { IfOk result (λ line. line.items ≡ line_of (Refused refusal.now)) }
{
    let mut line = LineWriter::begin(alloc)?;
    write_refusal(alloc, &mut line, refusal)?;
    line.end()
}

/// The line of a look.
fn look_line(
    alloc: Global,
    instant: u64,
    signals: &[ShownSignal],
    version: u64,
) -> Result<Vec<u8>, AllocError>
    ensures { IfOk result (λ line. line.items ≡ line_of (Look instant signals.now version)) }
{
    let mut line = LineWriter::begin(alloc)?;
    line.number("instant", instant)?;
    line.text("ok", "look")?;
    line.signals(signals)?;
    line.number("version", version)?;
    line.end()
}

/// The line of a reply, with its LF. Refusals and looks are written token by token. Any other line
/// is joined from constant texts and numbers.
pub fn reply_line(alloc: Global, reply: &Reply) -> Result<Vec<u8>, AllocError>
    ensures { IfOk result (λ line. line.items ≡ line_of reply.now) }
{
    match reply {
        Reply::Refused(refusal) => refused_line(alloc, refusal),
        Reply::Login { session, version } => login_line(alloc, session, *version),
        Reply::Changed { change, version } => changed_line(alloc, change, *version),
        Reply::Added(added) => added_line(alloc, added),
        Reply::Look {
            instant,
            signals,
            version,
        } => look_line(alloc, *instant, signals.as_slice(), *version),
        Reply::Audit {
            entries,
            instants,
            version,
        } => audit_line(alloc, *entries, *instants, *version),
        Reply::Check { allowed } => check_line(alloc, *allowed),
    }
}

/// The line that tells want of memory, with its LF. It takes no memory.
pub fn memory_line() -> &'static [u8]
    ensures { result.now ≡ line_of (Refused refusal.Memory) }
{
    b"{\"code\":90,\"fault\":\"Memory\"}\n"
}

/// The line of a reply, with its LF. Where the reply is want of memory, it is a constant.
///
/// # Errors
///
/// Where memory was refused for the line of another reply.
pub fn reply_text(alloc: Global, reply: &Reply) -> Result<CowSlice<'static, u8, Global>, AllocError>
    ensures line { IfOk result (λ line. cow_slice_items line ≡ line_of reply.now) }
    ensures memory { OnErr result (reply.now ≢ Refused refusal.Memory) }
{
    match reply {
        Reply::Refused(Refusal::Memory) => Ok(CowSlice::Borrowed(memory_line())),
        _ => Ok(CowSlice::Owned(reply_line(alloc, reply)?)),
    }
}

/// The lines of some replies, written out byte for byte. It does nothing: its contract is the law.
pub fn reply_lines_are_these()
    ensures login { (session version : ℕ) → line_of (Login session version)
        ≡ codes "{\"ok\":\"login\",\"session\":" ++ (decimal session ++
        (codes ",\"version\":" ++ (decimal version ++ codes "}\n"))) }
    ensures grant { (version : ℕ) → line_of (Changed change.GrantPermission version)
        ≡ codes "{\"ok\":\"grant\",\"version\":" ++ (decimal version ++ codes "}\n") }
    ensures logout { (version : ℕ) → line_of (Changed change.DeleteSession version)
        ≡ codes "{\"ok\":\"logout\",\"version\":" ++ (decimal version ++ codes "}\n") }
    ensures load { (instants place version : ℕ)
        → line_of (Added (record {
          word = word.Load;
          place = place;
          version = version;
          instants = instants;
        })) ≡ codes "{\"ok\":\"load\",\"place\":" ++ (decimal place ++
        (codes ",\"version\":" ++ (decimal version ++ codes "}\n"))) }
    ensures step { (instants place version : ℕ)
        → line_of (Added (record {
          word = word.Step;
          place = place;
          version = version;
          instants = instants;
        })) ≡ codes "{\"instant\":" ++ (decimal instants ++
        (codes ",\"ok\":\"step\",\"place\":" ++ (decimal place
        ++ (codes ",\"version\":" ++ (decimal version ++ codes "}\n"))))) }
    ensures added { (asked : SlotWord) (instants place version : ℕ) → is_step asked ≡ false
        → line_of (Added (record {
          word = asked;
          place = place;
          version = version;
          instants = instants;
        })) ≡ codes "{\"ok\":\"" ++ (word_text asked ++
        (codes "\",\"place\":" ++ (decimal place ++
        (codes ",\"version\":" ++ (decimal version ++ codes "}\n"))))) }
    ensures audit { (entries instants version : ℕ) → line_of (Audit entries instants version)
        ≡ codes "{\"entries\":" ++ (decimal entries ++ (codes ",\"instants\":" ++ (decimal instants
        ++ (codes ",\"ok\":\"audit\",\"version\":" ++ (decimal version ++ codes "}\n"))))) }
    ensures check { line_of (Check true) ≡ codes "{\"allowed\":true,\"ok\":\"check\"}\n" }
    ensures not_json { line_of (Refused refusal.NotJson)
        ≡ codes "{\"code\":2,\"fault\":\"NotJson\"}\n" }
    ensures memory { line_of (Refused refusal.Memory)
        ≡ codes "{\"code\":90,\"fault\":\"Memory\"}\n" }
    ensures unknown_user { (user : List ℕ)
        → line_of (Refused (refusal.Policy (policy.UnknownUser user)))
        ≡ codes "{\"code\":25,\"fault\":\"UnknownUser\",\"user\":" ++ (quoted user ++ codes "}\n") }
    ensures syntax { (place : Place) → line_of (Refused (refusal.Module (of_module.Syntax place)))
        ≡ codes "{\"code\":71,\"column\":" ++ (decimal place.column ++
        (codes ",\"fault\":\"Syntax\",\"line\":" ++ (decimal place.line ++ codes "}\n"))) }
{}
