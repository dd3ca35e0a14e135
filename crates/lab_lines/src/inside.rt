//! An instant from inside, as the line that tells it.

ghost use Rattle.std.specs.Prelude.{◌≡◌, ◌++◌, ◌∷◌, [], codes, IfOk, OnOk};
ghost use Rattle.serde_json.specs.Data.{number, string, unsigned};
ghost use Rattle.serde_json.specs.Written.{compact_text};
ghost use Rattle.lab_instant.specs.declared.seen.Instant.TheVariants as told;
ghost use Rattle.wire_lines.specs.Inner.ReplyTokens.{item_tokens, member_tokens, value_tokens};
ghost use Rattle.lab_lines.specs.Inside.{back_json, inside_json, local_json, locals_json};
ghost use Rattle.lab_lines.specs.Inside.{statements_json, status_json};
ghost use Rattle.lab_lines.specs.Inner.LineParts.{members_in};
ghost use Rattle.lab_lines.specs.Ties.{incarnation_json};

use crate::line_parts::{write_names, write_state};
use crate::ties::{write_incarnation, write_incarnation_under, write_ties};
use est_kernel::interface::Interface;
use est_kernel::state::{Outcome, State, Stuck};
use est_meaning::status::Status;
use lab_instant::seen::{Incarnation, Instant, Local, Seen};
use lab_ties::tie::Tie;
use std::alloc::{AllocError, Global};
use wire_lines::line_writer::LineWriter;

/// Writes whether it is present.
fn write_status(line: &mut LineWriter, status: Status) -> Result<(), AllocError>
    ensures { OnOk result (line.new
        ≡ line.old ++ value_tokens (codes "present") (status_json status)) }
{
    line.key("present")?;
    match status {
        Status::Present => line.boolean_value(true),
        Status::Absent => line.boolean_value(false),
        Status::Unknown => line.null_value(),
    }
}

/// Writes what is said of a local signal.
fn write_local_members(line: &mut LineWriter, local: Local) -> Result<(), AllocError>
    ensures { OnOk result (line.new ≡ line.old ++ member_tokens (members_in (local_json local))) }
{
    write_incarnation_under(line, "at", local.declared)?;
    write_status(line, local.status)
}

/// Writes a local signal.
fn write_local(line: &mut LineWriter, local: Local) -> Result<(), AllocError>
    ensures { OnOk result (line.new ≡ line.old ++ item_tokens local_json (local ∷ [])) }
{
    line.begin_object()?;
    write_local_members(line, local)?;
    line.end_object()
}

/// Writes local signals as items of a list.
fn write_each_local(line: &mut LineWriter, seen: &[Local]) -> Result<(), AllocError>
    ensures { OnOk result (line.new ≡ line.old ++ item_tokens local_json seen.now) }
{
    for each in seen {
        write_local(line, *each)?;
    }
    Ok(())
}

/// Writes the list of local signals.
fn write_locals(line: &mut LineWriter, seen: &[Local]) -> Result<(), AllocError>
    ensures { OnOk result (line.new
        ≡ line.old ++ value_tokens (codes "locals") (locals_json seen.now)) }
{
    line.key("locals")?;
    line.begin_array()?;
    write_each_local(line, seen)?;
    line.end_array()
}

/// Writes statements as items of a list.
fn write_each_statement(line: &mut LineWriter, seen: &[Incarnation]) -> Result<(), AllocError>
    ensures { OnOk result (line.new ≡ line.old ++ item_tokens incarnation_json seen.now) }
{
    for at in seen {
        write_incarnation(line, *at)?;
    }
    Ok(())
}

/// Writes a list of statements under this key.
fn write_statements(
    line: &mut LineWriter,
    name: &str,
    seen: &[Incarnation],
) -> Result<(), AllocError>
    ensures { OnOk result (line.new
        ≡ line.old ++ value_tokens name.now (statements_json seen.now)) }
{
    line.key(name)?;
    line.begin_array()?;
    write_each_statement(line, seen)?;
    line.end_array()
}

/// The line of an instant with a reaction.
fn reaction_line(
    alloc: Global,
    interface: &Interface,
    outcome: &Outcome,
    seen: &Seen,
) -> Result<Vec<u8>, AllocError>
    ensures { IfOk result (λ line. line.items
        ≡ compact_text (inside_json interface.now (told.Reaction outcome.now seen.now) [])
        ++ 10 ∷ []) }
{
    let mut line = LineWriter::begin(alloc)?;
    write_statements(&mut line, "began", seen.began.as_slice())?;
    write_locals(&mut line, seen.locals.as_slice())?;
    write_state(alloc, &mut line, "next", &outcome.next)?;
    line.text("ok", "instant")?;
    write_names(&mut line, "outputs", interface, outcome.outputs)?;
    write_statements(&mut line, "went", seen.went_on.as_slice())?;
    line.end()
}

/// Writes the number and the name of what an instant is that is stuck.
fn write_stuck_label(line: &mut LineWriter) -> Result<(), AllocError>
    ensures { OnOk result
        (line.new ≡ line.old ++ (value_tokens (codes "code") (number (unsigned 50))
        ++ value_tokens (codes "fault") (string (codes "Stuck")))) }
{
    line.number("code", 50)?;
    line.text("fault", "Stuck")
}

/// The line of an instant that is stuck.
fn stuck_line(
    alloc: Global,
    interface: &Interface,
    stuck: &Stuck,
    seen: &Seen,
    stuck_ties: &[Tie],
) -> Result<Vec<u8>, AllocError>
    ensures { IfOk result (λ line. line.items
        ≡ compact_text (inside_json interface.now (told.Stuck stuck.now seen.now)
        stuck_ties.now) ++ 10 ∷ []) }
{
    let mut line = LineWriter::begin(alloc)?;
    write_statements(&mut line, "began", seen.began.as_slice())?;
    write_stuck_label(&mut line)?;
    write_locals(&mut line, seen.locals.as_slice())?;
    write_ties(&mut line, interface, stuck_ties)?;
    write_names(&mut line, "undecided", interface, stuck.undecided)?;
    write_statements(&mut line, "went", seen.went_on.as_slice())?;
    line.end()
}

/// The line of an instant from inside, with the ties of one that is stuck.
pub fn instant_line(
    alloc: Global,
    interface: &Interface,
    instant: &Instant,
    stuck_ties: &[Tie],
) -> Result<Vec<u8>, AllocError>
    ensures { IfOk result (λ line. line.items
        ≡ compact_text (inside_json interface.now instant.now stuck_ties.now) ++ 10 ∷ []) }
{
    match instant {
        Instant::Reaction { outcome, seen } => reaction_line(alloc, interface, outcome, seen),
        Instant::Stuck { stuck, seen } => stuck_line(alloc, interface, stuck, seen, stuck_ties),
    }
}

/// The line of where a module stands again.
pub fn back_line(alloc: Global, stands: &State) -> Result<Vec<u8>, AllocError>
    ensures { IfOk result (λ line. line.items ≡ compact_text (back_json stands.now) ++ 10 ∷ []) }
{
    let mut line = LineWriter::begin(alloc)?;
    write_state(alloc, &mut line, "next", stands)?;
    line.text("ok", "back")?;
    line.end()
}
