//! What is tied to the signals that are not decided, in a line that is being written.

ghost use Rattle.std.specs.Prelude.{◌≡◌, ◌++◌, ◌∷◌, [], codes, OnOk};
ghost use Rattle.wire_lines.specs.Inner.ReplyTokens.{item_tokens, member_tokens, value_tokens};
ghost use Rattle.lab_ties.specs.declared.tie.OpenSignal.TheVariants as open_signal;
ghost use Rattle.lab_lines.specs.Inner.LineParts.{members_in};
ghost use Rattle.lab_lines.specs.Ties.{incarnation_json, kind_text, restarted_json, signal_json};
ghost use Rattle.lab_lines.specs.Ties.{tie_json, ties_json};

use est_kernel::interface::Interface;
use lab_instant::seen::Incarnation;
use lab_ties::tie::{OpenSignal, Tie, TieKind};
use std::alloc::AllocError;
use wire_lines::line_writer::LineWriter;

/// Writes a statement in an incarnation that a restart begins: the list of its number and that of
/// the incarnation.
fn write_restarted(line: &mut LineWriter, at: Incarnation) -> Result<(), AllocError>
    ensures { OnOk result (line.new ≡ line.old ++ item_tokens restarted_json (at ∷ [])) }
{
    line.begin_array()?;
    line.number_value(at.statement as u64)?;
    line.number_value(at.number as u64)?;
    line.end_array()
}

/// Writes a statement in one of its incarnations: in incarnation 0 its number alone, as most
/// statements of a line are.
pub(crate) fn write_incarnation(line: &mut LineWriter, at: Incarnation) -> Result<(), AllocError>
    ensures { OnOk result (line.new ≡ line.old ++ item_tokens incarnation_json (at ∷ [])) }
{
    if at.number == 0 {
        line.number_value(at.statement as u64)
    } else {
        write_restarted(line, at)
    }
}

/// Writes a statement in one of its incarnations under this key.
pub(crate) fn write_incarnation_under(
    line: &mut LineWriter,
    name: &str,
    at: Incarnation,
) -> Result<(), AllocError>
    ensures { OnOk result (line.new ≡ line.old ++ value_tokens name.now (incarnation_json at)) }
{
    line.key(name)?;
    write_incarnation(line, at)
}

/// What a statement has to do with a signal.
fn kind_word(kind: TieKind) -> &'static str
    ensures { result.now ≡ kind_text kind }
{
    match kind {
        TieKind::Waits => "waits",
        TieKind::MayEmit => "emits",
    }
}

/// Writes a signal of the interface: its name.
fn write_name(line: &mut LineWriter, interface: &Interface, place: usize) -> Result<(), AllocError>
    ensures { OnOk result (line.new ≡ line.old
        ++ value_tokens (codes "signal") (signal_json interface.now
        (open_signal.Interface place))) }
{
    line.key("signal")?;
    match interface.declarations().get(place) {
        Some(declaration) => line.text_value(declaration.name.as_str()),
        None => line.null_value(),
    }
}

/// Writes a signal: the name of one of the interface, or the statement that declares a local one.
fn write_signal(
    line: &mut LineWriter,
    interface: &Interface,
    signal: OpenSignal,
) -> Result<(), AllocError>
    ensures { OnOk result (line.new ≡ line.old
        ++ value_tokens (codes "signal") (signal_json interface.now signal)) }
{
    match signal {
        OpenSignal::Interface(place) => write_name(line, interface, place),
        OpenSignal::Local(declared) => write_incarnation_under(line, "signal", declared),
    }
}

/// Writes what is said of a statement that has to do with a signal that is not decided.
fn write_tie_members(
    line: &mut LineWriter,
    interface: &Interface,
    tie: Tie,
) -> Result<(), AllocError>
    ensures { OnOk result (line.new
        ≡ line.old ++ member_tokens (members_in (tie_json interface.now tie))) }
{
    write_incarnation_under(line, "at", tie.at)?;
    line.text("kind", kind_word(tie.kind))?;
    write_signal(line, interface, tie.signal)
}

/// Writes a statement that has to do with a signal that is not decided.
fn write_tie(line: &mut LineWriter, interface: &Interface, tie: Tie) -> Result<(), AllocError>
    ensures { OnOk result (line.new
        ≡ line.old ++ item_tokens (tie_json interface.now) (tie ∷ [])) }
{
    line.begin_object()?;
    write_tie_members(line, interface, tie)?;
    line.end_object()
}

/// Writes ties as items of a list.
fn write_each_tie(
    line: &mut LineWriter,
    interface: &Interface,
    found: &[Tie],
) -> Result<(), AllocError>
    ensures { OnOk result (line.new
        ≡ line.old ++ item_tokens (tie_json interface.now) found.now) }
{
    for each in found {
        write_tie(line, interface, *each)?;
    }
    Ok(())
}

/// Writes the list of the ties of an instant.
pub(crate) fn write_ties(
    line: &mut LineWriter,
    interface: &Interface,
    found: &[Tie],
) -> Result<(), AllocError>
    ensures { OnOk result (line.new
        ≡ line.old ++ value_tokens (codes "ties") (ties_json interface.now found.now)) }
{
    line.key("ties")?;
    line.begin_array()?;
    write_each_tie(line, interface, found)?;
    line.end_array()
}
