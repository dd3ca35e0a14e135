//! Names of signals, and where a module stands, in a line that is being written.

ghost use Rattle.std.specs.Prelude.{◌≡◌, ◌<◌, ◌+◌, ◌++◌, length, OnOk};
ghost use Rattle.est_kernel.specs.declared.state.State.TheVariants.{Paused};
ghost use Rattle.wire_lines.specs.Inner.ReplyTokens.{item_tokens, value_tokens};
ghost use Rattle.lab_lines.specs.Inner.LineParts.{names_left};
ghost use Rattle.lab_lines.specs.TableJson.{number_json, state_json};
ghost use Rattle.lab_lines.specs.FoundJson.{names_from, names_json};

use crate::pauses::pause_numbers;
use est_kernel::interface::Interface;
use est_kernel::mask;
use est_kernel::pause_set::PauseSet;
use est_kernel::state::State;
use std::alloc::{AllocError, Global};
use wire_lines::line_writer::LineWriter;

/// Writes the name of the signal at this place as an item of a list, if it is in the set: then
/// those of later places are left.
fn write_name_if(
    line: &mut LineWriter,
    interface: &Interface,
    signals: u64,
    place: usize,
) -> Result<(), AllocError>
    requires { place < length interface.now }
    ensures { OnOk result (line.new ++ names_left interface.now signals (place + 1)
        ≡ line.old ++ names_left interface.now signals place) }
{
    let declarations = interface.declarations();
    if mask::has(signals, place as u8) {
        line.text_value(declarations[place].name.as_str())
    } else {
        Ok(())
    }
}

/// Writes the names of the signals as items of a list, in the order of declaration.
fn write_each_name(
    line: &mut LineWriter,
    interface: &Interface,
    signals: u64,
) -> Result<(), AllocError>
    ensures { OnOk result (line.new
        ≡ line.old ++ item_tokens (λ name. name) (names_from 0 interface.now signals)) }
{
    for place in 0..interface.len() {
        write_name_if(line, interface, signals, place)?;
    }
    Ok(())
}

/// Writes the list of the names of the signals under this key.
pub(crate) fn write_names(
    line: &mut LineWriter,
    name: &str,
    interface: &Interface,
    signals: u64,
) -> Result<(), AllocError>
    ensures { OnOk result (line.new
        ≡ line.old ++ value_tokens name.now (names_json interface.now signals)) }
{
    line.key(name)?;
    line.begin_array()?;
    write_each_name(line, interface, signals)?;
    line.end_array()
}

/// Writes numbers as items of a list.
fn write_each_number(line: &mut LineWriter, numbers: &[u16]) -> Result<(), AllocError>
    ensures { OnOk result (line.new ≡ line.old ++ item_tokens number_json numbers.now) }
{
    for number in numbers {
        line.number_value(u64::from(*number))?;
    }
    Ok(())
}

/// Writes the list of the numbers of pauses under this key.
fn write_pauses(
    alloc: Global,
    line: &mut LineWriter,
    name: &str,
    paused: &PauseSet,
) -> Result<(), AllocError>
    ensures { OnOk result (line.new
        ≡ line.old ++ value_tokens name.now (state_json (Paused paused.now))) }
{
    let numbers = pause_numbers(alloc, paused)?;
    line.key(name)?;
    line.begin_array()?;
    write_each_number(line, numbers.as_slice())?;
    line.end_array()
}

/// Writes where a module stands under this key.
pub(crate) fn write_state(
    alloc: Global,
    line: &mut LineWriter,
    name: &str,
    state: &State,
) -> Result<(), AllocError>
    ensures { OnOk result (line.new ≡ line.old ++ value_tokens name.now (state_json state.now)) }
{
    match state {
        State::Fresh => line.text(name, "start"),
        State::Done => line.text(name, "end"),
        State::Paused(paused) => write_pauses(alloc, line, name, paused),
    }
}
