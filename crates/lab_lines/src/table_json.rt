//! The closed table of a module, as JSON.

ghost use Rattle.std.specs.Prelude.{◌≡◌, ◌⊎◌, IfOk, codes, map};
ghost use Rattle.serde_json.specs.Data.{array, member, no_members, number};
ghost use Rattle.serde_json.specs.Data.{object, string, unsigned};
ghost use Rattle.serde_json.specs.View.{items_of, view};
ghost use Rattle.est_explore.specs.Views.{module_of};
ghost use Rattle.est_kernel.specs.declared.state.State.TheVariants.{Paused};
ghost use Rattle.lab_lines.specs.TableJson.{IsTableTold, IsTooLarge, node_json, number_json};
ghost use Rattle.lab_lines.specs.TableJson.{place_json, row_json, state_json};

use crate::found_json::names_json;
use crate::pauses::pause_numbers;
use crate::refusal::TOO_MANY_CODE;
use est_cover::answered::AnsweredInputs;
use est_cover::lawful_inputs::LawfulInputs;
use est_explore::judge::explore;
use est_explore::one_module::{Answer, OneModule, Position};
use est_explore::table::is_complete;
use est_kernel::interface::Interface;
use est_kernel::pause_set::PauseSet;
use est_kernel::state::State;
use est_rounds::part_engine::PartEngine;
use serde_json::{Value, json};
use state_search::found::{Found, Node, Row};
use state_search::search::Limits;
use std::alloc::{AllocError, Global};

/// Numbers.
fn numbers_json(alloc: Global, numbers: &[u16]) -> Result<Value, AllocError>
    ensures { IfOk result (λ v. view v ≡ array (items_of (map number_json numbers.now))) }
{
    let mut values = Vec::new(alloc);
    for number in numbers {
        values.push(Value::from(*number))?;
    }
    Ok(Value::from(values))
}

/// The numbers of the pauses.
fn pauses_json(alloc: Global, paused: &PauseSet) -> Result<Value, AllocError>
    ensures { IfOk result (λ v. view v ≡ state_json (Paused paused.now)) }
{
    let numbers = pause_numbers(alloc, paused)?;
    numbers_json(alloc, numbers.as_slice())
}

/// Where a module stands.
pub fn state_json(alloc: Global, state: &State) -> Result<Value, AllocError>
    ensures { IfOk result (λ v. view v ≡ state_json state.now) }
{
    match state {
        State::Fresh => Value::try_from_str(alloc, "start"),
        State::Done => Value::try_from_str(alloc, "end"),
        State::Paused(paused) => pauses_json(alloc, paused),
    }
}

/// The states.
fn states_json(alloc: Global, nodes: &[Node<Position>]) -> Result<Vec<Value>, AllocError>
    ensures { IfOk result (λ v. map view v.items ≡ map node_json nodes.now) }
{
    let mut values = Vec::new(alloc);
    for node in nodes {
        values.push(state_json(alloc, &node.state.state)?)?;
    }
    Ok(values)
}

/// A place, or none.
fn place_json(place: Option<usize>) -> Value
    ensures { view result ≡ place_json place }
{
    match place {
        Some(place) => Value::from(place),
        None => Value::Null,
    }
}

/// A row.
fn row_json(
    alloc: Global,
    interface: &Interface,
    row: &Row<AnsweredInputs<Answer>>,
) -> Result<Value, AllocError>
    ensures { IfOk result (λ v. view v ≡ row_json interface.now row.now) }
{
    let asked = names_json(alloc, interface, row.label.asked)?;
    let inputs = names_json(alloc, interface, row.label.inputs)?;
    match row.label.answer {
        Answer::Reaction { outputs } => json!(in alloc; {
            "asked": asked,
            "from": row.from,
            "inputs": inputs,
            "next": place_json(row.next),
            "outputs": names_json(alloc, interface, outputs)?
        }),
        Answer::Stuck { undecided } => json!(in alloc; {
            "asked": asked,
            "from": row.from,
            "inputs": inputs,
            "undecided": names_json(alloc, interface, undecided)?
        }),
    }
}

/// The rows.
fn rows_json(
    alloc: Global,
    interface: &Interface,
    rows: &[Row<AnsweredInputs<Answer>>],
) -> Result<Value, AllocError>
    ensures { IfOk result (λ v. view v ≡ array (items_of (map (row_json interface.now)
        rows.now))) }
{
    let mut values = Vec::new(alloc);
    for each in rows {
        values.push(row_json(alloc, interface, each)?)?;
    }
    Ok(Value::from(values))
}

/// The table, of its rows and states.
fn whole_table_json(alloc: Global, rows: Value, states: Vec<Value>) -> Result<Value, AllocError>
    ensures { IfOk result (λ v. view v ≡ object (member (codes "ok") (string (codes "table"))
        (member (codes "rows") (view rows)
        (member (codes "states") (array (items_of (map view states.items))) no_members)))) }
{
    json!(in alloc; {"ok": "table", "rows": rows, "states": states})
}

/// That there are too many states or reactions.
fn too_large_json(alloc: Global, reactions: usize, states: usize) -> Result<Value, AllocError>
    ensures { IfOk result (λ v. view v ≡ object (member (codes "code") (number (unsigned 83))
        (member (codes "fault") (string (codes "TooMany"))
        (member (codes "reactions") (number (unsigned reactions))
        (member (codes "states") (number (unsigned states)) no_members))))) }
{
    json!(in alloc; {
        "code": TOO_MANY_CODE, "fault": "TooMany", "reactions": reactions, "states": states
    })
}

/// The table of a module; or that there are too many states or reactions.
pub fn find_table<E: PartEngine>(
    alloc: Global,
    subject: &LawfulInputs<'_, OneModule<'_, E>>,
    engine: &mut E,
    limits: Limits,
) -> Result<Value, AllocError>
    requires { E.is_for engine.old subject.now.reactive.now.kernel.now }
    ensures { IfOk result (λ v. IsTableTold (module_of
        subject.now.reactive.now.kernel.now subject.now.relations.now subject.now.allowed) (view v)
        ⊎ IsTooLarge (module_of subject.now.reactive.now.kernel.now subject.now.relations.now
        subject.now.allowed) limits.states limits.steps (view v)) }
{
    let interface = subject.reactive.kernel.interface();
    let found = explore(alloc, subject, engine, limits)?;
    if !is_complete(&found) {
        let reactions = found.rows.len();
        let states = found.nodes.len();
        let told = too_large_json(alloc, reactions, states)?;
        return Ok(told);
    }
    let states = states_json(alloc, found.nodes.as_slice())?;
    let rows = rows_json(alloc, interface, found.rows.as_slice())?;
    let told = whole_table_json(alloc, rows, states)?;
    Ok(told)
}
