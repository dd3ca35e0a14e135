//! The search.
ghost use Rattle.std.specs.Prelude.{◌≡◌, ◌<◌, ◌+◌, IfOk, OnOk, length};
ghost use Rattle.std.specs.Bool.{MatchBool};
ghost use Rattle.state_search.specs.Inner.Places.{IsPlaced};
ghost use Rattle.state_search.specs.Inner.Searching.{Adds, IsSearching};
ghost use Rattle.state_search.specs.Table.{HasStateAt, IsFound, HasEnded};

use crate::found::{Found, Node, Row};
use crate::places::{Places, place_or_insert};
use crate::transition_system::{SearchState, Step, TransitionSystem};
use std::alloc::{AllocError, Global};

/// How far a search goes: it stops once it has found more than this.
#[derive(Clone, Copy)]
pub struct Limits {
    /// States.
    pub states: usize,
    /// Steps.
    pub steps: usize,
}

/// Adds a step of the state at a place as a row, and the state after it as a node if it is new.
fn add_row<S: SearchState, L: Copy + Drop>(
    places: &mut Places,
    nodes: &mut Vec<Node<S>>,
    rows: &mut Vec<Row<L>>,
    from: usize,
    depth: usize,
    step: Step<S, L>,
) -> Result<(), AllocError>
    requires places { IsPlaced S.hash_input places.old nodes.old.items }
    requires depth { depth < length nodes.old.items }
    ensures places { OnOk result (IsPlaced S.hash_input places.new nodes.new.items) }
    ensures adds { IfOk result (λ _.
        Adds nodes.old.items rows.old.items from depth step nodes.new.items rows.new.items) }
{
    let next = match step.next {
        Some(state) => {
            let node = Node {
                state,
                by: rows.len(),
                depth: depth + 1,
            };
            Some(place_or_insert(places, nodes, node)?)
        }
        None => None,
    };
    rows.push(Row {
        from,
        label: step.label,
        next,
    })?;
    Ok(())
}

/// Adds all steps of the state that is next in turn, and answers whether there were no more than
/// that many.
fn expand<M: TransitionSystem>(
    system: &M,
    engine: &mut M::Engine,
    most: usize,
    places: &mut Places,
    found: &mut Found<M::State, M::Label>,
    steps: &mut Vec<Step<M::State, M::Label>>,
) -> Result<bool, AllocError>
    requires fits { M.fits system.now engine.old }
    requires places { IsPlaced M.State.hash_input places.old found.old.nodes.items }
    requires within { found.old.done < length found.old.nodes.items }
    requires search { IsSearching (M.is_state system.now) (M.does system.now)
        (M.covers system.now)
        (M.apart system.now) found.old.nodes.items found.old.rows.items found.old.done }
    ensures fits { M.fits system.now engine.new }
    ensures places { OnOk result (IsPlaced M.State.hash_input places.new found.new.nodes.items) }
    ensures first { OnOk result ((x : M.State) → HasStateAt found.old.nodes.items 0 x → HasStateAt
        found.new.nodes.items 0 x) }
    ensures search { IfOk result (λ whole. MatchBool whole
        ((found.new.done ≡ found.old.done + 1)
        × IsSearching (M.is_state system.now) (M.does system.now) (M.covers system.now)
        (M.apart system.now)
        found.new.nodes.items found.new.rows.items found.new.done)
        ((most + length found.old.rows.items < length found.new.rows.items)
        × IsFound (M.is_state system.now) (M.does system.now) (M.covers system.now)
        (M.apart system.now)
        found.new.nodes.items found.new.rows.items found.new.done)) }
{
    let from = found.done;
    let node = found.nodes[from];
    steps.clear();
    let whole = system.steps(engine, &node.state, most, steps)?;
    for step in steps.as_slice() {
        add_row(
            places,
            &mut found.nodes,
            &mut found.rows,
            from,
            node.depth,
            *step,
        )?;
    }
    if whole {
        found.done += 1;
    }
    Ok(whole)
}

/// Searches all states that the system reaches from one, breadth first, as far as the limits
/// allow.
pub fn search<M: TransitionSystem>(
    alloc: Global,
    system: &M,
    engine: &mut M::Engine,
    start: M::State,
    limits: Limits,
) -> Result<Found<M::State, M::Label>, AllocError>
    requires fits { M.fits system.now engine.old }
    requires state { M.is_state system.now start }
    ensures fits { M.fits system.now engine.new }
    ensures first { IfOk result (λ f. HasStateAt f.nodes.items 0 start) }
    ensures found { IfOk result (λ f. IsFound (M.is_state system.now) (M.does system.now)
        (M.covers system.now)
        (M.apart system.now) f.nodes.items f.rows.items f.done) }
    ensures ended { IfOk result (λ f. HasEnded limits.states limits.steps f.nodes.items f.rows.items
        f.done) }
{
    let mut found = Found {
        nodes: Vec::new(alloc),
        rows: Vec::new(alloc),
        done: 0,
    };
    let mut places = Places::new(alloc);
    let mut steps = Vec::new(alloc);
    let first = Node {
        state: start,
        by: 0,
        depth: 0,
    };
    place_or_insert(&mut places, &mut found.nodes, first)?;
    while found.done < found.nodes.len() {
        if found.nodes.len() > limits.states {
            return Ok(found);
        }
        let Some(most) = limits.steps.checked_sub(found.rows.len()) else {
            return Ok(found);
        };
        if !expand(system, engine, most, &mut places, &mut found, &mut steps)? {
            return Ok(found);
        }
    }
    Ok(found)
}
