//! Which place a state has.
//!
//! A state stands once, in its node: places are found by a number that is made of the state.
ghost use Rattle.std.specs.Prelude.{◌≡◌, ◌≢◌, [], IfOk, MatchOption, OnOk, length};
ghost use Rattle.std.specs.List.{All};
ghost use Rattle.state_search.specs.Inner.Numbers.{AreBefore, IsLastOf, number_of};
ghost use Rattle.state_search.specs.Inner.Places.{IsPlaced, Puts};
ghost use Rattle.state_search.specs.Table.{HasStateAt};

use crate::found::Node;
use crate::transition_system::SearchState;
use std::alloc::{AllocError, Global};
use std::collections::HashMap;
use std::hash::{FoldHasher, Hasher};

/// Which places the states of each number have.
#[derive(Drop)]
pub struct Places {
    /// Of each number, the place of the last state that has it.
    last: HashMap<u64, usize>,
    /// Of each place, that of the last state before it that has the number of its state.
    before: Vec<Option<usize>>,
}

impl Places {
    /// No places.
    pub fn new(alloc: Global) -> Places
        ensures last { result.last.entries ≡ [] }
        ensures before { result.before.items ≡ [] }
    {
        Places {
            last: HashMap::new(alloc),
            before: Vec::new(alloc),
        }
    }
}

/// The number of a state.
fn number_of<S: SearchState>(state: &S) -> u64
    ensures { result ≡ number_of S.hash_input state.now }
{
    let mut hasher = FoldHasher::default();
    state.hash(&mut hasher);
    hasher.finish()
}

/// The place of the state, if it has one. The search begins at the last state of its number.
fn find<S: SearchState>(
    before: &[Option<usize>],
    nodes: &[Node<S>],
    state: &S,
    last: Option<usize>,
) -> Option<usize>
    requires before { AreBefore (number_of S.hash_input) before.now nodes.now }
    requires last { IsLastOf (number_of S.hash_input) nodes.now (length nodes.now)
        (number_of S.hash_input state.now) last }
    ensures { MatchOption result (All (λ n. n.state ≢ state.now) nodes.now)
        (λ place. HasStateAt nodes.now place state.now) }
{
    let mut place = last;
    while let Some(at) = place {
        if nodes[at].state == *state {
            return Some(at);
        }
        place = before[at];
    }
    None
}

/// The place of the node's state. If it has none yet, the node comes at the end.
pub fn place_or_insert<S: SearchState>(
    places: &mut Places,
    nodes: &mut Vec<Node<S>>,
    node: Node<S>,
) -> Result<usize, AllocError>
    requires { IsPlaced S.hash_input places.old nodes.old.items }
    ensures places { OnOk result (IsPlaced S.hash_input places.new nodes.new.items) }
    ensures puts { IfOk result (λ place. Puts nodes.old.items node place nodes.new.items) }
{
    let number = number_of(&node.state);
    let last = places.last.get(&number).copied();
    if let Some(place) = find(&places.before, nodes, &node.state, last) {
        return Ok(place);
    }
    let place = nodes.len();
    places.last.insert(number, place)?;
    places.before.push(last)?;
    nodes.push(node)?;
    Ok(place)
}
