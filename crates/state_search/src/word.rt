//! How a state was reached.
ghost use Rattle.std.specs.Prelude.{◌≡◌, ◌<◌, IfOk, length, reverse, slice_index_or};
ghost use Rattle.state_search.specs.Table.{HasStateAt, IsTree};
ghost use Rattle.state_search.specs.declared.found.Row.{Row as RowValue};
ghost use Rattle.state_search.specs.Words.{LedTo};

use crate::found::{Found, Row};
use crate::transition_system::TransitionSystem;
use std::alloc::{AllocError, Global};

/// These labels, the last ones first.
fn reversed<L: Copy + Drop>(alloc: Global, back: &[L]) -> Result<Vec<L>, AllocError>
    ensures { IfOk result (λ word. word.items ≡ reverse back.now) }
{
    back.iter().rev().copied().collect(alloc)
}

/// The labels of the steps that lead to the row at this place and by it, from the first state on.
/// There are as many as the depth of the state before the row, and one more.
pub fn word_to<M: TransitionSystem>(
    alloc: Global,
    system: &M,
    found: &Found<M::State, M::Label>,
    at: usize,
) -> Result<Vec<M::Label>, AllocError>
    requires within { at < length found.now.rows.items }
    requires tree { IsTree (M.is_state system.now) (M.does system.now) (M.apart system.now)
        found.now.nodes.items found.now.rows.items }
    ensures { IfOk result (λ word. (start : M.State) → HasStateAt found.now.nodes.items 0 start
        → (r : RowValue M.Label) → LedTo (M.does system.now) start found.now.nodes.items
        (slice_index_or found.now.rows.items at r) word.items) }
{
    let row = found.rows[at];
    let mut back = Vec::new(alloc);
    back.push(row.label)?;
    let mut place = row.from;
    while place > 0 {
        let row = found.rows[found.nodes[place].by];
        back.push(row.label)?;
        place = row.from;
    }
    reversed(alloc, &back)
}
