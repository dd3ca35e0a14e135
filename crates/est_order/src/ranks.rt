//! Levels of modules that are proved, and slow to find: how many places each module leads to.
ghost use Rattle.std.specs.Prelude.{IfOk, IfErr};
ghost use Rattle.est_order.specs.RunRows.{rows_of};
ghost use Rattle.est_order.specs.PlaceOrders.{IsFaultOf};
ghost use Rattle.est_order.specs.Inner.Levels.{AllFall};

use crate::order_fault::OrderFault;
use crate::reach::{count, reach};
use std::alloc::Global;

/// A level for each module, such that each runs those of lower levels alone. This takes a search
/// for each module.
///
/// # Errors
///
/// `Recursive` with the place of the first module from which a chain of runs leads back to it,
/// where there is one; or memory was refused.
pub(crate) fn rank_modules(alloc: Global, runs: &[Vec<usize>]) -> Result<Vec<usize>, OrderFault>
    ensures falling { IfOk result (λ ranks. AllFall (rows_of runs.now) ranks.items) }
    ensures err { IfErr result (λ fault. IsFaultOf (rows_of runs.now) fault) }
{
    let mut ranks = Vec::new(alloc);
    for place in 0..runs.len() {
        let reached = reach(alloc, runs, place)?;
        if reached[place] {
            return Err(OrderFault::Recursive(place));
        }
        ranks.push(count(&reached))?;
    }
    Ok(ranks)
}
