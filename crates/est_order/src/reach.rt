//! What a module leads to.
ghost use Rattle.std.specs.Prelude.{◌≡◌, ◌↔◌, ℕ, ◌<◌, [], length, slice_index_or, IsTrue, IfOk};
ghost use Rattle.std.specs.Prelude.{OnOk};
ghost use Rattle.est_order.specs.RunRows.{rows_of, IsRecursive};
ghost use Rattle.est_order.specs.Inner.Reached.{IsReach, size, followed};

use std::alloc::{AllocError, Global};

/// The places of the modules that this one runs.
#[tactic(auto, using(crate::proofs::SearchLemmas::row_at))]
pub(crate) fn row_of(runs: &[Vec<usize>], place: usize) -> &[usize]
    requires { place < length runs.now }
    ensures { result.now ≡ slice_index_or (rows_of runs.now) place [] }
{
    &runs[place]
}

/// Sees the places of a row, and notes those that were not seen.
fn follow(row: &[usize], seen: &mut Vec<bool>, waiting: &mut Vec<usize>) -> Result<(), AllocError>
    ensures { OnOk result (record { seen = seen.new.items; waiting = waiting.new.items }
        ≡ followed (record { seen = seen.old.items; waiting = waiting.old.items }) row.now) }
{
    for place in row {
        if *place < seen.len() && !seen[*place] {
            seen[*place] = true;
            waiting.push(*place)?;
        }
    }
    Ok(())
}

/// The set of the places that a module leads to.
///
/// # Errors
/// Memory was refused.
pub(crate) fn reach(
    alloc: Global,
    runs: &[Vec<usize>],
    place: usize,
) -> Result<Vec<bool>, AllocError>
    requires { place < length runs.now }
    ensures { IfOk result (λ set. IsReach (rows_of runs.now) place set.items) }
{
    let mut seen = vec![in alloc; false; runs.len()]?;
    let mut waiting = vec![in alloc; place; 1]?;
    while let Some(next) = waiting.pop() {
        follow(row_of(runs, next), &mut seen, &mut waiting)?;
    }
    Ok(seen)
}

/// Whether a chain of runs leads from the module back to it.
///
/// # Errors
/// Memory was refused.
pub(crate) fn leads_back(
    alloc: Global,
    runs: &[Vec<usize>],
    place: usize,
) -> Result<bool, AllocError>
    requires { place < length runs.now }
    ensures { IfOk result (λ back. IsTrue back ↔ IsRecursive (rows_of runs.now) place) }
{
    let reached = reach(alloc, runs, place)?;
    Ok(reached[place])
}

/// How many places a set has.
pub(crate) fn count(set: &[bool]) -> usize
    ensures { result ≡ size set.now }
{
    set.iter().filter(|place| **place).count()
}
