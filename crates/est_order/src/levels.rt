//! Levels of modules, and what follows from them.
//!
//! Where each module runs those of lower levels alone, no chain of runs leads back. Where no module
//! runs one of a higher level, a chain never climbs; so a module that runs lower ones alone isn't
//! recursive, whatever else there is.
ghost use Rattle.std.specs.Prelude.{◌≡◌, ◌↔◌, ◌<◌, ℕ, length, slice_index, IsTrue, MatchOption};
ghost use Rattle.std.specs.Prelude.{IfOk, IfErr};
ghost use Rattle.est_order.specs.RunRows.{rows_of};
ghost use Rattle.est_order.specs.PlaceOrders.{IsFaultOf};
ghost use Rattle.est_order.specs.Inner.Levels.{runs_no_higher, runs_lower, NoneClimbs, AllFall};
ghost use Rattle.est_order.specs.Inner.Levels.{IsFirstNotFalling};

use crate::level_guess::guess_levels;
use crate::order_fault::OrderFault;
use crate::ranks::rank_modules;
use crate::reach::{leads_back, row_of};
use std::alloc::Global;

/// The level of a place, and 0 where there is none.
pub(crate) fn level_of(levels: &[usize], place: usize) -> usize
    ensures { result ≡ slice_index levels.now place }
{
    levels.get(place).copied().unwrap_or(0)
}

/// Whether the module runs none of a higher level.
fn runs_no_higher(runs: &[Vec<usize>], levels: &[usize], place: usize) -> bool
    requires { place < length runs.now }
    ensures { result ≡ runs_no_higher (rows_of runs.now) levels.now place }
{
    let level = level_of(levels, place);
    let count = runs.len();
    row_of(runs, place)
        .iter()
        .all(|run| *run >= count || level_of(levels, *run) <= level)
}

/// Whether the module runs those of lower levels alone.
fn runs_lower(runs: &[Vec<usize>], levels: &[usize], place: usize) -> bool
    requires { place < length runs.now }
    ensures { result ≡ runs_lower (rows_of runs.now) levels.now place }
{
    let level = level_of(levels, place);
    let count = runs.len();
    row_of(runs, place)
        .iter()
        .all(|run| *run >= count || level_of(levels, *run) < level)
}

/// Whether no module runs one of a higher level.
fn none_climbs(runs: &[Vec<usize>], levels: &[usize]) -> bool
    ensures { IsTrue result ↔ NoneClimbs (rows_of runs.now) levels.now }
{
    for runner in 0..runs.len() {
        if !runs_no_higher(runs, levels, runner) {
            return false;
        }
    }
    true
}

/// The first module that runs one whose level isn't lower.
fn first_not_falling(runs: &[Vec<usize>], levels: &[usize]) -> Option<usize>
    ensures { MatchOption result (AllFall (rows_of runs.now) levels.now)
        (λ place. IsFirstNotFalling (rows_of runs.now) levels.now place) }
{
    for place in 0..runs.len() {
        if !runs_lower(runs, levels, place) {
            return Some(place);
        }
    }
    None
}

/// A level for each module, such that each runs those of lower levels alone.
///
/// The levels of the search are taken if they pass the checks. If they show a recursive module, the
/// first one is the first that runs one whose level isn't lower. Were the levels wrong, `ranks`
/// would give others; no list of runs is known for which they are wrong.
///
/// # Errors
///
/// `Recursive` with the place of the first module from which a chain of runs leads back to it,
/// where there is one; or memory was refused.
pub(crate) fn falling_levels(alloc: Global, runs: &[Vec<usize>]) -> Result<Vec<usize>, OrderFault>
    ensures falling { IfOk result (λ levels. AllFall (rows_of runs.now) levels.items) }
    ensures err { IfErr result (λ fault. IsFaultOf (rows_of runs.now) fault) }
{
    let guess = guess_levels(alloc, runs)?;
    if !none_climbs(runs, &guess) {
        return rank_modules(alloc, runs);
    }
    match first_not_falling(runs, &guess) {
        None => Ok(guess),
        Some(place) => {
            if leads_back(alloc, runs, place)? {
                Err(OrderFault::Recursive(place))
            } else {
                rank_modules(alloc, runs)
            }
        }
    }
}
