//! The order of modules.
ghost use Rattle.std.specs.Prelude.{◌≡◌, IfOk, IfErr, OnOk, IsPermutation, slice_index};
ghost use Rattle.std.specs.List.{range_with_len};
ghost use Rattle.std.specs.List.Sorted.{IsNonDecreasingBy};
ghost use Rattle.est_order.specs.RunRows.{rows_of};
ghost use Rattle.est_order.specs.PlaceOrders.{IsBottomUp, NoneIsRecursive, IsFaultOf};

use crate::levels::{falling_levels, level_of};
use crate::order_fault::OrderFault;
use std::alloc::{AllocError, Global};
use std::marker::Model;

/// Places of modules, in an order. A contract sees the list.
#[derive(Drop)]
pub struct Order {
    places: Vec<usize>,
}

impl Model for Order {
    ghost use Rattle.std.specs.Prelude.{List, ℕ};

    ghost Value = { List ℕ };

    ghost view = { λ o. o.places.items };
}

impl Order {
    /// The places, the first of them first.
    pub fn places(&self) -> &[usize]
        ensures { result.now ≡ self.now }
    {
        self.places.as_slice()
    }
}

/// The modules in an order in which each stands after all that it runs. `runs` has, for each
/// module, the places of those that it runs; a number that is no place is passed over.
///
/// # Errors
///
/// `Recursive` with the place of the first module from which a chain of one or more runs leads
/// back to it, where there is one; or memory was refused.
pub fn order_modules(alloc: Global, runs: &[Vec<usize>]) -> Result<Order, OrderFault>
    ensures bottom_up { IfOk result (λ order. IsBottomUp (rows_of runs.now) order) }
    ensures ok { OnOk result (NoneIsRecursive (rows_of runs.now)) }
    ensures err { IfErr result (λ fault. IsFaultOf (rows_of runs.now) fault) }
{
    let levels = falling_levels(alloc, runs)?;
    let places = places_by_level(alloc, runs.len(), &levels)?;
    Ok(Order { places })
}

/// The places, those of lower levels first.
fn places_by_level(alloc: Global, count: usize, levels: &[usize]) -> Result<Vec<usize>, AllocError>
    ensures each_once { IfOk result
        (λ places. IsPermutation (range_with_len 0 count) places.items) }
    ensures sorted { IfOk result
        (λ places. IsNonDecreasingBy (λ place. slice_index levels.now place) places.items) }
{
    let mut places: Vec<usize> = (0..count).collect(alloc)?;
    places.sort_by_key(|place| level_of(levels, *place))?;
    Ok(places)
}
