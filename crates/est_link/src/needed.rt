//! Which modules are linked: main and all that it runs, directly or through others. The order is
//! gone through from its end. So all that run a module are met before it, and it is known by then
//! whether it is needed.
//!
//! A set of modules is a row that has for each place whether the module there is in the set.
ghost use Rattle.std.specs.Prelude.{◌≡◌, ◌<◌, Some, IfOk, false, length, map, slice_index_or};
ghost use Rattle.std.specs.List.{slice_get};
ghost use Rattle.est_order.specs.PlaceSets.{IsIn};
ghost use Rattle.est_link.specs.Inner.Needs.{IsComplete, with_places};
ghost use Rattle.est_modules.specs.Modules.{Program, program_of};
ghost use Rattle.est_modules.specs.ModuleOrders.{IsOrderOf, places_run};

use est_modules::library_modules::LibraryModules;
use est_modules::module_order::places_run;
use std::alloc::{AllocError, Global};

/// Whether a place is in a set.
pub fn is_in(set: &[bool], place: usize) -> bool
    requires { place < length set.now }
    ensures { result ≡ slice_index_or set.now place false }
{
    set[place]
}

/// The places of the modules that the module at a place runs.
fn places_at(
    alloc: Global,
    modules: &LibraryModules<'_>,
    place: usize,
) -> Result<Vec<usize>, AllocError>
    requires { place < length modules.now }
    ensures { IfOk result (λ places. (p : Program)
        → slice_get (map program_of modules.now) place ≡ Some p
        → places.items ≡ places_run (map program_of modules.now) p) }
{
    places_run(alloc, &*modules, &modules.as_slice()[place])
}

/// Adds places to a set. A number that is no place is passed over.
fn add_places(set: &mut Vec<bool>, places: &[usize])
    ensures { set.new.items ≡ with_places set.old.items places.now }
{
    for place in places {
        if *place < set.len() {
            set[*place] = true;
        }
    }
}

/// The set of the module at `main` and of those that it runs, and so on.
///
/// # Errors
///
/// `AllocError` where memory is refused.
pub fn needed_places(
    alloc: Global,
    modules: &LibraryModules<'_>,
    order: &[usize],
    main: usize,
) -> Result<Vec<bool>, AllocError>
    requires order { IsOrderOf (map program_of modules.now) order.now }
    requires main { main < length modules.now }
    ensures size { IfOk result (λ set. length set.items ≡ length modules.now) }
    ensures complete { IfOk result (λ set. IsComplete (map program_of modules.now) set.items) }
    ensures main { IfOk result (λ set. IsIn set.items main) }
{
    let mut needed = vec![in alloc; false; modules.as_slice().len()]?;
    needed[main] = true;
    let mut left = order.len();
    while left > 0 {
        left -= 1;
        let place = order[left];
        if is_in(&needed, place) {
            add_places(&mut needed, &places_at(alloc, &*modules, place)?);
        }
    }
    Ok(needed)
}
