//! The order in which the modules of a library can be worked out, each after those that it runs.
ghost use Rattle.std.specs.Prelude.{◌≡◌, ◌++◌, map, IfOk, IfErr, OnOk};
ghost use Rattle.std.specs.Option.{option_to_list};
ghost use Rattle.est_order.specs.RunRows.{rows_of};
ghost use Rattle.est_order.specs.PlaceOrders.{NoneIsRecursive, IsFaultOf};
ghost use Rattle.est_modules.specs.Modules.{program_of};
ghost use Rattle.est_modules.specs.ModuleOrders.{IsOrderOf, run_rows, places_run};

use crate::library_modules::{LibraryModule, LibraryModules};
use crate::names::kept::KeptNames;
use crate::names::open::OpenNames;
use crate::names::table::NameTable;
use crate::scope::{Act, Scope};
use crate::visit::Visitor;
use crate::walk::walk_body;
use est_order::order_fault::OrderFault;
use est_order::place_order::{Order, order_modules};
use std::alloc::{AllocError, Global};

/// Adds a place to the list, if there is one.
fn note(places: &mut Vec<usize>, place: Option<usize>) -> Result<(), AllocError>
    ensures { OnOk result (places.new.items ≡ places.old.items ++ option_to_list place) }
{
    if let Some(place) = place {
        places.push(place)?;
    }
    Ok(())
}

/// Notes the places of the modules that are run.
#[derive(Clone, Copy)]
struct RunPlaces<'a, 'b> {
    modules: &'a LibraryModules<'b>,
}

impl Visitor for RunPlaces<'_, '_> {
    ghost use Rattle.std.specs.Prelude.{ℕ, List, ⊤, ◌++◌, map};
    ghost use Rattle.est_modules.specs.Modules.{program_of};
    ghost use Rattle.est_modules.specs.ModuleOrders.{place_run};

    type Seen = Vec<usize>;

    ghost State = { List ℕ };

    ghost state = { λ seen. seen.items };

    ghost fits = { λ v t ks. ⊤ };

    ghost after = { λ v places o. places ++ place_run (map program_of v.modules.now) o.act };

    fn visit(
        &self,
        seen: &mut Vec<usize>,
        _kept: &OpenNames<'_, '_, '_>,
        act: &Act<'_>,
        _scope: &Scope<'_>,
    ) -> Result<(), AllocError> {
        match act {
            Act::Emits(_) | Act::Tests(_) | Act::Exits(_) | Act::Binds(_) => Ok(()),
            Act::Runs(name, _) => note(seen, self.modules.place(name)),
        }
    }
}

/// The places of the modules that a module runs, in the order of the text.
pub fn places_run(
    alloc: Global,
    modules: &LibraryModules<'_>,
    home: &LibraryModule<'_>,
) -> Result<Vec<usize>, AllocError>
    ensures { IfOk result (λ places. places.items ≡ places_run (map program_of modules.now)
        (program_of home.now)) }
{
    let mut places = Vec::new(alloc);
    let visitor = RunPlaces { modules: &*modules };
    let table = NameTable::new(alloc);
    let none = KeptNames::none(alloc);
    walk_body(&visitor, &mut places, alloc, &table, &none, home.body)?;
    Ok(places)
}

/// The same of each module.
fn run_rows(alloc: Global, modules: &LibraryModules<'_>) -> Result<Vec<Vec<usize>>, AllocError>
    ensures { IfOk result (λ rows. rows_of rows.items ≡ run_rows (map program_of modules.now)) }
{
    let mut rows = Vec::new(alloc);
    for home in modules.as_slice() {
        rows.push(places_run(alloc, &*modules, home)?)?;
    }
    Ok(rows)
}

/// The modules in an order in which each stands after all that it runs. Runs of modules that aren't
/// there are passed over.
///
/// # Errors
///
/// `Recursive` with the place of the first module, in the order of the text, from which a chain of
/// runs leads back to it, where there is one; or memory was refused.
pub fn order_library(alloc: Global, modules: &LibraryModules<'_>) -> Result<Order, OrderFault>
    ensures order { IfOk result (λ order. IsOrderOf (map program_of modules.now) order) }
    ensures ok { OnOk result (NoneIsRecursive (run_rows (map program_of modules.now))) }
    ensures err { IfErr result (λ fault. IsFaultOf (run_rows (map program_of modules.now)) fault) }
{
    let rows = run_rows(alloc, &*modules)?;
    order_modules(alloc, &rows)
}
