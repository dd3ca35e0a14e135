//! All checks of a library, in their order.
ghost use Rattle.std.specs.Prelude.{◌≡◌, None, IfOk, IfErr, OnOk, map};
ghost use Rattle.est_checks.specs.Duplicates.{first_duplicate};
ghost use Rattle.est_checks.specs.FirstFaults.{Finds, IsFirstFault, IsFirstOf};
ghost use Rattle.est_checks.specs.Inner.Recursion.{IsOrderFault};
ghost use Rattle.est_checks.specs.Inner.Stages.{emission_checks, name_checks, run_checks};
ghost use Rattle.est_checks.specs.UnknownNames.{unknown_at};
ghost use Rattle.est_modules.specs.Modules.{first_in_bodies, program_of};
ghost use Rattle.est_modules.specs.ModuleOrders.{IsOrderOf, run_rows};
ghost use Rattle.est_modules.specs.NameTables.{AreNumbered, IsTable};
ghost use Rattle.est_order.specs.PlaceOrders.{NoneIsRecursive};

use crate::around_order::{check_before_order, fault_of_emissions, fault_of_names};
use crate::fault::LinkFault;
use crate::limits::check_limits;
use crate::module_emissions::emissions_along;
use est_modules::library_modules::LibraryModules;
use est_modules::module_order::order_library;
use est_modules::names::table::{NameTable, further_names, numbered};
use est_order::order_fault::OrderFault;
use est_order::place_order::Order;
use est_text::identifier::Identifier;
use std::alloc::Global;

/// The order of the modules. A module that is recursive is at fault.
fn order_of(alloc: Global, modules: &LibraryModules<'_>) -> Result<Order, LinkFault>
    ensures order { IfOk result (λ order. IsOrderOf (map program_of modules.now) order) }
    ensures ok { OnOk result (NoneIsRecursive (run_rows (map program_of modules.now))) }
    ensures err { IfErr result (IsOrderFault (map program_of modules.now)) }
{
    match order_library(alloc, &*modules) {
        Ok(order) => Ok(order),
        Err(OrderFault::Recursive(place)) => Err(LinkFault::RecursiveRun(modules.name_at(place))),
        Err(OrderFault::Memory) => Err(LinkFault::Memory),
    }
}

/// The checks from that of emissions on. No module uses a name that isn't visible.
fn check_from_emissions<'a>(
    alloc: Global,
    names: &'a NameTable<'_>,
    modules: &'a LibraryModules<'_>,
    order: &Order,
    main: &Identifier,
) -> Result<(), LinkFault>
    requires table { IsTable names.now }
    requires numbered { AreNumbered names.now (map program_of modules.now) }
    requires known { first_in_bodies (unknown_at (map program_of modules.now))
        (map program_of modules.now) ≡ None }
    requires order { IsOrderOf (map program_of modules.now) order.now }
    requires distinct { first_duplicate (map program_of modules.now) ≡ None }
    ensures { Finds (IsFirstOf (emission_checks (map program_of modules.now) main.now)) result }
{
    let table = emissions_along(alloc, names, &*modules, order.places())?;
    match fault_of_emissions(alloc, names, &*modules, main, &table)? {
        Some(fault) => Err(fault),
        None => check_limits(alloc, modules, order, main),
    }
}

/// The checks from that of renamings on.
fn check_from_names(
    alloc: Global,
    modules: &LibraryModules<'_>,
    order: &Order,
    main: &Identifier,
) -> Result<(), LinkFault>
    requires order { IsOrderOf (map program_of modules.now) order.now }
    requires distinct { first_duplicate (map program_of modules.now) ≡ None }
    ensures { Finds (IsFirstOf (name_checks (map program_of modules.now) main.now)) result }
{
    let further = further_names(alloc, modules)?;
    let names = numbered(alloc, &*modules, &further)?;
    match fault_of_names(alloc, &names, &*modules)? {
        Some(fault) => Err(fault),
        None => check_from_emissions(alloc, &names, &*modules, order, main),
    }
}

/// The checks from that of recursive runs on.
fn check_from_runs(
    alloc: Global,
    modules: &LibraryModules<'_>,
    main: &Identifier,
) -> Result<Order, LinkFault>
    requires { first_duplicate (map program_of modules.now) ≡ None }
    ensures order { IfOk result (λ order. IsOrderOf (map program_of modules.now) order) }
    ensures found { Finds (IsFirstOf (run_checks (map program_of modules.now) main.now)) result }
{
    let order = order_of(alloc, &*modules)?;
    check_from_names(alloc, &*modules, &order, main)?;
    Ok(order)
}

/// All checks of a library in their order: the name of its main module, and the order of its
/// modules, each after those that it runs, exactly when no check has a fault.
///
/// # Errors
///
/// The first fault, or `Memory`.
pub fn check_library(
    alloc: Global,
    modules: &LibraryModules<'_>,
    main: &str,
) -> Result<(Identifier, Order), LinkFault>
    ensures name { IfOk result (λ checked. checked.0 ≡ main.now) }
    ensures order { IfOk result (λ checked. IsOrderOf (map program_of modules.now) checked.1) }
    ensures found { Finds (IsFirstFault (map program_of modules.now) main.now) result }
{
    let main = check_before_order(alloc, &*modules, main)?;
    let order = check_from_runs(alloc, &*modules, &main)?;
    Ok((main, order))
}
