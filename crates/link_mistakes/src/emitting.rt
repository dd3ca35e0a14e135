//! What modules emit, and by which names.
ghost use Rattle.std.specs.Prelude.{◌≡◌, None, map, IfOk};
ghost use Rattle.est_checks.specs.Duplicates.{first_duplicate};
ghost use Rattle.est_checks.specs.Emissions.{IsEmissionOf};
ghost use Rattle.est_checks.specs.UnknownNames.{unknown_at};
ghost use Rattle.est_modules.specs.Modules.{first_in_bodies, program_of};
ghost use Rattle.est_modules.specs.ModuleOrders.{IsOrderOf};
ghost use Rattle.est_modules.specs.Renamings.{renamed};
ghost use Rattle.est_syntax.specs.Views.{renaming_view};

use est_checks::module_emissions::emissions_along;
use est_modules::library_modules::LibraryModules;
use est_modules::names::table::{further_names, numbered};
use est_modules::renamings::RunRenamings;
use est_order::place_order::Order;
use est_syntax::tree::Renaming;
use est_text::identifier::Identifier;
use std::alloc::{AllocError, Global};

/// Whether the module of a name emits a signal that its callers see.
///
/// # Errors
///
/// `AllocError` where memory is refused for names.
pub fn emits(
    alloc: Global,
    modules: &LibraryModules<'_>,
    order: &Order,
    name: &Identifier,
    signal: &Identifier,
) -> Result<bool, AllocError>
    requires order { IsOrderOf (map program_of modules.now) order.now }
    requires distinct { first_duplicate (map program_of modules.now) ≡ None }
    requires known { first_in_bodies (unknown_at (map program_of modules.now))
        (map program_of modules.now) ≡ None }
    ensures { IfOk result (IsEmissionOf (map program_of modules.now) name.now signal.now) }
{
    let further = further_names(alloc, modules)?;
    let names = numbered(alloc, &*modules, &further)?;
    let table = emissions_along(alloc, &names, &*modules, order.places())?;
    Ok(table.emits(name, signal))
}

/// The caller's name for a signal of the module that is run.
///
/// # Errors
///
/// `AllocError` where memory is refused for the names that are renamed.
pub fn callers_name(
    alloc: Global,
    renamings: &[Renaming],
    name: &Identifier,
) -> Result<Identifier, AllocError>
    ensures { IfOk result (λ n. n ≡ renamed (map renaming_view renamings.now) name.now) }
{
    let list = renamings;
    let renamings = RunRenamings::of(alloc, list)?;
    Ok(renamings.callers_name(name))
}
