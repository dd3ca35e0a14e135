//! The checks of a library that come before the order of its modules, and those that come after it.
ghost use Rattle.std.specs.Prelude.{◌≡◌, map, option_map, IfOk};
ghost use Rattle.est_modules.specs.Modules.{program_of};
ghost use Rattle.est_modules.specs.NameTables.{IsTable};
ghost use Rattle.est_checks.specs.Emissions.{emitted_of};
ghost use Rattle.est_checks.specs.FirstFaults.{Finds};
ghost use Rattle.est_checks.specs.Inner.Stages.{fault_of_names, fault_of_emissions};
ghost use Rattle.est_checks.specs.LinkFaults.{number_over_outputs, fault_before_order};

use crate::bad_renamings::BadRename;
use crate::duplicates::first_duplicate;
use crate::emission::Emissions;
use crate::fault::LinkFault;
use crate::input_emissions::first_refused;
use crate::lawless_relations::first_over_outputs;
use crate::missing_modules::first_missing;
use crate::place_check::first_in_bodies;
use crate::unknown_names::first_unknown;
use est_modules::library_modules::{LibraryModule, LibraryModules};
use est_modules::names::kept::KeptNames;
use est_modules::names::table::NameTable;
use est_text::identifier::Identifier;
use std::alloc::{AllocError, Global};

/// The checks that come before the order of the modules: names that are declared twice, a name of
/// the main module that is no identifier, modules that aren't there. Where they have no fault, the
/// name of the main module is an identifier.
///
/// # Errors
///
/// The first fault; or memory was refused for the names that were met.
pub fn check_before_order(
    alloc: Global,
    modules: &LibraryModules<'_>,
    main: &str,
) -> Result<Identifier, LinkFault>
    ensures name { IfOk result (λ name. name ≡ main.now) }
    ensures found { Finds (λ found. found ≡ fault_before_order (map program_of modules.now)
        main.now) result }
{
    if let Some(name) = first_duplicate(alloc, &*modules)? {
        return Err(LinkFault::DuplicateName(name));
    }
    let Some(main) = Identifier::from_text(main) else {
        return Err(LinkFault::MisnamedMain);
    };
    match first_missing(alloc, &*modules, &main)? {
        Some(name) => Err(LinkFault::UnknownModule(name)),
        None => Ok(main),
    }
}

/// The number of the first lawless relation of the main module.
fn main_lawless_number(
    alloc: Global,
    main: Option<&LibraryModule<'_>>,
) -> Result<Option<usize>, AllocError>
    ensures { IfOk result
        (λ number. number ≡ number_over_outputs (option_map (λ h. program_of h.now)
        main.entry)) }
{
    match main {
        Some(home) => first_over_outputs(alloc, home),
        None => Ok(None),
    }
}

/// The first fault of the checks that come after the order of the modules and ask no emissions:
/// renamings, names that aren't visible.
///
/// # Errors
///
/// `AllocError` where memory is refused for names.
pub fn fault_of_names(
    alloc: Global,
    names: &NameTable<'_>,
    modules: &LibraryModules<'_>,
) -> Result<Option<LinkFault>, AllocError>
    requires { IsTable names.now }
    ensures { IfOk result (λ fault. fault ≡ fault_of_names (map program_of modules.now)) }
{
    let no_names = NameTable::new(alloc);
    let none = KeptNames::none(alloc);
    let check = BadRename {
        alloc,
        modules: &*modules,
    };
    if let Some(name) = first_in_bodies(alloc, &no_names, &none, &check, &*modules)? {
        return Ok(Some(LinkFault::BadRename(name)));
    }
    match first_unknown(alloc, names, &*modules)? {
        Some(name) => Ok(Some(LinkFault::UnknownName(name))),
        None => Ok(None),
    }
}

/// The first fault of the next checks: emissions of inputs, relations of the main module. The table
/// says what each module emits.
///
/// # Errors
///
/// `AllocError` where memory is refused for names or for the list of the relations.
pub fn fault_of_emissions<'a>(
    alloc: Global,
    names: &NameTable<'_>,
    modules: &'a LibraryModules<'_>,
    main: &Identifier,
    table: &'a Emissions<'_>,
) -> Result<Option<LinkFault>, AllocError>
    requires { IsTable names.now }
    ensures { IfOk result (λ fault. fault ≡ fault_of_emissions (map program_of modules.now) main.now
        (emitted_of table.now)) }
{
    if let Some(name) = first_refused(alloc, names, &*modules, &*table)? {
        return Ok(Some(LinkFault::EmitInput(name)));
    }
    match main_lawless_number(alloc, modules.named(main))? {
        Some(number) => Ok(Some(LinkFault::Semantics(number))),
        None => Ok(None),
    }
}
