//! The first faults of libraries.
ghost use Rattle.std.specs.Prelude.{◌≡◌, [], map, option_map, IfOk};
ghost use Rattle.est_checks.specs.Duplicates.{first_duplicate};
ghost use Rattle.est_checks.specs.Emissions.{emitted_of, refused_at};
ghost use Rattle.est_checks.specs.LinkFaults.{number_over_outputs, fault_before_order};
ghost use Rattle.est_checks.specs.LinkFaults.{fault_after_order};
ghost use Rattle.est_checks.specs.Inner.InterfaceNames.{names_of};
ghost use Rattle.est_modules.specs.Modules.{program_of, first_in_bodies};
ghost use Rattle.est_modules.specs.NameTables.{IsTable};
ghost use Rattle.est_modules.specs.OpenNames.{AreKept};
ghost use Rattle.est_modules.specs.Occurrences.{first_of, occurrences};
ghost use Rattle.est_checks.specs.BadRenamings.{bad_renaming_at};
ghost use Rattle.est_checks.specs.UnknownNames.{unknown_at};

use est_checks::bad_renamings::BadRename;
use est_checks::emission::Emissions;
use est_checks::fault::LinkFault;
use est_checks::interface_names::{interfaces_of, own_names};
use est_checks::lawless_relations::first_over_outputs;
use est_checks::missing_modules::first_missing;
use est_checks::place_check::{PlaceCheck, first_in_bodies, first_in_body};
use est_checks::unknown_names::UnknownName;
use est_checks::{duplicates, input_emissions};
use est_modules::library_modules::{LibraryModule, LibraryModules};
use est_modules::names::kept::KeptNames;
use est_modules::names::open::OpenNames;
use est_modules::names::set::NumberSet;
use est_modules::names::table::{NameTable, further_names, numbered};
use est_modules::scope::{Act, Scope};
use est_text::identifier::Identifier;
use std::alloc::{AllocError, Global};

/// The first name of a library that is declared a second time, or is `tick`.
///
/// # Errors
///
/// `AllocError` where memory is refused for the names that were met.
pub fn first_duplicate(
    alloc: Global,
    modules: &LibraryModules<'_>,
) -> Result<Option<Identifier>, AllocError>
    ensures { IfOk result (λ name. name ≡ first_duplicate (map program_of modules.now)) }
{
    duplicates::first_duplicate(alloc, modules)
}

/// The first right name of a renaming that is no interface signal of the module that is run, or
/// stands on the right twice.
///
/// # Errors
///
/// `AllocError`, as a check answers it.
pub fn first_bad_renaming(
    alloc: Global,
    modules: &LibraryModules<'_>,
) -> Result<Option<Identifier>, AllocError>
    ensures { IfOk result (λ name. name ≡ first_in_bodies (bad_renaming_at
        (map program_of modules.now)) (map program_of modules.now)) }
{
    let names = NameTable::new(alloc);
    let none = KeptNames::none(alloc);
    let check = BadRename {
        alloc,
        modules: &*modules,
    };
    first_in_bodies(alloc, &names, &none, &check, &*modules)
}

/// The check for names that aren't visible where they are used. It is asked of the places in one
/// module.
#[derive(Clone, Copy)]
pub struct Unknown<'a, 'b> {
    /// Where memory for names is taken.
    pub alloc: Global,
    /// The modules of the library.
    pub modules: &'a LibraryModules<'b>,
    /// The module.
    pub home: &'a LibraryModule<'b>,
    /// The names that it declares, and `tick`.
    pub own: &'a NumberSet,
}

impl PlaceCheck for Unknown<'_, '_> {
    ghost use Rattle.std.specs.Prelude.{map};
    ghost use Rattle.est_modules.specs.Modules.{program_of};
    ghost use Rattle.est_checks.specs.Inner.Looking.{LooksFor};
    ghost use Rattle.est_checks.specs.UnknownNames.{unknown_at};

    ghost fits = { λ c. LooksFor (record {
      alloc = c.alloc;
      modules = c.modules;
      home = c.home;
      own = c.own;
    }) };

    ghost fault = { λ c p. unknown_at (map program_of c.modules.now)
        (program_of c.home.now) };

    fn fault(
        &self,
        home: &LibraryModule<'_>,
        kept: &OpenNames<'_, '_, '_>,
        act: &Act<'_>,
        scope: &Scope<'_>,
    ) -> Result<Option<Identifier>, AllocError> {
        let names = UnknownName {
            alloc: self.alloc,
            modules: self.modules,
            home: self.home,
            own: self.own,
        };
        names.fault(home, kept, act, scope)
    }
}

/// The first name of a module that isn't visible where it is used.
fn unknown_in<'a, 'b>(
    alloc: Global,
    table: &NameTable<'_>,
    kept: &KeptNames<'_>,
    modules: &'a LibraryModules<'b>,
    home: &'a LibraryModule<'b>,
) -> Result<Option<Identifier>, AllocError>
    requires table { IsTable table.now }
    requires kept { AreKept table.now (names_of (map program_of modules.now)) kept.now }
    ensures { IfOk result (λ name. name ≡ first_of (unknown_at (map program_of modules.now)
        (program_of home.now)) (occurrences [] (program_of home.now).body)) }
{
    let own = own_names(alloc, table, home)?;
    let check = Unknown {
        alloc,
        modules,
        home,
        own: &own,
    };
    first_in_body(&check, alloc, table, kept, &*home)
}

/// The first name of a library that isn't visible where it is used.
///
/// # Errors
///
/// `AllocError` where memory is refused for names.
pub fn first_unknown(
    alloc: Global,
    modules: &LibraryModules<'_>,
) -> Result<Option<Identifier>, AllocError>
    ensures { IfOk result (λ name. name ≡ first_in_bodies (unknown_at (map program_of modules.now))
        (map program_of modules.now)) }
{
    let further = further_names(alloc, modules)?;
    let table = numbered(alloc, &*modules, &further)?;
    let kept = interfaces_of(alloc, &table, &*modules)?;
    for home in modules.as_slice() {
        if let Some(name) = unknown_in(alloc, &table, &kept, &*modules, &*home)? {
            return Ok(Some(name));
        }
    }
    Ok(None)
}

/// The first input, or `tick`, that a module of a library emits. The table says what each module
/// emits.
///
/// # Errors
///
/// `AllocError` where memory is refused for names.
pub fn first_refused<'a>(
    alloc: Global,
    modules: &'a LibraryModules<'_>,
    table: &'a Emissions<'_>,
) -> Result<Option<Identifier>, AllocError>
    ensures { IfOk result (λ name. name ≡ first_in_bodies (refused_at (map program_of modules.now)
        (emitted_of table.now)) (map program_of modules.now)) }
{
    let further = further_names(alloc, modules)?;
    let names = numbered(alloc, &*modules, &further)?;
    input_emissions::first_refused(alloc, &names, modules, table)
}

/// The number of the first lawless relation of the main module.
fn number_over_outputs(
    alloc: Global,
    main: Option<&LibraryModule<'_>>,
) -> Result<Option<usize>, AllocError>
    ensures { IfOk result
        (λ number. number ≡ number_over_outputs (option_map (λ h. program_of h.now)
        main.entry)) }
{
    match main {
        Some(home) => first_over_outputs(alloc, home),
        None => Ok(None),
    }
}

/// The first fault of the checks that come before the order of the modules.
///
/// # Errors
///
/// `AllocError` where memory is refused for the names that were met.
pub fn fault_before_order(
    alloc: Global,
    modules: &LibraryModules<'_>,
    main: &str,
) -> Result<Option<LinkFault>, AllocError>
    ensures { IfOk result (λ fault. fault ≡ fault_before_order (map program_of modules.now)
        main.now) }
{
    if let Some(name) = first_duplicate(alloc, &*modules)? {
        return Ok(Some(LinkFault::DuplicateName(name)));
    }
    let Some(main) = Identifier::from_text(main) else {
        return Ok(Some(LinkFault::MisnamedMain));
    };
    match first_missing(alloc, &*modules, &main)? {
        Some(name) => Ok(Some(LinkFault::UnknownModule(name))),
        None => Ok(None),
    }
}

/// The first fault of the checks that come after the order of the modules. The table says what each
/// module emits.
///
/// # Errors
///
/// `AllocError` where memory is refused.
pub fn fault_after_order<'a>(
    alloc: Global,
    modules: &'a LibraryModules<'_>,
    main: &Identifier,
    table: &'a Emissions<'_>,
) -> Result<Option<LinkFault>, AllocError>
    ensures { IfOk result (λ fault. fault ≡ fault_after_order (map program_of modules.now) main.now
        (emitted_of table.now)) }
{
    if let Some(name) = first_bad_renaming(alloc, &*modules)? {
        return Ok(Some(LinkFault::BadRename(name)));
    }
    if let Some(name) = first_unknown(alloc, &*modules)? {
        return Ok(Some(LinkFault::UnknownName(name)));
    }
    if let Some(name) = first_refused(alloc, &*modules, &*table)? {
        return Ok(Some(LinkFault::EmitInput(name)));
    }
    match number_over_outputs(alloc, modules.named(main))? {
        Some(number) => Ok(Some(LinkFault::Semantics(number))),
        None => Ok(None),
    }
}
