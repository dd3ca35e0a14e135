//! For each module of a library: the interface names that it emits.
ghost use Rattle.std.specs.Prelude.{◌≡◌, filter, map, IfOk};
ghost use Rattle.est_checks.specs.Emissions.{emitted_of};
ghost use Rattle.est_checks.specs.Inner.Emitted.{names_emitted_by};
ghost use Rattle.est_modules.specs.Modules.{program_of};
ghost use Rattle.est_modules.specs.NameSets.{has};
ghost use Rattle.est_modules.specs.NameTables.{IsTable};
ghost use Rattle.est_modules.specs.OpenNames.{AreKept};

use crate::emission::Emissions;
use crate::run_names::{Choice, kept_of};
use est_modules::interface::Declared;
use est_modules::library_modules::LibraryModules;
use est_modules::names::kept::KeptNames;
use est_modules::names::set::NameSet;
use est_modules::names::table::NameTable;
use est_text::identifier::Identifier;
use std::alloc::{AllocError, Global};

/// The names of an interface that are in a set.
///
/// # Errors
///
/// `AllocError` where memory is refused for names.
pub fn names_in(
    alloc: Global,
    set: &NameSet<'_>,
    interface: &[Declared],
) -> Result<Vec<Identifier>, AllocError>
    ensures { IfOk result (λ names. names.items ≡ filter (has set.now) (map (λ d. d.name)
        interface.now)) }
{
    let mut names = Vec::new(alloc);
    for declared in interface {
        if set.contains(&declared.name) {
            names.push(declared.name)?;
        }
    }
    Ok(names)
}

/// The names of an interface that a module emits, as the table says.
fn emitted_in(
    alloc: Global,
    table: &Emissions<'_>,
    name: &Identifier,
    interface: &[Declared],
) -> Result<Vec<Identifier>, AllocError>
    ensures { IfOk result (λ names. names.items ≡ filter (emitted_of table.now name.now) (map
        (λ d. d.name) interface.now)) }
{
    match table.of_module(name) {
        Some(signals) => names_in(alloc, signals, interface),
        None => Ok(Vec::new(alloc)),
    }
}

/// The interface names of a module that it emits.
#[derive(Clone, Copy)]
struct Emitted<'a, 'b, 'c> {
    /// The modules of the library.
    modules: &'a LibraryModules<'b>,
    /// What each emits.
    table: &'a Emissions<'c>,
}

impl Choice for Emitted<'_, '_, '_> {
    ghost use Rattle.std.specs.Prelude.{map};
    ghost use Rattle.est_modules.specs.Modules.{program_of};
    ghost use Rattle.est_checks.specs.Emissions.{emitted_of};
    ghost use Rattle.est_checks.specs.Inner.Emitted.{names_emitted_by};

    ghost chosen = { λ c. names_emitted_by (map program_of c.modules.now)
        (emitted_of c.table.now) };

    fn choose(&self, alloc: Global, name: &Identifier) -> Result<Vec<Identifier>, AllocError> {
        match self.modules.named(name) {
            Some(run) => emitted_in(alloc, self.table, name, run.interface.signals()),
            None => Ok(Vec::new(alloc)),
        }
    }
}

/// The modules of a library, each with its interface names that it emits.
///
/// # Errors
///
/// `AllocError` where memory is refused for names.
pub fn emitted_names<'a>(
    alloc: Global,
    names: &NameTable<'_>,
    modules: &'a LibraryModules<'_>,
    table: &'a Emissions<'_>,
) -> Result<KeptNames<'a>, AllocError>
    requires { IsTable names.now }
    ensures { IfOk result (λ kept. AreKept names.now (names_emitted_by (map program_of modules.now)
        (emitted_of table.now)) kept) }
{
    let choice = Emitted {
        modules: &*modules,
        table: &*table,
    };
    kept_of(&choice, alloc, names, &*modules)
}
