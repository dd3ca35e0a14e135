//! The interface names of modules, as sets of numbers.
ghost use Rattle.std.specs.Prelude.{◌||◌, map, IfOk};
ghost use Rattle.est_modules.specs.Modules.{is_declared, program_of};
ghost use Rattle.est_modules.specs.NamedNumbers.{Tells};
ghost use Rattle.est_modules.specs.NameTables.{IsTable};
ghost use Rattle.est_modules.specs.OpenNames.{AreKept};
ghost use Rattle.est_modules.specs.Visible.{is_tick};
ghost use Rattle.est_checks.specs.Inner.InterfaceNames.{names_of};

use crate::declared_names::declared_names;
use crate::run_names::{Choice, kept_of};
use est_modules::library_modules::{LibraryModule, LibraryModules};
use est_modules::names::kept::KeptNames;
use est_modules::names::set::{NumberSet, put_name, put_names};
use est_modules::names::table::NameTable;
use est_modules::visibility::tick;
use est_text::identifier::Identifier;
use std::alloc::{AllocError, Global};

/// All interface names of a module.
#[derive(Clone, Copy)]
struct InterfaceNames<'a, 'b> {
    /// The modules of the library.
    modules: &'a LibraryModules<'b>,
}

impl Choice for InterfaceNames<'_, '_> {
    ghost use Rattle.std.specs.Prelude.{map};
    ghost use Rattle.est_modules.specs.Modules.{program_of};
    ghost use Rattle.est_checks.specs.Inner.InterfaceNames.{names_of};

    ghost chosen = { λ c. names_of (map program_of c.modules.now) };

    fn choose(&self, alloc: Global, name: &Identifier) -> Result<Vec<Identifier>, AllocError> {
        match self.modules.named(name) {
            Some(run) => declared_names(alloc, run.interface.signals()),
            None => Ok(Vec::new(alloc)),
        }
    }
}

/// For each module of a library: its interface names. Where it is run, each of them has to be
/// renamed, or visible.
///
/// # Errors
///
/// `AllocError` where memory is refused for names.
pub fn interfaces_of<'a>(
    alloc: Global,
    table: &NameTable<'_>,
    modules: &'a LibraryModules<'_>,
) -> Result<KeptNames<'a>, AllocError>
    requires { IsTable table.now }
    ensures { IfOk result (λ kept. AreKept table.now (names_of (map program_of modules.now)) kept) }
{
    let choice = InterfaceNames { modules: &*modules };
    kept_of(&choice, alloc, table, &*modules)
}

/// The names that are visible outermost in a module: those that it declares, and `tick`.
///
/// # Errors
///
/// `AllocError` where memory is refused for names.
pub fn own_names(
    alloc: Global,
    table: &NameTable<'_>,
    home: &LibraryModule<'_>,
) -> Result<NumberSet, AllocError>
    requires { IsTable table.now }
    ensures { IfOk result (λ own. Tells table.now (λ s. is_declared (program_of home.now).interface
        s || is_tick s) own) }
{
    let names = declared_names(alloc, home.interface.signals())?;
    let mut own = NumberSet::new(alloc);
    put_names(&mut own, table, &names)?;
    put_name(&mut own, table, &tick())?;
    Ok(own)
}
