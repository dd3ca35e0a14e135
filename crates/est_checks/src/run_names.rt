//! For each module of a library: its kept names, as a `Choice` picks them.
ghost use Rattle.std.specs.Prelude.{OnOk, IfOk, map};
ghost use Rattle.est_modules.specs.FirstPlaces.{AreFirstPlaces};
ghost use Rattle.est_modules.specs.NameTables.{IsTable};
ghost use Rattle.est_modules.specs.OpenNames.{AreKept};

use est_modules::library_modules::LibraryModules;
use est_modules::names::kept::{Kept, KeptNames, keep};
use est_modules::names::table::{FirstPlaces, NameTable};
use est_text::identifier::Identifier;
use std::alloc::{AllocError, Global};

/// Which of its interface names are the kept names of a module that is run.
pub trait Choice {
    ghost use Rattle.std.specs.Prelude.{◌≡◌, ℕ, List, IfOk};

    /// Those of the module of a name.
    ghost chosen: { Self → List ℕ → List (List ℕ) };

    /// Those of the module of a name.
    ///
    /// # Errors
    ///
    /// `AllocError` where memory is refused for names.
    fn choose(&self, alloc: Global, name: &Identifier) -> Result<Vec<Identifier>, AllocError>
        ensures { IfOk result (λ names. names.items ≡ chosen self.now name.now) };
}

/// Keeps the names that are chosen of the module of a name.
fn keep_chosen<'a, C: Choice>(
    choice: &C,
    alloc: Global,
    table: &NameTable<'_>,
    kept: &mut Vec<Kept>,
    kept_places: &mut FirstPlaces<'a>,
    name: &'a Identifier,
) -> Result<(), AllocError>
    requires places { AreFirstPlaces kept_places.old (map (λ k. k.module_name) kept.old.items) }
    requires kept { AreKept table.now (C.chosen choice.now) kept.old.items }
    requires table { IsTable table.now }
    ensures places { OnOk result (AreFirstPlaces kept_places.new (map (λ k. k.module_name)
        kept.new.items)) }
    ensures kept { OnOk result (AreKept table.now (C.chosen choice.now) kept.new.items) }
{
    let names = choice.choose(alloc, name)?;
    keep(kept, kept_places, alloc, table, name, &names)
}

/// The modules of a library, each with the names that are chosen of it.
///
/// # Errors
///
/// `AllocError` where memory is refused for names.
pub fn kept_of<'a, C: Choice>(
    choice: &C,
    alloc: Global,
    table: &NameTable<'_>,
    modules: &'a LibraryModules<'_>,
) -> Result<KeptNames<'a>, AllocError>
    requires { IsTable table.now }
    ensures { IfOk result (λ kept. AreKept table.now (C.chosen choice.now) kept) }
{
    let mut kept = Vec::new(alloc);
    let mut kept_places = FirstPlaces::new(alloc);
    for home in modules.as_slice() {
        keep_chosen(
            choice,
            alloc,
            table,
            &mut kept,
            &mut kept_places,
            &home.name,
        )?;
    }
    Ok(KeptNames::of(kept, kept_places))
}
