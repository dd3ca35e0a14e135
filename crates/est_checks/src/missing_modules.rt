//! Modules that are asked for and aren't there.
ghost use Rattle.std.specs.Prelude.{◌≡◌, map, IfOk};
ghost use Rattle.est_modules.specs.Modules.{program_of};
ghost use Rattle.est_checks.specs.MissingModules.{first_missing};

use crate::place_check::{PlaceCheck, first_in_bodies};
use est_modules::library_modules::{LibraryModule, LibraryModules};
use est_modules::names::kept::KeptNames;
use est_modules::names::open::OpenNames;
use est_modules::names::table::NameTable;
use est_modules::scope::{Act, Scope};
use est_text::identifier::Identifier;
use std::alloc::{AllocError, Global};

/// The check for runs of modules that aren't there.
#[derive(Clone, Copy)]
struct UnknownModule<'a, 'b> {
    modules: &'a LibraryModules<'b>,
}

impl PlaceCheck for UnknownModule<'_, '_> {
    ghost use Rattle.std.specs.Prelude.{⊤, map};
    ghost use Rattle.est_modules.specs.Modules.{program_of};
    ghost use Rattle.est_checks.specs.MissingModules.{missing_at};

    ghost fits = { λ c t ks. ⊤ };

    ghost fault = { λ c. missing_at (map program_of c.modules.now) };

    fn fault(
        &self,
        _home: &LibraryModule<'_>,
        _kept: &OpenNames<'_, '_, '_>,
        act: &Act<'_>,
        _scope: &Scope<'_>,
    ) -> Result<Option<Identifier>, AllocError> {
        match act {
            Act::Emits(_) | Act::Tests(_) | Act::Exits(_) | Act::Binds(_) => Ok(None),
            Act::Runs(name, _) => match self.modules.named(name) {
                Some(_) => Ok(None),
                None => Ok(Some(*name)),
            },
        }
    }
}

/// The main module where it isn't there; else the first module that is run and isn't there.
///
/// # Errors
///
/// `AllocError`, as a check answers it.
pub fn first_missing(
    alloc: Global,
    modules: &LibraryModules<'_>,
    main: &Identifier,
) -> Result<Option<Identifier>, AllocError>
    ensures { IfOk result (λ name. name ≡ first_missing (map program_of modules.now) main.now) }
{
    match modules.named(main) {
        Some(_) => {
            let table = NameTable::new(alloc);
            let none = KeptNames::none(alloc);
            let check = UnknownModule { modules: &*modules };
            first_in_bodies(alloc, &table, &none, &check, &*modules)
        }
        None => Ok(Some(*main)),
    }
}
