//! Checks, and the first fault that a check finds.
ghost use Rattle.std.specs.Prelude.{◌≡◌, [], map, IfOk};
ghost use Rattle.est_modules.specs.Modules.{program_of, first_in_bodies};
ghost use Rattle.est_modules.specs.Occurrences.{first_of, occurrences};
ghost use Rattle.est_modules.specs.NameTables.{IsTable};

use est_modules::library_modules::{LibraryModule, LibraryModules};
use est_modules::names::kept::KeptNames;
use est_modules::names::open::OpenNames;
use est_modules::names::table::NameTable;
use est_modules::scope::{Act, Scope};
use est_modules::visit::Visitor;
use est_modules::walk::walk_body;
use est_text::identifier::Identifier;
use std::alloc::{AllocError, Global};

/// A check of the places in the bodies of modules.
pub trait PlaceCheck {
    ghost use Rattle.std.specs.Prelude.{ℕ, List, Option, IfOk};
    ghost use Rattle.est_modules.specs.Modules.{Program, program_of};
    ghost use Rattle.est_modules.specs.Occurrences.{Occurrence};
    ghost use Rattle.est_modules.specs.OpenNames.{IsOpen};
    ghost use Rattle.est_modules.specs.declared.names.table.NameTable.{NameTable};
    ghost use Rattle.est_modules.specs.declared.names.kept.Kept.{Kept};
    ghost use Rattle.est_modules.specs.Scopes.{act_of, binders_of};

    /// The name of the fault at an occurrence in a module, if it is one.
    ghost fault: { Self → Program → Occurrence → Option (List ℕ) };

    /// What is known of the names that the walk keeps.
    ghost fits: { Self → NameTable → List Kept → Type 0 };

    /// The name of the fault at a place in the module `home`, if it is one.
    ///
    /// # Errors
    ///
    /// `AllocError` where memory is refused for what is looked up.
    fn fault(
        &self,
        home: &LibraryModule<'_>,
        kept: &OpenNames<'_, '_, '_>,
        act: &Act<'_>,
        scope: &Scope<'_>,
    ) -> Result<Option<Identifier>, AllocError>
        requires { IsOpen (fits self.now) (binders_of scope.now) kept.now }
        ensures { IfOk result (λ name. name ≡ fault self.now (program_of home.now) (record
            { act = act_of act.now; around = binders_of scope.now })) };
}

/// Keeps the first fault that a check finds in a module.
#[derive(Drop)]
struct FirstFaultFinder<'a, 'b, C> {
    check: &'a C,
    home: &'a LibraryModule<'b>,
}

impl<C: PlaceCheck> Visitor for FirstFaultFinder<'_, '_, C> {
    ghost use Rattle.std.specs.Prelude.{ℕ, List, Option};
    ghost use Rattle.std.specs.Option.{option_or};
    ghost use Rattle.est_modules.specs.Modules.{program_of};

    type Seen = Option<Identifier>;

    ghost State = { Option (List ℕ) };

    ghost state = { λ seen. seen };

    ghost fits = { λ v. C.fits v.check.now };

    ghost after = { λ v found o. option_or found (C.fault v.check.now (program_of v.home.now) o) };

    fn visit(
        &self,
        seen: &mut Option<Identifier>,
        kept: &OpenNames<'_, '_, '_>,
        act: &Act<'_>,
        scope: &Scope<'_>,
    ) -> Result<(), AllocError> {
        if seen.is_none() {
            *seen = self.check.fault(self.home, kept, act, scope)?;
        }
        Ok(())
    }
}

/// The first fault in the body of a module, in the order of the text.
///
/// # Errors
///
/// `AllocError` where memory is refused for what is looked up.
pub fn first_in_body<'a, C: PlaceCheck>(
    check: &'a C,
    alloc: Global,
    table: &NameTable<'_>,
    kept: &KeptNames<'_>,
    home: &'a LibraryModule<'_>,
) -> Result<Option<Identifier>, AllocError>
    requires fits { C.fits check.now table.now kept.now }
    requires table { IsTable table.now }
    ensures { IfOk result (λ name. name ≡ first_of (C.fault check.now (program_of home.now))
        (occurrences [] (program_of home.now).body)) }
{
    let mut found = None;
    let first = FirstFaultFinder {
        check: &*check,
        home: &*home,
    };
    walk_body(&first, &mut found, alloc, table, kept, home.body)?;
    Ok(found)
}

/// The first fault in the bodies of modules, in the order of the text.
///
/// # Errors
///
/// `AllocError` where memory is refused for what is looked up.
pub fn first_in_bodies<'a, C: PlaceCheck>(
    alloc: Global,
    table: &NameTable<'_>,
    kept: &KeptNames<'_>,
    check: &'a C,
    modules: &'a LibraryModules<'_>,
) -> Result<Option<Identifier>, AllocError>
    requires fits { C.fits check.now table.now kept.now }
    requires table { IsTable table.now }
    ensures { IfOk result (λ name. name ≡ first_in_bodies (C.fault check.now) (map program_of
        modules.now)) }
{
    for home in modules.as_slice() {
        if let Some(name) = first_in_body(&*check, alloc, table, kept, &*home)? {
            return Ok(Some(name));
        }
    }
    Ok(None)
}
