//! Names that are declared a second time, and `tick`.
ghost use Rattle.std.specs.Prelude.{◌≡◌, ℕ, List, None, ◌||◌, ◌∷◌, [], map, IfOk};
ghost use Rattle.std.specs.Str.{bytes_eq};
ghost use Rattle.est_syntax.specs.Views.{names_view};
ghost use Rattle.est_modules.specs.Modules.{program_of};
ghost use Rattle.est_modules.specs.NameSets.{has};
ghost use Rattle.est_modules.specs.Visible.{stands_in};
ghost use Rattle.est_checks.specs.Duplicates.{redeclared, redeclared_in, duplicate_of};
ghost use Rattle.est_checks.specs.Duplicates.{first_duplicate};

use crate::declared_names::declared_names;
use crate::place_check::{PlaceCheck, first_in_body};
use est_modules::interface::Declared;
use est_modules::library_modules::{LibraryModule, LibraryModules};
use est_modules::names::kept::KeptNames;
use est_modules::names::open::OpenNames;
use est_modules::names::set::NameSet;
use est_modules::names::table::NameTable;
use est_modules::scope::{Act, Scope};
use est_modules::visibility::is_tick;
use est_syntax::tree::Names;
use est_text::identifier::Identifier;
use std::alloc::{AllocError, Global};

/// The first of some names that is `tick` or stands before it in the list.
fn redeclared(alloc: Global, names: &[Identifier]) -> Result<Option<Identifier>, AllocError>
    ensures { IfOk result (λ name. name ≡ redeclared [] names.now) }
{
    let mut seen = NameSet::new(alloc);
    for name in names {
        if is_tick(name) || !seen.insert(name)? {
            return Ok(Some(*name));
        }
    }
    Ok(None)
}

/// The first name of a `signal` list that is `tick` or stands before it in the list.
fn redeclared_name(alloc: Global, names: &Names) -> Result<Option<Identifier>, AllocError>
    ensures { IfOk result (λ name. name ≡ redeclared [] (names.now.first ∷ names.now.later.items)) }
{
    let mut listed = Vec::new(alloc);
    listed.push(names.first)?;
    listed.extend_from_slice(&names.later)?;
    redeclared(alloc, &listed)
}

/// The first name of an interface that is `tick` or stands before it there.
fn redeclared_signal(
    alloc: Global,
    interface: &[Declared],
) -> Result<Option<Identifier>, AllocError>
    ensures { IfOk result (λ name. name ≡ redeclared [] (map (λ d. d.name) interface.now)) }
{
    redeclared(alloc, &declared_names(alloc, interface)?)
}

/// The check for `signal` lists that have a name twice, or `tick`.
#[derive(Clone, Copy)]
struct DuplicateLocal {
    alloc: Global,
}

impl PlaceCheck for DuplicateLocal {
    ghost use Rattle.std.specs.Prelude.{⊤};
    ghost use Rattle.est_checks.specs.Duplicates.{redeclared_at};

    ghost fits = { λ c t ks. ⊤ };

    ghost fault = { λ c. redeclared_at };

    fn fault(
        &self,
        _home: &LibraryModule<'_>,
        _kept: &OpenNames<'_, '_, '_>,
        act: &Act<'_>,
        _scope: &Scope<'_>,
    ) -> Result<Option<Identifier>, AllocError> {
        match act {
            Act::Emits(_) | Act::Tests(_) | Act::Exits(_) | Act::Runs(_, _) => Ok(None),
            Act::Binds(names) => redeclared_name(self.alloc, names),
        }
    }
}

/// The first signal of a module that is declared a second time, or is `tick`.
fn redeclared_in(alloc: Global, home: &LibraryModule<'_>) -> Result<Option<Identifier>, AllocError>
    ensures { IfOk result (λ name. name ≡ redeclared_in (program_of home.now)) }
{
    if let Some(name) = redeclared_signal(alloc, home.interface.signals())? {
        return Ok(Some(name));
    }
    let table = NameTable::new(alloc);
    let none = KeptNames::none(alloc);
    first_in_body(&DuplicateLocal { alloc }, alloc, &table, &none, &*home)
}

/// The module's name, if an earlier module has it; else the first of its signals that is declared
/// twice. The names of the modules so far are in the set.
fn duplicate_of<'a>(
    alloc: Global,
    met: &mut NameSet<'a>,
    home: &'a LibraryModule<'_>,
) -> Result<Option<Identifier>, AllocError>
    ensures found { IfOk result (λ name. (seen : List (List ℕ))
        → ((s : List ℕ) → has met.old s ≡ stands_in seen s)
        → name ≡ duplicate_of seen (program_of home.now)) }
    ensures met { IfOk result (λ name. name ≡ None → (s : List ℕ)
        → has met.new s ≡ (has met.old s || bytes_eq home.now.name s)) }
{
    if !met.insert(&home.name)? {
        return Ok(Some(home.name));
    }
    redeclared_in(alloc, home)
}

/// The first name of a library that is declared a second time, or is `tick`: of a module, of an
/// interface, or in one `signal` list.
///
/// # Errors
///
/// `AllocError` where memory is refused for the names that were met.
pub fn first_duplicate(
    alloc: Global,
    modules: &LibraryModules<'_>,
) -> Result<Option<Identifier>, AllocError>
    ensures { IfOk result (λ name. name ≡ first_duplicate (map program_of modules.now)) }
{
    let all = modules.as_slice();
    let mut met = NameSet::new(alloc);
    for index in 0..all.len() {
        if let Some(name) = duplicate_of(alloc, &mut met, &all[index])? {
            return Ok(Some(name));
        }
    }
    Ok(None)
}
