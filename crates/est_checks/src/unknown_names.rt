//! Names that aren't visible where they are used.
ghost use Rattle.std.specs.Prelude.{◌≡◌, ℕ, List, [], true, false, IfOk, IsTrue, map, option_map};
ghost use Rattle.std.specs.Prelude.{not};
ghost use Rattle.std.specs.List.{find};
ghost use Rattle.est_syntax.specs.Views.{renaming_view};
ghost use Rattle.est_modules.specs.Scopes.{binders_of};
ghost use Rattle.est_modules.specs.Modules.{program_of, program_named, first_in_bodies};
ghost use Rattle.est_modules.specs.Occurrences.{first_of, occurrences};
ghost use Rattle.est_modules.specs.NameTables.{IsTable};
ghost use Rattle.est_modules.specs.OpenNames.{AreKept, IsOpen};
ghost use Rattle.est_modules.specs.Renamings.{is_renamed};
ghost use Rattle.est_modules.specs.Visible.{is_visible, stands_in};
ghost use Rattle.est_checks.specs.Inner.InterfaceNames.{names_of};
ghost use Rattle.est_checks.specs.Inner.Looking.{LooksFor};
ghost use Rattle.est_checks.specs.UnknownNames.{is_unbound, unknown_in_run, unknown_at};

use crate::interface_names::{interfaces_of, own_names};
use crate::place_check::{PlaceCheck, first_in_body};
use est_modules::interface::Declared;
use est_modules::library_modules::{LibraryModule, LibraryModules};
use est_modules::names::kept::KeptNames;
use est_modules::names::open::OpenNames;
use est_modules::names::set::NumberSet;
use est_modules::names::table::NameTable;
use est_modules::renamings::RunRenamings;
use est_modules::scope::{Act, Scope};
use est_modules::visibility::{is_trap, is_visible};
use est_syntax::tree::Renaming;
use est_text::identifier::Identifier;
use std::alloc::{AllocError, Global};

fn unknown_renaming(
    check: &UnknownName<'_, '_>,
    kept: &OpenNames<'_, '_, '_>,
    scope: &Scope<'_>,
    renamings: &[Renaming],
) -> Option<Identifier>
    requires { IsOpen (LooksFor check.now) (binders_of scope.now) kept.now }
    ensures { result ≡ option_map (λ r. r.outer)
        (find (λ r. not (is_visible (program_of check.now.home.now) (binders_of scope.now) r.outer))
        renamings.now) }
{
    for renaming in renamings {
        if !is_visible(check.home, kept, scope, &renaming.outer) {
            return Some(renaming.outer);
        }
    }
    None
}

#[tactic(auto, unfolding(crate::specs::UnknownNames::is_unbound))]
fn is_unbound(
    check: &UnknownName<'_, '_>,
    kept: &OpenNames<'_, '_, '_>,
    scope: &Scope<'_>,
    renamings: &RunRenamings<'_>,
    name: &Identifier,
) -> bool
    requires { IsOpen (LooksFor check.now) (binders_of scope.now) kept.now }
    ensures { result ≡ is_unbound (program_of check.now.home.now) (binders_of scope.now)
        (map renaming_view renamings.now) name.now }
{
    !(renamings.is_renamed(name) || is_visible(check.home, kept, scope, name))
}

fn unbound_name(
    check: &UnknownName<'_, '_>,
    kept: &OpenNames<'_, '_, '_>,
    scope: &Scope<'_>,
    renamings: &RunRenamings<'_>,
    interface: &[Declared],
) -> Option<Identifier>
    requires { IsOpen (LooksFor check.now) (binders_of scope.now) kept.now }
    ensures { result ≡ option_map (λ d. d.name)
        (find (λ d. is_unbound (program_of check.now.home.now) (binders_of scope.now)
        (map renaming_view renamings.now) d.name) interface.now) }
{
    for declared in interface {
        if is_unbound(check, kept, scope, renamings, &declared.name) {
            return Some(declared.name);
        }
    }
    None
}

/// Yes if whole sets of names show that each interface name of the module of a name is renamed or
/// visible where it is run. At a no one of them is at fault, and they are looked at one by one to
/// find the first. No proof needs that, so the contract says nothing of a no.
fn are_bound(
    check: &UnknownName<'_, '_>,
    kept: &OpenNames<'_, '_, '_>,
    scope: &Scope<'_>,
    renamings: &[Renaming],
    name: &Identifier,
) -> Result<bool, AllocError>
    requires { IsOpen (LooksFor check.now) (binders_of scope.now) kept.now }
    ensures { IfOk result (λ bound. IsTrue bound → (s : List ℕ) → stands_in (names_of (map
        program_of check.now.modules.now) name.now) s ≡ true → is_unbound (program_of
        check.now.home.now) (binders_of scope.now) (map renaming_view renamings.now) s ≡ false) }
{
    match kept.named(name) {
        Some(names) => kept.are_bound(names, renamings, check.own),
        None => Ok(false),
    }
}

fn unknown_in_run(
    check: &UnknownName<'_, '_>,
    kept: &OpenNames<'_, '_, '_>,
    scope: &Scope<'_>,
    renamings: &[Renaming],
    name: &Identifier,
) -> Result<Option<Identifier>, AllocError>
    requires { IsOpen (LooksFor check.now) (binders_of scope.now) kept.now }
    ensures { IfOk result (λ found. found ≡ unknown_in_run (program_of check.now.home.now)
        (binders_of scope.now) (map renaming_view renamings.now)
        (program_named (map program_of check.now.modules.now) name.now)) }
{
    if let Some(unknown) = unknown_renaming(check, kept, scope, renamings) {
        return Ok(Some(unknown));
    }
    let Some(run) = check.modules.named(name) else {
        return Ok(None);
    };
    let bound = are_bound(check, kept, scope, renamings, name)?;
    if bound {
        return Ok(None);
    }
    let renamings = RunRenamings::of(check.alloc, renamings)?;
    Ok(unbound_name(check, kept, scope, &renamings, run.interface.signals()))
}

/// The check for names that aren't visible where they are used: a signal that is emitted, tested,
/// or on the left of a renaming; a trap that is exited; an interface signal of a module that is run
/// without renaming it. It is asked of the places in one module.
#[derive(Clone, Copy)]
pub struct UnknownName<'a, 'b> {
    /// Where memory for names is taken.
    pub alloc: Global,
    /// The modules of the library.
    pub modules: &'a LibraryModules<'b>,
    /// The module.
    pub home: &'a LibraryModule<'b>,
    /// The names that it declares, and `tick`.
    pub own: &'a NumberSet,
}

impl PlaceCheck for UnknownName<'_, '_> {
    ghost use Rattle.std.specs.Prelude.{map};
    ghost use Rattle.est_modules.specs.Modules.{program_of};
    ghost use Rattle.est_checks.specs.Inner.Looking.{LooksFor};
    ghost use Rattle.est_checks.specs.UnknownNames.{unknown_at};

    ghost fits = { λ c. LooksFor c };

    ghost fault = { λ c p. unknown_at (map program_of c.modules.now)
        (program_of c.home.now) };

    fn fault(
        &self,
        _home: &LibraryModule<'_>,
        kept: &OpenNames<'_, '_, '_>,
        act: &Act<'_>,
        scope: &Scope<'_>,
    ) -> Result<Option<Identifier>, AllocError> {
        match act {
            Act::Emits(signal) | Act::Tests(signal) => {
                if is_visible(self.home, kept, scope, signal) {
                    Ok(None)
                } else {
                    Ok(Some(*signal))
                }
            }
            Act::Exits(trap) => if is_trap(scope, trap) {
                Ok(None)
            } else {
                Ok(Some(*trap))
            },
            Act::Binds(_) => Ok(None),
            Act::Runs(name, renamings) => unknown_in_run(self, kept, scope, renamings, name),
        }
    }
}

/// The first name of a module that isn't visible where it is used.
fn unknown_in<'a, 'b>(
    alloc: Global,
    table: &NameTable<'_>,
    kept: &KeptNames<'_>,
    modules: &'a LibraryModules<'b>,
    home: &'a LibraryModule<'b>,
) -> Result<Option<Identifier>, AllocError>
    requires table { IsTable table.now }
    requires kept { AreKept table.now (names_of (map program_of modules.now)) kept.now }
    ensures { IfOk result (λ name. name ≡ first_of (unknown_at (map program_of modules.now)
        (program_of home.now)) (occurrences [] (program_of home.now).body)) }
{
    let own = own_names(alloc, table, home)?;
    let check = UnknownName {
        alloc,
        modules,
        home,
        own: &own,
    };
    first_in_body(&check, alloc, table, kept, &*home)
}

/// The first name of a library that isn't visible where it is used.
///
/// # Errors
///
/// `AllocError` where memory is refused for names.
pub fn first_unknown(
    alloc: Global,
    table: &NameTable<'_>,
    modules: &LibraryModules<'_>,
) -> Result<Option<Identifier>, AllocError>
    requires { IsTable table.now }
    ensures { IfOk result (λ name. name ≡ first_in_bodies (unknown_at (map program_of modules.now))
        (map program_of modules.now)) }
{
    let kept = interfaces_of(alloc, table, &*modules)?;
    for home in modules.as_slice() {
        if let Some(name) = unknown_in(alloc, table, &kept, &*modules, &*home)? {
            return Ok(Some(name));
        }
    }
    Ok(None)
}
