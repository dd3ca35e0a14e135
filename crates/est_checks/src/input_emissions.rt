//! Emissions of inputs.
ghost use Rattle.std.specs.Prelude.{◌≡◌, ℕ, List, ◌&&◌, [], Some, true, false, IfOk, IsTrue, map};
ghost use Rattle.std.specs.List.{list_any};
ghost use Rattle.est_syntax.specs.Views.{renaming_view};
ghost use Rattle.est_modules.specs.Scopes.{binders_of};
ghost use Rattle.est_modules.specs.Modules.{program_of, program_named, first_in_bodies};
ghost use Rattle.est_modules.specs.NameTables.{IsTable};
ghost use Rattle.est_modules.specs.OpenNames.{AreKept, IsOpen};
ghost use Rattle.est_modules.specs.Occurrences.{first_of, occurrences};
ghost use Rattle.est_checks.specs.Emissions.{is_refused, is_refused_in_run, refused_in_run};
ghost use Rattle.est_checks.specs.Emissions.{refused_at, emitted_of};
ghost use Rattle.est_modules.specs.Visible.{stands_in};
ghost use Rattle.est_checks.specs.Inner.Barring.{Bars};
ghost use Rattle.est_checks.specs.Inner.Emitted.{names_emitted_by};

use crate::allowed_names::{allowed_names, inputs_of};
use crate::emission::Emissions;
use crate::place_check::{PlaceCheck, first_in_body};
use crate::run_emissions::emitted_names;
use est_modules::library_modules::{LibraryModule, LibraryModules};
use est_modules::names::kept::KeptNames;
use est_modules::names::open::OpenNames;
use est_modules::names::set::{NameSet, NumberSet};
use est_modules::names::table::NameTable;
use est_modules::renamings::RunRenamings;
use est_modules::scope::{Act, Scope};
use est_modules::visibility::is_tick;
use est_syntax::tree::Renaming;
use est_text::identifier::Identifier;
use std::alloc::{AllocError, Global};

#[tactic(auto, unfolding(crate::specs::Emissions::is_refused))]
fn is_refused(
    check: &EmitInput<'_, '_, '_, '_>,
    kept: &OpenNames<'_, '_, '_>,
    scope: &Scope<'_>,
    signal: &Identifier,
) -> bool
    requires { IsOpen (Bars check.now) (binders_of scope.now) kept.now }
    ensures { result ≡ is_refused (program_of check.now.home.now) (binders_of scope.now)
        signal.now }
{
    !kept.is_local(scope, signal) && (check.inputs.contains(signal) || is_tick(signal))
}

#[tactic(auto, unfolding(crate::specs::Emissions::is_refused_in_run))]
fn is_refused_in_run(
    check: &EmitInput<'_, '_, '_, '_>,
    kept: &OpenNames<'_, '_, '_>,
    scope: &Scope<'_>,
    renamings: &RunRenamings<'_>,
    name: &Identifier,
    signal: &Identifier,
) -> bool
    requires { IsOpen (Bars check.now) (binders_of scope.now) kept.now }
    ensures { result ≡ is_refused_in_run (emitted_of check.now.table.now)
        (program_of check.now.home.now) (binders_of scope.now) (map renaming_view renamings.now)
        name.now signal.now }
{
    check.table.emits(name, signal)
        && is_refused(check, kept, scope, &renamings.callers_name(signal))
}

/// The caller's name for the first interface signal of a module that is run for which a run of it
/// is refused.
fn refused_name(
    check: &EmitInput<'_, '_, '_, '_>,
    kept: &OpenNames<'_, '_, '_>,
    scope: &Scope<'_>,
    renamings: &RunRenamings<'_>,
    name: &Identifier,
    run: &LibraryModule<'_>,
) -> Option<Identifier>
    requires { IsOpen (Bars check.now) (binders_of scope.now) kept.now }
    ensures { result ≡ refused_in_run (emitted_of check.now.table.now)
        (program_of check.now.home.now) (binders_of scope.now) (map renaming_view renamings.now)
        name.now (Some (program_of run.now)) }
{
    let interface = run.interface.signals();
    for declared in interface {
        if is_refused_in_run(check, kept, scope, renamings, name, &declared.name) {
            return Some(renamings.callers_name(&declared.name));
        }
    }
    None
}

/// Whether this renaming binds a signal that the module of a name emits to an input of the caller,
/// or to `tick`.
fn is_refused_renaming(
    check: &EmitInput<'_, '_, '_, '_>,
    kept: &OpenNames<'_, '_, '_>,
    scope: &Scope<'_>,
    name: &Identifier,
    renaming: &Renaming,
) -> bool
    requires { IsOpen (Bars check.now) (binders_of scope.now) kept.now }
    ensures { result ≡ (is_refused (program_of check.now.home.now) (binders_of scope.now)
        renaming.now.outer && emitted_of check.now.table.now name.now renaming.now.inner) }
{
    is_refused(check, kept, scope, &renaming.outer) && check.table.emits(name, &renaming.inner)
}

/// Whether one of these renamings does that.
fn binds_input(
    check: &EmitInput<'_, '_, '_, '_>,
    kept: &OpenNames<'_, '_, '_>,
    scope: &Scope<'_>,
    renamings: &[Renaming],
    name: &Identifier,
) -> bool
    requires { IsOpen (Bars check.now) (binders_of scope.now) kept.now }
    ensures { result ≡ list_any (λ r. is_refused (program_of check.now.home.now) (binders_of
        scope.now) r.outer && emitted_of check.now.table.now name.now r.inner) renamings.now }
{
    for renaming in renamings {
        if is_refused_renaming(check, kept, scope, name, renaming) {
            return true;
        }
    }
    false
}

/// Yes if whole sets of names show that the module of a name emits no interface name that is bound
/// to an input of the caller, or to `tick`. At a no one of them is at fault, since the checks of
/// renamings and of names that aren't visible came before; they are looked at one by one to find
/// the first. No proof needs that, so the contract says nothing of a no.
fn are_allowed(
    check: &EmitInput<'_, '_, '_, '_>,
    kept: &OpenNames<'_, '_, '_>,
    scope: &Scope<'_>,
    renamings: &[Renaming],
    name: &Identifier,
) -> Result<bool, AllocError>
    requires { IsOpen (Bars check.now) (binders_of scope.now) kept.now }
    ensures { IfOk result (λ allowed. IsTrue allowed → (s : List ℕ)
        → stands_in (names_emitted_by (map program_of check.now.modules.now)
        (emitted_of check.now.table.now) name.now) s ≡ true
        → is_refused_in_run (emitted_of check.now.table.now) (program_of check.now.home.now)
        (binders_of scope.now) (map renaming_view renamings.now) name.now s ≡ false) }
{
    if binds_input(check, kept, scope, renamings, name) {
        return Ok(false);
    }
    match kept.named(name) {
        Some(emitted) => kept.are_bound(emitted, renamings, check.allowed),
        None => Ok(false),
    }
}

/// As `refused_name`.
fn refused_of(
    check: &EmitInput<'_, '_, '_, '_>,
    kept: &OpenNames<'_, '_, '_>,
    scope: &Scope<'_>,
    renamings: &[Renaming],
    name: &Identifier,
    run: &LibraryModule<'_>,
) -> Result<Option<Identifier>, AllocError>
    requires named { program_named (map program_of check.now.modules.now) name.now
        ≡ Some (program_of run.now) }
    requires open { IsOpen (Bars check.now) (binders_of scope.now) kept.now }
    ensures { IfOk result (λ found. found ≡ refused_in_run (emitted_of check.now.table.now)
        (program_of check.now.home.now) (binders_of scope.now) (map renaming_view renamings.now)
        name.now (Some (program_of run.now))) }
{
    let allowed = are_allowed(check, kept, scope, renamings, name)?;
    if allowed {
        return Ok(None);
    }
    let renamed = RunRenamings::of(check.alloc, renamings)?;
    Ok(refused_name(check, kept, scope, &renamed, name, run))
}

fn refused_in_run(
    check: &EmitInput<'_, '_, '_, '_>,
    kept: &OpenNames<'_, '_, '_>,
    scope: &Scope<'_>,
    renamings: &[Renaming],
    name: &Identifier,
) -> Result<Option<Identifier>, AllocError>
    requires { IsOpen (Bars check.now) (binders_of scope.now) kept.now }
    ensures { IfOk result (λ found. found ≡ refused_in_run (emitted_of check.now.table.now)
        (program_of check.now.home.now) (binders_of scope.now) (map renaming_view renamings.now)
        name.now (program_named (map program_of check.now.modules.now) name.now)) }
{
    match check.modules.named(name) {
        Some(run) => refused_of(check, kept, scope, renamings, name, run),
        None => Ok(None),
    }
}

/// The check for emissions of inputs and of `tick`, by statements and by runs. It is asked of the
/// places in one module.
#[derive(Clone, Copy)]
pub struct EmitInput<'a, 'b, 'c, 'd> {
    /// Where memory for names is taken.
    pub alloc: Global,
    /// The modules of the library.
    pub modules: &'a LibraryModules<'b>,
    /// The module.
    pub home: &'a LibraryModule<'b>,
    /// The inputs of the module.
    pub inputs: &'a NameSet<'c>,
    /// What each module emits.
    pub table: &'a Emissions<'d>,
    /// The names that the module declares and may emit.
    pub allowed: &'a NumberSet,
}

impl PlaceCheck for EmitInput<'_, '_, '_, '_> {
    ghost use Rattle.std.specs.Prelude.{map};
    ghost use Rattle.est_modules.specs.Modules.{program_of};
    ghost use Rattle.est_checks.specs.Emissions.{refused_at, emitted_of};
    ghost use Rattle.est_checks.specs.Inner.Barring.{Bars};

    ghost fits = { λ c. Bars c };

    ghost fault = { λ c p. refused_at (map program_of c.modules.now)
        (emitted_of c.table.now) (program_of c.home.now) };

    fn fault(
        &self,
        _home: &LibraryModule<'_>,
        kept: &OpenNames<'_, '_, '_>,
        act: &Act<'_>,
        scope: &Scope<'_>,
    ) -> Result<Option<Identifier>, AllocError> {
        match act {
            Act::Emits(signal) => {
                if is_refused(self, kept, scope, signal) {
                    Ok(Some(*signal))
                } else {
                    Ok(None)
                }
            }
            Act::Tests(_) | Act::Exits(_) | Act::Binds(_) => Ok(None),
            Act::Runs(name, renamings) => refused_in_run(self, kept, scope, renamings, name),
        }
    }
}

/// The first input, or `tick`, that a module emits.
fn refused_in<'a, 'b>(
    alloc: Global,
    names: &NameTable<'_>,
    kept: &KeptNames<'_>,
    modules: &'a LibraryModules<'b>,
    home: &'a LibraryModule<'b>,
    table: &'a Emissions<'_>,
) -> Result<Option<Identifier>, AllocError>
    requires names { IsTable names.now }
    requires kept { AreKept names.now (names_emitted_by (map program_of modules.now)
        (emitted_of table.now)) kept.now }
    ensures { IfOk result (λ name. name ≡ first_of (refused_at (map program_of modules.now)
        (emitted_of table.now) (program_of home.now)) (occurrences [] (program_of home.now).body)) }
{
    let inputs = inputs_of(alloc, home.interface.signals())?;
    let allowed = allowed_names(alloc, names, &inputs, &*home)?;
    let check = EmitInput {
        alloc,
        modules: &*modules,
        home: &*home,
        inputs: &inputs,
        table: &*table,
        allowed: &allowed,
    };
    first_in_body(&check, alloc, names, kept, &*home)
}

/// The first input, or `tick`, that a module of a library emits. The table says what each module
/// emits.
///
/// # Errors
///
/// `AllocError` where memory is refused for names.
pub fn first_refused<'a>(
    alloc: Global,
    names: &NameTable<'_>,
    modules: &'a LibraryModules<'_>,
    table: &'a Emissions<'_>,
) -> Result<Option<Identifier>, AllocError>
    requires { IsTable names.now }
    ensures { IfOk result (λ name. name ≡ first_in_bodies (refused_at (map program_of modules.now)
        (emitted_of table.now)) (map program_of modules.now)) }
{
    let kept = emitted_names(alloc, names, &*modules, &*table)?;
    for home in modules.as_slice() {
        if let Some(name) = refused_in(alloc, names, &kept, &*modules, &*home, &*table)? {
            return Ok(Some(name));
        }
    }
    Ok(None)
}
