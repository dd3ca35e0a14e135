//! What a module emits of the signals that its callers see.
ghost use Rattle.std.specs.Prelude.{◌≡◌, ℕ, ◌<◌, List, [], length, map, slice_get, Some, None};
ghost use Rattle.std.specs.Prelude.{true, not, ◌||◌, ◌&&◌, OnOk, IfOk, if◌then◌else◌};
ghost use Rattle.std.specs.List.{list_any};
ghost use Rattle.std.specs.Str.{bytes_eq};
ghost use Rattle.est_syntax.specs.Views.{renaming_view};
ghost use Rattle.est_modules.specs.Scopes.{binders_of};
ghost use Rattle.est_modules.specs.Modules.{Program, program_of, program_named, is_declared};
ghost use Rattle.est_modules.specs.Modules.{first_in_bodies};
ghost use Rattle.est_modules.specs.ModuleOrders.{IsOrderOf};
ghost use Rattle.est_modules.specs.NamedNumbers.{Adds, Tells};
ghost use Rattle.est_modules.specs.NameSets.{has};
ghost use Rattle.est_modules.specs.NameTables.{AreNumbered, IsTable, is_numbered, number_in};
ghost use Rattle.est_modules.specs.Occurrences.{Binder, occurrences, first_of};
ghost use Rattle.est_modules.specs.OpenNames.{IsOpen};
ghost use Rattle.est_modules.specs.Renamings.{is_renamed};
ghost use Rattle.est_modules.specs.Visible.{is_local, is_tick};
ghost use Rattle.est_checks.specs.Duplicates.{first_duplicate};
ghost use Rattle.est_checks.specs.Emissions.{emitted_of, emits_here, emits_in_run, AreEmissions};
ghost use Rattle.est_checks.specs.Inner.Keeping.{Keeps};
ghost use Rattle.est_checks.specs.Inner.Noted.{is_noted, emits_renamed};
ghost use Rattle.est_checks.specs.Inner.EmittedNumbers.{AreEmittedNumbers};
ghost use Rattle.est_checks.specs.UnknownNames.{unknown_at};

use crate::emission::Emissions;
use crate::emitted_numbers::EmittedNumbers;
use crate::run_emissions::names_in;
use est_modules::interface::Declared;
use est_modules::library_modules::{LibraryModule, LibraryModules};
use est_modules::names::kept::KeptNames;
use est_modules::names::open::OpenNames;
use est_modules::names::set::{NameSet, NumberSet, numbers_among};
use est_modules::names::table::NameTable;
use est_modules::renamings::RunRenamings;
use est_modules::scope::{Act, Scope};
use est_modules::visibility::tick;
use est_modules::visit::Visitor;
use est_modules::walk::walk_body;
use est_syntax::tree::Renaming;
use est_text::identifier::Identifier;
use std::alloc::{AllocError, Global};

/// Notes a name, unless a `signal` around the place declares it.
fn note_name(
    noted: &mut NumberSet,
    kept: &OpenNames<'_, '_, '_>,
    name: &Identifier,
) -> Result<(), AllocError>
    ensures { OnOk result ((bs : List Binder) → IsTable kept.now.table.now
        → Tells kept.now.table.now (is_local bs) kept.now.hidden → Adds kept.now.table.now
        (λ s. not (is_local bs s) && bytes_eq name.now s) noted.old noted.new) }
{
    if let Some(number) = kept.number(name) {
        if !kept.is_hidden(number) {
            noted.insert(number)?;
        }
    }
    Ok(())
}

/// Notes the names that a run of a module emits by itself: the run doesn't rename them, and no
/// `signal` around it declares them.
fn note_own(
    noted: &mut NumberSet,
    visitor: &EmissionNotes<'_, '_, '_, '_, '_, '_>,
    kept: &OpenNames<'_, '_, '_>,
    scope: &Scope<'_>,
    renamings: &[Renaming],
    name: &Identifier,
) -> Result<(), AllocError>
    requires { IsOpen (Keeps visitor.now) (binders_of scope.now) kept.now }
    ensures { OnOk result ((q : Program) → program_named (map program_of visitor.now.modules.now)
        name.now ≡ Some q → Adds kept.now.table.now
        (λ s. (emitted_of visitor.now.table.now name.now s && is_declared q.interface s)
        && not (is_local (binders_of scope.now) s
        || is_renamed (map renaming_view renamings.now) s)) noted.old noted.new) }
{
    if let Some(emitted) = visitor.numbers.of_module(name) {
        noted.add_difference(emitted, &kept.hidden_or_renamed(renamings)?)?;
    }
    Ok(())
}

/// Notes the caller's names for those signals of a module that a run of it renames and that it
/// emits.
fn note_renamed(
    noted: &mut NumberSet,
    table: &Emissions<'_>,
    kept: &OpenNames<'_, '_, '_>,
    renamings: &[Renaming],
    renamed: &RunRenamings<'_>,
    run: &LibraryModule<'_>,
) -> Result<(), AllocError>
    requires { renamed.now ≡ renamings.now }
    ensures { OnOk result ((bs : List Binder) → IsTable kept.now.table.now
        → Tells kept.now.table.now (is_local bs) kept.now.hidden → Adds kept.now.table.now
        (λ s. not (is_local bs s) && emits_renamed (emitted_of table.now) (program_of run.now)
        (map renaming_view renamings.now) (map renaming_view renamings.now) s) noted.old
        noted.new) }
{
    for renaming in renamings {
        if run.interface.declares(&renaming.inner) && table.emits(&run.name, &renaming.inner) {
            note_name(noted, kept, &renamed.callers_name(&renaming.inner))?;
        }
    }
    Ok(())
}

/// Notes what a run emits, if its module is there.
fn note_run(
    noted: &mut NumberSet,
    visitor: &EmissionNotes<'_, '_, '_, '_, '_, '_>,
    kept: &OpenNames<'_, '_, '_>,
    scope: &Scope<'_>,
    name: &Identifier,
    renamings: &[Renaming],
) -> Result<(), AllocError>
    requires { IsOpen (Keeps visitor.now) (binders_of scope.now) kept.now }
    ensures { OnOk result (Adds kept.now.table.now (λ s. not (is_local (binders_of scope.now) s)
        && emits_in_run (emitted_of visitor.now.table.now) s (map renaming_view renamings.now)
        (program_named (map program_of visitor.now.modules.now) name.now)) noted.old noted.new) }
{
    if let Some(run) = visitor.modules.named(name) {
        let renamed = RunRenamings::of(visitor.alloc, renamings)?;
        note_own(noted, visitor, kept, scope, renamings, name)?;
        note_renamed(noted, visitor.table, kept, renamings, &renamed, run)?;
    }
    Ok(())
}

/// Notes what a module emits.
#[derive(Clone, Copy)]
struct EmissionNotes<'a, 'b, 'c, 'd, 'e, 'f> {
    alloc: Global,
    modules: &'a LibraryModules<'b>,
    table: &'a Emissions<'c>,
    numbers: &'a EmittedNumbers<'f>,
    names: &'d NameTable<'e>,
}

impl Visitor for EmissionNotes<'_, '_, '_, '_, '_, '_> {
    ghost use Rattle.std.specs.Prelude.{ℕ, Bool, map};
    ghost use Rattle.est_modules.specs.Modules.{program_of};
    ghost use Rattle.est_modules.specs.NumberSets.{numbers_of};
    ghost use Rattle.est_checks.specs.Emissions.{emitted_of};
    ghost use Rattle.est_checks.specs.Inner.Keeping.{Keeps};
    ghost use Rattle.est_checks.specs.Inner.Noted.{noted_after};

    type Seen = NumberSet;

    ghost State = { ℕ → Bool };

    ghost state = { λ seen. numbers_of seen };

    ghost fits = { λ v. Keeps v };

    ghost after = { λ v. noted_after (map program_of v.modules.now) (emitted_of v.table.now)
        v.names.now };

    fn visit(
        &self,
        seen: &mut NumberSet,
        kept: &OpenNames<'_, '_, '_>,
        act: &Act<'_>,
        scope: &Scope<'_>,
    ) -> Result<(), AllocError> {
        match act {
            Act::Emits(signal) => note_name(seen, kept, signal),
            Act::Tests(_) | Act::Exits(_) | Act::Binds(_) => Ok(()),
            Act::Runs(name, renamings) => note_run(seen, self, kept, scope, name, renamings),
        }
    }
}

/// Puts a name into the set, if it was noted.
fn add_noted<'a>(
    set: &mut NameSet<'a>,
    names: &'a NameTable<'_>,
    noted: &NumberSet,
    name: &Identifier,
) -> Result<(), AllocError>
    requires { IsTable names.now }
    ensures { OnOk result ((s : List ℕ) → has set.new s ≡ (has set.old s ||
        (is_noted noted.now (number_in names.now name.now) && bytes_eq name.now s))) }
{
    if let Some(number) = names.number(name) {
        if noted.has(number) {
            if let Some(name) = names.name(number) {
                set.insert(name)?;
            }
        }
    }
    Ok(())
}

/// Puts the names of an interface into the set that were noted.
fn add_signals<'a>(
    set: &mut NameSet<'a>,
    names: &'a NameTable<'_>,
    noted: &NumberSet,
    interface: &[Declared],
) -> Result<(), AllocError>
    requires { IsTable names.now }
    ensures { OnOk result ((s : List ℕ) → has set.new s ≡ (has set.old s ||
        (is_noted noted.now (number_in names.now s) && is_declared interface.now s))) }
{
    for declared in interface {
        add_noted(set, names, noted, &declared.name)?;
    }
    Ok(())
}

/// What a module emits of the signals that its callers see, where the table says what those that it
/// runs emit. These are signals of its interface, or `tick`, since it uses no name that isn't
/// visible.
///
/// # Errors
///
/// `AllocError` where memory is refused for names.
fn emissions_of<'a, 'b>(
    alloc: Global,
    names: &'a NameTable<'_>,
    modules: &'b LibraryModules<'_>,
    table: &'b Emissions<'_>,
    numbers: &'b EmittedNumbers<'_>,
    home: &LibraryModule<'_>,
) -> Result<NameSet<'a>, AllocError>
    requires table { IsTable names.now }
    requires numbered { (s : List ℕ) → (is_declared (program_of home.now).interface s || is_tick s)
        ≡ true → is_numbered names.now s ≡ true }
    requires known { first_of (unknown_at (map program_of modules.now) (program_of home.now))
        (occurrences [] (program_of home.now).body) ≡ None }
    requires numbers { AreEmittedNumbers names.now (map program_of modules.now)
        (emitted_of table.now) numbers.now }
    ensures { IfOk result (λ set. (s : List ℕ)
        → has set s ≡ list_any (emits_here (map program_of modules.now)
        (emitted_of table.now) s) (occurrences [] (program_of home.now).body)) }
{
    let none = KeptNames::none(alloc);
    let mut noted = NumberSet::new(alloc);
    let visitor = EmissionNotes {
        alloc,
        modules: &*modules,
        table: &*table,
        numbers: &*numbers,
        names: &*names,
    };
    walk_body(&visitor, &mut noted, alloc, names, &none, home.body)?;
    let mut set = NameSet::new(alloc);
    add_noted(&mut set, names, &noted, &tick())?;
    add_signals(&mut set, names, &noted, home.interface.signals())?;
    Ok(set)
}

/// Adds what the module at a place emits, where the table says what those that it runs emit.
fn add_module<'a>(
    alloc: Global,
    names: &'a NameTable<'_>,
    modules: &'a LibraryModules<'_>,
    table: &mut Emissions<'a>,
    numbers: &mut EmittedNumbers<'a>,
    place: usize,
) -> Result<(), AllocError>
    requires place { place < length modules.now }
    requires table { IsTable names.now }
    requires numbered { AreNumbered names.now (map program_of modules.now) }
    requires known { first_in_bodies (unknown_at (map program_of modules.now))
        (map program_of modules.now) ≡ None }
    requires distinct { first_duplicate (map program_of modules.now) ≡ None }
    requires numbers { AreEmittedNumbers names.now (map program_of modules.now)
        (emitted_of table.old) numbers.old }
    ensures numbers { OnOk result (AreEmittedNumbers names.now (map program_of modules.now)
        (emitted_of table.new) numbers.new) }
    ensures emitted { OnOk result ((p : Program)
        → slice_get (map program_of modules.now) place ≡ Some p
        → (m s : List ℕ) → emitted_of table.new m s ≡ (if bytes_eq p.name m then list_any
        (emits_here (map program_of modules.now) (emitted_of table.old) s) (occurrences [] p.body)
        else emitted_of table.old m s)) }
{
    let home = &modules.as_slice()[place];
    let signals = emissions_of(alloc, names, &*modules, &*table, &*numbers, home)?;
    let own = names_in(alloc, &signals, home.interface.signals())?;
    let own_numbers = numbers_among(alloc, names, &own)?;
    numbers.add(&home.name, own_numbers)?;
    table.add(&home.name, signals)
}

/// What each module emits, worked out along an order in which each stands after those that it runs.
/// No module uses a name that isn't visible, so each emits only signals that it declares, and maybe
/// `tick`.
///
/// # Errors
///
/// `AllocError` where memory is refused for the table.
pub fn emissions_along<'a>(
    alloc: Global,
    names: &'a NameTable<'_>,
    modules: &'a LibraryModules<'_>,
    order: &[usize],
) -> Result<Emissions<'a>, AllocError>
    requires table { IsTable names.now }
    requires numbered { AreNumbered names.now (map program_of modules.now) }
    requires known { first_in_bodies (unknown_at (map program_of modules.now))
        (map program_of modules.now) ≡ None }
    requires order { IsOrderOf (map program_of modules.now) order.now }
    requires distinct { first_duplicate (map program_of modules.now) ≡ None }
    ensures { IfOk result (λ table. AreEmissions (map program_of modules.now) (emitted_of table)) }
{
    let mut table = Emissions::new(alloc);
    let mut numbers = EmittedNumbers::new(alloc);
    for place in order {
        add_module(alloc, names, &*modules, &mut table, &mut numbers, *place)?;
    }
    Ok(table)
}
