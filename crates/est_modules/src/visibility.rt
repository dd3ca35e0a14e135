//! What a name means at a place.
ghost use Rattle.std.specs.Prelude.{◌≡◌, codes};
ghost use Rattle.est_syntax.specs.Views.{names_view};
ghost use Rattle.est_modules.specs.Scopes.{binders_of};
ghost use Rattle.est_modules.specs.Modules.{program_of};
ghost use Rattle.est_modules.specs.NamedNumbers.{Tells};
ghost use Rattle.est_modules.specs.NameTables.{IsTable};
ghost use Rattle.est_modules.specs.Visible.{stands_in};
ghost use Rattle.est_modules.specs.Visible.{has_signals};
ghost use Rattle.est_modules.specs.Visible.{is_tick, is_among, is_local, is_trap, is_visible};

use crate::library_modules::LibraryModule;
use crate::names::open::OpenNames;
use crate::scope::Scope;
use est_syntax::tree::Names;
use est_text::identifier::Identifier;

/// The name `tick`.
pub fn tick() -> Identifier
    ensures { result ≡ codes "tick" }
{
    match Identifier::from_text("tick") {
        Some(tick) => tick,
        None => unreachable!(),
    }
}

/// Whether a name is `tick`, the signal that is present in every instant and is nowhere declared.
pub fn is_tick(name: &Identifier) -> bool
    ensures { result ≡ is_tick name.now }
{
    name.as_str() == "tick"
}

/// Whether the name stands in the list.
pub fn stands_in(names: &[Identifier], name: &Identifier) -> bool
    ensures { result ≡ stands_in names.now name.now }
{
    names.iter().any(|other| other.is(name))
}

fn is_among(names: &Names, name: &Identifier) -> bool
    ensures { result ≡ is_among (names_view names.now) name.now }
{
    names.first.is(name) || stands_in(&names.later, name)
}

/// Whether a `signal` around the place declares the name.
///
/// It calls itself once for each binder around the place, of which there are at most 128.
pub fn is_local(scope: &Scope<'_>, signal: &Identifier) -> bool
    ensures { result ≡ is_local (binders_of scope.now) signal.now }
{
    match scope {
        Scope::Module => false,
        Scope::Signals(names, outer) => is_among(names, signal) || is_local(outer, signal),
        Scope::Trap(_, outer) => is_local(outer, signal),
    }
}

/// Whether a `trap` around the place has this name.
///
/// It calls itself once for each binder around the place, of which there are at most 128.
pub fn is_trap(scope: &Scope<'_>, trap: &Identifier) -> bool
    ensures { result ≡ is_trap (binders_of scope.now) trap.now }
{
    match scope {
        Scope::Module => false,
        Scope::Signals(_, outer) => is_trap(outer, trap),
        Scope::Trap(name, outer) => name.is(trap) || is_trap(outer, trap),
    }
}

/// Whether a `signal` stands around the place.
///
/// It calls itself once for each binder around the place, of which there are at most 128.
pub fn has_signals(scope: &Scope<'_>) -> bool
    ensures { result ≡ has_signals (binders_of scope.now) }
{
    match scope {
        Scope::Module => false,
        Scope::Signals(_, _) => true,
        Scope::Trap(_, outer) => has_signals(outer),
    }
}

/// Whether a signal of this name is visible at a place in the module `home`.
pub fn is_visible(
    home: &LibraryModule<'_>,
    kept: &OpenNames<'_, '_, '_>,
    scope: &Scope<'_>,
    signal: &Identifier,
) -> bool
    requires table { IsTable kept.now.table.now }
    requires hidden { Tells kept.now.table.now (is_local (binders_of scope.now)) kept.now.hidden }
    ensures { result ≡ is_visible (program_of home.now) (binders_of scope.now) signal.now }
{
    kept.is_local(scope, signal) || home.interface.declares(signal) || is_tick(signal)
}
