//! What names mean at a place in a module: the number of a binder, or a place in the interface.
ghost use Rattle.std.specs.Prelude.{◌≡◌, IfOk, get_or};
ghost use Rattle.std.specs.List.{position};
ghost use Rattle.std.specs.Str.{bytes_eq};
ghost use Rattle.est_kernel.specs.Term.{tick};
ghost use Rattle.est_link.specs.Linking.{meant};
ghost use Rattle.est_link.specs.Inner.OpenBodies.{meaning_of};
ghost use Rattle.est_link.specs.Inner.Scopes.{binders_of};
ghost use Rattle.est_modules.specs.Modules.{program_of};
ghost use Rattle.est_link.specs.Linking.{locals_around, signal_at, trap_at, of_interface};
ghost use Rattle.est_link.specs.Inner.Binds.{binding_of};

use crate::meaning::{Meaning, Meanings};
use crate::numbers::{small, sum};
use crate::scope::NamedScope;
use est_modules::interface::{Declared, Interface};
use est_modules::library_modules::LibraryModule;
use est_modules::renamings::RunRenamings;
use est_reduce::body::BoundSignal;
use est_text::identifier::Identifier;
use std::alloc::{AllocError, Global};

/// A `run`: the place where it stands, its renamings, and the interface of the module that is run.
#[derive(Clone, Copy)]
pub struct Binding<'a, 'b, 'c> {
    /// Where memory for its meanings is taken.
    pub alloc: Global,
    /// The module in whose body the `run` stands.
    pub home: &'a LibraryModule<'b>,
    /// The binders around it.
    pub scope: &'a NamedScope<'a, 'b>,
    /// How many local signals these binders declare.
    pub locals: u32,
    /// Its renamings.
    pub renamings: &'a RunRenamings<'c>,
    /// The interface of the module that is run.
    pub interface: &'a [Declared],
}

/// The interface signal of a name, or `tick` if it has none.
fn interface_signal(interface: &Interface<'_>, name: &Identifier) -> Result<Meaning, AllocError>
    ensures { IfOk result (λ m. meaning_of m ≡ meant (of_interface (position
        (λ d. bytes_eq d.name name.now) interface.now))) }
{
    match interface.place(name) {
        Some(place) => Ok(Meaning::of(BoundSignal::Outer(small(place)?))),
        None => Ok(Meaning::TICK),
    }
}

/// How many local signals lie around a place. It calls itself once for each binder around the
/// place, of which there are at most 128.
pub fn locals_around(scope: &NamedScope<'_, '_>) -> Result<u32, AllocError>
    ensures { IfOk result (λ n. n ≡ locals_around (binders_of scope.now)) }
{
    match scope {
        NamedScope::Module => Ok(0),
        NamedScope::Signals(names, outer) => sum(locals_around(outer)?, names.count()?),
        NamedScope::Trap(_, outer) => locals_around(outer),
    }
}

/// The signal that a name means. It calls itself once for each binder around the place, of which
/// there are at most 128.
pub fn signal_at(
    home: &LibraryModule<'_>,
    scope: &NamedScope<'_, '_>,
    name: &Identifier,
) -> Result<Meaning, AllocError>
    ensures { IfOk result (λ m. meaning_of m ≡ meant (signal_at (program_of home.now) (binders_of
        scope.now) name.now)) }
{
    match scope {
        NamedScope::Module => interface_signal(&home.interface, name),
        NamedScope::Signals(names, outer) => match names.place(name) {
            Some(place) => {
                let level = sum(locals_around(outer)?, small(place)?)?;
                Ok(Meaning::of(BoundSignal::Inner(level)))
            }
            None => signal_at(home, outer, name),
        },
        NamedScope::Trap(_, outer) => signal_at(home, outer, name),
    }
}

/// How many traps lie between an exit and its trap. It calls itself once for each binder around
/// the place, of which there are at most 128.
pub fn trap_at(scope: &NamedScope<'_, '_>, name: &Identifier) -> Result<u32, AllocError>
    ensures { IfOk result (λ k. k ≡ trap_at (binders_of scope.now) name.now) }
{
    match scope {
        NamedScope::Module => Ok(0),
        NamedScope::Signals(_, outer) => trap_at(outer, name),
        NamedScope::Trap(trap, outer) => {
            if trap.is(name) {
                Ok(0)
            } else {
                sum(trap_at(outer, name)?, 1)
            }
        }
    }
}

/// The signal that an interface signal of the module that is run stands for. It is asked once for
/// each listed signal of a run.
fn interface_bound(binding: &Binding<'_, '_, '_>, index: u32) -> Result<Meaning, AllocError>
    ensures { IfOk result (λ m. meaning_of m ≡ meant (get_or (binding_of binding.now) index
        tick)) }
{
    match binding.interface.get(index as usize) {
        Some(declared) => {
            let name = binding.renamings.callers_name(&declared.name);
            signal_at(binding.home, binding.scope, &name)
        }
        None => Ok(Meaning::TICK),
    }
}

impl Meanings for Binding<'_, '_, '_> {
    ghost use Rattle.est_link.specs.Inner.Binds.{binding_of};
    ghost use Rattle.est_link.specs.Linking.{in_run};

    ghost means = { λ b. in_run (binding_of b) b.locals };

    fn meaning(&self, signal: BoundSignal) -> Result<Meaning, AllocError> {
        match signal {
            BoundSignal::Outer(index) => interface_bound(self, index),
            BoundSignal::Inner(index) => {
                Ok(Meaning::of(BoundSignal::Inner(sum(self.locals, index)?)))
            }
        }
    }

    fn locals(&self) -> u32 {
        self.locals
    }
}
