//! The interface of a module: its signals in declaration order, each an input, an output or both.

ghost use Rattle.std.specs.Prelude.{◌≡◌, ◌++◌, ◌∷◌, [], ◌≤◌, ◌<◌, length, IfOk, IfSome, OnErr};
ghost use Rattle.std.specs.Prelude.{option_map, IsTrue, ◌↔◌, Bool, false, Some, slice_get};
ghost use Rattle.std.specs.List.{position, list_any};
ghost use Rattle.est_kernel.specs.Bits.{bits};
ghost use Rattle.est_kernel.specs.Interfaces.{declares, offerable, emittable, is_named};
ghost use Rattle.est_kernel.specs.Interfaces.{HasDistinctNames};

use crate::mask;
use crate::statement::InterfaceSignal;
use est_text::identifier::Identifier;
use std::alloc::{AllocError, Global};
use std::marker::Model;

/// The most signals of an interface.
pub const MOST_SIGNALS: usize = 64;

/// Whether a signal comes from outside, goes there, or both.
#[derive(Clone, Copy, PartialEq, Eq)]
pub enum Kind {
    /// It may be offered, and isn't emitted.
    Input,
    /// It may be emitted, and isn't offered.
    Output,
    /// It may be offered and emitted.
    InputOutput,
}

impl Kind {
    ghost use Rattle.est_kernel.specs.Interfaces.{can_be_offered, can_be_emitted};

    /// Whether a signal of this kind may be offered.
    pub fn can_be_offered(self) -> bool
        ensures { result ≡ can_be_offered self }
    {
        match self {
            Kind::Input | Kind::InputOutput => true,
            Kind::Output => false,
        }
    }

    /// Whether a signal of this kind may be emitted.
    pub fn can_be_emitted(self) -> bool
        ensures { result ≡ can_be_emitted self }
    {
        match self {
            Kind::Input => false,
            Kind::Output | Kind::InputOutput => true,
        }
    }
}

/// A signal of an interface.
#[derive(Clone, Copy, PartialEq, Eq)]
pub struct Declaration {
    /// Its name.
    pub name: Identifier,
    /// Whether it is an input, an output or both.
    pub kind: Kind,
}

/// At most `MOST_SIGNALS` signals with names of their own. A contract sees the list of their
/// declarations.
#[derive(Drop)]
pub struct Interface {
    declarations: Vec<Declaration>,
}

impl Model for Interface {
    ghost use Rattle.std.specs.Prelude.{List};
    ghost use Rattle.est_kernel.specs.declared.interface.Declaration.{Declaration};
    ghost use Rattle.est_kernel.specs.Interfaces.{IsInterface};

    ghost Value = { List Declaration };

    ghost view = { λ i. i.declarations.items };

    ghost invariant = { λ i. IsInterface i.declarations.items };
}

impl Interface {
    /// The interface without signals. It takes no memory.
    pub fn new(alloc: Global) -> Self
        ensures { result ≡ [] }
    {
        Interface {
            declarations: Vec::new(alloc),
        }
    }

    /// How many signals there are.
    pub fn len(&self) -> usize
        ensures len { result ≡ length self.now }
        ensures bound { result ≤ MOST_SIGNALS }
    {
        self.declarations.len()
    }

    /// Whether there is no signal.
    pub fn is_empty(&self) -> bool
        ensures { IsTrue result ↔ (self.now ≡ []) }
    {
        self.declarations.is_empty()
    }

    /// Whether there is no room for another signal.
    pub fn is_full(&self) -> bool
        ensures { IsTrue result ↔ (length self.now ≡ MOST_SIGNALS) }
    {
        self.declarations.len() == MOST_SIGNALS
    }

    /// The declarations, in order.
    pub fn declarations(&self) -> &[Declaration]
        ensures all { result.now ≡ self.now }
        ensures bound { length self.now ≤ MOST_SIGNALS }
        ensures distinct { HasDistinctNames self.now }
    {
        &self.declarations
    }

    /// Adds a signal at the end. Where memory is refused, the interface stays as it was.
    pub fn declare(&mut self, declaration: Declaration) -> Result<(), AllocError>
        requires room { length self.old < MOST_SIGNALS }
        requires new_name { list_any (is_named declaration.name) self.old ≡ false }
        ensures ok { IfOk result (λ _. self.new ≡ self.old ++ declaration ∷ []) }
        ensures err { OnErr result (self.new ≡ self.old) }
    {
        self.declarations.push(declaration)?;
        Ok(())
    }

    /// Whether a signal of this name is declared.
    pub fn has(&self, name: &Identifier) -> bool
        ensures { result ≡ list_any (is_named name.now) self.now }
    {
        self.declarations
            .iter()
            .any(|declaration| declaration.name.is(name))
    }

    /// The place of the first declaration of this name, if there is one.
    fn place_of(&self, name: &Identifier) -> Option<usize>
        ensures place { result ≡ position (is_named name.now) self.now }
        ensures within { IfSome result (λ place. place < length self.now) }
        ensures bound { IfSome result (λ place. place < MOST_SIGNALS) }
    {
        self.declarations
            .iter()
            .position(|declaration| declaration.name.is(name))
    }

    /// The signal of this name, if one is declared.
    pub fn find(&self, name: &Identifier) -> Option<InterfaceSignal>
        ensures place { option_map (λ s. s.index) result ≡ position (is_named name.now) self.now }
        ensures within { IfSome result (λ s. s.index < length self.now) }
    {
        match self.place_of(name) {
            Some(place) => Some(InterfaceSignal { index: place as u8 }),
            None => None,
        }
    }

    /// The declaration of a signal.
    pub fn get(&self, signal: InterfaceSignal) -> Declaration
        requires { signal.index < length self.now }
        ensures { slice_get self.now signal.index ≡ Some result }
    {
        self.declarations[signal.index as usize]
    }

    /// The kind of a signal.
    pub fn kind(&self, signal: InterfaceSignal) -> Kind
        requires { signal.index < length self.now }
        ensures { (passes : Kind → Bool) → declares passes self.now signal.index ≡ passes result }
    {
        self.declarations[signal.index as usize].kind
    }

    /// The signals that may be offered, inputs and inputoutputs: a bit for each signal, in
    /// declaration order.
    pub fn offerable(&self) -> u64
        ensures { bits result ≡ offerable self.now }
    {
        let mut signals = 0;
        for (place, declaration) in self.declarations.iter().enumerate() {
            if declaration.kind.can_be_offered() {
                signals = mask::with(signals, place as u8);
            }
        }
        signals
    }

    /// The signals that may be emitted, outputs and inputoutputs: a bit for each signal, in
    /// declaration order.
    pub fn emittable(&self) -> u64
        ensures { bits result ≡ emittable self.now }
    {
        let mut signals = 0;
        for (place, declaration) in self.declarations.iter().enumerate() {
            if declaration.kind.can_be_emitted() {
                signals = mask::with(signals, place as u8);
            }
        }
        signals
    }
}
