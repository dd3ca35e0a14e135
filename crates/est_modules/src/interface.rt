//! The interface signals of a module, to be found by their names.
ghost use Rattle.std.specs.Prelude.{◌≡◌, map};
ghost use Rattle.std.specs.List.{position};
ghost use Rattle.std.specs.Str.{bytes_eq};
ghost use Rattle.est_modules.specs.FirstPlaces.{AreFirstPlaces};
ghost use Rattle.est_modules.specs.Modules.{is_declared};

use crate::names::table::FirstPlaces;
use est_text::identifier::Identifier;
use std::marker::Model;

/// Whether a signal comes from outside, goes there, or both.
#[derive(Clone, Copy, PartialEq, Eq)]
pub enum Kind {
    /// `input`
    Input,
    /// `output`
    Output,
    /// `inputoutput`
    InputOutput,
}

/// A signal of an interface.
#[derive(Clone, Copy)]
pub struct Declared {
    /// Its name.
    pub name: Identifier,
    /// Whether it is an input, an output or both.
    pub kind: Kind,
}

/// The signals of a module, in declaration order. A look-up of a name takes as many steps as their
/// count has digits in binary. A contract sees the list of the signals.
#[derive(Drop)]
pub struct Interface<'a> {
    declared: Vec<Declared>,
    places: FirstPlaces<'a>,
}

impl<'a> Model for Interface<'a> {
    ghost use Rattle.std.specs.Prelude.{List, map};
    ghost use Rattle.est_modules.specs.FirstPlaces.{AreFirstPlaces};
    ghost use Rattle.est_modules.specs.declared.interface.Declared.{Declared};

    ghost Value = { List Declared };

    ghost view = { λ i. i.declared.items };

    ghost invariant = { λ i. AreFirstPlaces i.places (map (λ d. d.name) i.declared.items) };
}

impl<'a> Interface<'a> {
    /// The interface of these signals, of which the places are those of their names.
    pub fn of(declared: Vec<Declared>, places: FirstPlaces<'a>) -> Interface<'a>
        requires { AreFirstPlaces places (map (λ d. d.name) declared.items) }
        ensures { result ≡ declared.items }
    {
        Interface { declared, places }
    }

    /// The signals.
    pub fn signals(&self) -> &[Declared]
        ensures { result.now ≡ self.now }
    {
        self.declared.as_slice()
    }

    /// The place of the first signal of a name.
    pub fn place(&self, name: &Identifier) -> Option<usize>
        ensures { result ≡ position (λ d. bytes_eq d.name name.now) self.now }
    {
        self.places.find(name)
    }

    /// Whether it has a signal of this name.
    #[tactic(auto, using(crate::proofs::Placing::some_place))]
    pub fn declares(&self, name: &Identifier) -> bool
        ensures { result ≡ is_declared self.now name.now }
    {
        self.place(name).is_some()
    }
}
