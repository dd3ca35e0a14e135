//! The names that a `signal` declares, found in a tree.
ghost use Rattle.std.specs.Prelude.{◌≡◌, ◌∷◌, IfOk, length};
ghost use Rattle.std.specs.List.{position};
ghost use Rattle.std.specs.Str.{bytes_eq};
ghost use Rattle.est_modules.specs.FirstPlaces.{AreFirstPlaces};
ghost use Rattle.est_syntax.specs.Views.{names_view};

use crate::numbers::{small, sum};
use est_modules::names::table::FirstPlaces;
use est_syntax::tree::Names;
use est_text::identifier::Identifier;
use std::alloc::{AllocError, Global};
use std::marker::Model;

/// The names that a `signal` declares. It may declare thousands, so they are found in a tree: a
/// look-up takes as many steps as their count has digits in binary. A contract sees the names.
#[derive(Drop)]
pub struct LocalNames<'a> {
    names: &'a Names,
    places: FirstPlaces<'a>,
}

impl<'a> Model for LocalNames<'a> {
    ghost use Rattle.std.specs.Prelude.{◌∷◌};
    ghost use Rattle.est_modules.specs.FirstPlaces.{AreFirstPlaces};
    ghost use Rattle.est_syntax.specs.Tree.{NamesTree};
    ghost use Rattle.est_syntax.specs.Views.{names_view};

    ghost Value = { NamesTree };

    ghost view = { λ t. names_view t.names.now };

    ghost invariant = { λ t. AreFirstPlaces t.places (t.names.now.first ∷
        t.names.now.later.items) };
}

/// The first places of names.
fn places_of<'a>(alloc: Global, names: &'a Names) -> Result<FirstPlaces<'a>, AllocError>
    ensures { IfOk result (λ places. AreFirstPlaces places (names.now.first ∷
        names.now.later.items)) }
{
    let mut places = FirstPlaces::new(alloc);
    places.add(&names.first, 0)?;
    for (place, name) in names.later.iter().enumerate() {
        places.add(name, place + 1)?;
    }
    Ok(places)
}

impl<'a> LocalNames<'a> {
    /// The names of a `signal`.
    ///
    /// # Errors
    ///
    /// `AllocError` where memory is refused.
    pub fn of(alloc: Global, names: &'a Names) -> Result<LocalNames<'a>, AllocError>
        ensures { IfOk result (λ local. local ≡ names_view names.now) }
    {
        let places = places_of(alloc, names)?;
        Ok(LocalNames { names, places })
    }

    /// The place of a name among them, the first if it stands there twice.
    pub fn place(&self, name: &Identifier) -> Option<usize>
        ensures { result ≡ position (λ n. bytes_eq n name.now) (self.now.first ∷ self.now.later) }
    {
        self.places.find(name)
    }

    /// How many names there are.
    ///
    /// # Errors
    ///
    /// `AllocError` where they are 2^32 or more.
    pub fn count(&self) -> Result<u32, AllocError>
        ensures { IfOk result (λ n. n ≡ length (self.now.first ∷ self.now.later)) }
    {
        sum(small(self.names.later.len())?, 1)
    }
}
