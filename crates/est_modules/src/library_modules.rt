//! The modules of a library, to be found by their names.
ghost use Rattle.std.specs.Prelude.{◌≡◌, ◌<◌, Some, length, map, option_map};
ghost use Rattle.std.specs.List.{position, slice_get};
ghost use Rattle.std.specs.Str.{bytes_eq};
ghost use Rattle.est_modules.specs.FirstPlaces.{AreFirstPlaces};
ghost use Rattle.est_modules.specs.Modules.{Program, program_of, program_named};

use crate::interface::Interface;
use crate::names::table::FirstPlaces;
use est_syntax::tree::{Declaration, Statement};
use est_text::identifier::Identifier;
use std::marker::Model;

/// A module of a library, with its interface at hand.
#[derive(Drop)]
pub struct LibraryModule<'a> {
    /// Its name.
    pub name: Identifier,
    /// Its interface.
    pub interface: Interface<'a>,
    /// Its declarations, as they are written.
    pub declarations: &'a [Declaration],
    /// Its body.
    pub body: &'a Statement,
}

/// The modules of a library, in the order of the text. A look-up of a name takes as many steps as
/// their count has digits in binary. A contract sees the list of the modules.
#[derive(Drop)]
pub struct LibraryModules<'a> {
    modules: Vec<LibraryModule<'a>>,
    places: FirstPlaces<'a>,
}

impl<'a> Model for LibraryModules<'a> {
    ghost use Rattle.std.specs.Prelude.{List, map};
    ghost use Rattle.est_modules.specs.FirstPlaces.{AreFirstPlaces};
    ghost use Rattle.est_modules.specs.declared.library_modules.LibraryModule.{LibraryModule};
    ghost use Rattle.est_syntax.specs.contracts.tree.Statement as statement;
    ghost use Rattle.std.specs.Coded.{codes};

    ghost Value = { List LibraryModule };

    ghost coded = { Prim.hlevel (codes, statement.the_row.coded) };

    ghost view = { λ hs. hs.modules.items };

    ghost invariant = { λ hs. AreFirstPlaces hs.places (map (λ h. h.name) hs.modules.items) };
}

impl<'a> LibraryModules<'a> {
    /// These modules, of which the places are those of their names.
    pub fn of(modules: Vec<LibraryModule<'a>>, places: FirstPlaces<'a>) -> LibraryModules<'a>
        requires { AreFirstPlaces places (map (λ h. h.name) modules.items) }
        ensures { result ≡ modules.entry.items }
    {
        LibraryModules { modules, places }
    }

    /// The modules.
    pub fn as_slice(&self) -> &[LibraryModule<'a>]
        ensures { result.now ≡ self.now }
    {
        self.modules.as_slice()
    }

    /// The place of the first module of a name.
    pub fn place(&self, name: &Identifier) -> Option<usize>
        ensures { result ≡ position (λ h. bytes_eq h.name name.now) self.now }
    {
        self.places.find(name)
    }

    /// The first module of a name.
    pub fn named(&self, name: &Identifier) -> Option<&LibraryModule<'a>>
        ensures { option_map (λ h. program_of h.now) result ≡ program_named (map program_of
            self.now) name.now }
    {
        match self.place(name) {
            Some(place) => self.modules.get(place),
            None => None,
        }
    }

    /// The name of the module at a place.
    pub fn name_at(&self, place: usize) -> Identifier
        requires { place < length self.now }
        ensures { (p : Program) → slice_get (map program_of self.now) place ≡ Some p
            → result ≡ p.name }
    {
        self.modules[place].name
    }
}
