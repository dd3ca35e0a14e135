//! Names with their numbers or places: those of a library, and the first places of those in a list.
ghost use Rattle.std.specs.Prelude.{◌≡◌, ℕ, List, [], ◌∷◌, ◌++◌, IfOk, OnOk, ◌||◌, true, map};
ghost use Rattle.std.specs.Prelude.{codes, length, option_map};
ghost use Rattle.std.specs.List.{slice_get};
ghost use Rattle.std.specs.Str.{bytes_eq};
ghost use Rattle.est_modules.specs.FirstPlaces.{first_place, AreFirstPlaces};
ghost use Rattle.est_modules.specs.Modules.{is_declared, program_of};
ghost use Rattle.est_modules.specs.NameTables.{AreNumbered, IsTable, is_numbered, number_in};
ghost use Rattle.est_modules.specs.Visible.{stands_in};

use crate::interface::Declared;
use crate::library_modules::LibraryModules;
use crate::names::kept::KeptNames;
use crate::names::open::OpenNames;
use crate::scope::{Act, Scope};
use crate::visibility::tick;
use crate::visit::Visitor;
use crate::walk::walk_body;
use est_syntax::tree::Names;
use est_text::identifier::Identifier;
use std::alloc::{AllocError, Global};
use std::collections::BTreeMap;

/// Names, each with its place in a list as its number. A look-up takes as many steps as their
/// count has digits in binary, whatever names a text chooses.
#[derive(Drop)]
pub struct NameTable<'a> {
    names: Vec<Identifier>,
    numbers: BTreeMap<&'a [u8], usize>,
}

impl<'a> NameTable<'a> {
    /// A table of no names.
    pub fn new(alloc: Global) -> NameTable<'a>
        ensures { IsTable result }
    {
        NameTable {
            names: Vec::new(alloc),
            numbers: BTreeMap::new(alloc),
        }
    }

    /// Gives a name a number, unless it has one.
    ///
    /// # Errors
    ///
    /// `AllocError` where memory is refused.
    pub fn add(&mut self, name: &'a Identifier) -> Result<(), AllocError>
        requires { IsTable self.old }
        ensures table { OnOk result (IsTable self.new) }
        ensures has { OnOk result ((s : List ℕ) → is_numbered self.new s ≡ (is_numbered self.old s
            || bytes_eq name.now s)) }
    {
        if let None = self.number(name) {
            let number = self.len();
            self.numbers.insert(name.as_bytes(), number)?;
            self.names.push(*name)?;
        }
        Ok(())
    }

    /// The number of a name.
    pub fn number(&self, name: &Identifier) -> Option<usize>
        ensures { result ≡ number_in self.now name.now }
    {
        match self.numbers.get(name.as_bytes()) {
            Some(number) => Some(*number),
            None => None,
        }
    }

    /// The name of a number.
    pub fn name(&self, number: usize) -> Option<&Identifier>
        ensures { option_map (λ n. n.now) result ≡ slice_get self.now.names.items number }
    {
        self.names.get(number)
    }

    /// How many names have a number.
    pub fn len(&self) -> usize
        ensures { result ≡ length self.now.names.items }
    {
        self.names.len()
    }
}

/// Gives a number to each name of an interface.
fn add_interface<'a>(table: &mut NameTable<'a>, interface: &'a [Declared]) -> Result<(), AllocError>
    requires { IsTable table.old }
    ensures table { OnOk result (IsTable table.new) }
    ensures has { OnOk result ((s : List ℕ) → is_numbered table.new s ≡ (is_numbered table.old s
        || is_declared interface.now s)) }
{
    for declared in interface {
        table.add(&declared.name)?;
    }
    Ok(())
}

/// Gives a number to each name of a list.
fn add_names<'a>(table: &mut NameTable<'a>, names: &'a [Identifier]) -> Result<(), AllocError>
    requires { IsTable table.old }
    ensures table { OnOk result (IsTable table.new) }
    ensures has { OnOk result ((s : List ℕ) → is_numbered table.new s ≡ (is_numbered table.old s
        || stands_in names.now s)) }
{
    for name in names {
        table.add(name)?;
    }
    Ok(())
}

/// The names of the interfaces of modules and further names, each with a number.
///
/// # Errors
///
/// `AllocError` where memory is refused.
pub fn numbered<'a>(
    alloc: Global,
    modules: &'a LibraryModules<'_>,
    further: &'a [Identifier],
) -> Result<NameTable<'a>, AllocError>
    requires { stands_in further.now (codes "tick") ≡ true }
    ensures table { IfOk result (λ table. IsTable table) }
    ensures numbered { IfOk result (λ table. AreNumbered table (map program_of modules.now)) }
{
    let mut table = NameTable::new(alloc);
    add_names(&mut table, further)?;
    for home in modules.as_slice() {
        add_interface(&mut table, home.interface.signals())?;
    }
    Ok(table)
}

/// The place of the first of each name in a list. A look-up takes as many steps as their count has
/// digits in binary, whatever names a text chooses.
#[derive(Drop)]
pub struct FirstPlaces<'a> {
    places: BTreeMap<&'a [u8], usize>,
}

impl<'a> FirstPlaces<'a> {
    /// Those of a list without names.
    pub fn new(alloc: Global) -> FirstPlaces<'a>
        ensures { AreFirstPlaces result [] }
    {
        FirstPlaces {
            places: BTreeMap::new(alloc),
        }
    }

    /// The first place of a name.
    pub fn find(&self, name: &Identifier) -> Option<usize>
        ensures { result ≡ first_place self.now name.now }
    {
        match self.places.get(name.as_bytes()) {
            Some(place) => Some(*place),
            None => None,
        }
    }

    /// Takes in the name at the next place. A name that is there keeps its first place. Names
    /// seldom stand twice: a new one takes one search of the tree, one that is there two.
    ///
    /// # Errors
    ///
    /// `AllocError` where memory is refused.
    pub fn add(&mut self, name: &'a Identifier, place: usize) -> Result<(), AllocError>
        ensures { OnOk result ((names : List (List ℕ)) → AreFirstPlaces self.old names
            → place ≡ length names → AreFirstPlaces self.new (names ++ name.now ∷ [])) }
    {
        if let Some(first) = self.places.insert(name.as_bytes(), place)? {
            self.places.insert(name.as_bytes(), first)?;
        }
        Ok(())
    }
}

/// Adds the names of a `signal`.
fn add_bound(bound: &mut Vec<Identifier>, names: &Names) -> Result<(), AllocError>
    ensures { OnOk result (bound.new.items ≡ bound.old.items ++ names.now.first ∷
        names.now.later.items) }
{
    bound.push(names.first)?;
    bound.extend_from_slice(&names.later)?;
    Ok(())
}

/// Notes the names that `signal`s declare.
#[derive(Clone, Copy)]
struct BoundNames;

impl Visitor for BoundNames {
    ghost use Rattle.std.specs.Prelude.{ℕ, List, ⊤, ◌++◌};
    ghost use Rattle.est_modules.specs.Inner.BoundNames.{bound_by};

    type Seen = Vec<Identifier>;

    ghost State = { List (List ℕ) };

    ghost state = { λ seen. seen.items };

    ghost fits = { λ v t ks. ⊤ };

    ghost after = { λ v names o. names ++ bound_by o.act };

    fn visit(
        &self,
        seen: &mut Vec<Identifier>,
        _kept: &OpenNames<'_, '_, '_>,
        act: &Act<'_>,
        _scope: &Scope<'_>,
    ) -> Result<(), AllocError> {
        match act {
            Act::Emits(_) | Act::Tests(_) | Act::Exits(_) | Act::Runs(_, _) => Ok(()),
            Act::Binds(names) => add_bound(seen, names),
        }
    }
}

/// `tick`, and the names that the `signal`s of a library declare, in the order of the text.
///
/// # Errors
///
/// `AllocError` where memory is refused.
pub fn further_names(
    alloc: Global,
    modules: &LibraryModules<'_>,
) -> Result<Vec<Identifier>, AllocError>
    ensures { IfOk result (λ names. stands_in names.items (codes "tick") ≡ true) }
{
    let table = NameTable::new(alloc);
    let none = KeptNames::none(alloc);
    let mut names = Vec::new(alloc);
    names.push(tick())?;
    for home in modules.as_slice() {
        walk_body(&BoundNames, &mut names, alloc, &table, &none, home.body)?;
    }
    Ok(names)
}
