//! Kept names: for each module of a library, the interface names that a check has to look at where
//! it is run. A `Choice` of `est_checks` picks them.
ghost use Rattle.std.specs.Prelude.{◌≡◌, ℕ, List, [], OnOk, option_map, map};
ghost use Rattle.std.specs.List.{find};
ghost use Rattle.std.specs.Str.{bytes_eq};
ghost use Rattle.est_modules.specs.FirstPlaces.{AreFirstPlaces};
ghost use Rattle.est_modules.specs.NameTables.{IsTable};
ghost use Rattle.est_modules.specs.OpenNames.{AreKept};

use crate::names::set::{NumberSet, numbers_of_all};
use crate::names::table::{FirstPlaces, NameTable};
use est_text::identifier::Identifier;
use std::alloc::{AllocError, Global};
use std::marker::Model;

/// The kept names of a module.
#[derive(Drop)]
pub struct Kept {
    /// The name of the module.
    pub module_name: Identifier,
    /// The numbers of the names.
    pub numbers: NumberSet,
}

/// The kept names of modules. A look-up of a module takes as many steps as their count has digits
/// in binary. A contract sees the list.
#[derive(Drop)]
pub struct KeptNames<'a> {
    modules: Vec<Kept>,
    places: FirstPlaces<'a>,
}

impl<'a> Model for KeptNames<'a> {
    ghost use Rattle.std.specs.Prelude.{List, map};
    ghost use Rattle.est_modules.specs.FirstPlaces.{AreFirstPlaces};
    ghost use Rattle.est_modules.specs.declared.names.kept.Kept.{Kept};

    ghost Value = { List Kept };

    ghost view = { λ t. t.modules.items };

    ghost invariant = { λ t. AreFirstPlaces t.places (map (λ k. k.module_name) t.modules.items) };
}

impl<'a> KeptNames<'a> {
    /// Nothing is kept.
    pub fn none(alloc: Global) -> KeptNames<'a>
        ensures { result ≡ [] }
    {
        KeptNames {
            modules: Vec::new(alloc),
            places: FirstPlaces::new(alloc),
        }
    }

    /// These are kept, and the places are those of their modules' names.
    pub fn of(modules: Vec<Kept>, places: FirstPlaces<'a>) -> KeptNames<'a>
        requires { AreFirstPlaces places (map (λ k. k.module_name) modules.items) }
        ensures { result ≡ modules.items }
    {
        KeptNames { modules, places }
    }

    /// The kept names of the module of a name, if it has some.
    pub fn named(&self, name: &Identifier) -> Option<&Kept>
        ensures { option_map (λ k. k.now) result ≡ find (λ k. bytes_eq k.module_name name.now)
            self.now }
    {
        match self.places.find(name) {
            Some(place) => self.modules.get(place),
            None => None,
        }
    }
}

/// Keeps names of a module: adds them to the kept names, if each of them has a number.
///
/// # Errors
///
/// `AllocError` where memory is refused.
pub fn keep<'a>(
    modules: &mut Vec<Kept>,
    places: &mut FirstPlaces<'a>,
    alloc: Global,
    table: &NameTable<'_>,
    module_name: &'a Identifier,
    names: &[Identifier],
) -> Result<(), AllocError>
    requires places { AreFirstPlaces places.old (map (λ k. k.module_name) modules.old.items) }
    requires table { IsTable table.now }
    ensures places { OnOk result (AreFirstPlaces places.new (map (λ k. k.module_name)
        modules.new.items)) }
    ensures kept { OnOk result ((base : List ℕ → List (List ℕ))
        → AreKept table.now base modules.old.items → names.now ≡ base module_name.now
        → AreKept table.now base modules.new.items) }
{
    if let Some(numbers) = numbers_of_all(alloc, table, names)? {
        places.add(module_name, modules.len())?;
        let module_name = *module_name;
        modules.push(Kept {
            module_name,
            numbers,
        })?;
    }
    Ok(())
}
