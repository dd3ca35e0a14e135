//! What modules emit of the signals of their interfaces, as sets of numbers.
ghost use Rattle.std.specs.Prelude.{◌≡◌, ℕ, List, OnOk, false, option_map, if◌then◌else◌};
ghost use Rattle.std.specs.Str.{bytes_eq};
ghost use Rattle.est_modules.specs.NumberSets.{numbers_of};
ghost use Rattle.est_checks.specs.Inner.EmittedNumbers.{has_number, emits_number};

use est_modules::names::set::NumberSet;
use est_text::identifier::Identifier;
use std::alloc::{AllocError, Global};
use std::collections::BTreeMap;

/// For each module, by its name: the numbers of the interface names that it emits.
#[derive(Drop)]
pub struct EmittedNumbers<'a> {
    modules: BTreeMap<&'a [u8], NumberSet>,
}

impl<'a> EmittedNumbers<'a> {
    /// No module emits a name.
    pub fn new(alloc: Global) -> EmittedNumbers<'a>
        ensures { (m : List ℕ) (i : ℕ) → emits_number result m i ≡ false }
    {
        EmittedNumbers {
            modules: BTreeMap::new(alloc),
        }
    }

    /// The numbers of what the module of this name emits, if it was added.
    pub fn of_module(&self, name: &Identifier) -> Option<&NumberSet>
        ensures { (i : ℕ) → has_number (option_map (λ n. n.now) result) i
            ≡ emits_number self.now name.now i }
    {
        self.modules.get(name.as_bytes())
    }

    /// Says that a module emits the names of these numbers, and no other.
    ///
    /// # Errors
    ///
    /// `AllocError` where memory is refused.
    pub fn add(&mut self, name: &'a Identifier, numbers: NumberSet) -> Result<(), AllocError>
        ensures { OnOk result ((m : List ℕ) (i : ℕ) → emits_number self.new m i
            ≡ (if bytes_eq name.now m then numbers_of numbers i else emits_number self.old m i)) }
    {
        self.modules.insert(name.as_bytes(), numbers)?;
        Ok(())
    }
}
