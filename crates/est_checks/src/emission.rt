//! What modules emit, as a table says.
ghost use Rattle.std.specs.Prelude.{◌≡◌, ℕ, List, OnOk, false, option_map, if◌then◌else◌};
ghost use Rattle.std.specs.Str.{bytes_eq};
ghost use Rattle.est_modules.specs.NameSets.{has};
ghost use Rattle.est_checks.specs.Emissions.{emitted_in, emitted_of};

use est_modules::names::set::NameSet;
use est_text::identifier::Identifier;
use std::alloc::{AllocError, Global};
use std::collections::BTreeMap;

/// The signals that modules emit, by the names of the modules. A look-up takes as many steps as the
/// counts of the modules and of the signals have digits in binary.
#[derive(Drop)]
pub struct Emissions<'a> {
    modules: BTreeMap<&'a [u8], NameSet<'a>>,
}

impl<'a> Emissions<'a> {
    /// No module emits anything.
    pub fn new(alloc: Global) -> Emissions<'a>
        ensures { (m s : List ℕ) → emitted_of result m s ≡ false }
    {
        Emissions {
            modules: BTreeMap::new(alloc),
        }
    }

    /// The signals that the module of a name emits, if it emits any.
    pub fn of_module(&self, name: &Identifier) -> Option<&NameSet<'a>>
        ensures { (s : List ℕ) → emitted_in (option_map (λ n. n.now) result) s
            ≡ emitted_of self.now name.now s }
    {
        self.modules.get(name.as_bytes())
    }

    /// Whether a module emits a signal.
    pub fn emits(&self, name: &Identifier, signal: &Identifier) -> bool
        ensures { result ≡ emitted_of self.now name.now signal.now }
    {
        match self.of_module(name) {
            Some(signals) => signals.contains(signal),
            None => false,
        }
    }

    /// Says that a module emits these signals, and no other.
    ///
    /// # Errors
    ///
    /// `AllocError` where memory is refused.
    pub fn add(&mut self, name: &'a Identifier, signals: NameSet<'a>) -> Result<(), AllocError>
        ensures { OnOk result ((m s : List ℕ) → emitted_of self.new m s
            ≡ (if bytes_eq name.now m then has signals.entry s else emitted_of self.old m s)) }
    {
        self.modules.insert(name.as_bytes(), signals)?;
        Ok(())
    }
}
