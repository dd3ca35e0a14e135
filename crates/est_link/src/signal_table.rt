//! The signals of the main module by their names, in the order of declaration.
ghost use Rattle.std.specs.Prelude.{◌≡◌, IfOk};
ghost use Rattle.est_link.specs.MainModule.{member_place};

use est_kernel::interface::{Declaration, Interface};
use est_kernel::statement::InterfaceSignal;
use est_text::identifier::Identifier;
use indexmap::IndexMap;
use std::alloc::{AllocError, Global};
use std::marker::Model;

/// The signals of an interface, each at the text of its name. There are at most `MOST_SIGNALS`:
/// names that are chosen to have one hash cost at most that number of comparisons. A contract sees
/// the list of their declarations.
#[derive(Drop)]
pub struct SignalTable<'a> {
    signals: IndexMap<&'a [u8], Declaration>,
}

impl<'a> Model for SignalTable<'a> {
    ghost use Rattle.std.specs.Prelude.{List};
    ghost use Rattle.est_kernel.specs.declared.interface.Declaration.{Declaration};
    ghost use Rattle.indexmap.specs.IndexMap.{values};
    ghost use Rattle.est_link.specs.Inner.SignalTables.{IsTableOfSignals};

    ghost Value = { List Declaration };

    ghost view = { λ t. values t.signals };

    ghost invariant = { λ t. IsTableOfSignals t.signals.entries };
}

impl<'a> SignalTable<'a> {
    /// The signals of an interface.
    pub fn of_interface(alloc: Global, interface: &'a Interface) -> Result<Self, AllocError>
        ensures { IfOk result (λ t. t ≡ interface.now) }
    {
        let mut signals = IndexMap::new(alloc);
        for signal in interface.declarations() {
            let name: &'a [u8] = signal.name.as_bytes();
            match signals.insert(name, *signal) {
                Ok(_none) => {}
                Err(_refused) => return Err(AllocError),
            }
        }
        Ok(SignalTable { signals })
    }

    /// The signal of this name, or the first of the table if none has it.
    pub fn find(&self, name: &Identifier) -> InterfaceSignal
        ensures { result.index ≡ member_place self.now name.now }
    {
        match self.signals.get_index_of(name.as_bytes()) {
            Some(place) => InterfaceSignal { index: place as u8 },
            None => InterfaceSignal { index: 0 },
        }
    }
}
