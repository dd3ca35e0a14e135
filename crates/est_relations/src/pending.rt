//! The inputs that are offered and not yet taken by an instant.
ghost use Rattle.std.specs.Prelude.{◌≡◌, ◌<◌, ℕ, List, Some, length, IfOk, MatchResult};
ghost use Rattle.est_relations.specs.Inner.Names.{AcceptsOffer, RefusesOffer};
ghost use Rattle.est_relations.specs.Keeping.{AreOverInputs};
ghost use Rattle.est_relations.specs.Offers.{KeepsExclusions, OfferAnswer, ReadyAnswer};
ghost use Rattle.est_relations.specs.Offers.{pending_inputs, place_of, with_place};

use crate::refusal::PendingRefusal;
use crate::relations::Relations;
use crate::violations::{first_broken_exclusion, first_broken_implication};
use est_kernel::interface::Interface;
use est_kernel::mask;
use est_kernel::statement::InterfaceSignal;
use est_text::identifier::Identifier;
use std::marker::Model;

/// The pending inputs of a module. It borrows the module's interface and relations, takes no
/// memory, and keeps each exclusion at all times. A contract sees interface, relations, and the
/// mask of the inputs.
#[derive(Drop)]
pub struct Pending<'a> {
    interface: &'a Interface,
    relations: &'a Relations,
    inputs: u64,
}

impl<'a> Model for Pending<'a> {
    ghost use Rattle.est_relations.specs.Offers.{PendingInputs, KeepsExclusions};

    ghost Value = { PendingInputs };

    ghost view = { λ p. record {
      interface = p.interface.now;
      relations = p.relations.now;
      inputs = p.inputs;
    } };

    ghost invariant = { λ p. KeepsExclusions p.interface.now p.relations.now p.inputs };
}

/// These inputs and this signal.
fn with_signal(inputs: u64, signal: InterfaceSignal) -> u64
    ensures { result ≡ with_place inputs signal.index }
{
    inputs | 1 << signal.index
}

/// The pending inputs and this one, where it may join them.
fn add_input(
    interface: &Interface,
    relations: &Relations,
    inputs: u64,
    signal: InterfaceSignal,
) -> Result<u64, PendingRefusal>
    requires kept { KeepsExclusions interface.now relations.now inputs }
    requires within { signal.index < length interface.now }
    ensures kept { IfOk result (KeepsExclusions interface.now relations.now) }
    ensures answer { (name : List ℕ) → place_of interface.now name ≡ Some signal.index
        → MatchResult result
        (AcceptsOffer interface.now relations.now inputs name)
        (RefusesOffer interface.now relations.now inputs name) }
{
    if !interface.kind(signal).can_be_offered() {
        return Err(PendingRefusal::NotInput);
    }
    if mask::has(inputs, signal.index) {
        return Err(PendingRefusal::AlreadyOffered);
    }
    match first_broken_exclusion(relations.as_slice(), inputs, signal) {
        Some(broken) => Err(PendingRefusal::Excluded {
            relation: broken.relation,
            signal: interface.get(broken.signal).name,
        }),
        None => Ok(with_signal(inputs, signal)),
    }
}

impl<'a> Pending<'a> {
    /// No inputs are pending. The caller ensures that the relations are between inputs of the
    /// interface; a `Flat` of `est_reduce` ensures it of its own.
    pub fn new(interface: &'a Interface, relations: &'a Relations) -> Pending<'a>
        requires { AreOverInputs interface.now relations.now }
        ensures { result ≡ pending_inputs interface.now relations.now 0 }
    {
        Pending {
            interface,
            relations,
            inputs: 0,
        }
    }

    /// These inputs are pending. For an owner that keeps only the mask, as `inputs` gave it.
    pub fn resume(interface: &'a Interface, relations: &'a Relations, inputs: u64) -> Pending<'a>
        requires { KeepsExclusions interface.now relations.now inputs }
        ensures { result ≡ pending_inputs interface.now relations.now inputs }
    {
        Pending {
            interface,
            relations,
            inputs,
        }
    }

    /// The pending inputs, as a mask over the interface in the order of declaration.
    pub fn inputs(&self) -> u64
        ensures inputs { result ≡ self.now.inputs }
        ensures kept { KeepsExclusions self.now.interface self.now.relations self.now.inputs }
    {
        self.inputs
    }

    /// Makes the input of this name pending, where that keeps each exclusion. The first of these
    /// that holds refuses it, and then nothing changes: no signal has the name, it is that of an
    /// output alone, its signal is pending already, or an exclusion would not hold.
    pub fn offer(&mut self, name: &Identifier) -> Result<(), PendingRefusal>
        ensures { OfferAnswer self.old name.now result self.new }
    {
        match self.interface.find(name) {
            Some(signal) => self.offer_signal(signal),
            None => Err(PendingRefusal::UnknownSignal),
        }
    }

    /// The same of this signal: it is answered as an offer of its name.
    fn offer_signal(&mut self, signal: InterfaceSignal) -> Result<(), PendingRefusal>
        requires { signal.index < length self.old.interface }
        ensures { (name : List ℕ) → place_of self.old.interface name ≡ Some signal.index
            → OfferAnswer self.old name result self.new }
    {
        match add_input(self.interface, self.relations, self.inputs, signal) {
            Ok(inputs) => {
                self.inputs = inputs;
                Ok(())
            }
            Err(refusal) => Err(refusal),
        }
    }

    /// Whether an instant may take the pending inputs: it may exactly when each relation holds of
    /// them. The first relation that does not hold refuses it; that is an implication.
    pub fn ready(&self) -> Result<(), PendingRefusal>
        ensures { ReadyAnswer self.now result }
    {
        match first_broken_implication(self.relations.as_slice(), self.inputs) {
            Some(lacking) => Err(PendingRefusal::Implied {
                relation: lacking.relation,
                missing: self.interface.get(lacking.signal).name,
            }),
            None => Ok(()),
        }
    }

    /// Takes all inputs away.
    pub fn clear(&mut self)
        ensures { self.new ≡ pending_inputs self.old.interface self.old.relations 0 }
    {
        self.inputs = 0;
    }
}
