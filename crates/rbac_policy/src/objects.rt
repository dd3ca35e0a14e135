//! What may be done, and on what.
ghost use Rattle.std.specs.Prelude.{◌≡◌, ◌<◌, nat_lt, Some, None, if◌then◌else◌};
ghost use Rattle.std.specs.Cmp.{partial_equiv_from_equiv};
ghost use Rattle.rbac_policy.specs.Inner.ObjectLaws.{object_equality};
ghost use Rattle.rbac_policy.specs.Objects.{same_object};

use est_text::identifier::Identifier;
use std::marker::Model;

/// What a permission allows to do.
#[derive(Clone, Copy, PartialEq, Eq)]
pub enum Operation {
    /// To put an input or inputoutput into the next instant.
    Offer,
    /// To be shown whether a signal was present.
    Observe,
    /// To run the module in a slot through an instant, or to discard its pending inputs.
    Step,
    /// To put a module into a slot, or take it out.
    Load,
    /// To change the policy.
    Administer,
    /// To ask for the numbers of a slot's journal.
    Audit,
}

/// How many slots there are.
pub const SLOTS: u8 = 16;

/// The number of a slot, under `SLOTS`. A contract sees the number.
#[derive(Clone, Copy, PartialEq, Eq, Debug)]
pub struct SlotNumber {
    number: u8,
}

impl Model for SlotNumber {
    ghost use Rattle.std.specs.Prelude.{ℕ, ◌<◌};
    ghost use Rattle.rbac_policy.specs.declared.objects.TheConstants.{SLOTS};

    ghost Value = { ℕ };

    ghost view = { λ s. s.number };

    ghost invariant = { λ s. s.number < SLOTS };

    ghost inverse = { λ n. record { number = n } };
}

/// What a permission is for: the policy, a slot, or a signal of the module in a slot.
#[derive(Clone, Copy)]
pub enum Object {
    /// The policy itself.
    Policy,
    /// The slot of this number.
    Slot(SlotNumber),
    /// The signal of this name, in the slot of this number.
    Signal(SlotNumber, Identifier),
}

impl SlotNumber {
    /// The slot of this number, if there is one.
    pub fn new(number: u8) -> Option<SlotNumber>
        ensures { result ≡ (if nat_lt number SLOTS then Some number else None) }
    {
        if number < SLOTS {
            Some(SlotNumber { number })
        } else {
            None
        }
    }

    /// Its number, under `SLOTS`.
    pub fn number(&self) -> u8
        ensures same { result ≡ self.now }
        ensures below { result < SLOTS }
    {
        self.number
    }
}

impl PartialEq for Object {
    ghost eq = { same_object };

    ghost laws = { partial_equiv_from_equiv object_equality };

    fn eq(&self, other: &Object) -> bool {
        match (self, other) {
            (Object::Policy, Object::Policy) => true,
            (Object::Slot(a), Object::Slot(b)) => a == b,
            (Object::Signal(a, s), Object::Signal(b, t)) => a == b && s.is(t),
            _ => false,
        }
    }
}

impl Eq for Object {
    ghost laws = { object_equality };
}
