//! Names, operations and objects as text, and back.
ghost use Rattle.std.specs.Prelude.{◌≡◌, ◌↔◌, option_map, Some, None, if◌then◌else◌, IfOk};
ghost use Rattle.std.specs.Prelude.{string_bytes};
ghost use Rattle.rbac_policy.specs.Names.{is_name};
ghost use Rattle.rbac_policy.specs.Texts.{operation_text, object_text, IsObject, operation_of};
ghost use Rattle.rbac_policy.specs.Texts.{object_of, slot_at};
ghost use Rattle.rbac_policy.specs.declared.objects.Operation.{Operation};
ghost use Rattle.rbac_policy.specs.declared.objects.Object.{Object};

use crate::names::Name;
use crate::objects::{Object, Operation, SlotNumber};
use est_text::identifier::Identifier;
use std::alloc::{AllocError, Global};

impl Name {
    /// The name that a text is, if it is one.
    pub fn from_text(text: &str) -> Option<Name>
        ensures { result ≡ (if is_name text.now then Some text.now else None) }
    {
        Name::from_bytes(text.as_bytes())
    }
}

/// The operation of a text.
#[tactic(auto, unfolding(crate::specs::Texts::operation_of))]
fn operation_of(text: &str) -> Option<Operation>
    ensures { result ≡ operation_of text.now }
{
    match text {
        "offer" => Some(Operation::Offer),
        "observe" => Some(Operation::Observe),
        "step" => Some(Operation::Step),
        "load" => Some(Operation::Load),
        "administer" => Some(Operation::Administer),
        "audit" => Some(Operation::Audit),
        _ => None,
    }
}

impl Operation {
    /// The operation of this name, if there is one.
    pub fn from_text(text: &str) -> Option<Operation>
        ensures value { result ≡ operation_of text.now }
        ensures exact { (operation : Operation)
            → (result ≡ Some operation) ↔ (text.now ≡ operation_text operation) }
    {
        operation_of(text)
    }

    /// Its name.
    pub fn text(&self) -> &'static str
        ensures { result.now ≡ operation_text self.now }
    {
        match self {
            Operation::Offer => "offer",
            Operation::Observe => "observe",
            Operation::Step => "step",
            Operation::Load => "load",
            Operation::Administer => "administer",
            Operation::Audit => "audit",
        }
    }
}

/// The number of a slot at the front of a text, and what follows it. The longest match is taken.
#[tactic(auto, unfolding(crate::specs::Texts::slot_at))]
fn slot_at(text: &[u8]) -> Option<(SlotNumber, &[u8])>
    ensures { option_map (λ found. (found.0, found.1.now)) result ≡ slot_at text.now }
{
    match text {
        [ten @ b'1'..=b'9', unit @ b'0'..=b'9', rest @ ..] => Some((
            SlotNumber::new(10 * (*ten - b'0') + (*unit - b'0'))?,
            rest,
        )),
        [unit @ b'0'..=b'9', rest @ ..] => Some((SlotNumber::new(*unit - b'0')?, rest)),
        _ => None,
    }
}

/// The object of a text: a slot at its front, and after a full stop a signal's name.
#[tactic(auto, unfolding(crate::specs::Texts::object_of))]
fn object_of(text: &str) -> Option<Object>
    ensures { result ≡ object_of text.now }
{
    if text == "policy" {
        return Some(Object::Policy);
    }
    let Some((slot, rest)) = slot_at(text.as_bytes()) else {
        return None;
    };
    match rest {
        [] => Some(Object::Slot(slot)),
        [b'.', signal @ ..] => Some(Object::Signal(slot, Identifier::from_bytes(signal)?)),
        _ => None,
    }
}

impl Object {
    /// The object of this text, if there is one: `policy`, the number of a slot without leading
    /// zeros, or that number, a full stop and an identifier.
    pub fn from_text(text: &str) -> Option<Object>
        ensures value { result ≡ object_of text.now }
        ensures exact { (object : Object)
            → (result ≡ Some object) ↔ (IsObject object × (text.now ≡ object_text object)) }
    {
        object_of(text)
    }

    /// Its text, as `from_text` reads it.
    ///
    /// # Errors
    ///
    /// `AllocError` where memory was refused.
    pub fn text(&self, alloc: Global) -> Result<String, AllocError>
        ensures { IfOk result (λ text. string_bytes text ≡ object_text self.now) }
    {
        match self {
            Object::Policy => String::from_str(alloc, "policy"),
            Object::Slot(slot) => format!(in alloc; "{}", slot.number()),
            Object::Signal(slot, signal) => format!(in alloc;
                "{}.{}",
                slot.number(),
                signal.as_str()
            ),
        }
    }
}
