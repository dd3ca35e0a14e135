//! What a session is shown of a module's signals.
ghost use Rattle.std.specs.Prelude.{◌≡◌, ◌↔◌, ◌&&◌, ℕ, List, IsTrue, IfOk, map, filter};
ghost use Rattle.est_kernel.specs.Bits.{bits};
ghost use Rattle.rbac_policy.specs.declared.commands.Entry.{Entry};
ghost use Rattle.rbac_policy.specs.declared.objects.Operation.TheVariants.{Observe};
ghost use Rattle.rbac_policy.specs.declared.objects.Object.TheVariants.{Signal};
ghost use Rattle.rbac_policy.specs.Facts.{May};
ghost use Rattle.rbac_policy.specs.StandsFor.{StandsFor};
ghost use Rattle.access_core.specs.Shown.{Observes, places_of, name_at, present_at};

use crate::reply::{ShownSignal, ShownSignals, SignalNames};
use est_kernel::interface::Interface;
use est_kernel::mask;
use est_text::identifier::Identifier;
use rbac_policy::commands::SessionId;
use rbac_policy::objects::{Object, Operation, SlotNumber};
use rbac_policy::policy::Policy;
use std::alloc::{AllocError, Global};

/// Whether the session may observe the signal of this name in the slot.
fn may_observe(policy: &Policy, slot: SlotNumber, session: SessionId, name: &Identifier) -> bool
    ensures { (entries : List Entry) → StandsFor policy.now entries
        → (IsTrue result ↔ May entries session Observe (Signal slot name.now)) }
{
    policy.may(session, &Operation::Observe, &Object::Signal(slot, *name))
}

/// The signals of the interface that the session may observe in the slot, as a mask.
pub fn find_observed(
    policy: &Policy,
    slot: SlotNumber,
    session: SessionId,
    interface: &Interface,
) -> u64
    ensures { (entries : List Entry) → StandsFor policy.now entries
        → Observes entries session slot interface.now (bits result) }
{
    let declarations = interface.declarations();
    let mut seen = 0;
    for place in 0..declarations.len() {
        if may_observe(policy, slot, session, &declarations[place].name) {
            seen = mask::with(seen, place as u8);
        }
    }
    seen
}

/// The signals that are seen, in the order of declaration, each with whether it is present.
pub fn list_statuses(
    alloc: Global,
    interface: &Interface,
    seen: u64,
    present: u64,
) -> Result<ShownSignals, AllocError>
    ensures { IfOk result (λ shown. shown ≡ map (present_at interface.now present) (filter
        (bits seen) (places_of interface.now))) }
{
    let declarations = interface.declarations();
    let mut shown = ShownSignals::new(alloc);
    for place in 0..declarations.len() {
        if mask::has(seen, place as u8) {
            let name = declarations[place].name;
            let present = mask::has(present, place as u8);
            shown.push(ShownSignal { name, present })?;
        }
    }
    Ok(shown)
}

/// Of these signals, those that are seen.
pub fn keep_observed(seen: u64, signals: u64) -> u64
    ensures { (place : ℕ) → bits result place ≡ (bits seen place && bits signals place) }
{
    mask::intersection(seen, signals)
}

/// The names of the signals, in the order of declaration.
pub fn list_names(
    alloc: Global,
    interface: &Interface,
    signals: u64,
) -> Result<SignalNames, AllocError>
    ensures { IfOk result (λ names. names ≡ map (name_at interface.now) (filter (bits signals)
        (places_of interface.now))) }
{
    let declarations = interface.declarations();
    let mut names = SignalNames::new(alloc);
    for place in 0..declarations.len() {
        if mask::has(signals, place as u8) {
            names.push(declarations[place].name)?;
        }
    }
    Ok(names)
}
