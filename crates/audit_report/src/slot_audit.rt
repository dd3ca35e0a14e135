//! The audit of a slot's journal.
ghost use Rattle.std.specs.Prelude.{◌≡◌, ◌↔◌, ◌≤◌, List, IsTrue, IfErr, OnOk, length, take};
ghost use Rattle.est_kernel.specs.declared.kernel.Kernel.{Kernel as KernelValue};
ghost use Rattle.rbac_policy.specs.declared.commands.Entry.{Entry};
ghost use Rattle.rbac_policy.specs.Change.{policy_of};
ghost use Rattle.rbac_policy.specs.StandsFor.{StandsFor};
ghost use Rattle.rbac_admin.specs.PolicyLists.{IsPolicyList};
ghost use Rattle.access_core.specs.Journals.{IsLegal};
ghost use Rattle.audit_report.specs.Findings.{IsFirstOfSlot};
ghost use Rattle.audit_report.specs.Inner.Faults.{last_instant, KeepsInstant, entry_fault_of};
ghost use Rattle.audit_report.specs.Inner.Faults.{Replays, finding_of};

use crate::finding::Finding;
use crate::second_engine::opinion_of;
use access_core::command::SlotCommand;
use access_core::refusal::Refusal;
use access_core::reply::Reply;
use access_core::slot::Slot;
use access_core::slot_step::decide_slot;
use est_rounds::engine::Engine;
use rbac_policy::commands::{Entry, SessionId};
use rbac_policy::objects::SlotNumber;
use rbac_policy::policy::Policy;
use reactor_core::entry::{Move, PastInstant, SlotEntry};
use reactor_core::laws::one_module;
use std::alloc::Global;

/// Why an entry of a slot is not the one that the slot step adds at its version.
#[derive(Drop)]
enum EntryFault {
    /// The command is refused, with this number.
    Refused(u8),
    /// The inputs or outputs of the step are others.
    Reaction,
    /// Memory was refused.
    Memory,
}

/// The instant that the last of the entries keeps, if that is a step.
fn last_instant(entries: &[SlotEntry]) -> Option<PastInstant>
    ensures { result ≡ last_instant entries.now }
{
    match entries.last() {
        Some(entry) => entry.done.instant(),
        None => None,
    }
}

/// Whether the last of the entries keeps the instant that the move does, where that is a step.
fn keeps_instant(entries: &[SlotEntry], done: &Move<PastInstant>) -> bool
    ensures { IsTrue result ↔ KeepsInstant entries.now done.now }
{
    match done.instant() {
        Some(stored) => last_instant(entries) == Some(stored),
        None => true,
    }
}

/// The fault of an entry whose command is refused so.
fn entry_fault_of(refusal: &Refusal) -> EntryFault
    ensures { result ≡ entry_fault_of refusal.now }
{
    match refusal {
        Refusal::TooLong
        | Refusal::NotJson
        | Refusal::NotARequest
        | Refusal::AlreadyLoggedIn
        | Refusal::Policy(_)
        | Refusal::Module(_)
        | Refusal::Stuck { .. }
        | Refusal::NoSlot
        | Refusal::Occupied
        | Refusal::Empty
        | Refusal::JournalFull
        | Refusal::Behind { .. } => EntryFault::Refused(refusal.code()),
        Refusal::Memory => EntryFault::Memory,
    }
}

/// Gives the entry's command to the slot, which has to add this very entry; else says why it
/// doesn't. Of a step this engine is asked too.
fn replay_entry<E: Engine>(
    alloc: Global,
    policy: &Policy,
    slot: &mut Slot,
    entry: &SlotEntry,
    engine: &mut E,
) -> Result<(), EntryFault>
    requires { (e : E) (kernel : KernelValue) → E.is_for e kernel }
    ensures number { slot.new.number ≡ slot.old.number }
    ensures step { (judged : List Entry) → StandsFor policy.now judged
        → length judged ≡ entry.now.stamp.version
        → Replays judged slot.old.number slot.old.journal entry.now result slot.new.journal }
{
    let Ok(asked) = entry.done.asked(alloc) else {
        return Err(EntryFault::Memory);
    };
    let session = SessionId::new(entry.stamp.session);
    one_module();
    let opinion = opinion_of(engine, slot, &entry.done);
    match decide_slot(policy, slot, session, SlotCommand::Move(asked)) {
        Reply::Refused(refusal) => Err(entry_fault_of(&refusal)),
        _ => {
            let holds = opinion.holds_after(slot);
            if holds && keeps_instant(slot.journal().entries(), &entry.done) {
                Ok(())
            } else {
                Err(EntryFault::Reaction)
            }
        }
    }
}

/// Has the policy, which has taken in the first `from` entries, take in those up to this version.
fn absorb_up_to(policy: &mut Policy, entries: &[Entry], from: usize, version: usize)
    requires stands { policy.old ≡ policy_of (take from entries.now) }
    requires low { from ≤ version }
    requires high { version ≤ length entries.now }
    ensures { policy.new ≡ policy_of (take version entries.now) }
{
    for at in from..version {
        policy.absorb(&entries[at]);
    }
}

/// The finding of the fault at this place of the slot's journal.
fn finding_of(fault: EntryFault, slot: SlotNumber, place: u64) -> Finding
    ensures { result ≡ finding_of fault slot place }
{
    match fault {
        EntryFault::Refused(code) => Finding::Refused { slot, place, code },
        EntryFault::Reaction => Finding::Reaction { slot, place },
        EntryFault::Memory => Finding::Memory,
    }
}

/// Ok if the journal of the slot of this number is legal over the policy list, else the first
/// finding in it, or that memory was refused.
///
/// The journal is replayed on an empty slot, each entry at the policy of its version.
pub(crate) fn audit_slot<E: Engine>(
    alloc: Global,
    entries: &[Entry],
    number: SlotNumber,
    journal: &[SlotEntry],
    engine: &mut E,
) -> Result<(), Finding>
    requires list { IsPolicyList entries.now }
    requires any { (e : E) (kernel : KernelValue) → E.is_for e kernel }
    ensures ok { OnOk result (IsLegal entries.now number journal.now) }
    ensures err { IfErr result (IsFirstOfSlot entries.now number journal.now) }
{
    let mut slot = Slot::new(alloc, number);
    let mut policy = Policy::empty();
    let mut version: usize = 0;
    for (at, entry) in journal.iter().enumerate() {
        let place = at as u64 + 1;
        let next = entry.stamp.version;
        if next < version as u64 || next > entries.len() as u64 {
            return Err(Finding::Version {
                slot: number,
                place,
            });
        }
        absorb_up_to(&mut policy, entries, version, next as usize);
        version = next as usize;
        if let Err(fault) = replay_entry(alloc, &policy, &mut slot, entry, engine) {
            return Err(finding_of(fault, number, place));
        }
    }
    Ok(())
}
