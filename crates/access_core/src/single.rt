//! A policy with its list, and sixteen slots, for one owner, without locks.
ghost use Rattle.std.specs.Prelude.{◌≡◌, ◌↔◌, ◌<◌, ◌≤◌, ◌++◌, ◌∷◌, [], List, IsTrue, Ok, IfOk};
ghost use Rattle.std.specs.Prelude.{MatchOption, MatchResult, length, map, take};
ghost use Rattle.rbac_policy.specs.declared.commands.Entry.{Entry};
ghost use Rattle.rbac_policy.specs.Change.{absorbed, policy_of};
ghost use Rattle.rbac_policy.specs.Facts.{May};
ghost use Rattle.rbac_policy.specs.StandsFor.{StandsFor};
ghost use Rattle.refusal_rules.specs.Rules.{accept, ◌▸◌};
ghost use Rattle.rbac_admin.specs.PolicyStep.{PolicyStep};
ghost use Rattle.access_core.specs.Answering.{ByRules, no_memory};
ghost use Rattle.access_core.specs.SlotState.{SlotState};
ghost use Rattle.access_core.specs.Desk.{DeskState, AreSlots, opening_desk, desk_at, empty_slot};
ghost use Rattle.access_core.specs.Desk.{change_of, accepted_reply, list_full, Appends, AdminStep};
ghost use Rattle.access_core.specs.Desk.{DeskStep};

use crate::command::SlotCommand;
use crate::refusal::Refusal;
use crate::reply::{PolicyWord, Reply};
use crate::slot::Slot;
use crate::slot_step::decide_slot;
use rbac_admin::policy_step::decide;
use rbac_admin::refusal::PolicyRefusal;
use rbac_admin::room::has_room;
use rbac_policy::commands::{AdminCommand, Entry, SessionId};
use rbac_policy::journal::PolicyJournal;
use rbac_policy::objects::{Object, Operation, SLOTS, SlotNumber};
use rbac_policy::policy::Policy;
use reactor_core::journal::Journal;
use std::alloc::{AllocError, Global};
use std::array;
use std::marker::Model;

/// A policy with the list of its accepted entries, and sixteen slots. A contract sees the list and
/// the slots.
#[derive(Drop)]
pub struct Single {
    policy: Policy,
    entries: PolicyJournal,
    slots: [Slot; SLOTS as usize],
}

impl Model for Single {
    ghost use Rattle.std.specs.Coded.{codes};
    ghost use Rattle.access_core.specs.Desk.{DeskState};
    ghost use Rattle.reactor_core.specs.contracts.entry.SlotEntry as entry;

    ghost Value = { DeskState };

    ghost coded = { Prim.hlevel (codes, entry.the_row.coded) };

    ghost use Rattle.rbac_policy.specs.Fits.{AllFit};
    ghost use Rattle.rbac_policy.specs.StandsFor.{StandsFor};
    ghost use Rattle.rbac_policy.specs.Leaving.{LeavesRoom};
    ghost use Rattle.rbac_admin.specs.Room.{most_entries};
    ghost use Rattle.access_core.specs.Desk.{AreSlots};

    ghost view = { λ s. record { entries = s.entries; slots = s.slots } };

    ghost invariant = { λ s. StandsFor s.policy s.entries × AreSlots s.slots
        × LeavesRoom most_entries s.entries × AllFit s.entries };
}

/// The change by which a reply names the command; None for a login.
pub fn change_of(command: &AdminCommand) -> Option<PolicyWord>
    ensures { result ≡ change_of command.now }
{
    match command {
        AdminCommand::AddUser { .. } => Some(PolicyWord::AddUser),
        AdminCommand::DeleteUser { .. } => Some(PolicyWord::DeleteUser),
        AdminCommand::AddRole { .. } => Some(PolicyWord::AddRole),
        AdminCommand::DeleteRole { .. } => Some(PolicyWord::DeleteRole),
        AdminCommand::AssignUser { .. } => Some(PolicyWord::AssignUser),
        AdminCommand::DeassignUser { .. } => Some(PolicyWord::DeassignUser),
        AdminCommand::GrantPermission { .. } => Some(PolicyWord::GrantPermission),
        AdminCommand::RevokePermission { .. } => Some(PolicyWord::RevokePermission),
        AdminCommand::AddInheritance { .. } => Some(PolicyWord::AddInheritance),
        AdminCommand::DeleteInheritance { .. } => Some(PolicyWord::DeleteInheritance),
        AdminCommand::CreateDsdSet { .. } => Some(PolicyWord::CreateDsdSet),
        AdminCommand::DeleteDsdSet { .. } => Some(PolicyWord::DeleteDsdSet),
        AdminCommand::CreateSession { .. } => None,
        AdminCommand::DeleteSession => Some(PolicyWord::DeleteSession),
        AdminCommand::AddActiveRole { .. } => Some(PolicyWord::AddActiveRole),
        AdminCommand::DropActiveRole { .. } => Some(PolicyWord::DropActiveRole),
    }
}

/// Adds the entry to the list and takes it into the policy. If memory is refused, both stay as they
/// were.
fn append_and_absorb(
    policy: &mut Policy,
    entries: &mut PolicyJournal,
    entry: Entry,
) -> Result<(), AllocError>
    ensures { MatchResult result
        (λ _. (entries.new ≡ entries.old ++ entry ∷ []) × (policy.new ≡ absorbed policy.old entry))
        (λ _. (entries.new ≡ entries.old) × (policy.new ≡ policy.old)) }
{
    let place = entries.len();
    entries.push(entry)?;
    if let Some(entry) = entries.get(place) {
        policy.absorb(entry);
    }
    Ok(())
}

/// The reply to an accepted entry that the policy has just taken in; `change` is None for a login.
fn answer_accepted(policy: &Policy, change: Option<PolicyWord>) -> Reply
    ensures { (before : List Entry) (entry : Entry) → StandsFor policy.now (before ++ entry ∷ [])
        → change ≡ change_of entry.command
        → result ≡ accepted_reply before entry.command }
{
    let version = policy.version();
    match change {
        Some(change) => Reply::Changed { change, version },
        None => Reply::Login {
            session: SessionId::new(policy.logins()),
            version,
        },
    }
}

/// An empty slot.
fn make_slot(alloc: Global, number: u8) -> Slot
    requires { number < SLOTS }
    ensures { result ≡ empty_slot number }
{
    match SlotNumber::new(number) {
        Some(number) => Slot::new(alloc, number),
        None => unreachable!(),
    }
}

/// Where the slot of this number stands, if there is one.
fn find_slot(number: u64) -> Option<usize>
    ensures { MatchOption result (SLOTS ≤ number) (λ place. (place ≡ number) × (number < SLOTS)) }
{
    let place = number;
    if place < u64::from(SLOTS) {
        Some(place as usize)
    } else {
        None
    }
}

/// Sixteen empty slots.
fn make_slots(alloc: Global) -> [Slot; SLOTS as usize]
    ensures { result ≡ opening_desk.slots }
{
    array::from_fn(|number| make_slot(alloc, number as u8))
}

/// Answers a command on the slot of this number, which this session gives, at this policy.
fn answer_slot(
    policy: &Policy,
    slots: &mut [Slot; SLOTS as usize],
    session: SessionId,
    number: u64,
    command: SlotCommand,
) -> Reply
    requires { AreSlots slots.old }
    ensures slots { AreSlots slots.new }
    ensures step { (entries : List Entry) → StandsFor policy.now entries
        → DeskStep number session command (record { entries = entries; slots = slots.old }) result
        (record { entries = entries; slots = slots.new }) }
{
    if !policy.lives(session) {
        return Reply::Refused(Refusal::Policy(PolicyRefusal::NoSession));
    }
    let Some(place) = find_slot(number) else {
        return Reply::Refused(Refusal::NoSlot);
    };
    decide_slot(policy, &mut slots[place], session, command)
}

/// The policy of the first `version` entries.
fn policy_at(entries: &[Entry], version: usize) -> Policy
    requires { version ≤ length entries.now }
    ensures { result ≡ policy_of (take version entries.now) }
{
    let mut policy = Policy::empty();
    for entry in &entries[..version] {
        policy.absorb(entry);
    }
    policy
}

impl Single {
    /// The opening policy, its list, and sixteen empty slots.
    pub fn new(alloc: Global) -> Result<Single, AllocError>
        ensures { IfOk result (λ desk. desk ≡ opening_desk) }
    {
        let entries = PolicyJournal::opening(alloc)?;
        Ok(Single {
            policy: Policy::opening(),
            entries,
            slots: make_slots(alloc),
        })
    }

    /// The accepted policy entries, the oldest first.
    pub fn entries(&self) -> &[Entry]
        ensures { result.now ≡ self.now.entries }
    {
        self.entries.entries()
    }

    /// The slots, by number.
    pub fn slots(&self) -> &[Slot]
        ensures { result.now ≡ self.now.slots }
    {
        &self.slots
    }

    /// The policy list and the journals of the slots, by number. It adds no entry and takes no
    /// memory.
    pub fn into_journals(self) -> (PolicyJournal, [Journal; SLOTS as usize])
        ensures policy { result.0 ≡ self.entries }
        ensures slots { result.1 ≡ map (λ (s : SlotState). s.journal) self.slots }
    {
        let Single { entries, slots, .. } = self;
        (entries, slots.map(|slot| slot.into_journal()))
    }

    /// Adds an entry to the list and takes it into the policy, or refuses it as JournalFull or
    /// Memory.
    fn append(&mut self, entry: Entry) -> Reply
        requires { PolicyStep self.old.entries entry.session entry.command (Ok entry) }
        ensures { ByRules (list_full self.old.entries entry ▸ no_memory ▸ accept) (Appends entry)
            self.old result self.new }
    {
        if !has_room(self.entries.entries(), &entry.command) {
            return Reply::Refused(Refusal::JournalFull);
        }
        let change = change_of(&entry.command);
        match append_and_absorb(&mut self.policy, &mut self.entries, entry) {
            Ok(()) => answer_accepted(&self.policy, change),
            Err(_) => Reply::Refused(Refusal::Memory),
        }
    }

    /// Answers a policy command, which this session gives. An accepted command adds its one entry
    /// to the policy list.
    pub fn admin(&mut self, session: Option<SessionId>, command: AdminCommand) -> Reply
        ensures { AdminStep session command self.old result self.new }
    {
        match decide(&self.policy, session, command) {
            Ok(entry) => self.append(entry),
            Err(refusal) => Reply::Refused(Refusal::Policy(refusal)),
        }
    }

    /// Answers a command on the slot of this number, which this session gives, at the whole policy
    /// list.
    pub fn slot(&mut self, session: SessionId, number: u64, command: SlotCommand) -> Reply
        ensures { DeskStep number session command self.old result self.new }
    {
        answer_slot(&self.policy, &mut self.slots, session, number, command)
    }

    /// Answers a command on the slot of this number as of an older policy: that of the first
    /// `version` entries of the list. It replays them, so it takes longer for a later version.
    pub fn slot_at(
        &mut self,
        version: usize,
        session: SessionId,
        number: u64,
        command: SlotCommand,
    ) -> Reply
        requires { version ≤ length self.old.entries }
        ensures step { DeskStep number session command (desk_at version self.old) result
            (desk_at version self.new) }
        ensures entries { self.new.entries ≡ self.old.entries }
    {
        let policy = policy_at(self.entries.entries(), version);
        answer_slot(&policy, &mut self.slots, session, number, command)
    }

    /// Whether the session may do the operation on the object.
    pub fn check(&self, session: SessionId, operation: Operation, object: &Object) -> bool
        ensures { IsTrue result ↔ May self.now.entries session operation object.now }
    {
        self.policy.may(session, &operation, object)
    }
}
