//! Changes of written journals.
use crate::audit::journals::{loaded, stepped};
use crate::lines::entry;
use rbac_policy::commands::{Entry, SessionId};
use reactor_core::entry::{Move, SlotEntry};
use std::alloc::Global;
use std::process::Abort;

/// A change of journals. Places are counted from 0.
#[derive(Clone, Copy)]
pub enum Change {
    /// The policy entry at this place stands a second time, right after itself.
    Doubled(usize),
    /// The policy entry at this place is gone.
    Lost(usize),
    /// The policy list has only this many entries.
    Cut(usize),
    /// The two policy entries at this place and the next have changed places.
    Swapped(usize),
    /// The policy entry at this place lets the role root load on slot 1.
    GrantsOnOne(usize),
    /// The policy entry at this place was given by this session.
    GivenBy(usize, u16),
    /// The slot's entry at this place has this version.
    Version(usize, u64),
    /// The slot's entry at this place was given by this session.
    Session(usize, u16),
    /// The slot's entry at this place is a step with these inputs and outputs.
    Steps(usize, u64, u64),
    /// The slot's entry at this place is a load.
    Loads(usize),
    /// The slot's entry at this place is an unload.
    Unloads(usize),
    /// The slot's entry at this place is gone.
    Skipped(usize),
}

/// The entry by which session 1 lets the role root load on slot 1.
fn granted_on_one(rt: &impl Abort, alloc: Global) -> Entry {
    let line = "{\"cmd\":\"grant\",\"object\":\"1\",\"op\":\"load\",\"role\":\"root\"}";
    entry(rt, alloc, 1, line)
}

/// Changes the policy list, if the change is one of the policy list.
fn change_policy(rt: &impl Abort, alloc: Global, entries: &mut Vec<Entry>, change: Change) {
    match change {
        Change::Doubled(place) if place < entries.len() => {
            let entry = entries[place].clone().expect(rt, "room");
            entries.insert(place, entry).expect(rt, "room");
        }
        Change::Lost(place) if place < entries.len() => {
            let _lost = entries.remove(place);
        }
        Change::Cut(count) => entries.truncate(count),
        Change::Swapped(place) if place < entries.len() && place + 1 < entries.len() => {
            entries.swap(place, place + 1);
        }
        Change::GrantsOnOne(place) if place < entries.len() => {
            entries[place] = granted_on_one(rt, alloc);
        }
        Change::GivenBy(place, session) if place < entries.len() => {
            entries[place].session = Some(SessionId::new(session));
        }
        _ => {}
    }
}

/// Changes an entry of the slot, if the change is one of an entry's stamp or move.
fn change_entry(rt: &impl Abort, alloc: Global, entry: &mut SlotEntry, change: Change) {
    match change {
        Change::Version(_, version) => entry.stamp.version = version,
        Change::Session(_, session) => entry.stamp.session = session,
        Change::Steps(_, inputs, outputs) => entry.done = stepped(inputs, outputs),
        Change::Loads(_) => entry.done = loaded(rt, alloc),
        Change::Unloads(_) => entry.done = Move::Unload,
        _ => {}
    }
}

/// Changes the slot's entries, if the change is one of the slot.
fn change_slot(rt: &impl Abort, alloc: Global, entries: &mut Vec<SlotEntry>, change: Change) {
    match change {
        Change::Version(place, _)
        | Change::Session(place, _)
        | Change::Steps(place, _, _)
        | Change::Loads(place)
        | Change::Unloads(place) => {
            if let Some(entry) = entries.get_mut(place) {
                change_entry(rt, alloc, entry, change);
            }
        }
        Change::Skipped(place) if place < entries.len() => {
            let _skipped = entries.remove(place);
        }
        _ => {}
    }
}

/// Changes the journals.
pub fn apply(
    rt: &impl Abort,
    alloc: Global,
    policy: &mut Vec<Entry>,
    slot: &mut Vec<SlotEntry>,
    change: Change,
) {
    change_policy(rt, alloc, policy, change);
    change_slot(rt, alloc, slot, change);
}
