//! The journals that the opening script leaves, written out entry by entry.
use crate::lines::{GRANT_LOAD, GRANT_O, GRANT_P, GRANT_STEP, LOGIN, LOGOUT, entry};
use est_text::identifier::Identifier;
use rbac_policy::commands::Entry;
use rbac_policy::journal::PolicyJournal;
use rbac_policy::opening::opening_entries;
use reactor_core::entry::{Load, Move, PastInstant, SlotEntry, Stamp};
use reactor_core::journal::Journal;
use reactor_core::text::Text;
use std::alloc::Global;
use std::array;
use std::process::Abort;

/// O in the first instant, P in the second.
const TWO_OUTPUTS: &str = "module M: output O, P; emit O; pause; emit P end module";

/// What the steps of the opening script emit.
const OUTPUTS: &[u64] = &[1, 2, 0];

/// The policy commands of the opening script, each with its session.
const SCRIPT: &[(u16, &str)] = &[
    (0, LOGIN),
    (1, GRANT_LOAD),
    (1, GRANT_STEP),
    (1, GRANT_O),
    (1, GRANT_P),
    (1, LOGOUT),
];

/// The entry of a move of this session at this version.
pub fn stamped(version: u64, session: u16, done: Move<PastInstant>) -> SlotEntry {
    SlotEntry {
        stamp: Stamp { version, session },
        done,
    }
}

/// The load of this text's module M.
pub fn load_of(rt: &impl Abort, alloc: Global, text: &str) -> Load {
    Load {
        main: Identifier::from_text("M").expect(rt, "an identifier"),
        text: Text::copied(alloc, text).expect(rt, "room"),
    }
}

/// The load of the module that the opening script loads.
pub fn loaded(rt: &impl Abort, alloc: Global) -> Move<PastInstant> {
    Move::Load(load_of(rt, alloc, TWO_OUTPUTS))
}

/// A step with these inputs and outputs.
pub fn stepped(inputs: u64, outputs: u64) -> Move<PastInstant> {
    Move::Step(PastInstant { inputs, outputs })
}

/// The policy list of the opening script.
pub fn policy_entries(rt: &impl Abort, alloc: Global) -> Vec<Entry> {
    let mut entries = Vec::from_array(alloc, opening_entries()).expect(rt, "room");
    for (session, line) in SCRIPT {
        entries
            .push(entry(rt, alloc, *session, line))
            .expect(rt, "room");
    }
    entries
}

/// The slot's entries of the opening script.
pub fn slot_entries(rt: &impl Abort, alloc: Global) -> Vec<SlotEntry> {
    let mut entries = Vec::new(alloc);
    entries
        .push(stamped(9, 1, loaded(rt, alloc)))
        .expect(rt, "room");
    for emitted in OUTPUTS {
        entries
            .push(stamped(9, 1, stepped(0, *emitted)))
            .expect(rt, "room");
    }
    entries
}

/// The policy list of the entries.
pub fn policy_of(rt: &impl Abort, alloc: Global, entries: &[Entry]) -> PolicyJournal {
    let mut policy = PolicyJournal::new(alloc);
    for entry in entries {
        policy
            .push(entry.clone().expect(rt, "room"))
            .expect(rt, "room");
    }
    policy
}

/// Sixteen journals: those with these two numbers have these entries, and all others have none.
pub fn journals_of(
    rt: &impl Abort,
    alloc: Global,
    (first, entries): (usize, Vec<SlotEntry>),
    (second, others): (usize, Vec<SlotEntry>),
) -> [Journal; 16] {
    let mut journals = array::from_fn(|_| Journal::new(alloc));
    *journals.get_mut(first).expect(rt, "a slot") = Journal::from_entries(entries);
    *journals.get_mut(second).expect(rt, "a slot") = Journal::from_entries(others);
    journals
}

/// Sixteen journals: the first one has these entries.
pub fn journals_of_one(rt: &impl Abort, alloc: Global, entries: Vec<SlotEntry>) -> [Journal; 16] {
    journals_of(rt, alloc, (0, entries), (1, Vec::new(alloc)))
}
