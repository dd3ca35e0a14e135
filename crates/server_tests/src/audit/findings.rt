//! What an audit finds in journals that were changed.
use crate::audit::changes::{Change, apply};
use crate::audit::journals::{
    journals_of, journals_of_one, policy_entries, policy_of, slot_entries, stamped, stepped,
};
use audit_report::reports::report;
use rbac_policy::commands::Entry;
use reactor_core::entry::SlotEntry;
use server_mistakes::audits::audit_journals;
use std::alloc::Global;
use std::process::Abort;

/// Changes of the journals of the opening script, and what the audit then says.
type Row = (&'static [Change], &'static str);

/// The audit says this of the entries.
fn expect_found(
    rt: &impl Abort,
    alloc: Global,
    policy: &[Entry],
    slot: Vec<SlotEntry>,
    wanted: &str,
) {
    let policy = policy_of(rt, alloc, policy);
    let said = match audit_journals(alloc, &policy, &journals_of_one(rt, alloc, slot)) {
        Ok(()) => format!(in alloc; "ok"),
        Err(finding) => format!(in alloc; "{finding}"),
    };
    assert_eq!(rt; said.expect(rt, "room").as_str(), wanted);
}

/// The audit says this of the journals of the opening script with these changes.
fn find(rt: &impl Abort, alloc: Global, changes: &[Change], wanted: &str) {
    let mut policy = policy_entries(rt, alloc);
    let mut slot = slot_entries(rt, alloc);
    for change in changes {
        apply(rt, alloc, &mut policy, &mut slot, *change);
    }
    expect_found(rt, alloc, policy.as_slice(), slot, wanted);
}

/// Each row of the table holds.
fn find_each(rt: &impl Abort, alloc: Global, rows: &[Row]) {
    for (changes, wanted) in rows {
        find(rt, alloc, changes, wanted);
    }
}

/// No change, and one for each kind of finding.
const CHANGED: &[Row] = &[
    (&[], "ok"),
    (&[Change::Doubled(5)], "policy 7"),
    (&[Change::Version(1, 8)], "version 0 2"),
    (&[Change::GrantsOnOne(5)], "refused 0 1 10"),
    (&[Change::Steps(2, 0, 1)], "reaction 0 3"),
];

#[test]
fn four_changed_journals(rt: HostRuntime) {
    find_each(&rt, rt.alloc(), CHANGED);
}

/// Lists that are no policy list; and the opening entries alone, whose length the slot's versions
/// pass.
const NO_POLICY_LIST: &[Row] = &[
    (&[Change::GivenBy(0, 1)], "policy 1"),
    (&[Change::GrantsOnOne(1)], "policy 2"),
    (&[Change::GrantsOnOne(3)], "policy 4"),
    (&[Change::Cut(0)], "policy 1"),
    (&[Change::Cut(3)], "policy 4"),
    (&[Change::Cut(4)], "version 0 1"),
    (&[Change::Lost(0)], "policy 1"),
    (&[Change::Swapped(0)], "policy 1"),
    (&[Change::Swapped(2)], "policy 3"),
    (&[Change::Doubled(3)], "policy 5"),
    (&[Change::Lost(4)], "policy 5"),
    (&[Change::Swapped(4)], "policy 5"),
    (&[Change::Swapped(8)], "policy 10"),
    (&[Change::Doubled(9)], "policy 11"),
    (&[Change::GivenBy(4, 1)], "policy 5"),
    (&[Change::GivenBy(5, 2)], "policy 6"),
    (&[Change::GivenBy(9, 2)], "policy 10"),
];

#[test]
fn a_policy_list_that_is_none(rt: HostRuntime) {
    find_each(&rt, rt.alloc(), NO_POLICY_LIST);
}

/// Each finding at the first, a middle and the last place.
const AT_EACH_PLACE: &[Row] = &[
    (&[Change::Version(0, 11)], "version 0 1"),
    (&[Change::Version(2, 8)], "version 0 3"),
    (&[Change::Version(3, 11)], "version 0 4"),
    (
        &[Change::Version(3, 18_446_744_073_709_551_615)],
        "version 0 4",
    ),
    (&[Change::Session(0, 2)], "refused 0 1 4"),
    (&[Change::Version(0, 3)], "refused 0 1 4"),
    (&[Change::Version(0, 8)], "ok"),
    (&[Change::Skipped(0)], "refused 0 1 62"),
    (&[Change::Loads(2)], "refused 0 3 61"),
    (&[Change::Unloads(2)], "refused 0 4 62"),
    (&[Change::Version(3, 10)], "refused 0 4 4"),
    (&[Change::Steps(1, 1, 1)], "reaction 0 2"),
    (&[Change::Steps(2, 0, 3)], "reaction 0 3"),
    (&[Change::Steps(3, 0, 2)], "reaction 0 4"),
];

#[test]
fn each_finding_at_first_middle_and_last_place(rt: HostRuntime) {
    find_each(&rt, rt.alloc(), AT_EACH_PLACE);
}

/// Two faults at once.
const TWO_FAULTS: &[Row] = &[
    (&[Change::Steps(1, 0, 0), Change::Doubled(8)], "policy 10"),
    (
        &[Change::Steps(1, 0, 0), Change::Version(2, 8)],
        "reaction 0 2",
    ),
    (
        &[Change::Session(2, 2), Change::Version(2, 8)],
        "version 0 3",
    ),
    (
        &[Change::Steps(2, 0, 1), Change::Session(2, 2)],
        "refused 0 3 4",
    ),
    (
        &[Change::Version(3, 8), Change::Session(1, 2)],
        "refused 0 2 4",
    ),
];

#[test]
fn of_two_faults_the_first_counts(rt: HostRuntime) {
    find_each(&rt, rt.alloc(), TWO_FAULTS);
}

/// The slot's entries of the opening script, with further steps, so that there are this many.
fn stepped_on(rt: &impl Abort, alloc: Global, count: usize) -> Vec<SlotEntry> {
    let mut entries = slot_entries(rt, alloc);
    for _ in entries.len()..count {
        entries
            .push(stamped(9, 1, stepped(0, 0)))
            .expect(rt, "room");
    }
    entries
}

/// How many entries a slot's journal has, and what the audit says.
const LONG: &[(usize, &str)] = &[(65_536, "ok"), (65_537, "refused 0 65537 67")];

/// A slot's journal at its limit, and one with an entry too many; nothing else is wrong with it.
#[test]
fn an_entry_too_many(rt: HostRuntime) {
    let alloc = rt.alloc();
    let policy = policy_entries(&rt, alloc);
    for (count, wanted) in LONG {
        let slot = stepped_on(&rt, alloc, *count);
        expect_found(&rt, alloc, policy.as_slice(), slot, wanted);
    }
}

/// The report on the journals of the opening script.
pub const OPENING_REPORT: &str =
    "policy: 10 entries\nslot 0: 4 entries, 1 loads, 3 instants\ncheck: ok\n";

/// The report on those journals, where slot 15 has the same journal.
const REPORT_OF_TWO: &str =
    "policy: 10 entries\nslot 0: 4 entries, 1 loads, 3 instants\nslot 15: 4 entries, 1 loads, \
    3 instants\ncheck: refused 15 1 10\n";

/// The report on the journals of the opening script, with these entries in slot 15.
fn expect_reported(rt: &impl Abort, alloc: Global, last: Vec<SlotEntry>, wanted: &str) {
    let policy = policy_of(rt, alloc, policy_entries(rt, alloc).as_slice());
    let journals = journals_of(rt, alloc, (0, slot_entries(rt, alloc)), (15, last));
    let text = report(alloc, &policy, &journals).expect(rt, "room");
    assert_eq!(rt; text.as_str(), wanted);
}

#[test]
fn the_report_of_the_opening_script(rt: HostRuntime) {
    let alloc = rt.alloc();
    expect_reported(&rt, alloc, Vec::new(alloc), OPENING_REPORT);
    expect_reported(&rt, alloc, slot_entries(&rt, alloc), REPORT_OF_TWO);
}
