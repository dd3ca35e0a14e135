//! Want of memory: an audit or a report that is refused memory says so, and the same call then
//! answers as always. With ample memory nothing is refused. Where one allocation is refused, the
//! test ends with words that name the call that was refused; tests/faults (test_calls.py) has each
//! allocation refused in turn.
use crate::audit::findings::OPENING_REPORT;
use crate::audit::journals::{journals_of_one, policy_entries, policy_of, slot_entries};
use audit_report::audit::audit_journals;
use audit_report::finding::Finding;
use audit_report::reports::report;
use rbac_policy::journal::PolicyJournal;
use reactor_core::journal::Journal;
use std::alloc::Global;
use std::process::Abort;

/// The test goes on, or ends with these words where memory was refused.
fn go_on(rt: &impl Abort, is_refused: bool, words: &str) {
    let going = if is_refused { None } else { Some(()) };
    going.expect(rt, words);
}

/// Nothing is found in the journals.
fn check_them(rt: &impl Abort, alloc: Global, policy: &PolicyJournal, slots: &[Journal; 16]) {
    let first = audit_journals(alloc, policy, slots);
    let is_refused = first == Err(Finding::Memory);
    let found = if is_refused {
        audit_journals(alloc, policy, slots)
    } else {
        first
    };
    assert_eq!(rt; found, Ok(()));
    go_on(rt, is_refused, "refused a check");
}

/// The report on the journals is the one that is always written.
fn report_on_them(rt: &impl Abort, alloc: Global, policy: &PolicyJournal, slots: &[Journal; 16]) {
    let (text, is_refused) = match report(alloc, policy, slots) {
        Ok(text) => (text, false),
        Err(_) => (report(alloc, policy, slots).expect(rt, "room"), true),
    };
    assert_eq!(rt; text.as_str(), OPENING_REPORT);
    go_on(rt, is_refused, "refused a report");
}

/// What is refused is the making of the journals, the audit, or the report.
#[test]
fn audits_without_memory(rt: HostRuntime) {
    let alloc = rt.alloc();
    let policy = policy_of(&rt, alloc, policy_entries(&rt, alloc).as_slice());
    let slots = journals_of_one(&rt, alloc, slot_entries(&rt, alloc));
    check_them(&rt, alloc, &policy, &slots);
    report_on_them(&rt, alloc, &policy, &slots);
}
