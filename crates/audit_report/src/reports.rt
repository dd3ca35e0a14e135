//! The text of an audit.
ghost use Rattle.std.specs.Prelude.{◌≡◌, ◌++◌, ◌<◌, ℕ, Result, IfOk, OnOk, count_by, string_bytes};
ghost use Rattle.reactor_core.specs.declared.entry.SlotEntry.{SlotEntry};
ghost use Rattle.audit_report.specs.declared.finding.Finding.{Finding};
ghost use Rattle.audit_report.specs.Findings.{IsVerdict};
ghost use Rattle.audit_report.specs.ReportText.{is_load, is_step, slot_line, verdict_text};
ghost use Rattle.audit_report.specs.ReportText.{report_text};

use crate::audit::audit_journals;
use crate::finding::Finding;
use rbac_policy::journal::PolicyJournal;
use rbac_policy::objects::SLOTS;
use reactor_core::entry::{Move, SlotEntry};
use reactor_core::journal::Journal;
use std::alloc::{AllocError, Global};

/// How many of the entries are loads.
fn count_loads(entries: &[SlotEntry]) -> usize
    ensures { result ≡ count_by (λ (e : SlotEntry). is_load e.done) entries.now }
{
    entries
        .iter()
        .filter(|entry| matches!(entry.done, Move::Load(_)))
        .count()
}

/// How many of the entries are steps.
fn count_steps(entries: &[SlotEntry]) -> usize
    ensures { result ≡ count_by (λ (e : SlotEntry). is_step e.done) entries.now }
{
    entries
        .iter()
        .filter(|entry| matches!(entry.done, Move::Step(_)))
        .count()
}

/// Adds the line of the slot of this number, if its journal has entries.
fn add_slot(text: &mut String, number: usize, entries: &[SlotEntry]) -> Result<(), AllocError>
    ensures { OnOk result (string_bytes text.new ≡ string_bytes text.old ++ slot_line number
        entries.now) }
{
    if entries.is_empty() {
        return Ok(());
    }
    let (count, loads, steps) = (entries.len(), count_loads(entries), count_steps(entries));
    writeln!(
        text,
        "slot {number}: {count} entries, {loads} loads, {steps} instants"
    )
}

/// Adds the words of the verdict.
fn add_verdict(text: &mut String, verdict: &Result<(), Finding>) -> Result<(), AllocError>
    ensures { OnOk result (string_bytes text.new ≡ string_bytes text.old ++ verdict_text
        verdict.now) }
{
    match verdict {
        Ok(()) => write!(text, "ok"),
        Err(finding) => write!(text, "{finding}"),
    }
}

/// The report on these journals: how many entries they have, and the verdict of their audit.
///
/// # Errors
///
/// Where memory was refused, for the audit or for the text.
pub fn report(
    alloc: Global,
    policy: &PolicyJournal,
    slots: &[Journal; SLOTS as usize],
) -> Result<String, AllocError>
    ensures { IfOk result (λ text. (verdict : Result (Unit {0}) Finding)
        × IsVerdict policy.now slots.now verdict
        × (string_bytes text ≡ report_text policy.now slots.now verdict)) }
{
    let verdict = audit_journals(alloc, policy, slots);
    if let Err(Finding::Memory) = verdict {
        return Err(AllocError);
    }
    let count = policy.len();
    let mut text = format!(in alloc; "policy: {count} entries\n")?;
    for (number, journal) in slots.iter().enumerate() {
        add_slot(&mut text, number, journal.entries())?;
    }
    text.push_str("check: ")?;
    add_verdict(&mut text, &verdict)?;
    text.push_str("\n")?;
    Ok(text)
}
