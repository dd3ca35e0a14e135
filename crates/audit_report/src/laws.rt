//! The laws of audits. Each function does nothing but call the laws that it follows from: its
//! contract is the law.
ghost use Rattle.std.specs.Prelude.{◌≡◌, ℕ, List, Some, slice_get, take};
ghost use Rattle.rbac_policy.specs.declared.commands.Entry.{Entry};
ghost use Rattle.reactor_core.specs.declared.entry.SlotEntry.{SlotEntry};
ghost use Rattle.reactor_core.specs.Meaning.{asked};
ghost use Rattle.access_core.specs.declared.command.SlotCommand.TheVariants.{Move};
ghost use Rattle.access_core.specs.Needs.{Needs};
ghost use Rattle.audit_report.specs.declared.finding.Finding.{Finding};
ghost use Rattle.audit_report.specs.declared.finding.Finding.TheVariants.{Memory};
ghost use Rattle.audit_report.specs.Findings.{HaveNoFinding, IsFirst};

use access_core::laws::{journals_are_legal, one_slot_answer};

/// Unless memory is refused, journals have one verdict: no finding if there is nothing to find, and
/// else one first finding. So two audits of the same journals say the same.
pub fn one_verdict()
    ensures none { (entries : List Entry) (slots : List (List SlotEntry)) (finding : Finding)
        → HaveNoFinding entries slots → IsFirst entries slots finding → finding ≡ Memory }
    ensures one { (entries : List Entry) (slots : List (List SlotEntry)) (finding other : Finding)
        → IsFirst entries slots finding → IsFirst entries slots other → ¬ (finding ≡ Memory)
        → ¬ (other ≡ Memory) → finding ≡ other }
{
    one_slot_answer();
}

/// When there is nothing to find, each entry of a slot was allowed: at its version, its session had
/// what the entry's command needs.
pub fn each_entry_was_allowed()
    ensures { (entries : List Entry) (slots : List (List SlotEntry)) (number at : ℕ)
        (journal : List SlotEntry) (entry : SlotEntry)
        → HaveNoFinding entries slots → slice_get slots number ≡ Some journal
        → slice_get journal at ≡ Some entry
        → Needs (take entry.stamp.version entries) number entry.stamp.session
        (Move (asked entry.done)) }
{
    journals_are_legal();
}
