//! What an audit of journals finds.
ghost use Rattle.std.specs.Prelude.{OnOk, IfErr};
ghost use Rattle.audit_report.specs.Findings.{HaveNoFinding, IsFirst};

use audit_report::audit;
use audit_report::finding::Finding;
use rbac_policy::journal::PolicyJournal;
use rbac_policy::objects::SLOTS;
use reactor_core::journal::Journal;
use std::alloc::Global;

/// Audits the policy list and the journals of the slots, which stand by number: Ok exactly when
/// there is nothing to find, unless memory is refused.
///
/// # Errors
///
/// The first finding; or Memory, where memory was refused.
pub fn audit_journals(
    alloc: Global,
    policy: &PolicyJournal,
    slots: &[Journal; SLOTS as usize],
) -> Result<(), Finding>
    ensures ok { OnOk result (HaveNoFinding policy.now slots.now) }
    ensures err { IfErr result (IsFirst policy.now slots.now) }
{
    audit::audit_journals(alloc, policy, slots)
}
