//! The audit of a policy list and sixteen journals.
ghost use Rattle.std.specs.Prelude.{◌≡◌, ◌<◌, OnOk, IfErr};
ghost use Rattle.est_kernel.specs.declared.kernel.Kernel.{Kernel as KernelValue};
ghost use Rattle.audit_report.specs.Findings.{HaveNoFinding, IsFirst};

use crate::finding::Finding;
use crate::policy_audit::audit_policy;
use crate::slot_audit::audit_slot;
use est_rounds::engine::Engine;
use est_rounds::rounds::Rounds;
use rbac_policy::journal::PolicyJournal;
use rbac_policy::objects::{SLOTS, SlotNumber};
use reactor_core::journal::Journal;
use std::alloc::Global;

/// The slot of this number.
pub(crate) fn slot_at(number: usize) -> SlotNumber
    requires { number < SLOTS }
    ensures { result ≡ number }
{
    match SlotNumber::new(number as u8) {
        Some(slot) => slot,
        None => unreachable!(),
    }
}

/// Audits the policy list and the journals of the slots, which stand by number: Ok exactly when
/// there is nothing to find, unless memory is refused.
///
/// It replays the policy list through the policy step, each entry once, and each journal through
/// the slot step on a slot of its own. Of each step of a module whose local signals nest at most
/// six deep this engine is asked too, once. It has to be one for every kernel.
///
/// # Errors
///
/// The first finding: in the policy list, then in the journals by number; of one entry its version
/// before its refusal, and that before its reaction. Or Memory, where memory was refused.
pub fn audit_journals_with<E: Engine>(
    alloc: Global,
    policy: &PolicyJournal,
    slots: &[Journal; SLOTS as usize],
    engine: &mut E,
) -> Result<(), Finding>
    requires { (e : E) (kernel : KernelValue) → E.is_for e kernel }
    ensures ok { OnOk result (HaveNoFinding policy.now slots.now) }
    ensures err { IfErr result (IsFirst policy.now slots.now) }
{
    let entries = policy.entries();
    audit_policy(entries)?;
    for (number, journal) in slots.iter().enumerate() {
        audit_slot(alloc, entries, slot_at(number), journal.entries(), engine)?;
    }
    Ok(())
}

/// Audits the policy list and the journals of the slots, which stand by number, with the plain
/// engine as the second one: Ok exactly when there is nothing to find, unless memory is refused.
///
/// # Errors
///
/// As `audit_journals_with` has them.
pub fn audit_journals(
    alloc: Global,
    policy: &PolicyJournal,
    slots: &[Journal; SLOTS as usize],
) -> Result<(), Finding>
    ensures ok { OnOk result (HaveNoFinding policy.now slots.now) }
    ensures err { IfErr result (IsFirst policy.now slots.now) }
{
    audit_journals_with(alloc, policy, slots, &mut Rounds::new())
}
