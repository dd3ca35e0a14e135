//! Whether a session may give a command to a slot.
ghost use Rattle.std.specs.Prelude.{◌≡◌, List};
ghost use Rattle.rbac_policy.specs.declared.commands.Entry.{Entry};
ghost use Rattle.rbac_policy.specs.StandsFor.{StandsFor};
ghost use Rattle.refusal_rules.specs.Rules.{TestsAll};
ghost use Rattle.access_core.specs.SlotStep.{access_rules, IsAdmitted, stamp_of};
ghost use Rattle.access_core.specs.Needs.{permission_of};

use crate::command::SlotCommand;
use crate::refusal::Refusal;
use rbac_admin::refusal::PolicyRefusal;
use rbac_policy::commands::SessionId;
use rbac_policy::objects::{Object, Operation, SlotNumber};
use rbac_policy::policy::Policy;
use reactor_core::entry::{Move, Stamp};

/// The version and the session that an entry bears.
pub(crate) fn stamp(policy: &Policy, session: SessionId) -> Stamp
    ensures { (entries : List Entry) → StandsFor policy.now entries
        → result ≡ stamp_of entries session }
{
    Stamp {
        version: policy.version(),
        session: session.number(),
    }
}

/// The permission that a command on the slot needs; a look needs none.
pub(crate) fn permission_of(slot: SlotNumber, command: &SlotCommand) -> Option<(Operation, Object)>
    ensures { result ≡ permission_of slot command.now }
{
    match command {
        SlotCommand::Move(Move::Load(_)) => Some((Operation::Load, Object::Slot(slot))),
        SlotCommand::Move(Move::Offer(signal)) => {
            Some((Operation::Offer, Object::Signal(slot, *signal)))
        }
        SlotCommand::Move(Move::Discard) => Some((Operation::Step, Object::Slot(slot))),
        SlotCommand::Move(Move::Step(())) => Some((Operation::Step, Object::Slot(slot))),
        SlotCommand::Move(Move::Unload) => Some((Operation::Load, Object::Slot(slot))),
        SlotCommand::Look { .. } => None,
        SlotCommand::Audit => Some((Operation::Audit, Object::Policy)),
    }
}

/// Whether the session lives and has the permission that is needed, if any, and else why not.
pub(crate) fn admit_command(
    policy: &Policy,
    session: SessionId,
    needed: Option<(Operation, Object)>,
) -> Result<(), Refusal>
    ensures { (entries : List Entry) → StandsFor policy.now entries
        → TestsAll (access_rules entries session needed) result }
{
    if !policy.lives(session) {
        return Err(Refusal::Policy(PolicyRefusal::NoSession));
    }
    let Some((operation, object)) = needed else {
        return Ok(());
    };
    if policy.may(session, &operation, &object) {
        return Ok(());
    }
    Err(Refusal::Policy(PolicyRefusal::Permission { operation, object }))
}

/// Asks whether this session may load the slot, at the policy as it is. Answers the stamp that the
/// load's entry gets.
///
/// What a load does afterwards needs no policy: `load_admitted` (`slot_step`) does it, however long
/// its text takes.
///
/// # Errors
///
/// NoSession where the session does not live, Permission where it lacks `load` on the slot.
pub fn admit_load(policy: &Policy, slot: SlotNumber, session: SessionId) -> Result<Stamp, Refusal>
    ensures { (entries : List Entry) → StandsFor policy.now entries
        → IsAdmitted entries slot session result }
{
    admit_command(policy, session, Some((Operation::Load, Object::Slot(slot))))?;
    Ok(stamp(policy, session))
}
