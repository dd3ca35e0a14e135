//! The answer to a command on a slot: its rules of refusal in their order, and then what it does.
ghost use Rattle.std.specs.Prelude.{◌≡◌, ℕ, List};
ghost use Rattle.rbac_policy.specs.declared.commands.Entry.{Entry};
ghost use Rattle.rbac_policy.specs.StandsFor.{StandsFor};
ghost use Rattle.access_core.specs.SlotStep.{SlotStep, IsAdmitted};

use crate::admission::{admit_command, permission_of, stamp};
use crate::command::SlotCommand;
use crate::refusal::Refusal;
use crate::reply::Reply;
use crate::slot::Slot;
use rbac_policy::commands::SessionId;
use rbac_policy::policy::Policy;
use reactor_core::entry::{Load, Move, Stamp};

/// Answers a load of the slot, given what `admit_load` answered: as `decide_slot` answers it at
/// that policy.
pub fn load_admitted(admitted: Result<Stamp, Refusal>, slot: &mut Slot, load: Load) -> Reply
    ensures number { slot.new.number ≡ slot.old.number }
    ensures step { (entries : List Entry) → (session : ℕ)
        → IsAdmitted entries slot.old.number session admitted
        → SlotStep entries slot.old.number session
        (SlotCommand.Move (Move.Load load)) slot.old.journal result
        slot.new.journal }
{
    match admitted {
        Ok(stamp) => slot.load(stamp, load),
        Err(refusal) => Reply::Refused(refusal),
    }
}

/// Answers a command, which this session gives to the slot, at the policy as it is.
///
/// The session has to live, and to have the command's permission: `load` on the slot for a load and
/// an unload, `step` on it for a step and a discard, `offer` on the signal, `audit` on the policy.
/// A look needs none, and shows what the session may observe. A refusal leaves the slot unchanged.
/// An accepted command adds its one entry, but for a look and an audit, which add none.
pub fn decide_slot(
    policy: &Policy,
    slot: &mut Slot,
    session: SessionId,
    command: SlotCommand,
) -> Reply
    ensures number { slot.new.number ≡ slot.old.number }
    ensures step { (entries : List Entry) → StandsFor policy.now entries
        → SlotStep entries slot.old.number session command slot.old.journal result
        slot.new.journal }
{
    let needed = permission_of(slot.number(), &command);
    if let Err(refusal) = admit_command(policy, session, needed) {
        return Reply::Refused(refusal);
    }
    match command {
        SlotCommand::Move(asked) => slot.make_move(policy, session, asked),
        SlotCommand::Look { instant } => slot.look(policy, session, instant),
        SlotCommand::Audit => slot.audit(policy),
    }
}
