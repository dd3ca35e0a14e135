//! Laws of the desk. Each function does nothing but call the laws that it follows from: its
//! contract is the law.
ghost use Rattle.std.specs.Prelude.{◌≡◌, ℕ, ◌≤◌, List, Option, Some, slice_get, take};
ghost use Rattle.rbac_policy.specs.declared.commands.AdminCommand.{AdminCommand};
ghost use Rattle.rbac_policy.specs.declared.commands.Entry.{Entry};
ghost use Rattle.reactor_core.specs.Meaning.{asked};
ghost use Rattle.reactor_core.specs.declared.entry.SlotEntry.{SlotEntry};
ghost use Rattle.access_core.specs.declared.reply.Reply.{Reply};
ghost use Rattle.access_core.specs.SlotStep.{SlotStep};
ghost use Rattle.access_core.specs.Needs.{Needs, IsAccepted};
ghost use Rattle.access_core.specs.StuckSteps.{ReachesReactor, IsStuckExactly};
ghost use Rattle.access_core.specs.Desk.{DeskState, AdminStep, DeskStep};
ghost use Rattle.access_core.specs.declared.command.SlotCommand.{SlotCommand};
ghost use Rattle.access_core.specs.declared.command.SlotCommand.TheVariants.{Move};
ghost use Rattle.access_core.specs.declared.refusal.Refusal.{Refusal};
ghost use Rattle.access_core.specs.declared.refusal.Refusal.TheVariants.{Memory};
ghost use Rattle.access_core.specs.Journals.{IsLegal, HasEnded};
ghost use Rattle.rbac_admin.specs.PolicyLists.{Begins};
ghost use Rattle.access_core.specs.declared.reply.Reply.TheVariants.{Refused};
ghost use Rattle.access_core.specs.Refusals.{row_of, NamesObjects};
ghost use Rattle.refusal_rules.specs.Rows.{TellsApart};

use rbac_policy::laws::ended_sessions_stay_ended;
use reactor_core::laws::{one_load, one_module};

/// A refused command changes nothing on the desk.
pub fn refusals_change_nothing()
    ensures policy { (session : Option ℕ) (command : AdminCommand) (before : DeskState)
        (refusal : Refusal) (after : DeskState)
        → AdminStep session command before (Refused refusal) after → after ≡ before }
    ensures slots { (number session : ℕ) (command : SlotCommand) (before : DeskState)
        (refusal : Refusal) (after : DeskState)
        → DeskStep number session command before (Refused refusal) after → after ≡ before }
{}

/// A slot command is accepted only from a session that has what the command needs.
pub fn accepted_is_allowed()
    ensures { (number session : ℕ) (command : SlotCommand) (before : DeskState) (reply : Reply)
        (after : DeskState)
        → DeskStep number session command before reply after → IsAccepted reply
        → Needs before.entries number session command }
{}

/// If a step is judged by the reactor, and its pending inputs keep each relation, it is answered
/// Stuck exactly when there is no reaction, except that memory may be refused.
pub fn stuck_exactly()
    ensures { (entries : List Entry) (slot session : ℕ) (command : SlotCommand)
        (before : List SlotEntry) (reply : Reply) (after : List SlotEntry)
        → SlotStep entries slot session command before reply after
        → ReachesReactor entries slot session command before
        → IsStuckExactly entries slot session before reply }
{
    one_module();
}

/// After the same journal, a command on a slot has one answer: one reply, and one journal
/// afterwards, except that memory may be refused.
pub fn one_slot_answer()
    ensures { (entries : List Entry) (slot session : ℕ) (command : SlotCommand)
        (before : List SlotEntry) (r s : Reply) (a b : List SlotEntry)
        → SlotStep entries slot session command before r a
        → SlotStep entries slot session command before s b
        → ¬ (r ≡ Refused Memory) → ¬ (s ≡ Refused Memory) → (r ≡ s) × (a ≡ b) }
{
    one_module();
    one_load();
}

/// A legal journal stays legal when the policy list grows, and when the slot step on that list
/// answers a command. Along a legal journal versions never fall, and each entry was allowed: at its
/// version its session had what its command needs.
pub fn journals_are_legal()
    ensures grows { (list longer : List Entry) (slot : ℕ) (journal : List SlotEntry)
        → Begins list longer → IsLegal list slot journal → IsLegal longer slot journal }
    ensures steps { (list : List Entry) (slot session : ℕ) (command : SlotCommand)
        (before : List SlotEntry) (reply : Reply) (after : List SlotEntry)
        → IsLegal list slot before → SlotStep list slot session command before reply after
        → IsLegal list slot after }
    ensures rises { (list : List Entry) (slot early late : ℕ) (journal : List SlotEntry)
        (x y : SlotEntry)
        → IsLegal list slot journal → early ≤ late → slice_get journal early ≡ Some x
        → slice_get journal late ≡ Some y
        → x.stamp.version ≤ y.stamp.version }
    ensures allowed { (list : List Entry) (slot at : ℕ) (journal : List SlotEntry) (x : SlotEntry)
        → IsLegal list slot journal → slice_get journal at ≡ Some x
        → Needs (take x.stamp.version list) slot x.stamp.session (Move (asked x.done)) }
{}

/// Once an entry of a slot was judged at or after a session's end, no later entry of that slot is
/// that session's.
pub fn ended_sessions_add_nothing()
    ensures { (list : List Entry) (slot session version early late : ℕ) (journal : List SlotEntry)
        (x y : SlotEntry)
        → IsLegal list slot journal → HasEnded list session version
        → early ≤ late → slice_get journal early ≡ Some x → slice_get journal late ≡ Some y
        → version ≤ x.stamp.version → ¬ (y.stamp.session ≡ session) }
{
    ended_sessions_stay_ended();
}

/// Refusals with equal numbers and equal fields are equal, if the objects that they name are
/// objects.
pub fn refusals_are_told_apart()
    ensures { (one other : Refusal) → NamesObjects one → NamesObjects other
        → TellsApart row_of one other }
{}
