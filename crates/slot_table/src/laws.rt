//! The laws of slots that are shared. Each function does nothing but call the laws that it follows
//! from: its contract is the law.
ghost use Rattle.std.specs.Prelude.{◌≡◌, ℕ, List, length};
ghost use Rattle.rbac_policy.specs.declared.commands.Entry.{Entry};
ghost use Rattle.rbac_policy.specs.declared.objects.TheConstants.{SLOTS};
ghost use Rattle.rbac_admin.specs.PolicyLists.{Begins, IsPolicyList};
ghost use Rattle.reactor_core.specs.declared.entry.SlotEntry.{SlotEntry};
ghost use Rattle.history_receipts.specs.declared.receipt.Kept.{Kept};
ghost use Rattle.history_merge.specs.OneList.{AreOfOneList};
ghost use Rattle.history_merge.specs.Once.{EachOnce};
ghost use Rattle.policy_board.specs.SeatState.{SeatState};
ghost use Rattle.access_core.specs.declared.command.SlotCommand.{SlotCommand};
ghost use Rattle.access_core.specs.declared.reply.Reply.{Reply};
ghost use Rattle.access_core.specs.Journals.{IsLegal};
ghost use Rattle.slot_table.specs.LockedState.{LockedState};
ghost use Rattle.slot_table.specs.SlotCommands.{LockedCommand};

use history_merge::laws::entries_and_receipts_are_one_to_one;

/// A command under a slot's lock never takes an entry out of the journal, and leaves the journal
/// legal: along the places of a slot's journal versions never fall.
pub fn versions_never_fall()
    ensures { (slot session : ℕ) (command : SlotCommand) (old : LockedState) (seat : SeatState)
        (reply : Reply) (new : LockedState) (after : SeatState)
        → LockedCommand slot session command old seat reply new after
        → IsLegal old.list slot old.journal
        → Begins old.journal new.journal × Begins old.list new.list
        × IsLegal new.list slot new.journal }
{}

/// If `close` gives histories, each entry of a slot, and each policy entry after the opening ones,
/// belongs by place and content to exactly one receipt of one seat, and each receipt to one entry.
pub fn each_entry_belongs_to_one_receipt()
    ensures { (policy : List Entry) (slots : List (List SlotEntry)) (seats : List (List Kept))
        → IsPolicyList policy → length slots ≡ SLOTS → AreOfOneList policy slots seats
        → EachOnce policy slots seats }
{
    entries_and_receipts_are_one_to_one();
}
