//! The laws of one list of events. Each function does nothing: its contract is the law.
ghost use Rattle.std.specs.Prelude.{◌≡◌, ◌≤◌, List, length};
ghost use Rattle.rbac_policy.specs.declared.commands.Entry.{Entry};
ghost use Rattle.rbac_policy.specs.declared.objects.TheConstants.{SLOTS};
ghost use Rattle.reactor_core.specs.declared.entry.SlotEntry.{SlotEntry};
ghost use Rattle.history_receipts.specs.declared.receipt.Kept.{Kept};
ghost use Rattle.rbac_policy.specs.declared.sizes.TheConstants.{OPENING_ENTRIES};
ghost use Rattle.history_merge.specs.OneList.{AreOfOneList};
ghost use Rattle.history_merge.specs.Once.{EachOnce};

/// If one list of events has the journals and the receipts as its parts, each entry of a slot, and
/// each policy entry after the opening ones, belongs by place and content to exactly one receipt of
/// one seat, and each receipt to one entry.
pub fn entries_and_receipts_are_one_to_one()
    ensures { (policy : List Entry) (journals : List (List SlotEntry)) (seats : List (List Kept))
        → OPENING_ENTRIES ≤ length policy → length journals ≡ SLOTS
        → AreOfOneList policy journals seats → EachOnce policy journals seats }
{}
