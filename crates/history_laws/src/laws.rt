//! The laws of closed journals. Each function does nothing but call the law that it follows from,
//! if there is one: its contract is the law.
ghost use Rattle.std.specs.Prelude.{◌≡◌, ◌<◌, ◌≤◌, ℕ, List, length};
ghost use Rattle.rbac_policy.specs.declared.commands.Entry.{Entry};
ghost use Rattle.rbac_policy.specs.declared.objects.TheConstants.{SLOTS};
ghost use Rattle.rbac_admin.specs.PolicyLists.{IsPolicyList};
ghost use Rattle.reactor_core.specs.declared.entry.SlotEntry.{SlotEntry};
ghost use Rattle.access_core.specs.Journals.{IsLegal};
ghost use Rattle.history_events.specs.declared.event.TheConstants.{SEATS};
ghost use Rattle.history_receipts.specs.declared.receipt.Kept.{Kept};
ghost use Rattle.history_merge.specs.Order.{part_at};
ghost use Rattle.history_merge.specs.OneList.{AreOfOneList};
ghost use Rattle.history_laws.specs.CallsInTurn.{AreOfOneRun, CallsEndInJournals};

use history_events::laws::one_run;

/// Suppose that the list is a policy list, the journal of each slot is legal over it, and one list
/// of events has the journals and the receipts of the seats as its parts. Then these are the
/// journals of the world of a run of exactly those events. Each event comes by the seat that keeps
/// its receipt, and those of a seat come in the order of its receipts. Each is accepted with the
/// place and the version that the receipt tells, so none is refused as Behind.
pub fn journals_are_of_one_run()
    ensures { (policy : List Entry) (journals : List (List SlotEntry)) (seats : List (List Kept))
        → length journals ≡ SLOTS → length seats ≤ SEATS → IsPolicyList policy
        → ((slot : ℕ) → slot < SLOTS → IsLegal policy slot (part_at journals slot))
        → AreOfOneList policy journals seats → AreOfOneRun policy journals seats }
{}

/// The calls of such a run, made one after another from the opening on, have no other replies and
/// leave nothing else, want of memory aside: so what `run_events` answers of them has this policy
/// list and these journals.
pub fn calls_end_in_these_journals()
    ensures { CallsEndInJournals }
{
    one_run();
}
