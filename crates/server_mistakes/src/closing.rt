//! What is left of a server that is closed.
ghost use Rattle.std.specs.Prelude.{◌≤◌, vec_len, OnOk, IfOk, IfErr};
ghost use Rattle.rbac_admin.specs.PolicyLists.{IsPolicyList};
ghost use Rattle.history_receipts.specs.declared.receipt_list.TheConstants.{SEATS};
ghost use Rattle.history_laws.specs.CallsInTurn.{AreOfOneRun};
ghost use Rattle.history_merge.specs.OneList.{AreOfOneList};
ghost use Rattle.slot_table.specs.Closing.{AllRise, AreLegal, IsJustified, kept_of};

use history_receipts::mismatch::Mismatch;
use policy_board::board::Board;
use policy_board::board_name::BoardName;
use policy_board::seat::Seat;
use slot_table::closing::Histories;
use slot_table::table::SlotTable;
use std::alloc::Global;
use std::sync::Wait;

/// Closes a server: gives its journals, if each of their entries has exactly one receipt, kept by
/// one of these seats.
///
/// # Errors
///
/// Where journals and receipts differ.
pub fn close<B: BoardName, R: Wait>(
    rt: &R,
    alloc: Global,
    table: SlotTable<B>,
    board: Board<B>,
    seats: Vec<Seat<B>>,
) -> Result<Histories, Mismatch>
    requires few { vec_len seats ≤ SEATS }
    ensures one { IfOk result (λ h. AreOfOneList h.policy h.slots (kept_of seats.items)) }
    ensures run { IfOk result (λ h. AreOfOneRun h.policy h.slots (kept_of seats.items)) }
    ensures rises { OnOk result (AllRise (kept_of seats.items)) }
    ensures list { IfOk result (λ h. IsPolicyList h.policy) }
    ensures legal { IfOk result (λ h. AreLegal h.policy h.slots) }
    ensures err { IfErr result (λ mismatch. IsJustified (kept_of seats.items) mismatch) }
{
    table.close(rt, alloc, board, seats)
}
