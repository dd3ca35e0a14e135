//! The end of a server: its locks are opened, and its journals are compared with the receipts.
ghost use Rattle.std.specs.Prelude.{◌≡◌, ◌<◌, ◌≤◌, [], None, take, replicate, vec_len, OnOk, IfOk};
ghost use Rattle.std.specs.Prelude.{IfErr};
ghost use Rattle.rbac_admin.specs.PolicyLists.{IsPolicyList};
ghost use Rattle.rbac_policy.specs.declared.objects.TheConstants.{SLOTS};
ghost use Rattle.history_receipts.specs.declared.receipt_list.TheConstants.{SEATS};
ghost use Rattle.history_merge.specs.OneList.{AreOfOneList};
ghost use Rattle.history_merge.specs.Mismatches.{IsMismatch};
ghost use Rattle.slot_table.specs.Closing.{AllRise, IsReadersFault, kept_of};
ghost use Rattle.slot_table.specs.Inner.Ending.{Ends};

use crate::slot::LockedSlot;
use history_merge::compare::compare;
use history_receipts::mismatch::Mismatch;
use history_receipts::receipt_list::{Receipts, SEATS};
use policy_board::board::{Board, ClosedBoard};
use policy_board::board_name::BoardName;
use policy_board::seat::Seat;
use rbac_policy::journal::PolicyJournal;
use rbac_policy::objects::SLOTS;
use reactor_core::journal::Journal;
use std::alloc::Global;
use std::array;
use std::marker::Model;
use std::sync::{Mutex, Wait};

/// The journals of a server that is closed: of the policy, and of the slots by number.
#[derive(Drop)]
pub struct Histories {
    pub policy: PolicyJournal,
    pub slots: [Journal; SLOTS as usize],
}

/// The board of a server that is closing. The fault is that of a reader that was handed back to it
/// and had seen more than the policy list has, if there was one.
pub(crate) struct Closing<B: BoardName> {
    board: ClosedBoard<B>,
    fault: Option<Mismatch>,
}

impl<B: BoardName> Model for Closing<B> {
    ghost use Rattle.std.specs.Prelude.{IfSome};
    ghost use Rattle.slot_table.specs.Closing.{ClosingState, IsReadersFault};

    ghost Value = { ClosingState };

    ghost view = { λ c. record { policy = c.board.policy; fault = c.fault } };

    ghost invariant = { λ c. IfSome c.fault (λ mismatch. IsReadersFault c.board.policy mismatch) };
}

impl<B: BoardName> Closing<B> {
    /// Closes the board, which has no reader back yet.
    pub(crate) fn begin(board: Board<B>) -> Closing<B>
        ensures { result.fault ≡ None }
    {
        Closing {
            board: board.close(),
            fault: None,
        }
    }

    /// Opens the lock of a slot, hands its reader back, and gives its journal.
    pub(crate) fn end<const NUMBER: u8>(&mut self, slot: Mutex<LockedSlot<B, NUMBER>>) -> Journal
        requires { NUMBER < SLOTS }
        ensures { Ends NUMBER self.old result self.new }
    {
        let (journal, handed) = slot.into_inner().end(&mut self.board);
        if let Err(mismatch) = handed {
            self.fault = Some(mismatch);
        }
        journal
    }

    /// The policy journal, or the fault. It waits for the readers, and ends the writer, in either
    /// case.
    pub(crate) fn journal<R: Wait>(self, rt: &R) -> Result<PolicyJournal, Mismatch>
        ensures list { IsPolicyList self.policy }
        ensures journal { IfOk result (λ journal. (journal ≡ self.policy) × (self.fault ≡ None)) }
        ensures err { IfErr result (λ mismatch. IsReadersFault self.policy mismatch) }
    {
        let Closing { board, fault } = self;
        let policy = board.journal(rt);
        match fault {
            None => Ok(policy),
            Some(mismatch) => Err(mismatch),
        }
    }
}

/// Empty lists.
fn no_receipts(alloc: Global) -> [Receipts; SEATS]
    ensures { result ≡ replicate SEATS [] }
{
    array::from_fn(|_| Receipts::from_vec(Vec::new(alloc)))
}

/// The receipts of the seats, in order, and then empty lists.
fn receipts_of<B: BoardName>(alloc: Global, seats: Vec<Seat<B>>) -> [Receipts; SEATS]
    requires { vec_len seats ≤ SEATS }
    ensures { take (vec_len seats) result ≡ kept_of seats.items }
{
    let mut seats = seats;
    let mut receipts = no_receipts(alloc);
    while let Some(seat) = seats.pop() {
        receipts[seats.len()] = seat.into_receipts();
    }
    receipts
}

/// The histories, if the seats keep exactly one receipt for each of their entries. It takes no
/// memory.
pub(crate) fn compare_histories<B: BoardName>(
    alloc: Global,
    histories: Histories,
    seats: Vec<Seat<B>>,
) -> Result<Histories, Mismatch>
    requires { vec_len seats ≤ SEATS }
    ensures same { IfOk result (λ h. h ≡ histories) }
    ensures one { OnOk result (AreOfOneList histories.policy histories.slots
        (kept_of seats.items)) }
    ensures rises { OnOk result (AllRise (kept_of seats.items)) }
    ensures err { IfErr result (λ mismatch. IsMismatch histories.policy histories.slots
        (kept_of seats.items) mismatch) }
{
    let count = seats.len();
    let receipts = receipts_of(alloc, seats);
    compare(
        histories.policy.entries(),
        &histories.slots,
        &receipts[..count],
    )?;
    Ok(histories)
}
