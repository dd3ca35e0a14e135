//! The comparison of journals and receipts.
ghost use Rattle.std.specs.Prelude.{◌≡◌, ◌<◌, ◌≤◌, ℕ, None, MatchOption, OnOk, IfErr, length};
ghost use Rattle.history_merge.specs.OneList.{AreOfOneList};
ghost use Rattle.history_merge.specs.Order.{part_at, Rises};
ghost use Rattle.history_merge.specs.Mismatches.{mismatch_of, IsMismatch};
ghost use Rattle.history_merge.specs.Inner.Taking.{IsBroken, AreCounted, CountsDiffer};
ghost use Rattle.history_receipts.specs.declared.receipt_list.TheConstants.{SEATS};

use crate::merge::{Taken, next, take};
use crate::order::first_break;
use history_receipts::mismatch::{Mismatch, POLICY_LIST};
use history_receipts::receipt::Kept;
use history_receipts::receipt_list::Receipts;
use rbac_policy::commands::Entry;
use rbac_policy::objects::SLOTS;
use reactor_core::journal::Journal;

/// The mismatch of a receipt that this seat keeps.
fn name_mismatch(seat: usize, kept: &Kept) -> Mismatch
    ensures { result ≡ mismatch_of seat kept.now }
{
    match kept {
        Kept::Admin { version, .. } => Mismatch::Receipt {
            seat: seat as u64,
            slot: POLICY_LIST,
            place: *version,
        },
        Kept::Slot(receipt) => Mismatch::Receipt {
            seat: seat as u64,
            slot: receipt.slot,
            place: receipt.place,
        },
    }
}

/// The first receipt that breaks the order of its seat's list, if one does.
fn find_break(seats: &[Receipts]) -> Option<Mismatch>
    ensures { MatchOption result
        ((seat : ℕ) → seat < length seats.now → Rises 0 None (part_at seats.now seat))
        (λ mismatch. IsBroken seats.now mismatch) }
{
    for (seat, kept) in seats.iter().enumerate() {
        let kept = kept.as_slice();
        if let Some(n) = first_break(kept) {
            return Some(name_mismatch(seat, &kept[n]));
        }
    }
    None
}

/// The first list that hasn't as many entries as receipts, if there is one: the slots by number,
/// then the policy list.
fn find_count(
    taken: &Taken,
    policy: &[Entry],
    journals: &[Journal; SLOTS as usize],
) -> Option<Mismatch>
    ensures { MatchOption result (AreCounted policy.now journals.now taken.now)
        (λ mismatch. CountsDiffer policy.now journals.now taken.now mismatch) }
{
    for (slot, journal) in journals.iter().enumerate() {
        if taken.counts[slot] != journal.len() as u64 {
            return Some(Mismatch::Count { slot: slot as u64 });
        }
    }
    if taken.entries != policy.len() as u64 {
        return Some(Mismatch::Count { slot: POLICY_LIST });
    }
    None
}

/// Ok if the policy list, the journals of the slots and the receipts of the seats are the parts of
/// one list of events. It takes no memory, and a time that grows with the receipts and the seats
/// alone.
///
/// # Errors
///
/// - Receipt: what it names is not there, has the place of another, or breaks the order;
/// - Count, where all receipts are there and in order, and are not as many as the entries.
pub fn compare(
    policy: &[Entry],
    journals: &[Journal; SLOTS as usize],
    seats: &[Receipts],
) -> Result<(), Mismatch>
    requires few { length seats.now ≤ SEATS }
    ensures one { OnOk result (AreOfOneList policy.now journals.now seats.now) }
    ensures rises { OnOk result ((seat : ℕ) → seat < length seats.now
        → Rises 0 None (part_at seats.now seat)) }
    ensures err { IfErr result (IsMismatch policy.now journals.now seats.now) }
{
    if let Some(mismatch) = find_break(seats) {
        return Err(mismatch);
    }
    let mut taken = Taken::start();
    while let Some((seat, kept)) = next(seats, &taken.read) {
        // `take` requires that one receipt more can be counted. The list has one more, and a look
        // at its length tells the prover that this number fits into a `usize`.
        let _receipts = seats[seat].as_slice().len();
        if !take(&mut taken, policy, journals, seat, kept) {
            return Err(name_mismatch(seat, kept));
        }
    }
    match find_count(&taken, policy, journals) {
        Some(mismatch) => Err(mismatch),
        None => Ok(()),
    }
}
