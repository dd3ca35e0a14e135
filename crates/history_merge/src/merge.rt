//! The merge of the seats' lists: of the receipts that come next, one of each seat, the first in
//! order is taken, and so on.
ghost use Rattle.std.specs.Prelude.{◌≡◌, ◌<◌, ◌≤◌, ◌+◌, ◌^◌, ℕ, MatchOption, length, option_map};
ghost use Rattle.std.specs.Prelude.{slice_index};
ghost use Rattle.std.specs.Bool.{Decides, MatchBool};
ghost use Rattle.rbac_policy.specs.declared.objects.TheConstants.{SLOTS};
ghost use Rattle.history_receipts.specs.declared.receipt_list.TheConstants.{SEATS};
ghost use Rattle.history_merge.specs.Inner.Taking.{none_taken, Lesser, LeastOf, taken_entry};
ghost use Rattle.history_merge.specs.Inner.Taking.{taken_command, IsInLine, HasRoom, Takes};
ghost use Rattle.history_merge.specs.Inner.Taking.{Refuses, head, AreAllRead, IsLeast};
ghost use Rattle.history_merge.specs.Order.{rank_of};

use crate::order::{Rank, is_over, precedes, rank_of};
use crate::places::is_there;
use history_receipts::receipt::{Kept, SlotReceipt};
use history_receipts::receipt_list::{Receipts, SEATS};
use rbac_policy::commands::Entry;
use rbac_policy::objects::SLOTS;
use rbac_policy::sizes::OPENING_ENTRIES;
use reactor_core::journal::Journal;

/// Which receipts were taken so far.
#[derive(Clone, Copy)]
pub(crate) struct Taken {
    /// Where the one that was taken last stands; at the start, the last of the opening entries.
    pub(crate) last: Rank,
    /// How many policy entries they tell of, and the opening ones.
    pub(crate) entries: u64,
    /// The place of the last one of each slot.
    pub(crate) places: [u64; SLOTS as usize],
    /// The number of the last one of each slot.
    pub(crate) numbers: [Option<u64>; SLOTS as usize],
    /// How many of each slot were taken.
    pub(crate) counts: [u64; SLOTS as usize],
    /// How many of each seat were taken.
    pub(crate) read: [usize; SEATS],
}

impl Taken {
    /// None is taken yet.
    pub(crate) fn start() -> Taken
        ensures { result ≡ none_taken }
    {
        Taken {
            last: Rank::Entry {
                version: OPENING_ENTRIES as u64,
            },
            entries: OPENING_ENTRIES as u64,
            places: [0; SLOTS as usize],
            numbers: [None; SLOTS as usize],
            counts: [0; SLOTS as usize],
            read: [0; SEATS],
        }
    }
}

/// Whether place and number are greater than the last ones of the slot.
fn is_in_line(taken: &Taken, receipt: &SlotReceipt) -> bool
    requires { receipt.now.slot < SLOTS }
    ensures { Decides result (IsInLine taken.now receipt.now) }
{
    let slot = receipt.slot as usize;
    receipt.place > taken.places[slot] && is_over(taken.numbers[slot], receipt.number)
}

fn take_entry(taken: &mut Taken, seat: usize, version: u64)
    requires seat { seat < SEATS }
    requires more { slice_index taken.old.read seat + 1 < 2 ^ 64 }
    requires room { taken.old.entries < version }
    ensures { taken.new ≡ taken_entry taken.old seat version }
{
    taken.last = Rank::Entry { version };
    taken.entries += 1;
    taken.read[seat] += 1;
}

fn take_command(taken: &mut Taken, seat: usize, receipt: &SlotReceipt)
    requires seat { seat < SEATS }
    requires slot { receipt.now.slot < SLOTS }
    requires more { slice_index taken.old.read seat + 1 < 2 ^ 64 }
    requires room { slice_index taken.old.counts receipt.now.slot < receipt.now.place }
    ensures { taken.new ≡ taken_command taken.old seat receipt.now }
{
    let slot = receipt.slot as usize;
    taken.last = Rank::Command {
        version: receipt.version,
        number: receipt.number,
        slot: receipt.slot,
    };
    taken.places[slot] = receipt.place;
    taken.numbers[slot] = Some(receipt.number);
    taken.counts[slot] += 1;
    taken.read[seat] += 1;
}

/// Takes the receipt, if its entry is there and it comes in order.
pub(crate) fn take(
    taken: &mut Taken,
    policy: &[Entry],
    journals: &[Journal; SLOTS as usize],
    seat: usize,
    kept: &Kept,
) -> bool
    requires seat { seat < SEATS }
    requires more { slice_index taken.old.read seat + 1 < 2 ^ 64 }
    requires low { (k : ℕ) → slice_index taken.old.counts k ≤ slice_index taken.old.places k }
    requires room { HasRoom taken.old }
    ensures { MatchBool result
        (Takes policy.now journals.now seat kept.now taken.old taken.new)
        (Refuses policy.now journals.now kept.now taken.old) }
{
    if !is_there(policy, journals, kept) {
        return false;
    }
    if !precedes(taken.last, rank_of(kept)) {
        return false;
    }
    match kept {
        Kept::Admin { version, .. } => {
            take_entry(taken, seat, *version);
            true
        }
        Kept::Slot(receipt) => {
            if !is_in_line(taken, receipt) {
                return false;
            }
            take_command(taken, seat, receipt);
            true
        }
    }
}

/// The earlier of two: what was found so far, and the next receipt of this seat.
fn lesser(least: Option<(usize, Rank)>, seat: usize, next: Option<Rank>) -> Option<(usize, Rank)>
    ensures { Lesser least seat next result }
{
    let Some(rank) = next else {
        return least;
    };
    let Some((_, other)) = least else {
        return Some((seat, rank));
    };
    if precedes(rank, other) {
        return Some((seat, rank));
    }
    least
}

/// The receipt of a seat that comes next.
fn head<'a>(seats: &'a [Receipts], read: &[usize; SEATS], seat: usize) -> Option<&'a Kept>
    requires inside { seat < length seats.now }
    requires few { seat < SEATS }
    ensures { option_map (λ kept. kept.now) result ≡ head seats.now read.now seat }
{
    seats[seat].as_slice().get(read[seat])
}

/// Where the next receipt of a seat stands in the order of all.
fn rank_head(seats: &[Receipts], read: &[usize; SEATS], seat: usize) -> Option<Rank>
    requires inside { seat < length seats.now }
    requires few { seat < SEATS }
    ensures { result ≡ option_map rank_of (head seats.now read.now seat) }
{
    match head(seats, read, seat) {
        None => None,
        Some(kept) => Some(rank_of(kept)),
    }
}

/// The seat whose next receipt stands before those of the others, and where that stands.
fn find_least(seats: &[Receipts], read: &[usize; SEATS]) -> Option<(usize, Rank)>
    requires { length seats.now ≤ SEATS }
    ensures { LeastOf seats.now read.now (length seats.now) result }
{
    let mut least: Option<(usize, Rank)> = None;
    for seat in 0..seats.len() {
        least = lesser(least, seat, rank_head(seats, read, seat));
    }
    least
}

/// The receipt that comes next, and the seat that keeps it.
pub(crate) fn next<'a>(seats: &'a [Receipts], read: &[usize; SEATS]) -> Option<(usize, &'a Kept)>
    requires { length seats.now ≤ SEATS }
    ensures { MatchOption result
        (AreAllRead seats.now read.now (length seats.now))
        (λ found. IsLeast seats.now read.now (length seats.now) found.0 found.1.now) }
{
    let (seat, _) = find_least(seats, read)?;
    let kept = head(seats, read, seat)?;
    Some((seat, kept))
}
