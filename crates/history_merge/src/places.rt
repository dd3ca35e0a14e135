//! Whether the entry of a receipt stands in its place.
ghost use Rattle.std.specs.Prelude.{◌≡◌, ◌<◌, ◌-◌, Some, option_map, slice_get};
ghost use Rattle.std.specs.Bool.{Decides};
ghost use Rattle.rbac_policy.specs.declared.objects.TheConstants.{SLOTS};
ghost use Rattle.history_receipts.specs.declared.receipt.Kept.TheVariants.{Slot};
ghost use Rattle.rbac_policy.specs.declared.sizes.TheConstants.{OPENING_ENTRIES};
ghost use Rattle.history_merge.specs.Order.{part_at};
ghost use Rattle.history_merge.specs.OneList.{Tells};
ghost use Rattle.history_merge.specs.Mismatches.{IsThere};

use crate::same::is_same_entry;
use est_text::identifier::Identifier;
use history_receipts::receipt::{Kept, SlotReceipt};
use rbac_policy::commands::Entry;
use rbac_policy::objects::SLOTS;
use rbac_policy::sizes::OPENING_ENTRIES;
use reactor_core::entry::SlotEntry;
use reactor_core::journal::Journal;

/// Whether the two are one signal, or none.
fn is_same_signal(one: &Option<Identifier>, other: &Option<Identifier>) -> bool
    ensures { Decides result (one.now ≡ other.now) }
{
    match (one, other) {
        (Some(one), Some(other)) => one.is(other),
        (None, None) => true,
        (Some(_), None) | (None, Some(_)) => false,
    }
}

/// Whether the receipt is one of this entry: session, version, word, and the signal of an offer.
fn tells(receipt: &SlotReceipt, entry: &SlotEntry) -> bool
    ensures { Decides result (Tells receipt.now entry.now) }
{
    receipt.version == entry.stamp.version
        && receipt.session == entry.stamp.session
        && receipt.word == entry.done.word()
        && is_same_signal(&receipt.signal, &entry.done.signal())
}

/// Whether this entry stands in the policy list after the opening ones, at the place of this
/// version.
fn is_entry_there(policy: &[Entry], version: u64, entry: &Entry) -> bool
    ensures { Decides result ((OPENING_ENTRIES < version)
        × (slice_get policy.now (version - 1) ≡ Some entry.now)) }
{
    if version <= OPENING_ENTRIES as u64 {
        return false;
    }
    match policy.get((version - 1) as usize) {
        None => false,
        Some(found) => is_same_entry(found, entry),
    }
}

/// The entry at this place of the slot's journal, counted from 1.
fn entry_at(journals: &[Journal; SLOTS as usize], slot: u64, place: u64) -> Option<&SlotEntry>
    requires slot { slot < SLOTS }
    requires place { 0 < place }
    ensures { option_map (λ entry. entry.now) result
        ≡ slice_get (part_at journals.now slot) (place - 1) }
{
    journals[slot as usize].entries().get((place - 1) as usize)
}

/// Whether the entry of the receipt of a slot command stands in its place.
fn is_command_there(
    policy: &[Entry],
    journals: &[Journal; SLOTS as usize],
    receipt: &SlotReceipt,
) -> bool
    ensures { Decides result (IsThere policy.now journals.now (Slot receipt.now)) }
{
    if receipt.slot >= SLOTS as u64 || receipt.place == 0 {
        return false;
    }
    if receipt.version < OPENING_ENTRIES as u64 || receipt.version > policy.len() as u64 {
        return false;
    }
    match entry_at(journals, receipt.slot, receipt.place) {
        None => false,
        Some(found) => tells(receipt, found),
    }
}

/// Whether the entry of the receipt stands in its place.
pub(crate) fn is_there(policy: &[Entry], journals: &[Journal; SLOTS as usize], kept: &Kept) -> bool
    ensures { Decides result (IsThere policy.now journals.now kept.now) }
{
    match kept {
        Kept::Admin { version, entry } => is_entry_there(policy, *version, entry),
        Kept::Slot(receipt) => is_command_there(policy, journals, receipt),
    }
}
