//! Receipts: each tells which entry a call added.
use est_text::identifier::Identifier;
use rbac_policy::commands::Entry;
use reactor_core::entry::SlotWord;

/// The receipt of a slot command that added an entry. Of a load, the main module's name and the
/// text are left out.
#[derive(Clone, Copy)]
pub struct SlotReceipt {
    /// The number of the slot.
    pub slot: u64,
    /// The place of the entry in the journal of the slot, counted from 1.
    pub place: u64,
    /// The policy version at which the command was judged.
    pub version: u64,
    /// The number of the session that gave the command.
    pub session: u16,
    /// The number of the command among the server's slot commands that added an entry.
    pub number: u64,
    /// The word of the command.
    pub word: SlotWord,
    /// The signal that it offered.
    pub signal: Option<Identifier>,
}

/// The receipt of a call that added an entry.
#[derive(Drop)]
pub enum Kept {
    /// Of a policy command: its entry, and the policy version with it, which is its place in the
    /// policy list, counted from 1.
    Admin { version: u64, entry: Entry },
    /// Of a slot command.
    Slot(SlotReceipt),
}
