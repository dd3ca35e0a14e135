//! The list of what was accepted in one slot.
ghost use Rattle.std.specs.Prelude.{◌≡◌, ◌++◌, ◌∷◌, [], MatchResult, length, IsTrue, ◌↔◌};
ghost use Rattle.reactor_core.specs.Answers.{HasRoom, IsFull, RefusesEntry};

use crate::entry::SlotEntry;
use crate::refusal::ReactorRefusal;
use std::alloc::Global;
use std::marker::Model;

/// The most entries that a journal may have.
pub const JOURNAL_ENTRIES: usize = 65_536;

/// The accepted commands of one slot, oldest first. A contract sees the list of the entries.
#[derive(Drop)]
pub struct Journal {
    entries: Vec<SlotEntry>,
}

impl Model for Journal {
    ghost use Rattle.std.specs.Prelude.{List};
    ghost use Rattle.std.specs.Coded.{codes};
    ghost use Rattle.reactor_core.specs.contracts.entry.SlotEntry as entry;
    ghost use Rattle.reactor_core.specs.declared.entry.SlotEntry.{SlotEntry};

    ghost Value = { List SlotEntry };

    ghost coded = { Prim.hlevel (codes, entry.the_row.coded) };

    ghost view = { λ j. j.entries.items };
}

impl Journal {
    /// An empty journal. It takes no memory.
    pub fn new(alloc: Global) -> Journal
        ensures { result ≡ [] }
    {
        Journal {
            entries: Vec::new(alloc),
        }
    }

    /// The journal of these entries, oldest first, whoever wrote them down. It takes no memory.
    pub fn from_entries(entries: Vec<SlotEntry>) -> Journal
        ensures { result ≡ entries.items }
    {
        Journal { entries }
    }

    /// Its entries, oldest first.
    pub fn entries(&self) -> &[SlotEntry]
        ensures { result.now ≡ self.now }
    {
        self.entries.as_slice()
    }

    /// How many entries it has.
    pub fn len(&self) -> usize
        ensures { result ≡ length self.now }
    {
        self.entries.len()
    }

    /// Whether it has as many entries as it may have.
    pub fn is_full(&self) -> bool
        ensures { IsTrue result ↔ IsFull self.now }
    {
        self.entries.len() >= JOURNAL_ENTRIES
    }

    /// Adds an entry at its end, or refuses it as JournalFull or Memory and stays as it is.
    pub(crate) fn append(&mut self, entry: SlotEntry) -> Result<(), ReactorRefusal>
        ensures { MatchResult result
            (λ _. HasRoom self.old × (self.new ≡ self.old ++ entry ∷ []))
            (λ e. RefusesEntry self.old e × (self.new ≡ self.old)) }
    {
        if self.entries.len() >= JOURNAL_ENTRIES {
            return Err(ReactorRefusal::JournalFull);
        }
        if self.entries.reserve(1).is_err() {
            return Err(ReactorRefusal::Memory);
        }
        self.entries.push_reserved(entry);
        Ok(())
    }
}
