//! The list of the accepted policy commands.
ghost use Rattle.std.specs.Prelude.{◌≡◌, ◌++◌, ◌∷◌, [], IfOk, MatchResult, length, option_map};
ghost use Rattle.std.specs.Prelude.{slice_get};
ghost use Rattle.rbac_policy.specs.Opening.{opening_entries};

use crate::commands::Entry;
use crate::opening::opening_entries;
use std::alloc::{AllocError, Global};
use std::marker::Model;

/// The entries of the accepted policy commands, the oldest first. A contract sees the list of the
/// entries.
#[derive(Drop)]
pub struct PolicyJournal {
    entries: Vec<Entry>,
}

impl Model for PolicyJournal {
    ghost use Rattle.std.specs.Prelude.{List};
    ghost use Rattle.rbac_policy.specs.declared.commands.Entry.{Entry};

    ghost Value = { List Entry };

    ghost view = { λ j. j.entries.items };
}

impl PolicyJournal {
    /// An empty journal. It takes no memory.
    pub fn new(alloc: Global) -> PolicyJournal
        ensures { result ≡ [] }
    {
        PolicyJournal {
            entries: Vec::new(alloc),
        }
    }

    /// The journal of the opening entries.
    pub fn opening(alloc: Global) -> Result<PolicyJournal, AllocError>
        ensures { IfOk result (λ journal. journal ≡ opening_entries) }
    {
        let entries = Vec::from_array(alloc, opening_entries())?;
        Ok(PolicyJournal { entries })
    }

    /// How many entries it has.
    pub fn len(&self) -> usize
        ensures { result ≡ length self.now }
    {
        self.entries.len()
    }

    /// The entry at this place, counted from 0.
    pub fn get(&self, place: usize) -> Option<&Entry>
        ensures { option_map (λ entry. entry.now) result ≡ slice_get self.now place }
    {
        self.entries.as_slice().get(place)
    }

    /// Its entries, the oldest first.
    pub fn entries(&self) -> &[Entry]
        ensures { result.now ≡ self.now }
    {
        self.entries.as_slice()
    }

    /// Adds the entry at its end, or stays as it is where memory is refused.
    pub fn push(&mut self, entry: Entry) -> Result<(), AllocError>
        ensures { MatchResult result (λ _. self.new ≡ self.old ++ entry ∷ [])
            (λ _. self.new ≡ self.old) }
    {
        self.entries.push(entry)?;
        Ok(())
    }
}
