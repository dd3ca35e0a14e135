//! Why an input is not offered, or an instant is not begun.
ghost use Rattle.std.specs.Prelude.{◌≡◌};
ghost use Rattle.est_relations.specs.Refusals.{code_of, name_of};

use est_text::identifier::Identifier;

/// Why an input is not offered, or an instant is not begun. Relations are numbered from 1, in the
/// order of the text.
#[derive(Clone, Copy, PartialEq, Eq)]
pub enum PendingRefusal {
    /// No signal of the interface has this name.
    UnknownSignal,
    /// The signal is an output.
    NotInput,
    /// The signal is pending already.
    AlreadyOffered,
    /// The first exclusion that would not hold: its number, and its first pending member, in the
    /// order in which they are written.
    Excluded { relation: u8, signal: Identifier },
    /// The first relation that does not hold, which is an implication: its number, and the signal
    /// that is missing.
    Implied { relation: u8, missing: Identifier },
}

impl PendingRefusal {
    /// Its number and its name.
    pub fn label(&self) -> (u8, &'static str)
        ensures code { result.0 ≡ code_of self.now }
        ensures name { result.1.now ≡ name_of self.now }
    {
        match self {
            PendingRefusal::Excluded { .. } => (40, "Excluded"),
            PendingRefusal::Implied { .. } => (41, "Implied"),
            PendingRefusal::UnknownSignal => (63, "UnknownSignal"),
            PendingRefusal::NotInput => (64, "NotInput"),
            PendingRefusal::AlreadyOffered => (65, "AlreadyOffered"),
        }
    }
}
