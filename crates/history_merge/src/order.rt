//! The order of receipts.
ghost use Rattle.std.specs.Prelude.{◌≡◌, ◌∷◌, [], None, MatchOption};
ghost use Rattle.std.specs.Bool.{Decides};
ghost use Rattle.history_merge.specs.Order.{rank_of, Precedes, IsOver, Rises};
ghost use Rattle.history_merge.specs.Mismatches.{Breaks};

use history_receipts::receipt::Kept;

/// Where a receipt stands in the order of all: by version, first the policy entry that made it, and
/// then the slot commands by number, and those of one number by slot.
#[derive(Clone, Copy)]
pub enum Rank {
    /// A policy entry's.
    Entry {
        version: u64,
    },
    /// A slot command's.
    Command {
        version: u64,
        number: u64,
        slot: u64,
    },
}

/// Where the receipt stands.
pub(crate) fn rank_of(kept: &Kept) -> Rank
    ensures { result ≡ rank_of kept.now }
{
    match kept {
        Kept::Admin { version, .. } => Rank::Entry { version: *version },
        Kept::Slot(r) => Rank::Command {
            version: r.version,
            number: r.number,
            slot: r.slot,
        },
    }
}

/// Whether one stands before the other.
pub(crate) fn precedes(one: Rank, other: Rank) -> bool
    ensures { Decides result (Precedes one other) }
{
    match (one, other) {
        (Rank::Entry { version: v }, Rank::Entry { version: w }) => v < w,
        (Rank::Entry { version: v }, Rank::Command { version: w, .. }) => v <= w,
        (Rank::Command { version: v, .. }, Rank::Entry { version: w }) => v < w,
        (
            Rank::Command {
                version: v,
                number: n,
                slot: s,
            },
            Rank::Command {
                version: w,
                number: m,
                slot: t,
            },
        ) => {
            if v != w {
                v < w
            } else if n != m {
                n < m
            } else {
                s < t
            }
        }
    }
}

/// Whether the number is greater than the one before, if there is one.
pub(crate) fn is_over(before: Option<u64>, number: u64) -> bool
    ensures { Decides result (IsOver before number) }
{
    match before {
        None => true,
        Some(before) => before < number,
    }
}

/// Whether a receipt may come after this version and number in a seat's list.
fn rises(version: u64, number: Option<u64>, kept: &Kept) -> bool
    ensures { Decides result (Rises version number (kept.now ∷ [])) }
{
    match kept {
        Kept::Admin { version: v, .. } => version < *v,
        Kept::Slot(r) => version <= r.version && is_over(number, r.number),
    }
}

/// The first receipt that breaks the order of its seat's list, if one does.
pub(crate) fn first_break(kept: &[Kept]) -> Option<usize>
    ensures { MatchOption result (Rises 0 None kept.now) (λ n. Breaks kept.now n) }
{
    let mut version = 0;
    let mut number: Option<u64> = None;
    for (n, next) in kept.iter().enumerate() {
        if !rises(version, number, next) {
            return Some(n);
        }
        match next {
            Kept::Admin { version: v, .. } => version = *v,
            Kept::Slot(r) => {
                version = r.version;
                number = Some(r.number);
            }
        }
    }
    None
}
