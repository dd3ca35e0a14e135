//! The rule by which the list of a board grows, in the form that the kit's `logbook` asks for.

use logbook::{Gain, Plain, Play, Rule};
use rbac_policy::commands::Entry;

/// The rule by which the board's list grows, in the form that the kit's `logbook` asks for. A book
/// has words, which threads change in single steps, and a list of entries, which only grows: its
/// log. The log exists in the proofs alone.
pub struct GrowthRule;

impl Rule<Entry, u64> for GrowthRule {
    ghost use Rattle.std.specs.Prelude.{[]};
    ghost use base.Fml.{ftrue};
    ghost use Rattle.rbac_policy.specs.Opening.{opening_entries};
    ghost use Rattle.policy_board.specs.Inner.Book.{IsBook};

    // What holds of words and log between any two steps.
    ghost holds = { λ cells log. IsBook cells log };

    // The log of a new book.
    ghost first = { opening_entries };

    // What holds of words outside the book: nothing, since the board's one word (`SharedLength`) is
    // in it.
    ghost hinted = { λ n log. Unit {0} };

    // `shows`, `keeps` and `moves` are about clients that own something beside the log, and
    // exchange it in a step. A board has no such clients, so all three are empty.
    ghost shows = { λ log. [] };

    // What clients own.
    ghost keeps = { λ names log. ftrue };

    // How an update moves what clients see.
    ghost moves = { λ ask before after answer. Unit {0} };
}

/// What a client owns once its update was made (`Gain`): here nothing.
pub struct NoGain;

impl Gain<Entry, u64> for NoGain {
    ghost use base.Fml.{ftrue};

    ghost after = { λ names about answer. ftrue };
}

/// A step on the list that adds an entry. To `logbook`, `Play` says what a step tells its caller
/// (`then`). `Plain` says, of a step that trades nothing, what its update asks for (`ask`: this
/// entry), and the answer of that update if it has run already (`state`: None, it has yet to run).
pub struct Adding;

impl Play<Entry, u64> for Adding {
    ghost use Rattle.policy_board.specs.Inner.Book.{Adds};

    ghost then = { Adds };
}

impl Plain<Entry, Entry, u64> for Adding {
    ghost use Rattle.std.specs.Prelude.{None};

    ghost ask = { λ entry. entry };

    ghost state = { λ entry. None };
}

/// A step on the list that looks how long it is.
pub struct Looking;

impl Play<Entry, u64> for Looking {
    ghost use Rattle.policy_board.specs.Inner.Book.{Looks};

    ghost then = { Looks };
}

impl Plain<(), Entry, u64> for Looking {
    ghost use Rattle.std.specs.Prelude.{None};
    ghost use Rattle.policy_board.specs.Inner.Book.{no_entry};

    ghost ask = { λ about. no_entry };

    ghost state = { λ about. None };
}
