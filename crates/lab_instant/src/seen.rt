//! What is seen inside an instant.

use est_kernel::state::{Outcome, Stuck};
use est_meaning::status::Status;

/// A statement in one of its incarnations.
#[derive(Clone, Copy)]
pub struct Incarnation {
    /// The statement's number: statements are counted from 0, each before its parts, in the order
    /// of the text.
    pub statement: usize,
    /// 0 where the statement goes on or is begun without a restart, and i where it is begun by the
    /// restart of the i-th loop around it, counted from the innermost outwards.
    pub number: usize,
}

/// A local signal in one of its incarnations.
#[derive(Clone, Copy)]
pub struct Local {
    /// The statement that declares it.
    pub declared: Incarnation,
    /// What is known of it.
    pub status: Status,
}

/// What took part in an instant, each list in the order of the cells.
#[derive(Drop)]
pub struct Seen {
    /// The statements that began.
    pub began: Vec<Incarnation>,
    /// The statements that went on from an earlier instant.
    pub went_on: Vec<Incarnation>,
    /// The local signals.
    pub locals: Vec<Local>,
}

/// An instant, seen from inside.
#[derive(Drop)]
pub enum Instant {
    /// There is a reaction.
    Reaction {
        /// The outputs, and where control rests afterwards.
        outcome: Outcome,
        /// What took part in it.
        seen: Seen,
    },
    /// There is none.
    Stuck {
        /// The signals of the interface that are not decided.
        stuck: Stuck,
        /// What surely takes part, as far as it is decided. The local signals of unknown status
        /// are those that are not decided.
        seen: Seen,
    },
}
