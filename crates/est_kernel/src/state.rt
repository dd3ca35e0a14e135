//! Where a running kernel stands, and what one reaction takes and gives.

use crate::pause_set::PauseSet;

/// Where a kernel stands between two instants.
#[derive(Clone, Copy, PartialEq, Eq, Hash)]
pub enum State {
    /// It has not begun.
    Fresh,
    /// It has ended.
    Done,
    /// It has paused at these pauses. There is at least one.
    Paused(PauseSet),
}

/// The inputs that are present in an instant.
#[derive(Clone, Copy, PartialEq, Eq)]
pub struct Inputs {
    /// A bit for each signal of the interface, in declaration order.
    pub signals: u64,
}

/// What a reaction gives.
#[derive(Clone, Copy, PartialEq, Eq)]
pub struct Outcome {
    /// The outputs that are emitted: a bit for each signal of the interface, in declaration order.
    pub outputs: u64,
    /// Where the kernel stands afterwards.
    pub next: State,
}

/// Why there is no reaction.
#[derive(Clone, Copy, PartialEq, Eq)]
pub struct Stuck {
    /// The outputs and inputoutputs whose status is not decided: a bit for each signal of the
    /// interface, in declaration order.
    pub undecided: u64,
}
