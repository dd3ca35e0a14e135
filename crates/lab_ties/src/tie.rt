//! What has to do with a signal that is not decided.

use lab_instant::seen::Incarnation;

/// A signal that has a cell.
#[derive(Clone, Copy)]
pub enum OpenSignal {
    /// That at this place of the interface.
    Interface(usize),
    /// The one that this statement declares.
    Local(Incarnation),
}

/// What a statement has to do with a signal that is not decided.
#[derive(Clone, Copy)]
pub enum TieKind {
    /// Its test asks for the signal, and is not answered.
    Waits,
    /// It emits the signal, and it is not decided whether it is begun.
    MayEmit,
}

/// A statement that has to do with a signal that is not decided.
#[derive(Clone, Copy)]
pub struct Tie {
    /// The signal.
    pub signal: OpenSignal,
    /// The statement.
    pub at: Incarnation,
    /// What it has to do with it.
    pub kind: TieKind,
}
