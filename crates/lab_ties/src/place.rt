//! Where the statements of a kernel and their cells stand.

use lab_instant::seen::Incarnation;

/// Where a statement stands, and where its cells begin.
#[derive(Clone, Copy)]
pub struct IncarnationPlace {
    /// The statement in its incarnation.
    pub at: Incarnation,
    /// The place of its first cell.
    pub cell: usize,
    /// Whether this is the incarnation that can go on.
    pub main: bool,
    /// How many traps lie around it.
    pub traps: usize,
}

/// What follows a statement.
#[derive(Clone, Copy)]
pub struct NextPlace {
    /// The number of the next statement.
    pub statement: usize,
    /// The place of the next cell.
    pub cell: usize,
}

/// What follows two parts, and where the second begins.
#[derive(Clone, Copy)]
pub struct TwoPlaces {
    /// The place of the first cell of the second.
    pub second: usize,
    /// What follows.
    pub after: NextPlace,
}
