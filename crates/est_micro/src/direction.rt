//! The two ways in which a sweep goes over a statement.

/// Which side of a `||` a sweep visits first.
#[derive(Clone, Copy)]
pub enum Direction {
    /// The first.
    Forwards,
    /// The second.
    Backwards,
}

impl Direction {
    /// The other way.
    pub fn turned(self) -> Direction {
        match self {
            Direction::Forwards => Direction::Backwards,
            Direction::Backwards => Direction::Forwards,
        }
    }
}
