//! Runs of pauses.

ghost use Rattle.std.specs.Prelude.{◌≤◌, ◌+◌};
ghost use Rattle.est_kernel.specs.declared.limits.TheConstants.{MOST_STATEMENTS};

/// A run of pauses: `count` numbers from `first` on.
#[derive(Clone, Copy)]
pub struct PauseRun {
    /// The first number.
    pub first: u16,
    /// How many there are.
    pub count: u16,
    ghost in_range: { first + count ≤ MOST_STATEMENTS },
}
