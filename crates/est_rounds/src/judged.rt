//! Which signals of an interface the rounds judge.

ghost use Rattle.std.specs.Prelude.{◌≤◌};
ghost use Rattle.est_kernel.specs.declared.interface.TheConstants.{MOST_SIGNALS};

/// The interface signals that the rounds judge.
#[derive(Clone, Copy)]
pub struct JudgedSignals {
    /// How many places the interface has.
    pub places: u8,
    /// A bit for each signal that is judged.
    pub signals: u64,
    ghost in_range: { places ≤ MOST_SIGNALS },
}
