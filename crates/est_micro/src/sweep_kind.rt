//! Whether a sweep is the first one of an instant. A function that sweeps is compiled for both. In
//! the first one each of its cells is open, so a cell is told what is judged without a look at what
//! it knows.

ghost use Rattle.std.specs.Prelude.{◌≡◌, Bool, true, false};

/// Whether a sweep is the first one of an instant.
pub trait SweepKind {
    ghost first: { Bool };

    /// Whether it is.
    fn is_first() -> bool
        ensures { result ≡ first };
}

/// The first sweep of an instant, over open cells.
pub struct FirstSweep;

impl SweepKind for FirstSweep {
    ghost first = { true };

    #[inline(always)]
    fn is_first() -> bool {
        true
    }
}

/// A later sweep: what is decided stays as it is.
pub struct LaterSweep;

impl SweepKind for LaterSweep {
    ghost first = { false };

    #[inline(always)]
    fn is_first() -> bool {
        false
    }
}
