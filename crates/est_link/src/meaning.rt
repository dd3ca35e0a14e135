//! What a signal means at another place.
ghost use Rattle.std.specs.Prelude.{◌≡◌};
ghost use Rattle.est_kernel.specs.Term.{Name};
ghost use Rattle.est_link.specs.Inner.Meant.{again, itself};
ghost use Rattle.est_link.specs.Linking.{Meant};
ghost use Rattle.est_link.specs.Inner.OpenBodies.{meaning_of};
ghost use Rattle.est_reduce.specs.Views.{bound_name as name_view, bound_query as query_view};

use est_reduce::body::{BoundSignal, BoundTest};
use std::alloc::AllocError;

/// What a signal means: a signal, or `tick`.
#[derive(Clone, Copy)]
pub struct Meaning {
    /// What is emitted in its place, and what a test of it asks if it is no `tick`. What means
    /// `tick` is never emitted.
    pub signal: BoundSignal,
    /// Whether a test of it asks `tick`.
    pub is_tick: bool,
}

impl Meaning {
    /// The meaning of `tick`.
    pub const TICK: Meaning = Meaning {
        signal: BoundSignal::Outer(0),
        is_tick: true,
    };

    /// The meaning of what means this signal.
    pub fn of(signal: BoundSignal) -> Meaning
        ensures { meaning_of result ≡ itself (name_view signal) }
    {
        Meaning {
            signal,
            is_tick: false,
        }
    }

    /// What a test asks.
    pub fn test(self) -> BoundTest
        ensures { query_view result ≡ (meaning_of self).asked }
    {
        if self.is_tick {
            BoundTest::Tick
        } else {
            BoundTest::Of(self.signal)
        }
    }

    /// What this means where its signal means `of_signal`: that, or `tick` if either is `tick`.
    #[tactic(auto, using(crate::proofs::Meanings::meant_further))]
    pub fn further(self, of_signal: Meaning) -> Meaning
        ensures { (g : Name → Meant) → meaning_of of_signal ≡ g (name_view self.signal)
            → meaning_of result ≡ again g (meaning_of self) }
    {
        Meaning {
            signal: of_signal.signal,
            is_tick: self.is_tick || of_signal.is_tick,
        }
    }
}

/// What says of each signal of a body what it means at another place: the `Binding` of a run, or
/// the `SignalMeanings` of a body.
pub trait Meanings {
    ghost use Rattle.std.specs.Prelude.{◌≡◌, ◌+◌, ℕ, IfOk};
    ghost use Rattle.est_kernel.specs.Term.{Name, inner};
    ghost use Rattle.est_link.specs.Inner.Meant.{itself};
    ghost use Rattle.est_link.specs.Inner.OpenBodies.{meaning_of};
    ghost use Rattle.est_link.specs.Linking.{Meant};
    ghost use Rattle.est_reduce.specs.Views.{bound_name as name_view};

    /// What each signal means.
    ghost means: { Self → Name → Meant };

    /// What a signal of the body means.
    ///
    /// # Errors
    ///
    /// `AllocError` where a number passes 32 bits.
    fn meaning(&self, signal: BoundSignal) -> Result<Meaning, AllocError>
        ensures { IfOk result (λ m. meaning_of m ≡ means self.now (name_view signal)) };

    /// How many local signals lie around the body there. Their numbers come before those of its
    /// own.
    fn locals(&self) -> u32
        ensures { (k : ℕ) → means self.now (inner k) ≡ itself (inner (result + k)) };
}
