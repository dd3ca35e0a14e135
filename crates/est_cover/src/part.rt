//! Parts of the inputs of an instant.
ghost use Rattle.std.specs.Prelude.{◌≡◌, ◌<◌, MatchOption, ℕ, true, false};
ghost use Rattle.est_kernel.specs.Bits.{bits};
ghost use Rattle.est_cover.specs.Inner.Parts.{IsNarrower};

use est_kernel::mask;

/// A part of the inputs: some signals were asked, and it is known whether these are offered.
#[derive(Clone, Copy)]
pub struct Part {
    /// The signals that were not asked.
    pub unasked: u64,
    /// Those that are offered.
    pub inputs: u64,
}

/// The part of those sets of inputs that have the signal.
pub fn with(unasked: u64, inputs: u64, place: u8) -> Part
    requires { bits unasked place ≡ true }
    ensures narrower { IsNarrower place true (record { unasked = unasked; inputs = inputs })
        result }
    ensures fewer { result.unasked < unasked }
{
    Part {
        unasked: mask::without(unasked, place),
        inputs: mask::with(inputs, place),
    }
}

/// The part of those sets of inputs that have not the signal.
pub fn without(unasked: u64, inputs: u64, place: u8) -> Part
    requires { bits unasked place ≡ true }
    ensures narrower { IsNarrower place false (record { unasked = unasked; inputs = inputs })
        result }
    ensures fewer { result.unasked < unasked }
{
    Part {
        unasked: mask::without(unasked, place),
        inputs: mask::without(inputs, place),
    }
}

/// The first signal of a set.
pub fn first_in(signals: u64) -> Option<u8>
    ensures { MatchOption result ((n : ℕ) → bits signals n ≡ false) (λ p. bits signals p ≡ true) }
{
    if signals == 0 {
        return None;
    }
    Some(signals.trailing_zeros() as u8)
}
