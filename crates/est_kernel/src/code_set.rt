//! Sets of completion codes.

ghost use Rattle.std.specs.Prelude.{◌≡◌, ◌<◌, ℕ};
ghost use Rattle.est_kernel.specs.Bits.{bits};
ghost use Rattle.est_kernel.specs.Codes.{no_codes, code, either_code, but_zero, max_codes};
ghost use Rattle.est_kernel.specs.Codes.{codes_out_of_trap, some_up_to};
ghost use Rattle.est_kernel.specs.CodeViews.{code_of, codes_of};

use crate::completion::Completion;
use crate::mask;

/// A set of completion codes below 64.
#[derive(Clone, Copy, PartialEq, Eq)]
pub struct CodeSet {
    /// A bit for each code.
    mask: u64,
}

impl CodeSet {
    /// The empty set.
    pub fn empty() -> Self
        ensures { codes_of result ≡ no_codes }
    {
        CodeSet { mask: 0 }
    }

    /// The set of this code alone.
    pub fn single(completion: Completion) -> Self
        requires { code_of completion < 64 }
        ensures { codes_of result ≡ code (code_of completion) }
    {
        CodeSet {
            mask: mask::single(place_of(completion)),
        }
    }

    /// Whether the code is in the set.
    pub fn has(self, completion: Completion) -> bool
        requires { code_of completion < 64 }
        ensures { result ≡ codes_of self (code_of completion) }
    {
        mask::has(self.mask, place_of(completion))
    }

    /// The codes of both sets.
    pub fn union(self, other: CodeSet) -> Self
        ensures { codes_of result ≡ either_code (codes_of self) (codes_of other) }
    {
        CodeSet {
            mask: self.mask | other.mask,
        }
    }

    /// The codes without 0.
    pub fn without_zero(self) -> Self
        ensures { codes_of result ≡ but_zero (codes_of self) }
    {
        CodeSet {
            mask: but_lowest(self.mask),
        }
    }

    /// The codes as they are seen outside a trap: 0 and 2 become 0, 1 stays, larger ones fall by 1.
    pub fn out_of_trap(self) -> Self
        ensures { codes_of result ≡ codes_out_of_trap (codes_of self) }
    {
        CodeSet {
            mask: out_of_trap(self.mask),
        }
    }

    /// The greater codes of all pairs.
    pub fn greater_of_pairs(self, other: CodeSet) -> Self
        ensures { codes_of result ≡ max_codes (codes_of self) (codes_of other) }
    {
        CodeSet {
            mask: greater_of_pairs(self.mask, other.mask),
        }
    }
}

/// The place of a code's bit.
fn place_of(completion: Completion) -> u8
    requires { code_of completion < 64 }
    ensures { result ≡ code_of completion }
{
    match completion {
        Completion::End => 0,
        Completion::Pause => 1,
        Completion::Exit(trap) => trap.index as u8 + 2,
    }
}

/// The numbers of a mask without 0.
fn but_lowest(a: u64) -> u64
    ensures { bits result ≡ but_zero (bits a) }
{
    a >> 1 << 1
}

/// The codes of a mask as they are seen outside a trap.
fn out_of_trap(a: u64) -> u64
    ensures { bits result ≡ codes_out_of_trap (bits a) }
{
    ((a | a >> 2) & 1) | (a & 2) | (a >> 3 << 2)
}

/// The greater codes of all pairs.
fn greater_of_pairs(a: u64, b: u64) -> u64
    ensures { bits result ≡ max_codes (bits a) (bits b) }
{
    a & from_least(b) | b & from_least(a)
}

/// All numbers from the least one of a mask on.
fn from_least(a: u64) -> u64
    ensures { (n : ℕ) → n < 64 → bits result n ≡ some_up_to (bits a) n }
{
    if a == 0 {
        0
    } else {
        u64::MAX << a.trailing_zeros()
    }
}
