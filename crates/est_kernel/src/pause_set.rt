//! Sets of pauses, one bit for each of the 2,048 that a kernel may have.

ghost use Rattle.std.specs.Prelude.{◌≡◌, ◌≢◌, ◌<◌, ◌≤◌, ◌+◌, ℕ, true, false};
ghost use Rattle.est_kernel.specs.Bits.{bits};
ghost use Rattle.est_kernel.specs.Pauses.{some_from};

use crate::mask;
use crate::statement::PauseIndex;

/// Whether one of `count` bits of a word from the bit `first` on is set.
fn has_in_word(word: u64, first: usize, count: usize) -> bool
    requires { first < 64 }
    ensures { result ≡ some_from (bits word) first count }
{
    let rest = word >> first;
    if rest == 0 {
        return false;
    }
    (rest.trailing_zeros() as usize) < count
}

/// A set of pauses, one bit for each.
#[derive(Clone, Copy, PartialEq, Eq, Hash)]
pub struct PauseSet {
    words: [u64; 32],
}

impl PauseSet {
    ghost use Rattle.est_kernel.specs.Pauses.{pauses_of};

    /// The empty set.
    pub fn new() -> Self
        ensures { (n : ℕ) → pauses_of result n ≡ false }
    {
        PauseSet { words: [0; 32] }
    }

    /// Whether the pause is in the set.
    pub fn has(&self, n: PauseIndex) -> bool
        ensures { result ≡ pauses_of self.now n.index }
    {
        (self.words[(n.index / 64) as usize] >> (n.index % 64)) & 1 == 1
    }

    /// Whether one of `count` pauses from the number `first` on is in the set. It asks a word at a
    /// time.
    pub fn has_some(&self, first: usize, count: usize) -> bool
        requires { first + count ≤ 2048 }
        ensures { result ≡ some_from (pauses_of self.now) first count }
    {
        if count == 0 {
            return false;
        }
        let bit = first % 64;
        let here = count.min(64 - bit);
        has_in_word(self.words[first / 64], bit, here) || self.has_some(first + here, count - here)
    }

    /// Puts the pause into the set.
    pub fn insert(&mut self, n: PauseIndex)
        ensures same { pauses_of self.new n.index ≡ true }
        ensures others { (i : ℕ) → i ≢ n.index → pauses_of self.new i ≡ pauses_of self.old i }
    {
        let word = (n.index / 64) as usize;
        let bit = (n.index % 64) as u8;
        self.words[word] = mask::with(self.words[word], bit);
    }

    /// Takes the pause out of the set.
    pub fn remove(&mut self, n: PauseIndex)
        ensures same { pauses_of self.new n.index ≡ false }
        ensures others { (i : ℕ) → i ≢ n.index → pauses_of self.new i ≡ pauses_of self.old i }
    {
        let word = (n.index / 64) as usize;
        let bit = (n.index % 64) as u8;
        self.words[word] = mask::without(self.words[word], bit);
    }
}
