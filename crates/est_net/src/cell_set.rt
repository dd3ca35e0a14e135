//! Sets of cells, one bit for each.

ghost use Rattle.std.specs.Prelude.{◌≡◌, ◌≢◌, ◌<◌, ◌≤◌, ◌+◌, ◌*◌, ◌||◌, ℕ, true, false, length};
ghost use Rattle.std.specs.Prelude.{IfNone, IfOk, IfSome, replicate};
ghost use Rattle.est_kernel.specs.Bits.{bits};
ghost use Rattle.est_net.specs.CellSets.{IsFirstIn, NoneIn, marked};

use est_kernel::mask;
use std::alloc::{AllocError, Global};

/// A set of cells, one bit for each.
#[derive(Drop)]
pub struct CellSet {
    words: Vec<u64>,
}

/// Makes all words 0.
fn zero_all(words: &mut [u64])
    ensures { words.new ≡ replicate (length words.old) 0 }
{
    words.fill(0);
}

/// The first bit of a word that is set, from this one on.
#[inline(always)]
fn first_bit(word: u64, from: usize) -> Option<usize>
    requires { from < 64 }
    ensures some { IfSome result (IsFirstIn (bits word) from 64) }
    ensures none { IfNone result (NoneIn (bits word) from 64) }
{
    let rest = word >> from;
    if rest == 0 {
        None
    } else {
        Some(from + rest.trailing_zeros() as usize)
    }
}

impl CellSet {
    /// The empty set, with room for this many cells, or memory was refused.
    pub fn with_room(alloc: Global, cells: usize) -> Result<CellSet, AllocError>
        ensures empty { IfOk result (λ set. (i : ℕ) → marked set.words.items i ≡ false) }
        ensures room { IfOk result (λ set. cells ≤ 64 * length set.words.items) }
    {
        let mut words = Vec::new(alloc);
        for _ in 0..cells / 64 + 1 {
            words.push(0)?;
        }
        Ok(CellSet { words })
    }

    /// Puts a cell into the set.
    #[inline(always)]
    fn insert(&mut self, cell: usize)
        requires { cell < 64 * length self.old.words.items }
        ensures same { marked self.new.words.items cell ≡ true }
        ensures others { (i : ℕ) → i ≢ cell
            → marked self.new.words.items i ≡ marked self.old.words.items i }
        ensures room { length self.new.words.items ≡ length self.old.words.items }
    {
        self.words[cell / 64] = mask::with(self.words[cell / 64], (cell % 64) as u8);
    }

    /// Puts a cell into the set, if it is to be in it.
    #[inline(always)]
    pub fn insert_if(&mut self, is_in: bool, cell: usize)
        requires { cell < 64 * length self.old.words.items }
        ensures here { marked self.new.words.items cell
            ≡ (marked self.old.words.items cell || is_in) }
        ensures others { (i : ℕ) → i ≢ cell
            → marked self.new.words.items i ≡ marked self.old.words.items i }
        ensures room { length self.new.words.items ≡ length self.old.words.items }
    {
        if is_in {
            self.insert(cell);
        }
    }

    /// Takes all cells out of the set.
    pub fn clear(&mut self)
        ensures empty { (i : ℕ) → marked self.new.words.items i ≡ false }
        ensures room { length self.new.words.items ≡ length self.old.words.items }
    {
        zero_all(self.words.as_mut_slice());
    }

    /// The first cell of the set from place `from` on and before place `past`. It asks a word at a
    /// time.
    pub fn first_in(&self, from: usize, past: usize) -> Option<usize>
        requires { past ≤ 64 * length self.now.words.items }
        ensures some { IfSome result (IsFirstIn (marked self.now.words.items) from past) }
        ensures none { IfNone result (NoneIn (marked self.now.words.items) from past) }
    {
        if from >= past {
            return None;
        }
        let word = from / 64 * 64;
        match first_bit(self.words[from / 64], from % 64) {
            None => self.first_in(word.saturating_add(64), past),
            Some(bit) => {
                if word + bit < past {
                    Some(word + bit)
                } else {
                    None
                }
            }
        }
    }
}
