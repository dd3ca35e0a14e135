//! Where a machine stands, as words.

ghost use Rattle.std.specs.Prelude.{◌≡◌, ◌↔◌, ◌<◌, ◌≤◌, ◌≢◌, ◌+◌, ◌&&◌, ℕ, true, nat_lt};
ghost use Rattle.std.specs.Prelude.{slice_index, IfSome, IfNone};
ghost use Rattle.est_kernel.specs.Bits.{bits};
ghost use Rattle.est_kernel.specs.Pauses.{pauses_of};
ghost use Rattle.est_kernel.specs.declared.state.State.{State as StateValue};
ghost use Rattle.est_machine.specs.Inner.Words.{AreStateWords, has_bit};
ghost use Rattle.est_machine.specs.Saved.{IsSavedWord, kind_of};

use crate::valid_states::is_empty;
use est_kernel::limits::MOST_STATEMENTS;
use est_kernel::mask;
use est_kernel::pause_set::PauseSet;
use est_kernel::state::State;
use est_kernel::statement::PauseIndex;

/// The number of a state's kind.
fn kind_of(state: &State) -> u64
    ensures { result ≡ kind_of state.now }
{
    match state {
        State::Fresh => 0,
        State::Done => 1,
        State::Paused(_) => 2,
    }
}

/// The word in which this bit is set, or is not.
fn with_bit(word: u64, bit: u8, is_set: bool) -> u64
    requires { bit < 64 }
    ensures same { bits result bit ≡ is_set }
    ensures other { (k : ℕ) → k ≢ bit → bits result k ≡ bits word k }
{
    if is_set {
        mask::with(word, bit)
    } else {
        mask::without(word, bit)
    }
}

/// The word of the 64 pauses from this one on.
fn word_of(pauses: &PauseSet, first: u16) -> u64
    requires { first ≤ 1984 }
    ensures { (i : ℕ) → i < 64 → bits result i ≡ pauses_of pauses.now (first + i) }
{
    let mut word = 0;
    for bit in 0..64 {
        let pause = PauseIndex {
            index: first + bit as u16,
        };
        word = with_bit(word, bit, pauses.has(pause));
    }
    word
}

/// The word of this place, of those that keep a digest and a state.
pub fn saved_word(digest: &[u8; 32], state: &State, place: usize) -> u64
    requires { place < 65 }
    ensures { IsSavedWord digest.now state.now place result }
{
    if place < 32 {
        return digest[place] as u64;
    }
    if place == 32 {
        return kind_of(state);
    }
    match state {
        State::Fresh => 0,
        State::Done => 0,
        State::Paused(pauses) => word_of(pauses, 64 * (place - 33) as u16),
    }
}

/// Whether the first words are the bytes of a digest.
pub fn is_of(words: &[u64; 65], digest: &[u8; 32]) -> bool
    ensures { (result ≡ true)
        ↔ ((n : ℕ) → n < 32 → slice_index words.now n ≡ slice_index digest.now n) }
{
    for n in 0..32 {
        if words[n] != digest[n] as u64 {
            return false;
        }
    }
    true
}

/// Puts a pause into a set, or takes it out.
fn put_pause(pauses: &mut PauseSet, pause: PauseIndex, is_set: bool)
    ensures same { pauses_of pauses.new pause.index ≡ is_set }
    ensures others { (i : ℕ) → i ≢ pause.index → pauses_of pauses.new i ≡ pauses_of pauses.old i }
{
    if is_set {
        pauses.insert(pause);
    } else {
        pauses.remove(pause);
    }
}

/// Whether a pause is set in the words.
fn has_bit(words: &[u64; 65], pause: PauseIndex) -> bool
    ensures { result ≡ has_bit words.now pause.index }
{
    mask::has(
        words[33 + (pause.index / 64) as usize],
        (pause.index % 64) as u8,
    )
}

/// The pauses that are set in the words.
fn pauses_in(words: &[u64; 65]) -> PauseSet
    ensures { (i : ℕ) → pauses_of result i ≡ (nat_lt i 2048 && has_bit words.now i) }
{
    let mut pauses = PauseSet::new();
    for index in 0..MOST_STATEMENTS {
        let pause = PauseIndex { index };
        put_pause(&mut pauses, pause, has_bit(words, pause));
    }
    pauses
}

/// The state that the words keep.
pub fn state_in(words: &[u64; 65]) -> Option<State>
    ensures some { IfSome result (λ x. AreStateWords x words.now) }
    ensures none { IfNone result ((x : StateValue) → AreStateWords x words.now → ⊥) }
{
    let kind = words[32];
    let pauses = pauses_in(words);
    if kind == 2 {
        return Some(State::Paused(pauses));
    }
    if !is_empty(pauses) {
        return None;
    }
    match kind {
        0 => Some(State::Fresh),
        1 => Some(State::Done),
        _ => None,
    }
}
