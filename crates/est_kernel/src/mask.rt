//! Sets of numbers below 64 as masks: the signals of an interface, and local signals.

ghost use Rattle.std.specs.Prelude.{◌≡◌, ◌≢◌, ◌<◌, ℕ, true, false, ◌&&◌, ◌||◌, nat_eq, not};
ghost use Rattle.est_kernel.specs.Bits.{bits};

/// Whether the number is in the set.
pub fn has(mask: u64, n: u8) -> bool
    requires { n < 64 }
    ensures { result ≡ bits mask n }
{
    (mask >> n) & 1 == 1
}

/// The set of this number alone.
pub fn single(n: u8) -> u64
    requires { n < 64 }
    ensures { (k : ℕ) → bits result k ≡ nat_eq n k }
{
    1 << n
}

/// The numbers of both sets.
pub fn union(a: u64, b: u64) -> u64
    ensures { (n : ℕ) → bits result n ≡ (bits a n || bits b n) }
{
    a | b
}

/// The set with this number.
pub fn with(mask: u64, n: u8) -> u64
    requires { n < 64 }
    ensures same { bits result n ≡ true }
    ensures other { (k : ℕ) → k ≢ n → bits result k ≡ bits mask k }
{
    mask | 1 << n
}

/// The set without this number.
pub fn without(mask: u64, n: u8) -> u64
    requires { n < 64 }
    ensures same { bits result n ≡ false }
    ensures other { (k : ℕ) → k ≢ n → bits result k ≡ bits mask k }
{
    mask & !(1 << n)
}

/// The numbers in both sets.
pub fn intersection(a: u64, b: u64) -> u64
    ensures { (n : ℕ) → bits result n ≡ (bits a n && bits b n) }
{
    a & b
}

/// The numbers of the first set that are not in the second.
pub fn difference(a: u64, b: u64) -> u64
    ensures { (n : ℕ) → bits result n ≡ (bits a n && not (bits b n)) }
{
    a & !b
}
