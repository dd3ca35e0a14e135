//! Numbers in 32 bits.
ghost use Rattle.std.specs.Prelude.{◌≡◌, ◌+◌, IfOk};

use std::alloc::AllocError;

/// A number in 32 bits. A larger one would need a list of 2^32 names in memory. It is answered as
/// want of memory.
pub fn small(number: usize) -> Result<u32, AllocError>
    ensures { IfOk result (λ n. n ≡ number) }
{
    match u32::try_from(number) {
        Ok(small) => Ok(small),
        Err(_) => Err(AllocError),
    }
}

/// A sum in 32 bits, answered as `small` answers.
pub fn sum(first: u32, second: u32) -> Result<u32, AllocError>
    ensures { IfOk result (λ n. n ≡ first + second) }
{
    match first.checked_add(second) {
        Some(sum) => Ok(sum),
        None => Err(AllocError),
    }
}
