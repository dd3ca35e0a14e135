//! The numbers of the pauses of a set.

ghost use Rattle.std.specs.Prelude.{◌≡◌, ◌≤◌, ◌+◌, IfOk, OnOk};
ghost use Rattle.lab_lines.specs.TableJson.{pauses_below};

use est_kernel::limits::MOST_STATEMENTS;
use est_kernel::pause_set::PauseSet;
use std::alloc::{AllocError, Global};

/// Adds the numbers of those among `count` pauses from the number `first` on that are in the set.
/// Where none is, it looks no further; else it looks at either half.
fn add_pauses_below(
    numbers: &mut Vec<u16>,
    paused: &PauseSet,
    first: usize,
    count: usize,
) -> Result<(), AllocError>
    requires most { first + count ≤ 2048 }
    requires before { numbers.old.items ≡ pauses_below paused.now first }
    ensures { OnOk result (numbers.new.items ≡ pauses_below paused.now (first + count)) }
{
    if !paused.has_some(first, count) {
        return Ok(());
    }
    if count == 1 {
        numbers.push(first as u16)?;
        return Ok(());
    }
    let half = count / 2;
    add_pauses_below(numbers, paused, first, half)?;
    add_pauses_below(numbers, paused, first + half, count - half)
}

/// The numbers of the pauses that are in the set, in order.
pub fn pause_numbers(alloc: Global, paused: &PauseSet) -> Result<Vec<u16>, AllocError>
    ensures { IfOk result (λ numbers. numbers.items
        ≡ pauses_below paused.now MOST_STATEMENTS) }
{
    let mut numbers = Vec::new(alloc);
    add_pauses_below(&mut numbers, paused, 0, MOST_STATEMENTS as usize)?;
    Ok(numbers)
}
