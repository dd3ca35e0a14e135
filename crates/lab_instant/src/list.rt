//! Lists that grow by what there is.

ghost use Rattle.std.specs.Prelude.{◌≡◌, ◌++◌, IfOk};
ghost use Rattle.lab_instant.specs.Seen.{listed};

use std::alloc::AllocError;

/// Adds an item, if there is one.
pub fn push_if<T: Copy>(list: &mut Vec<T>, item: Option<T>) -> Result<(), AllocError>
    ensures { IfOk result (λ _. list.new.items ≡ list.old.items ++ listed item) }
{
    if let Some(item) = item {
        list.push(item)?;
    }
    Ok(())
}
