//! The names that an interface declares.
ghost use Rattle.std.specs.Prelude.{◌≡◌, map, IfOk};

use est_modules::interface::Declared;
use est_text::identifier::Identifier;
use std::alloc::{AllocError, Global};

/// The names of an interface, in their order.
///
/// # Errors
///
/// `AllocError` where memory is refused.
pub fn declared_names(alloc: Global, interface: &[Declared]) -> Result<Vec<Identifier>, AllocError>
    ensures { IfOk result (λ names. names.items ≡ map (λ d. d.name) interface.now) }
{
    let mut names = Vec::new(alloc);
    for declared in interface {
        names.push(declared.name)?;
    }
    Ok(names)
}
