//! What the signals of a run mean where the run is in a body whose signals mean something else.
ghost use Rattle.std.specs.Prelude.{◌≡◌, IfOk, map};
ghost use Rattle.est_kernel.specs.Term.{Name};
ghost use Rattle.est_link.specs.Inner.Meant.{again};
ghost use Rattle.est_link.specs.Inner.OpenBodies.{meaning_of, meant_by};

use crate::meaning::{Meaning, Meanings};
use crate::numbers::sum;
use crate::signal_meanings::SignalMeanings;
use std::alloc::{AllocError, Global};

/// What a meaning becomes where the signals of its body mean what `outside` says.
fn again<M: Meanings>(outside: &M, meaning: Meaning) -> Result<Meaning, AllocError>
    ensures { IfOk result (λ m. meaning_of m ≡ again (M.means outside.now) (meaning_of meaning)) }
{
    Ok(meaning.further(outside.meaning(meaning.signal)?))
}

/// The same of each of a list.
fn all_again<M: Meanings>(
    alloc: Global,
    outside: &M,
    list: &[Meaning],
) -> Result<Vec<Meaning>, AllocError>
    ensures { IfOk result (λ ms. map meaning_of ms.items ≡ map
        (λ m. again (M.means outside.now) (meaning_of m)) list.now) }
{
    let mut meanings = Vec::new(alloc);
    for meaning in list {
        meanings.push(again(outside, *meaning)?)?;
    }
    Ok(meanings)
}

/// What signals mean that have these meanings in a body, where the signals of that body mean what
/// `outside` says.
///
/// # Errors
///
/// `AllocError` where memory is refused.
pub fn inside<M: Meanings>(
    alloc: Global,
    outside: &M,
    meanings: &SignalMeanings,
) -> Result<SignalMeanings, AllocError>
    ensures { IfOk result (λ r. (n : Name) → meant_by r n ≡ again (M.means outside.now)
        (meant_by meanings.now n)) }
{
    Ok(SignalMeanings {
        numbers: meanings.numbers.clone()?,
        meanings: all_again(alloc, outside, &meanings.meanings)?,
        other: again(outside, meanings.other)?,
        locals: sum(outside.locals(), meanings.locals)?,
    })
}
