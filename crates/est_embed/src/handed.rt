//! What is handed out of this library's memory.

ghost use Rattle.std.specs.Prelude.{◌≡◌, Option, Some, None};
ghost use Rattle.est_embed.specs.Handing.{lies_there};

use std::alloc::Allocator;
use std::marker::Model;

/// A status and a place. If there is a value, it lies there, and whoever has this owns it.
pub(crate) struct Handed<T> {
    pub(crate) status: u64,
    pub(crate) at: *mut T,
    pub(crate) ghost value: { Option T },
}

impl<T> Model for Handed<T> {
    ghost also_owns = { λ h. lies_there T.row h.value h.at };
}

impl<T: Drop> Handed<T> {
    /// A value, and its place, with status 0.
    pub(crate) fn of<A: Allocator>(owned: Box<T, A>) -> (*mut T, Handed<T>)
        ensures { (result.1.status ≡ 0) × (result.1.at ≡ result.0)
            × (result.1.value ≡ Some owned.value) }
    {
        let at = Box::into_raw(owned);
        (at, Handed { status: 0, at })
    }

    /// No value.
    pub(crate) fn refused(status: u64, at: *mut T) -> Handed<T>
        ensures { (result.status ≡ status) × (result.at ≡ at) × (result.value ≡ None) }
    {
        Handed { status, at }
    }
}
