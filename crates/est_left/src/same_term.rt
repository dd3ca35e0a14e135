//! Whether two terms are one.
//!
//! Recursion is as deep as the term: at most twice as deep as its statement.

ghost use Rattle.std.specs.Prelude.{◌≡◌};
ghost use Rattle.est_left.specs.Inner.Heads.{head_term, rest_term};
ghost use Rattle.est_left.specs.Inner.Sameness.{same_term};

use crate::head::{Head, Rest, head_of};
use crate::same_test::{is_same_signal, is_same_test};

/// Whether two terms are one.
pub(crate) fn is_same_rest(one: Rest<'_>, other: Rest<'_>) -> bool
    ensures { result ≡ same_term (rest_term one.entry) (rest_term other.entry) }
{
    match (head_of(one), head_of(other)) {
        (Head::Nothing, Head::Nothing) | (Head::Pause, Head::Pause) => true,
        (Head::Emit(s), Head::Emit(u)) => is_same_signal(s, u),
        (Head::Present(t, p, q), Head::Present(u, r, s)) => {
            is_same_test(t, u) && is_same_rest(p, r) && is_same_rest(q, s)
        }
        (Head::Suspend(t, p), Head::Suspend(u, q)) | (Head::Held(t, p), Head::Held(u, q)) => {
            is_same_test(t, u) && is_same_rest(p, q)
        }
        (Head::Seq(p, q), Head::Seq(r, s)) | (Head::Par(p, q), Head::Par(r, s)) => {
            is_same_rest(p, r) && is_same_rest(q, s)
        }
        (Head::Loop(p), Head::Loop(q)) | (Head::Trap(p), Head::Trap(q)) => is_same_rest(p, q),
        (Head::Exit(k), Head::Exit(n)) => k == n,
        (Head::Local(s, p), Head::Local(u, q)) => s.index == u.index && is_same_rest(p, q),
        _ => false,
    }
}
