//! Whether two tests ask the same.
//!
//! Recursion is as deep as the expressions of a test are nested, however many operands they have.

ghost use Rattle.std.specs.Prelude.{◌≡◌};
ghost use Rattle.est_kernel.specs.View.{name_of, query_of, joint_of};
ghost use Rattle.est_left.specs.Inner.Sameness.{same_name, same_query, same_joint};

use est_kernel::statement::{Operands, Signal, Test};

/// Whether two signals are one.
pub(crate) fn is_same_signal(one: Signal, other: Signal) -> bool
    ensures { result ≡ same_name (name_of one) (name_of other) }
{
    match (one, other) {
        (Signal::Interface(s), Signal::Interface(u)) => s.index == u.index,
        (Signal::Local(s), Signal::Local(u)) => s.index == u.index,
        _ => false,
    }
}

/// Whether two tests ask the same.
#[cycle(tests)]
pub(crate) fn is_same_test(one: &Test, other: &Test) -> bool
    ensures { result ≡ same_query (query_of one.now) (query_of other.now) }
{
    match (one, other) {
        (Test::Tick, Test::Tick) => true,
        (Test::Status(s), Test::Status(u)) => is_same_signal(*s, *u),
        (Test::Not(t), Test::Not(u)) => is_same_test(t, u),
        (Test::Joined(c, ts), Test::Joined(d, us)) => c == d && are_same_operands(ts, us),
        _ => false,
    }
}

/// Whether operands ask the same, each in its place.
#[cycle(tests)]
fn are_same_operands(one: &Operands, other: &Operands) -> bool
    ensures { result ≡ same_joint (joint_of one.now) (joint_of other.now) }
{
    if one.later.len() != other.later.len() {
        return false;
    }
    if !is_same_test(&one.first, &other.first) {
        return false;
    }
    if !is_same_test(&one.second, &other.second) {
        return false;
    }
    for at in 0..one.later.len() {
        if !is_same_test(&one.later[at], &other.later[at]) {
            return false;
        }
    }
    true
}
