//! How many kernel statements a body comes to, before any is built.
//!
//! A room begins as the limit plus one, as in `room_after` of `est_kernel`: it is 0 exactly when
//! the limit is passed, and then nothing more is counted.
ghost use Rattle.std.specs.Prelude.{◌≡◌, ◌+◌, ◌-◌};
ghost use Rattle.est_kernel.specs.Limits.{joint_word_count, word_count};
ghost use Rattle.est_reduce.specs.Inner.Sizes.{abort_statements, reduced_statements};
ghost use Rattle.est_reduce.specs.Inner.Sizes.{suspend_statements};
ghost use Rattle.est_reduce.specs.Views.{body_of, bound_joint, bound_query};

use crate::body::{Body, BoundOperands, BoundTest, Wait};

/// What is left of a room for kernel statements after the words of a test (`not`, `and`, `or`).
/// Recursion is no deeper than the room.
#[cycle(words)]
fn room_after_test(test: &BoundTest, room: u32) -> u32
    ensures { result ≡ room - word_count (bound_query test.now) }
{
    if room == 0 {
        return 0;
    }
    match test {
        BoundTest::Tick | BoundTest::Of(_) => room,
        BoundTest::Not(t) => room_after_test(t, room - 1),
        BoundTest::Joined(_, operands) => room_after_operands(operands, room - 1),
    }
}

/// The same for operands, whose first connective is counted already.
#[cycle(words)]
#[tactic(auto, using(crate::proofs::Tests::operands_words))]
fn room_after_operands(operands: &BoundOperands, room: u32) -> u32
    ensures { result ≡ room + 1 - joint_word_count (bound_joint operands.now) }
{
    let first = room_after_test(&operands.first, room);
    let mut left = room_after_test(&operands.second, first);
    for test in &operands.later {
        left = room_after_test(test, left.saturating_sub(1));
    }
    left
}

/// The same for a test that occurs twice.
fn room_after_two(test: &BoundTest, room: u32) -> u32
    ensures { result ≡ room - (word_count (bound_query test.now)
        + word_count (bound_query test.now)) }
{
    room_after_test(test, room_after_test(test, room))
}

/// The same for a test that occurs three times.
fn room_after_three(test: &BoundTest, room: u32) -> u32
    ensures { result ≡ room - (word_count (bound_query test.now)
        + word_count (bound_query test.now) + word_count (bound_query test.now)) }
{
    room_after_test(test, room_after_two(test, room))
}

/// What is left of a room for kernel statements after the reduction of the body. The words of a
/// test count each time that it occurs in the reduction. Each statement takes some of the room, but
/// for an empty `signal`, which no text has; so recursion is no deeper than the room, 2,050 levels
/// from `reduce`.
pub fn room_after(body: &Body, room: u32) -> u32
    ensures { result ≡ room - reduced_statements (body_of body.now) }
{
    if room == 0 {
        return 0;
    }
    match body {
        Body::Nothing | Body::Pause | Body::Emit(_) | Body::Exit(_) => room - 1,
        Body::Halt => room.saturating_sub(2),
        Body::Sustain(_) => room.saturating_sub(4),
        Body::Await(wait) => room_after_test(&wait.test, room.saturating_sub(7)),
        Body::Present(test, p, q) => {
            room_after(q, room_after(p, room_after_test(test, room - 1)))
        }
        Body::Seq(p, q) | Body::Par(p, q) => room_after(q, room_after(p, room - 1)),
        Body::Suspend(wait, p) => room_after(p, room_for_suspend(wait, room)),
        Body::Abort(wait, p) => room_after(p, room_for_abort(wait, room)),
        Body::WeakAbort(wait, p) => {
            room_after(p, room_after_test(&wait.test, room.saturating_sub(10)))
        }
        Body::Loop(p) | Body::Trap(p) => room_after(p, room - 1),
        Body::LoopEach(test, p) => room_after(p, room_after_two(test, room.saturating_sub(15))),
        Body::Every(wait, p) => {
            room_after(p, room_after_three(&wait.test, room.saturating_sub(23)))
        }
        Body::Signal(count, p) => room_after(p, room.saturating_sub(*count)),
    }
}

/// What is left of a room after a `suspend`, without its body.
fn room_for_suspend(wait: &Wait, room: u32) -> u32
    ensures { result
        ≡ room - suspend_statements wait.now.immediate (bound_query wait.now.test) }
{
    if wait.immediate {
        room_after_two(&wait.test, room.saturating_sub(5))
    } else {
        room_after_test(&wait.test, room.saturating_sub(1))
    }
}

/// What is left of a room after an `abort`, without its body.
fn room_for_abort(wait: &Wait, room: u32) -> u32
    ensures { result ≡ room - abort_statements wait.now.immediate (bound_query wait.now.test) }
{
    if wait.immediate {
        room_after_three(&wait.test, room.saturating_sub(13))
    } else {
        room_after_two(&wait.test, room.saturating_sub(11))
    }
}
