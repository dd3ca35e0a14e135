//! What is known of a test.
//!
//! Recursion is as deep as the expressions of the test are nested, however many operands they have:
//! at most 128 levels for a test that was read.

ghost use Rattle.std.specs.Prelude.{◌≡◌};
ghost use Rattle.est_kernel.specs.View.{joint_of, query_of};
ghost use Rattle.est_meaning.specs.Environments.{opposite, status_of, status_of_joint};
ghost use Rattle.est_meaning.specs.Views.{env_of};

use est_kernel::statement::{Connective, Operands, Test};
use est_meaning::signal_set::{Env, status_of_signal};
use est_meaning::status::Status;

/// What is known of what a test asks. A test of one signal takes no call.
#[inline(always)]
#[cycle(answer)]
pub fn answer_to(env: &Env, test: &Test) -> Status
    ensures { result ≡ status_of (env_of env.now) (query_of test.now) }
{
    match test {
        Test::Tick => Status::Present,
        Test::Status(s) => status_of_signal(env, *s),
        Test::Not(t) => answer_to_negated(env, t),
        Test::Joined(connective, operands) => answer_to_joined(env, *connective, operands),
    }
}

/// What is known of `not t`.
#[cycle(answer)]
fn answer_to_negated(env: &Env, t: &Test) -> Status
    ensures { result ≡ opposite (status_of (env_of env.now) (query_of t.now)) }
{
    answer_to(env, t).opposite()
}

/// What is known of operands with this connective between them.
#[cycle(answer)]
fn answer_to_joined(env: &Env, connective: Connective, operands: &Operands) -> Status
    ensures { result ≡ status_of_joint connective (env_of env.now) (joint_of operands.now) }
{
    let first = answer_to(env, &operands.first);
    let mut status = first.joined(connective, answer_to(env, &operands.second));
    for test in &operands.later {
        status = status.joined(connective, answer_to(env, test));
    }
    status
}
