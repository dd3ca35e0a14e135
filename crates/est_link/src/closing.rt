//! The flat body that an open one is, its runs replaced.
//!
//! `open_body` says how deep the functions call themselves.
ghost use Rattle.std.specs.Prelude.{◌≡◌, IfOk};
ghost use Rattle.est_kernel.specs.Term.{joined};
ghost use Rattle.est_link.specs.Linking.{body_meant, queries_meant, query_meant};
ghost use Rattle.est_link.specs.Inner.OpenBodies.{closed_of, meant_by};
ghost use Rattle.est_link.specs.Inner.Watches.{watched};
ghost use Rattle.est_reduce.specs.Views.{bound_joint as joint_view, bound_name as name_view};
ghost use Rattle.est_reduce.specs.Views.{bound_query as query_view, body_of};

use crate::meaning::Meanings;
use crate::open_body::OpenBody;
use crate::run_meanings::inside;
use crate::signal_meanings::SignalMeanings;
use crate::watch::Watch;
use est_kernel::statement::Connective;
use est_reduce::body::{Body, BoundOperands, BoundSignal, BoundTest, Wait};
use std::alloc::{AllocError, Global};

/// What the signals of a body mean where it is closed, and where memory is taken.
#[derive(Clone, Copy)]
pub struct CloseContext<'a> {
    /// Where memory is taken.
    pub alloc: Global,
    /// What the signals mean.
    pub meanings: &'a SignalMeanings,
}

/// What is emitted in place of a signal.
fn close_sent(at: &CloseContext<'_>, signal: BoundSignal) -> Result<BoundSignal, AllocError>
    ensures { IfOk result (λ n. name_view n ≡ (meant_by at.now.meanings.now
        (name_view signal)).sent) }
{
    Ok(at.meanings.meaning(signal)?.signal)
}

/// What is asked in place of a test. It goes as deep as the expressions lie in one another.
#[cycle(tests)]
fn close_test(at: &CloseContext<'_>, test: &BoundTest) -> Result<BoundTest, AllocError>
    ensures { IfOk result (λ t. query_view t ≡ query_meant (meant_by at.now.meanings.now)
        (query_view test.now)) }
{
    match test {
        BoundTest::Tick => Ok(BoundTest::Tick),
        BoundTest::Of(signal) => Ok(at.meanings.meaning(*signal)?.test()),
        BoundTest::Not(inner) => BoundTest::negated(at.alloc, close_test(at, inner)?),
        BoundTest::Joined(connective, operands) => close_joined(at, *connective, operands),
    }
}

/// The same of operands with this connective between them.
#[cycle(tests)]
fn close_joined(
    at: &CloseContext<'_>,
    connective: Connective,
    operands: &BoundOperands,
) -> Result<BoundTest, AllocError>
    ensures { IfOk result (λ t. query_view t ≡ joined connective
        (query_meant (meant_by at.now.meanings.now) (joint_view operands.now).first)
        (queries_meant (meant_by at.now.meanings.now) (joint_view operands.now).later)) }
{
    let mut later = Vec::new(at.alloc);
    for test in &operands.later {
        later.push(close_test(at, test)?)?;
    }
    let first = close_test(at, &operands.first)?;
    let second = close_test(at, &operands.second)?;
    BoundTest::joined(at.alloc, connective, first, second, later)
}

/// What is waited for in place of a wait.
fn close_wait(at: &CloseContext<'_>, wait: &Wait) -> Result<Wait, AllocError>
    ensures immediate { IfOk result (λ w. w.immediate ≡ wait.now.immediate) }
    ensures test { IfOk result (λ w. query_view w.test ≡ query_meant (meant_by at.now.meanings.now)
        (query_view wait.now.test)) }
{
    Ok(Wait {
        immediate: wait.immediate,
        test: close_test(at, &wait.test)?,
    })
}

/// The body, its runs replaced and each signal as it is meant here.
///
/// # Errors
///
/// `AllocError` where memory is refused.
#[cycle(close)]
pub fn close(at: &CloseContext<'_>, body: &OpenBody) -> Result<Body, AllocError>
    ensures { IfOk result (λ b. body_of b ≡ body_meant (meant_by at.now.meanings.now)
        (closed_of body.now)) }
{
    match body {
        OpenBody::Nothing => Ok(Body::Nothing),
        OpenBody::Pause => Ok(Body::Pause),
        OpenBody::Halt => Ok(Body::Halt),
        OpenBody::Exit(trap) => Ok(Body::Exit(*trap)),
        OpenBody::Emit(signal) => Ok(Body::Emit(close_sent(at, *signal)?)),
        OpenBody::Sustain(signal) => Ok(Body::Sustain(close_sent(at, *signal)?)),
        OpenBody::Await(wait) => Ok(Body::Await(close_wait(at, wait)?)),
        OpenBody::Watched(watch, wait, p) => close_watched(at, *watch, wait, p),
        OpenBody::Present(test, p, q) => {
            let p = close_box(at, p)?;
            let q = close_box(at, q)?;
            Ok(Body::Present(close_test(at, test)?, p, q))
        }
        OpenBody::Loop(p) => Ok(Body::Loop(close_box(at, p)?)),
        OpenBody::LoopEach(test, p) => {
            let p = close_box(at, p)?;
            Ok(Body::LoopEach(close_test(at, test)?, p))
        }
        OpenBody::Trap(p) => Ok(Body::Trap(close_box(at, p)?)),
        OpenBody::Signal(count, p) => Ok(Body::Signal(*count, close_box(at, p)?)),
        OpenBody::Seq(p, q) => Ok(Body::Seq(close_box(at, p)?, close_box(at, q)?)),
        OpenBody::Par(p, q) => Ok(Body::Par(close_box(at, p)?, close_box(at, q)?)),
        OpenBody::Run(p, run) => close_run(at, p, run),
    }
}

/// A statement that waits for something while another runs, without runs.
#[cycle(close)]
fn close_watched(
    at: &CloseContext<'_>,
    watch: Watch,
    wait: &Wait,
    body: &OpenBody,
) -> Result<Body, AllocError>
    ensures { IfOk result (λ b. body_of b ≡ watched watch wait.now.immediate
        (query_meant (meant_by at.now.meanings.now) (query_view wait.now.test))
        (body_meant (meant_by at.now.meanings.now) (closed_of body.now))) }
{
    let p = close_box(at, body)?;
    Ok(watch.over(close_wait(at, wait)?, p))
}

/// The body of a run, without runs.
#[cycle(close)]
#[tactic(auto, using(crate::proofs::Meanings::meant_in))]
fn close_run(
    at: &CloseContext<'_>,
    body: &OpenBody,
    run: &SignalMeanings,
) -> Result<Body, AllocError>
    ensures { IfOk result (λ b. body_of b ≡ body_meant (meant_by at.now.meanings.now)
        (body_meant (meant_by run.now) (closed_of body.now))) }
{
    let meanings = inside(at.alloc, at.meanings, run)?;
    close(
        &CloseContext {
            alloc: at.alloc,
            meanings: &meanings,
        },
        body,
    )
}

/// A body without runs, in a box.
#[cycle(close)]
fn close_box(at: &CloseContext<'_>, body: &OpenBody) -> Result<Box<Body>, AllocError>
    ensures { IfOk result (λ b. body_of b.value ≡ body_meant (meant_by at.now.meanings.now)
        (closed_of body.now)) }
{
    Ok(Box::new(at.alloc, close(at, body)?)?)
}
