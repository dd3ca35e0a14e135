//! Each derived statement as a kernel statement: a function for each row of specs/Reductions.
ghost use Rattle.std.specs.Prelude.{◌≡◌, IfOk, false};
ghost use Rattle.est_kernel.specs.Term.{joined};
ghost use Rattle.est_kernel.specs.View.{term_of, name_of, query_of};
ghost use Rattle.est_reduce.specs.Inner.Sizes.{IsSmallJoint, IsSmallName, IsSmallQuery};
ghost use Rattle.est_reduce.specs.Reductions.{watching, until, halting, sustaining, awaiting};
ghost use Rattle.est_reduce.specs.Reductions.{suspending, aborting, weakly_aborting, looping_each};
ghost use Rattle.est_reduce.specs.Reductions.{doing_every};
ghost use Rattle.est_reduce.specs.Views.{bound_joint, bound_name, bound_query};

use crate::body::{BoundOperands, BoundSignal, BoundTest, Wait};
use est_kernel::statement::{Connective, InterfaceSignal, LocalSignal, Signal, Statement, Test};
use std::alloc::{AllocError, Global};

/// The signal, by a number that fits the kernel's type.
pub fn signal(bound: BoundSignal) -> Signal
    requires { IsSmallName (bound_name bound) }
    ensures { name_of result ≡ bound_name bound }
{
    match bound {
        BoundSignal::Outer(index) => Signal::Interface(InterfaceSignal { index: index as u8 }),
        BoundSignal::Inner(index) => Signal::Local(LocalSignal {
            index: index as u16,
        }),
    }
}

/// A copy of what is asked, by numbers that fit the kernel's types, or memory was refused.
/// Recursion is as deep as expressions are nested.
#[cycle(tests)]
pub fn test(alloc: Global, bound: &BoundTest) -> Result<Test, AllocError>
    requires small { IsSmallQuery (bound_query bound.now) }
    ensures { IfOk result (λ t. query_of t ≡ bound_query bound.now) }
{
    match bound {
        BoundTest::Tick => Ok(Test::Tick),
        BoundTest::Of(bound) => Ok(Test::Status(signal(*bound))),
        BoundTest::Not(t) => Test::negated(alloc, test(alloc, t)?),
        BoundTest::Joined(connective, operands) => joined(alloc, *connective, operands),
    }
}

/// A copy of operands with this connective between them.
#[cycle(tests)]
fn joined(
    alloc: Global,
    connective: Connective,
    operands: &BoundOperands,
) -> Result<Test, AllocError>
    requires small { IsSmallJoint (bound_joint operands.now) }
    ensures { IfOk result
        (λ t. query_of t ≡ joined connective (bound_joint operands.now).first
        (bound_joint operands.now).later) }
{
    let mut later = Vec::new(alloc);
    for bound in &operands.later {
        later.push(test(alloc, bound)?)?;
    }
    let first = test(alloc, &operands.first)?;
    let second = test(alloc, &operands.second)?;
    Test::joined(alloc, connective, first, second, later)
}

/// `halt`
pub fn halt(alloc: Global) -> Result<Statement, AllocError>
    ensures { IfOk result (λ s. term_of s ≡ halting) }
{
    Statement::repeat(alloc, Statement::pause())
}

/// `sustain S`
pub fn sustain(alloc: Global, signal: Signal) -> Result<Statement, AllocError>
    ensures { IfOk result (λ s. term_of s ≡ sustaining (name_of signal)) }
{
    let emitting = Statement::Emit(signal);
    Statement::repeat(alloc, Statement::seq(alloc, emitting, Statement::pause())?)
}

/// `loop pause; present S then exit T end end`, or the same that asks in the first instant too.
fn watch(alloc: Global, immediate: bool, test: Test) -> Result<Statement, AllocError>
    ensures { IfOk result (λ s. term_of s ≡ watching immediate (query_of test)) }
{
    let asking = Statement::present(alloc, test, Statement::exit(0), Statement::Nothing)?;
    let turn = if immediate {
        Statement::seq(alloc, asking, Statement::pause())?
    } else {
        Statement::seq(alloc, Statement::pause(), asking)?
    };
    Statement::repeat(alloc, turn)
}

/// `trap T in [p; exit T || q] end`
fn until(alloc: Global, p: Statement, q: Statement) -> Result<Statement, AllocError>
    ensures { IfOk result (λ s. term_of s ≡ until (term_of p) (term_of q)) }
{
    let ending = Statement::seq(alloc, p, Statement::exit(0))?;
    Statement::trap(alloc, Statement::par(alloc, ending, q)?)
}

/// `await S`
pub fn wait(alloc: Global, wait: &Wait) -> Result<Statement, AllocError>
    requires { IsSmallQuery (bound_query wait.now.test) }
    ensures { IfOk result (λ s. term_of s
        ≡ awaiting wait.now.immediate (bound_query wait.now.test)) }
{
    let asked = test(alloc, &wait.test)?;
    Statement::trap(alloc, watch(alloc, wait.immediate, asked)?)
}

/// `suspend p when S`
pub fn suspend(alloc: Global, wait: &Wait, p: Statement) -> Result<Statement, AllocError>
    requires { IsSmallQuery (bound_query wait.now.test) }
    ensures { IfOk result (λ s. term_of s
        ≡ suspending wait.now.immediate (bound_query wait.now.test) (term_of p)) }
{
    let asked = test(alloc, &wait.test)?;
    if wait.immediate {
        let first = test(alloc, &wait.test)?;
        let waiting = Statement::present(alloc, first, Statement::pause(), Statement::Nothing)?;
        Statement::suspend(alloc, asked, Statement::seq(alloc, waiting, p)?)
    } else {
        Statement::suspend(alloc, asked, p)
    }
}

/// `abort p when S`, which asks from the second instant on.
fn delayed_abort(alloc: Global, bound: &BoundTest, p: Statement) -> Result<Statement, AllocError>
    requires { IsSmallQuery (bound_query bound.now) }
    ensures { IfOk result (λ s. term_of s ≡ aborting false (bound_query bound.now) (term_of p)) }
{
    let body = Statement::suspend(alloc, test(alloc, bound)?, p)?;
    until(alloc, body, watch(alloc, false, test(alloc, bound)?)?)
}

/// `abort p when S`
pub fn abort(alloc: Global, wait: &Wait, p: Statement) -> Result<Statement, AllocError>
    requires { IsSmallQuery (bound_query wait.now.test) }
    ensures { IfOk result (λ s. term_of s
        ≡ aborting wait.now.immediate (bound_query wait.now.test) (term_of p)) }
{
    let aborted = delayed_abort(alloc, &wait.test, p)?;
    if wait.immediate {
        let asked = test(alloc, &wait.test)?;
        Statement::present(alloc, asked, Statement::Nothing, aborted)
    } else {
        Ok(aborted)
    }
}

/// `weak abort p when S`
pub fn weak_abort(alloc: Global, wait: &Wait, p: Statement) -> Result<Statement, AllocError>
    requires { IsSmallQuery (bound_query wait.now.test) }
    ensures { IfOk result (λ s. term_of s
        ≡ weakly_aborting wait.now.immediate (bound_query wait.now.test) (term_of p)) }
{
    let asked = test(alloc, &wait.test)?;
    until(alloc, p, watch(alloc, wait.immediate, asked)?)
}

/// `loop p each S`
pub fn loop_each(alloc: Global, bound: &BoundTest, p: Statement) -> Result<Statement, AllocError>
    requires { IsSmallQuery (bound_query bound.now) }
    ensures { IfOk result (λ s. term_of s ≡ looping_each (bound_query bound.now) (term_of p)) }
{
    let waiting = Statement::seq(alloc, p, halt(alloc)?)?;
    Statement::repeat(alloc, delayed_abort(alloc, bound, waiting)?)
}

/// `every S do p end`
pub fn every(alloc: Global, each: &Wait, p: Statement) -> Result<Statement, AllocError>
    requires { IsSmallQuery (bound_query each.now.test) }
    ensures { IfOk result (λ s. term_of s
        ≡ doing_every each.now.immediate (bound_query each.now.test) (term_of p)) }
{
    let waiting = wait(alloc, each)?;
    Statement::seq(alloc, waiting, loop_each(alloc, &each.test, p)?)
}
