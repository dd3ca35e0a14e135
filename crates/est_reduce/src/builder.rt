//! The kernel statement of a body.
ghost use Rattle.std.specs.Prelude.{◌≡◌, ◌<◌, ◌≤◌, ◌+◌, IfOk};
ghost use Rattle.est_kernel.specs.View.{term_of};
ghost use Rattle.est_reduce.specs.Inner.Exits.{leads};
ghost use Rattle.est_reduce.specs.Inner.Sizes.{IsSmall, IsSmallQuery};
ghost use Rattle.est_reduce.specs.Reductions.{reduced, binders, past_fresh, past_named};
ghost use Rattle.est_reduce.specs.Views.{body_of, bound_query};

use crate::body::Body;
use crate::pieces;
use est_kernel::statement::Statement;
use std::alloc::{AllocError, Global};

/// The traps around a statement, the innermost first: those of the text, and those that reductions
/// put around it.
#[derive(Clone, Copy)]
pub enum Exits<'a> {
    /// None.
    Outermost,
    /// A trap of the text.
    Named(&'a Exits<'a>),
    /// A fresh trap.
    Fresh(&'a Exits<'a>),
}

/// How many traps of the kernel lie between an exit and its trap. Recursion is as deep as there are
/// traps, which are statements.
fn exit_index(exits: &Exits<'_>, trap: u32) -> u16
    requires { leads exits.now trap < 65536 }
    ensures { result ≡ leads exits.now trap }
{
    match exits {
        Exits::Outermost => trap as u16,
        Exits::Named(outer) => {
            if trap == 0 {
                0
            } else {
                exit_index(outer, trap - 1) + 1
            }
        }
        Exits::Fresh(outer) => exit_index(outer, trap) + 1,
    }
}

/// The statement inside `count` binders. Recursion is `count` deep.
fn inside_binders(
    alloc: Global,
    locals: u32,
    count: u32,
    p: Statement,
) -> Result<Statement, AllocError>
    requires { locals + count ≤ 65536 }
    ensures { IfOk result (λ s. term_of s ≡ binders locals count (term_of p)) }
{
    if count == 0 {
        return Ok(p);
    }
    let inner = inside_binders(alloc, locals + 1, count - 1, p)?;
    Statement::local(alloc, locals as u16, inner)
}

/// Where a body stands.
#[derive(Clone, Copy)]
pub struct ReduceContext<'a> {
    /// Where memory for its statement is taken.
    pub alloc: Global,
    /// The traps around it.
    pub exits: &'a Exits<'a>,
    /// How many local signals lie around it.
    pub locals: u32,
}

/// The kernel statement of a body at a place. Recursion is as deep as the body, which comes to at
/// most 2,048 kernel statements when `reduce` asks.
#[cycle(statement)]
pub fn statement(place: &ReduceContext<'_>, body: &Body) -> Result<Statement, AllocError>
    requires room { place.now.locals ≤ 65536 }
    requires small { IsSmall (reduced (leads place.now.exits.now)
        place.now.locals (body_of body.now)) }
    ensures { IfOk result (λ s. term_of s
        ≡ reduced (leads place.now.exits.now) place.now.locals (body_of body.now)) }
{
    let alloc = place.alloc;
    match body {
        Body::Nothing => Ok(Statement::Nothing),
        Body::Pause => Ok(Statement::pause()),
        Body::Halt => pieces::halt(alloc),
        Body::Emit(signal) => Ok(Statement::Emit(pieces::signal(*signal))),
        Body::Sustain(signal) => pieces::sustain(alloc, pieces::signal(*signal)),
        Body::Exit(trap) => Ok(Statement::exit(exit_index(place.exits, *trap))),
        Body::Await(wait) => pieces::wait(alloc, wait),
        Body::Present(test, p, q) => {
            let test = pieces::test(alloc, test)?;
            Statement::present(alloc, test, statement(place, p)?, statement(place, q)?)
        }
        Body::Suspend(wait, p) => pieces::suspend(alloc, wait, statement(place, p)?),
        Body::Abort(wait, p) => pieces::abort(alloc, wait, reduce_in_fresh(place, p)?),
        Body::WeakAbort(wait, p) => pieces::weak_abort(alloc, wait, reduce_in_fresh(place, p)?),
        Body::Loop(p) => Statement::repeat(alloc, statement(place, p)?),
        Body::LoopEach(test, p) => pieces::loop_each(alloc, test, reduce_in_fresh(place, p)?),
        Body::Every(wait, p) => pieces::every(alloc, wait, reduce_in_fresh(place, p)?),
        Body::Trap(p) => Statement::trap(alloc, reduce_in_trap(place, p)?),
        Body::Signal(count, p) => {
            let inner = reduce_in_signals(place, *count, p)?;
            inside_binders(alloc, place.locals, *count, inner)
        }
        Body::Seq(p, q) => Statement::seq(alloc, statement(place, p)?, statement(place, q)?),
        Body::Par(p, q) => Statement::par(alloc, statement(place, p)?, statement(place, q)?),
    }
}

/// The kernel statement of a body with a fresh trap around it.
#[cycle(statement)]
fn reduce_in_fresh(place: &ReduceContext<'_>, body: &Body) -> Result<Statement, AllocError>
    requires room { place.now.locals ≤ 65536 }
    requires small { IsSmall (reduced (past_fresh (leads place.now.exits.now))
        place.now.locals (body_of body.now)) }
    ensures { IfOk result (λ s. term_of s
        ≡ reduced (past_fresh (leads place.now.exits.now)) place.now.locals (body_of body.now)) }
{
    let exits = Exits::Fresh(&*place.exits);
    let inside = ReduceContext {
        alloc: place.alloc,
        exits: &exits,
        locals: place.locals,
    };
    statement(&inside, body)
}

/// The kernel statement of a body with a trap of the text around it.
#[cycle(statement)]
fn reduce_in_trap(place: &ReduceContext<'_>, body: &Body) -> Result<Statement, AllocError>
    requires room { place.now.locals ≤ 65536 }
    requires small { IsSmall (reduced (past_named (leads place.now.exits.now))
        place.now.locals (body_of body.now)) }
    ensures { IfOk result (λ s. term_of s
        ≡ reduced (past_named (leads place.now.exits.now)) place.now.locals (body_of body.now)) }
{
    let exits = Exits::Named(&*place.exits);
    let inside = ReduceContext {
        alloc: place.alloc,
        exits: &exits,
        locals: place.locals,
    };
    statement(&inside, body)
}

/// The kernel statement of a body with `count` more local signals around it.
#[cycle(statement)]
fn reduce_in_signals(
    place: &ReduceContext<'_>,
    count: u32,
    body: &Body,
) -> Result<Statement, AllocError>
    requires room { place.now.locals + count ≤ 65536 }
    requires small { IsSmall (reduced (leads place.now.exits.now)
        (place.now.locals + count) (body_of body.now)) }
    ensures { IfOk result (λ s. term_of s
        ≡ reduced (leads place.now.exits.now) (place.now.locals + count) (body_of body.now)) }
{
    let inside = ReduceContext {
        alloc: place.alloc,
        exits: &*place.exits,
        locals: place.locals + count,
    };
    statement(&inside, body)
}
