//! Flat bodies: the statements of Pure Esterel with every name bound, without `run` and without
//! groups.
//!
//! Signals, local signals and traps are numbers, and no name is left. The numbers are wider than
//! those of the kernel: a module that main runs may declare more signals than a kernel's interface
//! may have, and main's body may pass a limit of the kernel. Which limit that is, `reduce` says.
//!
//! A body is a tree. Whatever walks it, its drop included, recurses as deep as the tree. The maker
//! of the tree bounds that depth: linking counts the statements of the linked module before it
//! makes a body of them, and a body of at most 2,048 statements is at most as deep. A level of such
//! a recursion takes some 1.8 KB of stack, so 2,048 levels stay under 4 MB.

ghost use Rattle.std.specs.Prelude.{◌≡◌, IfOk};

use est_kernel::statement::Connective;
use std::alloc::{AllocError, Global};

/// A signal that is bound.
#[derive(Clone, Copy, PartialEq, Eq, Debug)]
pub enum BoundSignal {
    /// A signal of the module's interface, by its place in the declaration, from 0.
    Outer(u32),
    /// A local signal, by how many local signals lie around its binder.
    Inner(u32),
}

/// What a statement asks: an expression over signals.
#[derive(Drop)]
#[cycle(tests)]
pub enum BoundTest {
    /// `tick`, which is present in every instant.
    Tick,
    /// Whether this signal is present.
    Of(BoundSignal),
    /// `not t`
    Not(Box<BoundTest>),
    /// `t and u and v`, `t or u or v`
    Joined(Connective, BoundOperands),
}

/// Two tests or more, with one connective between them. They are a list, so that recursion is no
/// deeper than expressions are nested.
#[derive(Drop)]
#[cycle(tests)]
pub struct BoundOperands {
    /// The first test.
    pub first: Box<BoundTest>,
    /// The second.
    pub second: Box<BoundTest>,
    /// The others, in their order.
    pub later: Vec<BoundTest>,
}

impl BoundTest {
    ghost use Rattle.std.specs.Prelude.{map};
    ghost use Rattle.est_kernel.specs.Term.{negated, joined};
    ghost use Rattle.est_kernel.specs.View.{queries_of};
    ghost use Rattle.est_reduce.specs.Views.{bound_query};

    /// `not t`, or memory was refused.
    pub fn negated(alloc: Global, t: BoundTest) -> Result<BoundTest, AllocError>
        ensures { IfOk result (λ n. bound_query n ≡ negated (bound_query t)) }
    {
        Ok(BoundTest::Not(Box::new(alloc, t)?))
    }

    /// Two tests or more with a connective between them, or memory was refused.
    pub fn joined(
        alloc: Global,
        connective: Connective,
        first: BoundTest,
        second: BoundTest,
        later: Vec<BoundTest>,
    ) -> Result<BoundTest, AllocError>
        ensures { IfOk result (λ j. bound_query j ≡ joined connective (bound_query first)
            (queries_of (bound_query second) (map bound_query later.items))) }
    {
        Ok(BoundTest::Joined(
            connective,
            BoundOperands {
                first: Box::new(alloc, first)?,
                second: Box::new(alloc, second)?,
                later,
            },
        ))
    }
}

/// What a statement waits for, or is watched by.
#[derive(Drop)]
pub struct Wait {
    /// Whether `immediate` is written: the test is asked in the first instant too.
    pub immediate: bool,
    /// What is asked.
    pub test: BoundTest,
}

/// The body of a module: a statement of Pure Esterel whose names are bound.
#[derive(Drop)]
pub enum Body {
    /// `nothing`; also a branch of `present` that is left out.
    Nothing,
    /// `pause`
    Pause,
    /// `halt`
    Halt,
    /// `emit S`
    Emit(BoundSignal),
    /// `sustain S`
    Sustain(BoundSignal),
    /// `exit T`, by how many traps of the text lie between the two.
    Exit(u32),
    /// `await S`, `await immediate S`
    Await(Wait),
    /// `present S then p else q end`
    Present(BoundTest, Box<Body>, Box<Body>),
    /// `suspend p when S`
    Suspend(Wait, Box<Body>),
    /// `abort p when S`
    Abort(Wait, Box<Body>),
    /// `weak abort p when S`
    WeakAbort(Wait, Box<Body>),
    /// `loop p end`
    Loop(Box<Body>),
    /// `loop p each S`
    LoopEach(BoundTest, Box<Body>),
    /// `every S do p end`
    Every(Wait, Box<Body>),
    /// `trap T in p end`
    Trap(Box<Body>),
    /// `signal A, B in p end`, by how many signals are declared: each lies inside the one before
    /// it.
    Signal(u32, Box<Body>),
    /// `p ; q`
    Seq(Box<Body>, Box<Body>),
    /// `p || q`
    Par(Box<Body>, Box<Body>),
}
