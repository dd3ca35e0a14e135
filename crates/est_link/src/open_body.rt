//! Bodies in which names are bound, and runs are not yet replaced.
//!
//! A run shares the body of its module with all other runs of it, so the statements of a module are
//! made once. Of its own it has a list: what each signal that the body has means there. `close`
//! replaces the runs.
//!
//! What goes over an open body calls itself as deep as that is, its drop too. No run leads to a
//! body that is itself a run (`ModuleBody::of`), so of two levels that follow each other one is a
//! statement. Main has at most 2,048 statements with all that it runs: at most 4,096 levels are
//! open.

use crate::signal_meanings::SignalMeanings;
use crate::watch::Watch;
use est_reduce::body::{BoundSignal, BoundTest, Wait};
use std::rc::Rc;

/// A body with open runs. It is `est_reduce`'s `Body`, with `Watched` for its `Suspend`, `Abort`,
/// `WeakAbort` and `Every`, and with `Run`.
#[derive(Drop)]
pub enum OpenBody {
    /// `nothing`; also a branch of `present` that is left out.
    Nothing,
    /// `pause`
    Pause,
    /// `halt`
    Halt,
    /// `emit S`
    Emit(BoundSignal),
    /// `sustain S`
    Sustain(BoundSignal),
    /// `exit T`, by how many traps of the text lie between the two.
    Exit(u32),
    /// `await S`, `await immediate S`
    Await(Wait),
    /// `present S then p else q end`
    Present(BoundTest, Box<OpenBody>, Box<OpenBody>),
    /// A statement that waits for something while another runs.
    Watched(Watch, Wait, Box<OpenBody>),
    /// `loop p end`
    Loop(Box<OpenBody>),
    /// `loop p each S`
    LoopEach(BoundTest, Box<OpenBody>),
    /// `trap T in p end`
    Trap(Box<OpenBody>),
    /// `signal A, B in p end`, by how many signals are declared.
    Signal(u32, Box<OpenBody>),
    /// `p ; q`
    Seq(Box<OpenBody>, Box<OpenBody>),
    /// `p || q`
    Par(Box<OpenBody>, Box<OpenBody>),
    /// `run M`, by the body of a module and what its signals mean here.
    Run(Rc<OpenBody>, SignalMeanings),
}
