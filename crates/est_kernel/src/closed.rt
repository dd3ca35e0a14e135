//! Whether every name of a statement is bound.

ghost use Rattle.std.specs.Prelude.{◌≡◌, ◌↔◌, ℕ, IsTrue};
ghost use Rattle.est_kernel.specs.Inner.Counting.{Counts, TellsClosed, each_signal};
ghost use Rattle.est_kernel.specs.Inner.Counting.{each_signal_of_joint, is_seen};
ghost use Rattle.est_kernel.specs.Scope.{IsAsked, IsClosed, IsEmitted};
ghost use Rattle.est_kernel.specs.View.{joint_of, name_of, query_of, term_of};

use crate::interface::Interface;
use crate::mask;
use crate::statement::{Operands, Signal, Statement, Test};

/// Whether every name is bound: each signal by the interface or by a `signal` around it, each
/// `exit` by a trap around it. No signal that is an input alone is emitted. A local signal's number
/// is the number of local signals around its binder.
pub fn is_closed(interface: &Interface, s: &Statement) -> bool
    ensures { IsTrue result ↔ IsClosed interface.now 0 0 (term_of s.now) }
{
    is_closed_within(interface, 0, 0, s)
}

/// Whether the signal is of the interface, or one of `locals` local signals.
fn is_seen(interface: &Interface, locals: u32, s: Signal) -> bool
    ensures { (l : ℕ) → Counts l locals → result ≡ is_seen interface.now l (name_of s) }
{
    match s {
        Signal::Interface(s) => (s.index as usize) < interface.len(),
        Signal::Local(s) => (s.index as u32) < locals,
    }
}

/// Whether a test may be asked: each signal of it is visible.
fn is_asked(interface: &Interface, locals: u32, test: &Test) -> bool
    ensures { (l : ℕ) → Counts l locals → IsTrue result
        ↔ IsAsked interface.now l (query_of test.now) }
{
    asks_visible(interface, locals, test)
}

/// The same, as a test of each signal.
#[cycle(asks)]
fn asks_visible(interface: &Interface, locals: u32, test: &Test) -> bool
    ensures { (l : ℕ) → Counts l locals → result
        ≡ each_signal (is_seen interface.now l) (query_of test.now) }
{
    match test {
        Test::Tick => true,
        Test::Status(s) => is_seen(interface, locals, *s),
        Test::Not(t) => asks_visible(interface, locals, t),
        Test::Joined(_, operands) => all_ask_visible(interface, locals, operands),
    }
}

/// The same for operands.
#[cycle(asks)]
fn all_ask_visible(interface: &Interface, locals: u32, operands: &Operands) -> bool
    ensures { (l : ℕ) → Counts l locals
        → result ≡ each_signal_of_joint (is_seen interface.now l) (joint_of operands.now) }
{
    let mut all = asks_visible(interface, locals, &operands.first)
        && asks_visible(interface, locals, &operands.second);
    for test in &operands.later {
        all = all && asks_visible(interface, locals, test);
    }
    all
}

/// Whether the signal may be emitted: it is an output or an inputoutput, or one of `locals` local
/// signals.
fn is_emitted(interface: &Interface, locals: u32, s: Signal) -> bool
    ensures { (l : ℕ) → Counts l locals → IsTrue result ↔ IsEmitted interface.now l (name_of s) }
{
    match s {
        Signal::Interface(s) => mask::has(interface.emittable(), s.index),
        Signal::Local(s) => (s.index as u32) < locals,
    }
}

/// The same for a statement with `traps` traps and `locals` local signals around it. The counts
/// stop at the largest `u32`; no number in a statement is that large. Recursion is as deep as the
/// statement: at most 2,048 levels for one within the limit on statements.
fn is_closed_within(interface: &Interface, traps: u32, locals: u32, s: &Statement) -> bool
    ensures { TellsClosed result interface.now traps locals (term_of s.now) }
{
    match s {
        Statement::Nothing | Statement::Pause(_) => true,
        Statement::Emit(s) => is_emitted(interface, locals, *s),
        Statement::Present(t, p, q) => {
            is_asked(interface, locals, t)
                && is_closed_within(interface, traps, locals, p)
                && is_closed_within(interface, traps, locals, q)
        }
        Statement::Suspend(t, p) => {
            is_asked(interface, locals, t) && is_closed_within(interface, traps, locals, p)
        }
        Statement::Seq(p, q) | Statement::Par(p, q) => {
            is_closed_within(interface, traps, locals, p)
                && is_closed_within(interface, traps, locals, q)
        }
        Statement::Loop(p) => is_closed_within(interface, traps, locals, p),
        Statement::Trap(p) => is_closed_within(interface, traps.saturating_add(1), locals, p),
        Statement::Exit(k) => (k.index as u32) < traps,
        Statement::Local(s, p) => {
            s.index as u32 == locals
                && is_closed_within(interface, traps, locals.saturating_add(1), p)
        }
    }
}
