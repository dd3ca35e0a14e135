//! Which signals of the interface may be emitted in an instant, by the pauses from which it goes
//! on. No test is asked: each branch counts.

ghost use Rattle.std.specs.Prelude.{◌≡◌, ◌||◌, ◌&&◌, ℕ, false, IfOk};
ghost use Rattle.est_kernel.specs.Bits.{bits};
ghost use Rattle.est_kernel.specs.Pauses.{pauses_of};
ghost use Rattle.est_kernel.specs.Term.{outer};
ghost use Rattle.est_kernel.specs.View.{name_of};
ghost use Rattle.est_kernel.specs.declared.statement.Statement.TheVariants.{Pause, Present', Seq'};
ghost use Rattle.est_kernel.specs.declared.statement.Statement.TheVariants.{Loop', Par'};
ghost use Rattle.est_meaning.specs.Signals.{same_name};
ghost use Rattle.est_meaning.specs.States.{IsState};
ghost use Rattle.est_net.specs.Reach.{HasEmissions, IsReachOf, from_pauses, from_state, may_emit};
ghost use Rattle.est_net.specs.Inner.Adding.{IsAdded};

use est_kernel::mask;
use est_kernel::pause_set::PauseSet;
use est_kernel::state::State;
use est_kernel::statement::{PauseIndex, Signal, Statement};
use std::alloc::{AllocError, Global};

/// What may be emitted after a statement, in the same instant: a bit for each signal of the
/// interface.
#[derive(Clone, Copy)]
struct Later {
    /// Where it ends.
    end: u64,
    /// Where it exits a trap around it.
    exit: u64,
}

/// A pause, and what may be emitted in an instant that goes on from it.
#[derive(Clone, Copy)]
pub struct FromPause {
    /// The pause.
    pub pause: PauseIndex,
    /// A bit for each signal of the interface.
    pub signals: u64,
}

/// What may be emitted in an instant: a bit for each signal of the interface.
#[derive(Drop)]
pub struct Reach {
    /// In the first instant.
    pub first: u64,
    /// For each pause after which something may be emitted.
    pub pauses: Vec<FromPause>,
}

/// The empty set.
fn no_signal() -> u64
    ensures { (n : ℕ) → bits result n ≡ false }
{
    0
}

/// The signal, if it is one of the interface.
fn of_interface(signal: Signal) -> u64
    ensures { (n : ℕ) → bits result n ≡ same_name (name_of signal) (outer n) }
{
    match signal {
        Signal::Interface(s) => mask::single(s.index),
        Signal::Local(_) => no_signal(),
    }
}

/// What may be emitted after the body of a trap: an exit may be of this trap or of one around it.
fn inside_trap(later: Later) -> Later
    ensures end { result.end ≡ later.end }
    ensures exit { (n : ℕ) → bits result.exit n ≡ (bits later.end n || bits later.exit n) }
{
    Later {
        end: later.end,
        exit: mask::union(later.end, later.exit),
    }
}

/// What may be emitted once a statement is begun, by it and after it. Recursion is as deep as the
/// statement is.
fn begun(s: &Statement, later: Later) -> u64
    ensures { (n : ℕ) → bits result n ≡ may_emit n s.now (bits later.end n) (bits later.exit n) }
{
    match s {
        Statement::Nothing => later.end,
        Statement::Pause(_) => no_signal(),
        Statement::Exit(_) => later.exit,
        Statement::Emit(signal) => mask::union(of_interface(*signal), later.end),
        Statement::Present(_, p, q) | Statement::Par(p, q) => {
            mask::union(begun(p, later), begun(q, later))
        }
        Statement::Suspend(_, p) | Statement::Loop(p) | Statement::Local(_, p) => begun(p, later),
        Statement::Seq(p, q) => {
            let end = begun(q, later);
            begun(p, Later { end, ..later })
        }
        Statement::Trap(p) => begun(p, inside_trap(later)),
    }
}

/// Adds a pause, or memory was refused. One after which nothing may be emitted is left out.
/// Beginning a pause emits nothing.
fn add_pause(
    pauses: &mut Vec<FromPause>,
    pause: PauseIndex,
    later: Later,
) -> Result<u64, AllocError>
    ensures { IfOk result (IsAdded (Pause pause) (bits later.end) (bits later.exit)
        pauses.old.items pauses.new.items) }
{
    let none = no_signal();
    if later.end == none {
        return Ok(none);
    }
    let from = FromPause {
        pause,
        signals: later.end,
    };
    pauses.push(from)?;
    Ok(none)
}

/// Adds the pauses of two parts of which each may be begun, or memory was refused.
#[cycle(add_pauses)]
fn add_pauses_of_two(
    pauses: &mut Vec<FromPause>,
    p: &Statement,
    q: &Statement,
    later: Later,
) -> Result<u64, AllocError>
    ensures present { IfOk result (λ signals. (t a b : _)
        → IsAdded (Present' t a p.now b q.now) (bits later.end) (bits later.exit)
        pauses.old.items pauses.new.items signals) }
    ensures par { IfOk result (λ signals. (a b : _)
        → IsAdded (Par' a p.now b q.now) (bits later.end) (bits later.exit)
        pauses.old.items pauses.new.items signals) }
{
    let first = add_pauses(pauses, p, later)?;
    let second = add_pauses(pauses, q, later)?;
    Ok(mask::union(first, second))
}

/// Adds the pauses of a `;`, or memory was refused.
#[cycle(add_pauses)]
fn add_seq(
    pauses: &mut Vec<FromPause>,
    p: &Statement,
    q: &Statement,
    later: Later,
) -> Result<u64, AllocError>
    ensures { IfOk result (λ signals. (a b : _)
        → IsAdded (Seq' a p.now b q.now) (bits later.end) (bits later.exit)
        pauses.old.items pauses.new.items signals) }
{
    let end = add_pauses(pauses, q, later)?;
    let first = add_pauses(pauses, p, Later { end, ..later })?;
    Ok(first)
}

/// Adds the pauses of a loop, or memory was refused.
#[cycle(add_pauses)]
fn add_loop(pauses: &mut Vec<FromPause>, p: &Statement, later: Later) -> Result<u64, AllocError>
    ensures { IfOk result (λ signals. (a : _)
        → IsAdded (Loop' a p.now) (bits later.end) (bits later.exit)
        pauses.old.items pauses.new.items signals) }
{
    let end = begun(p, later);
    add_pauses(pauses, p, Later { end, ..later })?;
    Ok(end)
}

/// Adds the pauses of a statement, or memory was refused. Answers what may be emitted once the
/// statement is begun. Recursion is as deep as the statement is.
#[cycle(add_pauses)]
fn add_pauses(pauses: &mut Vec<FromPause>, s: &Statement, later: Later) -> Result<u64, AllocError>
    ensures { IfOk result (IsAdded s.now (bits later.end) (bits later.exit)
        pauses.old.items pauses.new.items) }
{
    match s {
        Statement::Nothing => Ok(begun(s, later)),
        Statement::Emit(_) => Ok(begun(s, later)),
        Statement::Exit(_) => Ok(begun(s, later)),
        Statement::Pause(pause) => add_pause(pauses, *pause, later),
        Statement::Present(_, p, q) => add_pauses_of_two(pauses, p, q, later),
        Statement::Par(p, q) => add_pauses_of_two(pauses, p, q, later),
        Statement::Suspend(_, p) => add_pauses(pauses, p, later),
        Statement::Local(_, p) => add_pauses(pauses, p, later),
        Statement::Seq(p, q) => add_seq(pauses, p, q, later),
        Statement::Loop(p) => add_loop(pauses, p, later),
        Statement::Trap(p) => add_pauses(pauses, p, inside_trap(later)),
    }
}

/// What a pause adds, if it is one of these.
fn share(from: FromPause, pauses: &PauseSet) -> u64
    ensures { (n : ℕ) → bits result n
        ≡ (pauses_of pauses.now from.pause.index && bits from.signals n) }
{
    if pauses.has(from.pause) {
        from.signals
    } else {
        no_signal()
    }
}

impl Reach {
    /// What may be emitted by a statement, or memory was refused.
    pub fn of(alloc: Global, s: &Statement) -> Result<Reach, AllocError>
        ensures { IfOk result (λ reach. IsReachOf reach s.now) }
    {
        let mut pauses = Vec::new(alloc);
        let nothing = Later {
            end: no_signal(),
            exit: no_signal(),
        };
        let first = add_pauses(&mut pauses, s, nothing)?;
        Ok(Reach { first, pauses })
    }

    /// What may be emitted in an instant that goes on from these pauses.
    fn from_pauses(&self, pauses: &PauseSet) -> u64
        ensures { (n : ℕ) → bits result n
            ≡ from_pauses self.now.pauses.items (pauses_of pauses.now) n }
    {
        let mut signals = no_signal();
        for from in &self.pauses {
            signals = mask::union(signals, share(*from, pauses));
        }
        signals
    }

    /// What may be emitted in an instant that begins in this state. Nothing else is emitted in it.
    pub fn from_state(&self, state: &State) -> u64
        ensures told { (n : ℕ) → bits result n ≡ from_state self.now state.now n }
        ensures emissions { (s : _) → IsReachOf self.now s → IsState s state.now
            → HasEmissions s state.now (bits result) }
    {
        match state {
            State::Fresh => self.first,
            State::Done => no_signal(),
            State::Paused(pauses) => self.from_pauses(pauses),
        }
    }
}
