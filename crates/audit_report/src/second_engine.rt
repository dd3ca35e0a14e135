//! A second engine, asked for a step that is replayed.
//!
//! A step is replayed on the engine of its module, which may be the microstep engine. All engines
//! keep one promise, so they cannot differ; `audit_journals` asks the plain engine beside it, which
//! is far smaller. The outputs are compared, and the terms that the two next states leave.
ghost use Rattle.std.specs.Prelude.{◌≡◌, IfOk, IfErr, true, false};
ghost use Rattle.est_kernel.specs.declared.kernel.Kernel.{Kernel as KernelValue};
ghost use Rattle.est_meaning.specs.States.{state_term};
ghost use Rattle.reactor_core.specs.Instants.{HasNoOutcome, IsOutcome};
ghost use Rattle.reactor_core.specs.Left.{IsLeftOf};
ghost use Rattle.audit_report.specs.Inner.Asking.{IsSecondStepAnswer, IsSecondAnswer, LeavesSame};
ghost use Rattle.audit_report.specs.Inner.Asking.{LeavesOther, Holds, Fails};

use access_core::slot::Slot;
use est_kernel::kernel::Kernel;
use est_kernel::state::{Inputs, Outcome, State};
use est_left::order::is_in_order;
use est_left::states::is_same_state;
use est_rounds::engine::Engine;
use reactor_core::entry::{Move, PastInstant};
use reactor_core::laws::one_module;
use reactor_core::nesting::nests_locals;
use reactor_core::reactor::Reactor;

/// How deep local signals may nest for the second engine to be asked: for each further one the
/// plain engine takes twice as long.
const ASKED_LOCALS: u16 = 6;

/// What the second engine says of a move before it is replayed.
#[derive(Clone, Copy)]
pub(crate) enum SecondAnswer {
    /// It is not asked.
    NotAsked,
    /// It has no reaction, or one with other outputs than the entry keeps.
    Other,
    /// It has one with these outputs. Its next state says nothing of the slot's.
    SameOutputs,
    /// It has one with these outputs, and then this state.
    Same(State),
}

/// What this engine answers for the next instant of what is left to run: its outputs and its next
/// state, or the outputs that stay undecided.
fn ask<E: Engine>(
    engine: &mut E,
    reactor: &Reactor,
    kernel: &Kernel,
    state: &State,
) -> Result<Outcome, u64>
    requires engine { (e : E) (kernel : KernelValue) → E.is_for e kernel }
    requires left { IsLeftOf reactor.now kernel.now state.now }
    ensures ok { IfOk result (λ outcome. IsOutcome reactor.now outcome.outputs
        (state_term kernel.now.root outcome.next)) }
    ensures err { IfErr result (HasNoOutcome reactor.now) }
{
    one_module();
    let inputs = Inputs {
        signals: reactor.pending(),
    };
    match engine.react(kernel, state, &inputs) {
        Ok(outcome) => Ok(outcome),
        Err(stuck) => Err(stuck.undecided),
    }
}

/// What this engine says of a step of what runs that keeps these outputs. It is not asked where
/// local signals nest too deep. Where pauses are not numbered in text order, as in no module that
/// is loaded, its next state says nothing.
fn opinion_of_step<E: Engine>(engine: &mut E, reactor: &Reactor, outputs: u64) -> SecondAnswer
    requires { (e : E) (kernel : KernelValue) → E.is_for e kernel }
    ensures { IsSecondStepAnswer reactor.now outputs result }
{
    one_module();
    let (kernel, state) = reactor.state();
    if nests_locals(kernel.root(), ASKED_LOCALS) {
        return SecondAnswer::NotAsked;
    }
    match ask(engine, reactor, kernel, state) {
        Ok(outcome) => {
            if outcome.outputs != outputs {
                return SecondAnswer::Other;
            }
            if is_in_order(kernel.root()) {
                SecondAnswer::Same(outcome.next)
            } else {
                SecondAnswer::SameOutputs
            }
        }
        Err(_) => SecondAnswer::Other,
    }
}

/// What this engine says of a move, if it is a step of what runs in the slot.
pub(crate) fn opinion_of<E: Engine>(
    engine: &mut E,
    slot: &Slot,
    done: &Move<PastInstant>,
) -> SecondAnswer
    requires { (e : E) (kernel : KernelValue) → E.is_for e kernel }
    ensures { IsSecondAnswer slot.now.journal done.now result }
{
    let Some(reactor) = slot.reactor() else {
        return SecondAnswer::NotAsked;
    };
    match done.instant() {
        Some(stored) => opinion_of_step(engine, reactor, stored.outputs),
        None => SecondAnswer::NotAsked,
    }
}

/// Whether what runs in the slot leaves the term that this state stands for.
fn leaves(slot: &Slot, next: &State) -> bool
    ensures same { result ≡ true → LeavesSame slot.now.journal next.now }
    ensures other { result ≡ false → LeavesOther slot.now.journal next.now }
{
    let Some(reactor) = slot.reactor() else {
        return true;
    };
    let (kernel, state) = reactor.state();
    !is_in_order(kernel.root()) || is_same_state(kernel.root(), next, state)
}

impl SecondAnswer {
    /// Whether the slot is, after the move, as the opinion has it.
    pub(crate) fn holds_after(&self, slot: &Slot) -> bool
        ensures same { result ≡ true → Holds slot.now.journal self.now }
        ensures other { result ≡ false → Fails slot.now.journal self.now }
    {
        match self {
            SecondAnswer::NotAsked | SecondAnswer::SameOutputs => true,
            SecondAnswer::Other => false,
            SecondAnswer::Same(next) => leaves(slot, next),
        }
    }
}
