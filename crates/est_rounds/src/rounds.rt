//! Reactions by rounds over the signals that may be emitted.

ghost use Rattle.std.specs.Prelude.{◌≡◌, IfSome, IfNone, ℕ, cond};
ghost use Rattle.est_kernel.specs.Bits.{bits};
ghost use Rattle.est_kernel.specs.PauseNumbers.{has_pause};
ghost use Rattle.est_kernel.specs.declared.kernel.Kernel.{Kernel as KernelValue};
ghost use Rattle.est_meaning.specs.Rounds.{first_env, how_many};
ghost use Rattle.est_meaning.specs.States.{IsState};
ghost use Rattle.est_meaning.specs.Views.{env_of};
ghost use Rattle.est_rounds.specs.Contract.{judged_of};
ghost use Rattle.est_rounds.specs.Views.{acts_of, judged_by};
ghost use Rattle.est_rounds.specs.Judging.{can_by, must_by};
ghost use Rattle.est_rounds.specs.Inner.Learning.{IsKernelStep, IsLastRound, IsRound, is_left_open};
ghost use Rattle.est_rounds.specs.Inner.Learning.{term_left};
ghost use Rattle.est_rounds.specs.Inner.Steps.{IsClear, IsStuckBy, KeepsOthers};

use crate::acts::{Acts, MustCan};
use crate::engine::Engine;
use crate::judged::JudgedSignals;
use crate::resume::resume_sure;
use crate::resume_step::{Resumed, resume_step};
use crate::start::start_sure;
use crate::step::{Step, start_step};
use est_kernel::completion::Completion;
use est_kernel::kernel::Kernel;
use est_kernel::mask;
use est_kernel::pause_set::PauseSet;
use est_kernel::state::{Inputs, Outcome, State, Stuck};
use est_meaning::signal_set::{Env, SignalSet};

/// The signals that are judged for a kernel in an instant with these inputs: those that may be
/// emitted and are not offered.
fn judged_signals(kernel: &Kernel, inputs: u64) -> JudgedSignals
    ensures { judged_by result ≡ judged_of kernel.now (bits inputs) }
{
    let interface = kernel.interface();
    JudgedSignals {
        places: interface.len() as u8,
        signals: mask::difference(interface.emittable(), inputs),
    }
}

/// How many signals are judged.
fn judged_count(judged: JudgedSignals) -> u8
    ensures { result ≡ how_many (bits judged.signals) judged.places }
{
    let mut count = 0;
    for n in 0..judged.places {
        if mask::has(judged.signals, n) {
            count += 1;
        }
    }
    count
}

/// What is known before the first round.
fn first_known(judged: JudgedSignals, inputs: u64) -> Env
    ensures { env_of result ≡ first_env (judged_by judged) (bits inputs) }
{
    Env {
        present: SignalSet {
            interface: mask::difference(inputs, judged.signals),
            local: 0,
        },
        possible: SignalSet {
            interface: mask::union(judged.signals, inputs),
            local: 0,
        },
    }
}

/// What a kernel must do and can do from this state.
#[tactic(auto, using(est_kernel::proofs::FitsMasks::fits_within_limits))]
fn judge(kernel: &Kernel, state: &State, env: &Env) -> MustCan
    requires { IsState kernel.now.root state.now }
    ensures must { acts_of result.must ≡ must_by env.now (term_left kernel.now state.now) }
    ensures can { acts_of result.can ≡ can_by env.now (term_left kernel.now state.now) }
{
    match state {
        State::Fresh => start_sure(kernel.root(), env),
        State::Done => MustCan::exactly(Acts::just_code(Completion::End)),
        State::Paused(pauses) => match resume_sure(kernel.root(), pauses, env) {
            Some(judged) => judged,
            None => MustCan::exactly(Acts::just_code(Completion::End)),
        },
    }
}

/// Judged signals from `now`, all others from `before`.
fn judged_again(judged: JudgedSignals, before: u64, now: u64) -> u64
    ensures { (n : ℕ) → bits result n ≡ cond (bits judged.signals n) (bits now n) (bits before n) }
{
    mask::union(
        mask::difference(before, judged.signals),
        mask::intersection(judged.signals, now),
    )
}

/// What is known after one more round.
fn next_known(kernel: &Kernel, state: &State, judged: JudgedSignals, env: &Env) -> Env
    requires { IsState kernel.now.root state.now }
    ensures { IsRound kernel.now state.now judged env.now result }
{
    let acts = judge(kernel, state, env);
    Env {
        present: SignalSet {
            interface: judged_again(judged, env.present.interface, acts.must.signals.interface),
            local: env.present.local,
        },
        possible: SignalSet {
            interface: judged_again(judged, env.possible.interface, acts.can.signals.interface),
            local: env.possible.local,
        },
    }
}

/// What is known after the last round. It stops after a round that changes nothing.
fn last_known(kernel: &Kernel, state: &State, judged: JudgedSignals, inputs: u64) -> Env
    requires { IsState kernel.now.root state.now }
    ensures { IsLastRound kernel.now state.now judged inputs result }
{
    let mut env = first_known(judged, inputs);
    for i in 0..judged_count(judged) {
        let next = next_known(kernel, state, judged, &env);
        if next == env {
            return env;
        }
        env = next;
    }
    env
}

/// The judged signals that may be present and are not known to be.
fn undecided_of(judged: JudgedSignals, env: &Env) -> u64
    ensures { (n : ℕ) → bits result n ≡ is_left_open judged env.now n }
{
    mask::difference(
        mask::intersection(judged.signals, env.possible.interface),
        env.present.interface,
    )
}

/// The step of a kernel from this state, if the rules give one. `next` gets the pauses at which the
/// kernel then stands.
#[tactic(auto, using(est_kernel::proofs::FitsMasks::fits_within_limits))]
fn step_of(kernel: &Kernel, state: &State, env: &Env, next: &mut PauseSet) -> Option<Step>
    requires state { IsState kernel.now.root state.now }
    requires clear { IsClear kernel.now.root next.old }
    ensures some { IfSome result (λ r. IsKernelStep r kernel.now state.now env.now next.new) }
    ensures none { IfNone result (IsStuckBy env.now (term_left kernel.now state.now)) }
    ensures others { KeepsOthers (has_pause kernel.now.root) next.old next.new }
{
    match state {
        State::Fresh => start_step(kernel.root(), env, next),
        State::Done => Some(Step::quiet(Completion::End)),
        State::Paused(pauses) => match resume_step(kernel.root(), pauses, env, next) {
            Resumed::Moved(step) => Some(step),
            Resumed::Stuck => None,
            Resumed::Asleep => None,
        },
    }
}

/// The engine that judges all signals that may be emitted in rounds, each over the whole kernel.
///
/// A round judges each statement at most once, with two exceptions. A `signal` judges its body
/// twice, so a statement under n local signals is judged 2^n times: this engine is for kernels with
/// few of them. The body of a loop that starts again is judged once more.
#[derive(Clone, Copy)]
pub struct Rounds {}

impl Rounds {
    /// The engine, for every kernel. It takes no memory.
    pub fn new() -> Self
        ensures { (kernel : KernelValue) → ⟦<Rounds as Engine>⟧.is_for result kernel }
    {
        Rounds {}
    }
}

impl Engine for Rounds {
    ghost is_for = { λ _ _. Unit {0} };

    fn react(&mut self, kernel: &Kernel, state: &State, inputs: &Inputs) -> Result<Outcome, Stuck> {
        let judged = judged_signals(kernel, inputs.signals);
        let env = last_known(kernel, state, judged, inputs.signals);
        let mut next = PauseSet::new();
        match step_of(kernel, state, &env, &mut next) {
            Some(step) => Ok(Outcome {
                outputs: step.signals.interface,
                next: if step.completion.is_pause() {
                    State::Paused(next)
                } else {
                    State::Done
                },
            }),
            None => Err(Stuck {
                undecided: undecided_of(judged, &env),
            }),
        }
    }
}
