//! The step of a statement that is begun: what it emits, its completion code, and the pauses at
//! which it then stands.
//!
//! Each function calls itself only on a part of its statement. A kernel has at most 2,048
//! statements, so recursion is no deeper.

ghost use Rattle.std.specs.Prelude.{◌≡◌, ◌≢◌, ◌<◌, ℕ, not, ◌&&◌, ◌||◌, nat_eq, max, IfNone};
ghost use Rattle.est_kernel.specs.Codes.{code_out_of_trap};
ghost use Rattle.est_kernel.specs.CodeViews.{code_of};
ghost use Rattle.est_kernel.specs.Masks.{FitsMasks};
ghost use Rattle.est_kernel.specs.PauseNumbers.{has_pause, HasDistinctPauses, AreApart};
ghost use Rattle.est_kernel.specs.View.{term_of};
ghost use Rattle.est_meaning.specs.States.{is_live};
ghost use Rattle.est_kernel.specs.Pauses.{pauses_of};
ghost use Rattle.est_kernel.specs.Term.{par, seq, signal, trap};
ghost use Rattle.est_kernel.specs.declared.statement.Statement.TheVariants.{Local', Par', Seq'};
ghost use Rattle.est_kernel.specs.declared.statement.Statement.TheVariants.{Trap'};
ghost use Rattle.est_meaning.specs.Signals.{no_signals, union, without};
ghost use Rattle.est_meaning.specs.Views.{set_of};
ghost use Rattle.est_rounds.specs.Inner.Steps.{AreClear, HaveSamePauses, IfBegun, IsClear};
ghost use Rattle.est_rounds.specs.Inner.Steps.{IsStuckBy, KeepsAllBut, KeepsOthers, emitted};
ghost use Rattle.est_rounds.specs.Inner.Steps.{greater_code};

use crate::answer::answer_to;
use crate::start::start_sure;
use est_kernel::completion::Completion;
use est_kernel::pause_set::PauseSet;
use est_kernel::statement::{LocalSignal, Statement};
use est_meaning::signal_set::{self, Env, SignalSet};
use est_meaning::status::Status;

/// The signals that are emitted, and how the statement completes.
#[derive(Clone, Copy)]
pub struct Step {
    /// The signals that are emitted.
    pub signals: SignalSet,
    /// How the statement completes.
    pub completion: Completion,
}

impl Step {
    /// The step that emits nothing and completes so.
    pub fn quiet(completion: Completion) -> Step
        ensures signals { set_of result.signals ≡ no_signals }
        ensures completion { result.completion ≡ completion }
    {
        Step {
            signals: signal_set::no_signal(),
            completion,
        }
    }

    /// The step of a part that has ended and of the part after it.
    pub fn then(self, next: Step) -> Step
        ensures signals { emitted result ≡ union (emitted self) (emitted next) }
        ensures completion { result.completion ≡ next.completion }
    {
        Step {
            signals: signal_set::union_of(self.signals, next.signals),
            completion: next.completion,
        }
    }

    /// The step as it is seen outside a trap.
    pub fn out_of_trap(self) -> Step
        ensures signals { result.signals ≡ self.signals }
        ensures code { code_of result.completion ≡ code_out_of_trap (code_of self.completion) }
    {
        Step {
            signals: self.signals,
            completion: self.completion.out_of_trap(),
        }
    }

    /// The step as it is seen outside the binder of this local signal.
    pub fn hiding(self, s: LocalSignal) -> Step
        requires { s.index < 64 }
        ensures signals { set_of result.signals ≡ without s.index (set_of self.signals) }
        ensures completion { result.completion ≡ self.completion }
    {
        Step {
            signals: signal_set::all_but(s, self.signals),
            completion: self.completion,
        }
    }
}

/// Takes the pauses of a statement out of the set.
fn clear(s: &Statement, next: &mut PauseSet)
    ensures { (i : ℕ) → pauses_of next.new i ≡ (not (has_pause s.now i) && pauses_of next.old i) }
{
    match s {
        Statement::Nothing => {}
        Statement::Pause(n) => next.remove(*n),
        Statement::Emit(_) => {}
        Statement::Present(_, p, q) => {
            clear(p, next);
            clear(q, next);
        }
        Statement::Suspend(_, p) => clear(p, next),
        Statement::Seq(p, q) => {
            clear(p, next);
            clear(q, next);
        }
        Statement::Loop(p) => clear(p, next),
        Statement::Par(p, q) => {
            clear(p, next);
            clear(q, next);
        }
        Statement::Trap(p) => clear(p, next),
        Statement::Exit(_) => {}
        Statement::Local(_, p) => clear(p, next),
    }
}

/// How a parallel completes, by its sides: with the greater code.
fn greater(left: Completion, right: Completion) -> Completion
    ensures { code_of result ≡ max (code_of left) (code_of right) }
{
    left.greater(right)
}

/// The step of both sides of a parallel. Where it does not pause, a side that has paused is given
/// up.
pub fn both(p: &Statement, q: &Statement, left: Step, right: Step, next: &mut PauseSet) -> Step
    requires apart { AreApart p.now q.now }
    requires left { is_live p.now (pauses_of next.old) ≡ nat_eq (code_of left.completion) 1 }
    requires right { is_live q.now (pauses_of next.old) ≡ nat_eq (code_of right.completion) 1 }
    ensures signals { emitted result ≡ union (emitted left) (emitted right) }
    ensures code { code_of result.completion ≡ greater_code left right }
    ensures kept { code_of result.completion ≡ 1 → HaveSamePauses next.old next.new }
    ensures left_ended { code_of result.completion ≢ 1 → IsClear p.now next.new }
    ensures right_ended { code_of result.completion ≢ 1 → IsClear q.now next.new }
    ensures others { KeepsAllBut p.now q.now next.old next.new }
{
    let completion = greater(left.completion, right.completion);
    if !completion.is_pause() {
        if left.completion.is_pause() {
            clear(p, next);
        } else if right.completion.is_pause() {
            clear(q, next);
        }
    }
    Step {
        signals: signal_set::union_of(left.signals, right.signals),
        completion,
    }
}

/// The step of a statement that is begun, if the rules give one.
#[cycle(begin)]
pub fn start_step(s: &Statement, env: &Env, next: &mut PauseSet) -> Option<Step>
    requires fits { FitsMasks s.now }
    requires distinct { HasDistinctPauses s.now }
    requires clear { IsClear s.now next.old }
    ensures some { IfBegun result s.now env.now next.new }
    ensures none { IfNone result (IsStuckBy env.now (term_of s.now)) }
    ensures others { KeepsOthers (has_pause s.now) next.old next.new }
{
    match s {
        Statement::Nothing => Some(Step::quiet(Completion::End)),
        Statement::Pause(n) => {
            next.insert(*n);
            Some(Step::quiet(Completion::Pause))
        }
        Statement::Emit(s) => Some(Step {
            signals: signal_set::only_signal(*s),
            completion: Completion::End,
        }),
        Statement::Present(t, p, q) => match answer_to(env, t) {
            Status::Present => start_step(p, env, next),
            Status::Absent => start_step(q, env, next),
            Status::Unknown => None,
        },
        Statement::Suspend(_, p) => start_step(p, env, next),
        Statement::Seq(p, q) => start_seq(p, q, env, next),
        Statement::Loop(p) => {
            let first = start_step(p, env, next)?;
            if first.completion.is_end() {
                None
            } else {
                Some(first)
            }
        }
        Statement::Par(p, q) => start_par(p, q, env, next),
        Statement::Trap(p) => start_trap(p, env, next),
        Statement::Exit(k) => Some(Step::quiet(Completion::Exit(*k))),
        Statement::Local(s, p) => start_local(*s, p, env, next),
    }
}

/// The step of `p; q` that is begun, if the rules give one.
#[cycle(begin)]
fn start_seq(p: &Statement, q: &Statement, env: &Env, next: &mut PauseSet) -> Option<Step>
    requires fits { FitsMasks p.now × FitsMasks q.now }
    requires distinct { HasDistinctPauses p.now × HasDistinctPauses q.now × AreApart p.now q.now }
    requires clear { AreClear p.now q.now next.old }
    ensures some { (x y : _) → IfBegun result (Seq' x p.now y q.now) env.now next.new }
    ensures none { IfNone result (IsStuckBy env.now (seq (term_of p.now) (term_of q.now))) }
    ensures others { KeepsOthers (λ i. has_pause p.now i || has_pause q.now i) next.old next.new }
{
    let first = start_step(p, env, next)?;
    if first.completion.is_end() {
        Some(first.then(start_step(q, env, next)?))
    } else {
        Some(first)
    }
}

/// The step of `p || q` that is begun, if the rules give one.
#[cycle(begin)]
fn start_par(p: &Statement, q: &Statement, env: &Env, next: &mut PauseSet) -> Option<Step>
    requires fits { FitsMasks p.now × FitsMasks q.now }
    requires distinct { HasDistinctPauses p.now × HasDistinctPauses q.now × AreApart p.now q.now }
    requires clear { AreClear p.now q.now next.old }
    ensures some { (x y : _) → IfBegun result (Par' x p.now y q.now) env.now next.new }
    ensures none { IfNone result (IsStuckBy env.now (par (term_of p.now) (term_of q.now))) }
    ensures others { KeepsOthers (λ i. has_pause p.now i || has_pause q.now i) next.old next.new }
{
    let left = start_step(p, env, next)?;
    let right = start_step(q, env, next)?;
    Some(both(p, q, left, right, next))
}

/// The step of `trap p end` that is begun, if the rules give one.
#[cycle(begin)]
fn start_trap(p: &Statement, env: &Env, next: &mut PauseSet) -> Option<Step>
    requires fits { FitsMasks p.now }
    requires distinct { HasDistinctPauses p.now }
    requires clear { IsClear p.now next.old }
    ensures some { (x : _) → IfBegun result (Trap' x p.now) env.now next.new }
    ensures none { IfNone result (IsStuckBy env.now (trap (term_of p.now))) }
    ensures others { KeepsOthers (has_pause p.now) next.old next.new }
{
    Some(start_step(p, env, next)?.out_of_trap())
}

/// The step of `signal s in p end` that is begun, if the rules give one.
#[cycle(begin)]
fn start_local(s: LocalSignal, p: &Statement, env: &Env, next: &mut PauseSet) -> Option<Step>
    requires fits { (s.index < 64) × FitsMasks p.now }
    requires distinct { HasDistinctPauses p.now }
    requires clear { IsClear p.now next.old }
    ensures some { (x : _) → IfBegun result (Local' s x p.now) env.now next.new }
    ensures none { IfNone result (IsStuckBy env.now (signal s.index (term_of p.now))) }
    ensures others { KeepsOthers (has_pause p.now) next.old next.new }
{
    let open = signal_set::set_local(env, s, Status::Unknown);
    let status = start_sure(p, &open).status_of(s);
    if status == Status::Unknown {
        return None;
    }
    let known = signal_set::set_local(env, s, status);
    Some(start_step(p, &known, next)?.hiding(s))
}
