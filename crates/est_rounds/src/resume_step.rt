//! The step of a statement that goes on from its pauses.
//!
//! Each function calls itself only on a part of its statement. A kernel has at most 2,048
//! statements, so recursion is no deeper.

ghost use Rattle.std.specs.Prelude.{◌<◌, ◌||◌};
ghost use Rattle.est_kernel.specs.Masks.{FitsMasks};
ghost use Rattle.est_kernel.specs.PauseNumbers.{has_pause, HasDistinctPauses, AreApart};
ghost use Rattle.est_meaning.specs.States.{IsExclusive};
ghost use Rattle.est_kernel.specs.Pauses.{pauses_of};
ghost use Rattle.est_kernel.specs.declared.statement.Statement.TheVariants.{Suspend', Seq', Loop'};
ghost use Rattle.est_kernel.specs.declared.statement.Statement.TheVariants.{Par', Trap', Local'};
ghost use Rattle.est_rounds.specs.Inner.Steps.{AreClear, AreExclusive, GoesOn, IsClear};
ghost use Rattle.est_rounds.specs.Inner.Steps.{KeepsOthers, TakeTurns, TakesOver};

use crate::answer::answer_to;
use crate::resume::{has_live, resume_sure};
use crate::step::{Step, both, start_step};
use est_kernel::completion::Completion;
use est_kernel::pause_set::PauseSet;
use est_kernel::statement::{LocalSignal, Statement, Test};
use est_meaning::signal_set::{self, Env};
use est_meaning::status::Status;

/// What a statement does as it goes on from its pauses.
#[derive(Clone, Copy)]
pub enum Resumed {
    /// It has no pause in the set.
    Asleep,
    /// The rules give it no step.
    Stuck,
    /// It takes this step.
    Moved(Step),
}

/// Of the pauses of the statement, the second set then has exactly those that the first has.
fn keep(s: &Statement, pauses: &PauseSet, next: &mut PauseSet)
    ensures { TakesOver s.now pauses.now next.old next.new }
{
    match s {
        Statement::Nothing => {}
        Statement::Pause(n) => {
            if pauses.has(*n) {
                next.insert(*n);
            } else {
                next.remove(*n);
            }
        }
        Statement::Emit(_) => {}
        Statement::Present(_, p, q) => {
            keep(p, pauses, next);
            keep(q, pauses, next);
        }
        Statement::Suspend(_, p) => keep(p, pauses, next),
        Statement::Seq(p, q) => {
            keep(p, pauses, next);
            keep(q, pauses, next);
        }
        Statement::Loop(p) => keep(p, pauses, next),
        Statement::Par(p, q) => {
            keep(p, pauses, next);
            keep(q, pauses, next);
        }
        Statement::Trap(p) => keep(p, pauses, next),
        Statement::Exit(_) => {}
        Statement::Local(_, p) => keep(p, pauses, next),
    }
}

/// What a statement does from its pauses. Where it moves, `next` gets the pauses at which it then
/// stands.
#[cycle(resume)]
pub fn resume_step(s: &Statement, pauses: &PauseSet, env: &Env, next: &mut PauseSet) -> Resumed
    requires fits { FitsMasks s.now }
    requires distinct { HasDistinctPauses s.now }
    requires exclusive { IsExclusive s.now (pauses_of pauses.now) }
    requires clear { IsClear s.now next.old }
    ensures resumed { GoesOn result s.now pauses.now env.now next.new }
    ensures others { KeepsOthers (has_pause s.now) next.old next.new }
{
    match s {
        Statement::Nothing => Resumed::Asleep,
        Statement::Pause(n) => {
            if pauses.has(*n) {
                Resumed::Moved(Step::quiet(Completion::End))
            } else {
                Resumed::Asleep
            }
        }
        Statement::Emit(_) => Resumed::Asleep,
        Statement::Present(_, p, q) => match resume_step(p, pauses, env, next) {
            Resumed::Asleep => resume_step(q, pauses, env, next),
            Resumed::Stuck => Resumed::Stuck,
            Resumed::Moved(step) => Resumed::Moved(step),
        },
        Statement::Suspend(t, p) => resume_suspend(t, p, pauses, env, next),
        Statement::Seq(p, q) => resume_seq(p, q, pauses, env, next),
        Statement::Loop(p) => resume_loop(p, pauses, env, next),
        Statement::Par(p, q) => resume_par(p, q, pauses, env, next),
        Statement::Trap(p) => resume_trap(p, pauses, env, next),
        Statement::Exit(_) => Resumed::Asleep,
        Statement::Local(s, p) => resume_local(*s, p, pauses, env, next),
    }
}

/// What `suspend p when t` does from its pauses.
#[cycle(resume)]
fn resume_suspend(
    t: &Test,
    p: &Statement,
    pauses: &PauseSet,
    env: &Env,
    next: &mut PauseSet,
) -> Resumed
    requires fits { FitsMasks p.now }
    requires distinct { HasDistinctPauses p.now }
    requires exclusive { IsExclusive p.now (pauses_of pauses.now) }
    requires clear { IsClear p.now next.old }
    ensures resumed { (x : _) → GoesOn result (Suspend' t.now x p.now) pauses.now env.now next.new }
    ensures others { KeepsOthers (has_pause p.now) next.old next.new }
{
    match answer_to(env, t) {
        Status::Absent => resume_step(p, pauses, env, next),
        Status::Present => {
            if has_live(p, pauses) {
                keep(p, pauses, next);
                Resumed::Moved(Step::quiet(Completion::Pause))
            } else {
                Resumed::Asleep
            }
        }
        Status::Unknown => {
            if has_live(p, pauses) {
                Resumed::Stuck
            } else {
                Resumed::Asleep
            }
        }
    }
}

/// What `p; q` does from its pauses.
#[cycle(resume)]
fn resume_seq(
    p: &Statement,
    q: &Statement,
    pauses: &PauseSet,
    env: &Env,
    next: &mut PauseSet,
) -> Resumed
    requires fits { FitsMasks p.now × FitsMasks q.now }
    requires distinct { HasDistinctPauses p.now × HasDistinctPauses q.now × AreApart p.now q.now }
    requires exclusive { TakeTurns p.now q.now pauses.now }
    requires clear { AreClear p.now q.now next.old }
    ensures resumed { (x y : _) → GoesOn result (Seq' x p.now y q.now) pauses.now env.now next.new }
    ensures others { KeepsOthers (λ i. has_pause p.now i || has_pause q.now i) next.old next.new }
{
    match resume_step(p, pauses, env, next) {
        Resumed::Asleep => resume_step(q, pauses, env, next),
        Resumed::Stuck => Resumed::Stuck,
        Resumed::Moved(first) => {
            if !first.completion.is_end() {
                return Resumed::Moved(first);
            }
            match start_step(q, env, next) {
                None => Resumed::Stuck,
                Some(second) => Resumed::Moved(first.then(second)),
            }
        }
    }
}

/// What `loop p end` does from its pauses.
#[cycle(resume)]
fn resume_loop(p: &Statement, pauses: &PauseSet, env: &Env, next: &mut PauseSet) -> Resumed
    requires fits { FitsMasks p.now }
    requires distinct { HasDistinctPauses p.now }
    requires exclusive { IsExclusive p.now (pauses_of pauses.now) }
    requires clear { IsClear p.now next.old }
    ensures resumed { (x : _) → GoesOn result (Loop' x p.now) pauses.now env.now next.new }
    ensures others { KeepsOthers (has_pause p.now) next.old next.new }
{
    match resume_step(p, pauses, env, next) {
        Resumed::Asleep => Resumed::Asleep,
        Resumed::Stuck => Resumed::Stuck,
        Resumed::Moved(first) => {
            if !first.completion.is_end() {
                return Resumed::Moved(first);
            }
            match start_step(p, env, next) {
                None => Resumed::Stuck,
                Some(again) => {
                    if again.completion.is_end() {
                        return Resumed::Stuck;
                    }
                    Resumed::Moved(first.then(again))
                }
            }
        }
    }
}

/// What `p || q` does from its pauses.
#[cycle(resume)]
fn resume_par(
    p: &Statement,
    q: &Statement,
    pauses: &PauseSet,
    env: &Env,
    next: &mut PauseSet,
) -> Resumed
    requires fits { FitsMasks p.now × FitsMasks q.now }
    requires distinct { HasDistinctPauses p.now × HasDistinctPauses q.now × AreApart p.now q.now }
    requires exclusive { AreExclusive p.now q.now pauses.now }
    requires clear { AreClear p.now q.now next.old }
    ensures resumed { (x y : _) → GoesOn result (Par' x p.now y q.now) pauses.now env.now next.new }
    ensures others { KeepsOthers (λ i. has_pause p.now i || has_pause q.now i) next.old next.new }
{
    match resume_step(p, pauses, env, next) {
        Resumed::Stuck => Resumed::Stuck,
        Resumed::Asleep => match resume_step(q, pauses, env, next) {
            Resumed::Asleep => Resumed::Asleep,
            Resumed::Stuck => Resumed::Stuck,
            Resumed::Moved(right) => Resumed::Moved(both(
                p,
                q,
                Step::quiet(Completion::End),
                right,
                next,
            )),
        },
        Resumed::Moved(left) => match resume_step(q, pauses, env, next) {
            Resumed::Asleep => Resumed::Moved(both(p, q, left, Step::quiet(Completion::End), next)),
            Resumed::Stuck => Resumed::Stuck,
            Resumed::Moved(right) => Resumed::Moved(both(p, q, left, right, next)),
        },
    }
}

/// What `trap p end` does from its pauses.
#[cycle(resume)]
fn resume_trap(p: &Statement, pauses: &PauseSet, env: &Env, next: &mut PauseSet) -> Resumed
    requires fits { FitsMasks p.now }
    requires distinct { HasDistinctPauses p.now }
    requires exclusive { IsExclusive p.now (pauses_of pauses.now) }
    requires clear { IsClear p.now next.old }
    ensures resumed { (x : _) → GoesOn result (Trap' x p.now) pauses.now env.now next.new }
    ensures others { KeepsOthers (has_pause p.now) next.old next.new }
{
    match resume_step(p, pauses, env, next) {
        Resumed::Asleep => Resumed::Asleep,
        Resumed::Stuck => Resumed::Stuck,
        Resumed::Moved(step) => Resumed::Moved(step.out_of_trap()),
    }
}

/// What `signal s in p end` does from its pauses.
#[cycle(resume)]
fn resume_local(
    s: LocalSignal,
    p: &Statement,
    pauses: &PauseSet,
    env: &Env,
    next: &mut PauseSet,
) -> Resumed
    requires fits { (s.index < 64) × FitsMasks p.now }
    requires distinct { HasDistinctPauses p.now }
    requires exclusive { IsExclusive p.now (pauses_of pauses.now) }
    requires clear { IsClear p.now next.old }
    ensures resumed { (x : _) → GoesOn result (Local' s x p.now) pauses.now env.now next.new }
    ensures others { KeepsOthers (has_pause p.now) next.old next.new }
{
    let open = signal_set::set_local(env, s, Status::Unknown);
    let first = match resume_sure(p, pauses, &open) {
        None => return Resumed::Asleep,
        Some(first) => first,
    };
    let status = first.status_of(s);
    if status == Status::Unknown {
        return Resumed::Stuck;
    }
    let known = signal_set::set_local(env, s, status);
    match resume_step(p, pauses, &known, next) {
        Resumed::Asleep => Resumed::Asleep,
        Resumed::Stuck => Resumed::Stuck,
        Resumed::Moved(step) => Resumed::Moved(step.hiding(s)),
    }
}
