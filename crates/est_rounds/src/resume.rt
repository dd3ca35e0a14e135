//! What a statement that goes on from its pauses must do and can do.
//!
//! Each function calls itself only on a part of its statement. A kernel has at most 2,048
//! statements, so recursion is no deeper.

ghost use Rattle.std.specs.Prelude.{◌≡◌, ◌<◌};
ghost use Rattle.est_kernel.specs.Masks.{FitsMasks};
ghost use Rattle.est_kernel.specs.Pauses.{pauses_of};
ghost use Rattle.est_kernel.specs.declared.statement.Statement.TheVariants.{Suspend', Seq', Loop'};
ghost use Rattle.est_kernel.specs.declared.statement.Statement.TheVariants.{Par', Trap', Local'};
ghost use Rattle.est_meaning.specs.States.{is_live};
ghost use Rattle.est_rounds.specs.Judging.{Judges, JudgesInDoubt};

use crate::acts::{Acts, MustCan};
use crate::answer::answer_to;
use crate::start::{then_start, then_start_maybe};
use est_kernel::completion::Completion;
use est_kernel::pause_set::PauseSet;
use est_kernel::statement::{LocalSignal, Statement, Test};
use est_meaning::signal_set::{self, Env};
use est_meaning::status::Status;

/// Whether a pause of the statement is in the set.
pub fn has_live(s: &Statement, pauses: &PauseSet) -> bool
    ensures { result ≡ is_live s.now (pauses_of pauses.now) }
{
    match s {
        Statement::Nothing => false,
        Statement::Pause(n) => pauses.has(*n),
        Statement::Emit(_) => false,
        Statement::Present(_, p, q) => has_live(p, pauses) || has_live(q, pauses),
        Statement::Suspend(_, p) => has_live(p, pauses),
        Statement::Seq(p, q) => has_live(p, pauses) || has_live(q, pauses),
        Statement::Loop(p) => has_live(p, pauses),
        Statement::Par(p, q) => has_live(p, pauses) || has_live(q, pauses),
        Statement::Trap(p) => has_live(p, pauses),
        Statement::Exit(_) => false,
        Statement::Local(_, p) => has_live(p, pauses),
    }
}

/// What a statement can do as it goes on (mode `maybe`). There is no answer where
/// it has no pause in the set.
#[cycle(doubt)]
pub fn resume_maybe(s: &Statement, pauses: &PauseSet, env: &Env) -> Option<Acts>
    requires fits { FitsMasks s.now }
    ensures { JudgesInDoubt result s.now pauses.now env.now }
{
    match s {
        Statement::Nothing => None,
        Statement::Pause(n) => {
            if pauses.has(*n) {
                Some(Acts::just_code(Completion::End))
            } else {
                None
            }
        }
        Statement::Emit(_) => None,
        Statement::Present(_, p, q) => match resume_maybe(p, pauses, env) {
            Some(acts) => Some(acts),
            None => resume_maybe(q, pauses, env),
        },
        Statement::Suspend(t, p) => suspend_maybe(t, p, pauses, env),
        Statement::Seq(p, q) => seq_maybe(p, q, pauses, env),
        Statement::Loop(p) => loop_maybe(p, pauses, env),
        Statement::Par(p, q) => resume_par_maybe(p, q, pauses, env),
        Statement::Trap(p) => resume_trap_maybe(p, pauses, env),
        Statement::Exit(_) => None,
        Statement::Local(s, p) => resume_local_maybe(*s, p, pauses, env),
    }
}

/// What `suspend p when t` can do as it goes on (mode `maybe`).
#[cycle(doubt)]
fn suspend_maybe(t: &Test, p: &Statement, pauses: &PauseSet, env: &Env) -> Option<Acts>
    requires fits { FitsMasks p.now }
    ensures { (x : _) → JudgesInDoubt result (Suspend' t.now x p.now) pauses.now env.now }
{
    match answer_to(env, t) {
        Status::Present => {
            if has_live(p, pauses) {
                Some(Acts::just_code(Completion::Pause))
            } else {
                None
            }
        }
        Status::Absent => resume_maybe(p, pauses, env),
        Status::Unknown => Some(resume_maybe(p, pauses, env)?.or_stays()),
    }
}

/// What `p; q` can do as it goes on (mode `maybe`).
#[cycle(doubt)]
fn seq_maybe(p: &Statement, q: &Statement, pauses: &PauseSet, env: &Env) -> Option<Acts>
    requires fits { FitsMasks p.now × FitsMasks q.now }
    ensures { (x y : _) → JudgesInDoubt result (Seq' x p.now y q.now) pauses.now env.now }
{
    match resume_maybe(p, pauses, env) {
        Some(first) => Some(then_start_maybe(first, q, env)),
        None => resume_maybe(q, pauses, env),
    }
}

/// What `loop p end` can do as it goes on (mode `maybe`).
#[cycle(doubt)]
fn loop_maybe(p: &Statement, pauses: &PauseSet, env: &Env) -> Option<Acts>
    requires fits { FitsMasks p.now }
    ensures { (x : _) → JudgesInDoubt result (Loop' x p.now) pauses.now env.now }
{
    let first = resume_maybe(p, pauses, env)?;
    Some(then_start_maybe(first, p, env))
}

/// What `p || q` can do as it goes on (mode `maybe`).
#[cycle(doubt)]
fn resume_par_maybe(p: &Statement, q: &Statement, pauses: &PauseSet, env: &Env) -> Option<Acts>
    requires fits { FitsMasks p.now × FitsMasks q.now }
    ensures { (x y : _) → JudgesInDoubt result (Par' x p.now y q.now) pauses.now env.now }
{
    match (resume_maybe(p, pauses, env), resume_maybe(q, pauses, env)) {
        (None, None) => None,
        (Some(left), None) => Some(left.beside(Acts::just_code(Completion::End))),
        (None, Some(right)) => Some(Acts::just_code(Completion::End).beside(right)),
        (Some(left), Some(right)) => Some(left.beside(right)),
    }
}

/// What `trap p end` can do as it goes on (mode `maybe`).
#[cycle(doubt)]
fn resume_trap_maybe(p: &Statement, pauses: &PauseSet, env: &Env) -> Option<Acts>
    requires fits { FitsMasks p.now }
    ensures { (x : _) → JudgesInDoubt result (Trap' x p.now) pauses.now env.now }
{
    Some(resume_maybe(p, pauses, env)?.out_of_trap())
}

/// What `signal s in p end` can do as it goes on (mode `maybe`).
#[cycle(doubt)]
fn resume_local_maybe(s: LocalSignal, p: &Statement, pauses: &PauseSet, env: &Env) -> Option<Acts>
    requires fits { (s.index < 64) × FitsMasks p.now }
    ensures { (x : _) → JudgesInDoubt result (Local' s x p.now) pauses.now env.now }
{
    let open = signal_set::set_local(env, s, Status::Unknown);
    let first = resume_maybe(p, pauses, &open)?;
    let known = signal_set::set_local(env, s, first.status_in_doubt(s));
    Some(resume_maybe(p, pauses, &known)?.hiding(s))
}

/// What a statement must do and can do as it goes on. There is no answer where it has no pause in
/// the set.
#[cycle(sure)]
pub fn resume_sure(s: &Statement, pauses: &PauseSet, env: &Env) -> Option<MustCan>
    requires fits { FitsMasks s.now }
    ensures { Judges result s.now pauses.now env.now }
{
    match s {
        Statement::Nothing => None,
        Statement::Pause(n) => {
            if pauses.has(*n) {
                Some(MustCan::exactly(Acts::just_code(Completion::End)))
            } else {
                None
            }
        }
        Statement::Emit(_) => None,
        Statement::Present(_, p, q) => match resume_sure(p, pauses, env) {
            Some(judged) => Some(judged),
            None => resume_sure(q, pauses, env),
        },
        Statement::Suspend(t, p) => suspend_sure(t, p, pauses, env),
        Statement::Seq(p, q) => seq_sure(p, q, pauses, env),
        Statement::Loop(p) => loop_sure(p, pauses, env),
        Statement::Par(p, q) => resume_par_sure(p, q, pauses, env),
        Statement::Trap(p) => resume_trap_sure(p, pauses, env),
        Statement::Exit(_) => None,
        Statement::Local(s, p) => resume_local_sure(*s, p, pauses, env),
    }
}

/// What `suspend p when t` must do and can do as it goes on.
#[cycle(sure)]
fn suspend_sure(t: &Test, p: &Statement, pauses: &PauseSet, env: &Env) -> Option<MustCan>
    requires fits { FitsMasks p.now }
    ensures { (x : _) → Judges result (Suspend' t.now x p.now) pauses.now env.now }
{
    match answer_to(env, t) {
        Status::Present => {
            if has_live(p, pauses) {
                Some(MustCan::exactly(Acts::just_code(Completion::Pause)))
            } else {
                None
            }
        }
        Status::Absent => resume_sure(p, pauses, env),
        Status::Unknown => {
            let acts = resume_maybe(p, pauses, env)?;
            Some(MustCan {
                must: Acts::none(),
                can: acts.or_stays(),
            })
        }
    }
}

/// What `p; q` must do and can do as it goes on.
#[cycle(sure)]
fn seq_sure(p: &Statement, q: &Statement, pauses: &PauseSet, env: &Env) -> Option<MustCan>
    requires fits { FitsMasks p.now × FitsMasks q.now }
    ensures { (x y : _) → Judges result (Seq' x p.now y q.now) pauses.now env.now }
{
    match resume_sure(p, pauses, env) {
        Some(first) => Some(then_start(first, q, env)),
        None => resume_sure(q, pauses, env),
    }
}

/// What `loop p end` must do and can do as it goes on.
#[cycle(sure)]
fn loop_sure(p: &Statement, pauses: &PauseSet, env: &Env) -> Option<MustCan>
    requires fits { FitsMasks p.now }
    ensures { (x : _) → Judges result (Loop' x p.now) pauses.now env.now }
{
    let first = resume_sure(p, pauses, env)?;
    Some(then_start(first, p, env))
}

/// What `p || q` must do and can do as it goes on.
#[cycle(sure)]
fn resume_par_sure(p: &Statement, q: &Statement, pauses: &PauseSet, env: &Env) -> Option<MustCan>
    requires fits { FitsMasks p.now × FitsMasks q.now }
    ensures { (x y : _) → Judges result (Par' x p.now y q.now) pauses.now env.now }
{
    match (resume_sure(p, pauses, env), resume_sure(q, pauses, env)) {
        (None, None) => None,
        (Some(left), None) => Some(left.beside(MustCan::exactly(Acts::just_code(Completion::End)))),
        (None, Some(right)) => Some(MustCan::exactly(Acts::just_code(Completion::End)).beside(
            right,
        )),
        (Some(left), Some(right)) => Some(left.beside(right)),
    }
}

/// What `trap p end` must do and can do as it goes on.
#[cycle(sure)]
fn resume_trap_sure(p: &Statement, pauses: &PauseSet, env: &Env) -> Option<MustCan>
    requires fits { FitsMasks p.now }
    ensures { (x : _) → Judges result (Trap' x p.now) pauses.now env.now }
{
    Some(resume_sure(p, pauses, env)?.out_of_trap())
}

/// What `signal s in p end` must do and can do as it goes on.
#[cycle(sure)]
fn resume_local_sure(s: LocalSignal, p: &Statement, pauses: &PauseSet, env: &Env) -> Option<MustCan>
    requires fits { (s.index < 64) × FitsMasks p.now }
    ensures { (x : _) → Judges result (Local' s x p.now) pauses.now env.now }
{
    let open = signal_set::set_local(env, s, Status::Unknown);
    let first = resume_sure(p, pauses, &open)?;
    let known = signal_set::set_local(env, s, first.status_of(s));
    Some(resume_sure(p, pauses, &known)?.hiding(s))
}
