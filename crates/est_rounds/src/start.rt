//! What a statement that is begun must do and can do.
//!
//! Each function calls itself only on a part of its statement. A kernel has at most 2,048
//! statements, so recursion is no deeper.

ghost use Rattle.std.specs.Prelude.{◌≡◌, ◌<◌};
ghost use Rattle.est_kernel.specs.Masks.{FitsMasks};
ghost use Rattle.est_kernel.specs.Term.{par, signal, trap};
ghost use Rattle.est_kernel.specs.View.{term_of};
ghost use Rattle.est_rounds.specs.Views.{acts_of};
ghost use Rattle.est_meaning.specs.MustCan.{can_then};
ghost use Rattle.est_rounds.specs.Judging.{can_by, can_follow, may_by, must_by, must_follow};

use crate::acts::{Acts, MustCan};
use crate::answer::answer_to;
use est_kernel::code_set::CodeSet;
use est_kernel::completion::Completion;
use est_kernel::statement::{LocalSignal, Statement};
use est_meaning::signal_set::{self, Env};
use est_meaning::status::Status;

/// What a statement can do where it is in doubt whether it is reached (mode `maybe`).
#[cycle(doubt)]
pub fn start_maybe(s: &Statement, env: &Env) -> Acts
    requires fits { FitsMasks s.now }
    ensures { acts_of result ≡ may_by env.now (term_of s.now) }
{
    match s {
        Statement::Nothing => Acts::just_code(Completion::End),
        Statement::Pause(_) => Acts::just_code(Completion::Pause),
        Statement::Emit(s) => Acts {
            signals: signal_set::only_signal(*s),
            codes: CodeSet::single(Completion::End),
        },
        Statement::Present(t, p, q) => match answer_to(env, t) {
            Status::Present => start_maybe(p, env),
            Status::Absent => start_maybe(q, env),
            Status::Unknown => start_maybe(p, env).or(start_maybe(q, env)),
        },
        Statement::Suspend(_, p) => start_maybe(p, env),
        Statement::Seq(p, q) => then_start_maybe(start_maybe(p, env), q, env),
        Statement::Loop(p) => start_maybe(p, env),
        Statement::Par(p, q) => start_par_maybe(p, q, env),
        Statement::Trap(p) => start_trap_maybe(p, env),
        Statement::Exit(k) => Acts::just_code(Completion::Exit(*k)),
        Statement::Local(s, p) => start_local_maybe(*s, p, env),
    }
}

/// What `p || q` can do (mode `maybe`).
#[cycle(doubt)]
fn start_par_maybe(p: &Statement, q: &Statement, env: &Env) -> Acts
    requires fits { FitsMasks p.now × FitsMasks q.now }
    ensures { acts_of result ≡ may_by env.now (par (term_of p.now) (term_of q.now)) }
{
    start_maybe(p, env).beside(start_maybe(q, env))
}

/// What `trap p end` can do (mode `maybe`).
#[cycle(doubt)]
fn start_trap_maybe(p: &Statement, env: &Env) -> Acts
    requires fits { FitsMasks p.now }
    ensures { acts_of result ≡ may_by env.now (trap (term_of p.now)) }
{
    start_maybe(p, env).out_of_trap()
}

/// What `signal s in p end` can do (mode `maybe`).
#[cycle(doubt)]
fn start_local_maybe(s: LocalSignal, p: &Statement, env: &Env) -> Acts
    requires fits { (s.index < 64) × FitsMasks p.now }
    ensures { acts_of result ≡ may_by env.now (signal s.index (term_of p.now)) }
{
    let open = signal_set::set_local(env, s, Status::Unknown);
    let first = start_maybe(p, &open);
    let known = signal_set::set_local(env, s, first.status_in_doubt(s));
    start_maybe(p, &known).hiding(s)
}

/// What a first part can do and then the statement after it (mode `maybe`).
#[cycle(doubt)]
pub fn then_start_maybe(first: Acts, q: &Statement, env: &Env) -> Acts
    requires fits { FitsMasks q.now }
    ensures { acts_of result ≡ can_then (acts_of first) (may_by env.now (term_of q.now)) }
{
    if first.has_end() {
        first.can_then(start_maybe(q, env))
    } else {
        first
    }
}

/// What a statement must do and can do.
#[cycle(start)]
pub fn start_sure(s: &Statement, env: &Env) -> MustCan
    requires fits { FitsMasks s.now }
    ensures must { acts_of result.must ≡ must_by env.now (term_of s.now) }
    ensures can { acts_of result.can ≡ can_by env.now (term_of s.now) }
{
    match s {
        Statement::Nothing => MustCan::exactly(Acts::just_code(Completion::End)),
        Statement::Pause(_) => MustCan::exactly(Acts::just_code(Completion::Pause)),
        Statement::Emit(s) => MustCan::exactly(Acts {
            signals: signal_set::only_signal(*s),
            codes: CodeSet::single(Completion::End),
        }),
        Statement::Present(t, p, q) => match answer_to(env, t) {
            Status::Present => start_sure(p, env),
            Status::Absent => start_sure(q, env),
            Status::Unknown => MustCan {
                must: Acts::none(),
                can: start_maybe(p, env).or(start_maybe(q, env)),
            },
        },
        Statement::Suspend(_, p) => start_sure(p, env),
        Statement::Seq(p, q) => then_start(start_sure(p, env), q, env),
        Statement::Loop(p) => start_sure(p, env),
        Statement::Par(p, q) => start_par_sure(p, q, env),
        Statement::Trap(p) => start_trap_sure(p, env),
        Statement::Exit(k) => MustCan::exactly(Acts::just_code(Completion::Exit(*k))),
        Statement::Local(s, p) => start_local_sure(*s, p, env),
    }
}

/// What `p || q` must do and can do.
#[cycle(start)]
fn start_par_sure(p: &Statement, q: &Statement, env: &Env) -> MustCan
    requires fits { FitsMasks p.now × FitsMasks q.now }
    ensures must { acts_of result.must ≡ must_by env.now (par (term_of p.now) (term_of q.now)) }
    ensures can { acts_of result.can ≡ can_by env.now (par (term_of p.now) (term_of q.now)) }
{
    start_sure(p, env).beside(start_sure(q, env))
}

/// What `trap p end` must do and can do.
#[cycle(start)]
fn start_trap_sure(p: &Statement, env: &Env) -> MustCan
    requires fits { FitsMasks p.now }
    ensures must { acts_of result.must ≡ must_by env.now (trap (term_of p.now)) }
    ensures can { acts_of result.can ≡ can_by env.now (trap (term_of p.now)) }
{
    start_sure(p, env).out_of_trap()
}

/// What `signal s in p end` must do and can do.
#[cycle(start)]
fn start_local_sure(s: LocalSignal, p: &Statement, env: &Env) -> MustCan
    requires fits { (s.index < 64) × FitsMasks p.now }
    ensures must { acts_of result.must ≡ must_by env.now (signal s.index (term_of p.now)) }
    ensures can { acts_of result.can ≡ can_by env.now (signal s.index (term_of p.now)) }
{
    let open = signal_set::set_local(env, s, Status::Unknown);
    let first = start_sure(p, &open);
    let known = signal_set::set_local(env, s, first.status_of(s));
    start_sure(p, &known).hiding(s)
}

/// What is judged of a first part and of the statement after it.
#[cycle(start)]
pub fn then_start(first: MustCan, q: &Statement, env: &Env) -> MustCan
    requires fits { FitsMasks q.now }
    ensures must { acts_of result.must ≡ must_follow first q.now env.now }
    ensures can { acts_of result.can ≡ can_follow first q.now env.now }
{
    if first.must.has_end() {
        let second = start_sure(q, env);
        MustCan {
            must: first.must.must_then(second.must),
            can: if first.can.has_end() {
                first.can.can_then(second.can)
            } else {
                first.can
            },
        }
    } else {
        MustCan {
            must: first.must,
            can: if first.can.has_end() {
                first.can.can_then(start_maybe(q, env))
            } else {
                first.can
            },
        }
    }
}
