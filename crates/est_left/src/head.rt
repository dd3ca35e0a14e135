//! The outermost part of a term that a statement stands for.

ghost use Rattle.std.specs.Prelude.{◌≡◌};
ghost use Rattle.est_kernel.specs.Pauses.{pauses_of};
ghost use Rattle.est_kernel.specs.View.{term_of};
ghost use Rattle.est_meaning.specs.States.{term_at};
ghost use Rattle.est_left.specs.Inner.Heads.{head_term, rest_term, side_term};

use est_kernel::pause_set::PauseSet;
use est_kernel::statement::{LocalSignal, Signal, Statement, Test, TrapIndex};
use est_rounds::resume::has_live;

/// A term, as a statement stands for it.
#[derive(Clone, Copy)]
pub(crate) enum Rest<'a> {
    /// `nothing`
    Nothing,
    /// The whole statement, which has not begun.
    Whole(&'a Statement),
    /// What the pauses that are set leave of the statement.
    Left(&'a Statement, &'a PauseSet),
}

/// The outermost part of a term, with what lies in it.
#[derive(Clone, Copy)]
pub(crate) enum Head<'a> {
    /// `nothing`
    Nothing,
    /// `pause`
    Pause,
    /// `emit S`
    Emit(Signal),
    /// `present S then p else q end`
    Present(&'a Test, Rest<'a>, Rest<'a>),
    /// `suspend p when S`
    Suspend(&'a Test, Rest<'a>),
    /// A suspended statement that has paused.
    Held(&'a Test, Rest<'a>),
    /// `p ; q`
    Seq(Rest<'a>, Rest<'a>),
    /// `loop p end`
    Loop(Rest<'a>),
    /// `p || q`
    Par(Rest<'a>, Rest<'a>),
    /// `trap T in p end`
    Trap(Rest<'a>),
    /// `exit T`
    Exit(TrapIndex),
    /// `signal S in p end`
    Local(LocalSignal, Rest<'a>),
}

/// The head of a statement that has not begun.
fn whole_head(s: &Statement) -> Head<'_>
    ensures { head_term result ≡ term_of s.now }
{
    match s {
        Statement::Nothing => Head::Nothing,
        Statement::Pause(_) => Head::Pause,
        Statement::Emit(s) => Head::Emit(*s),
        Statement::Present(t, p, q) => Head::Present(t, Rest::Whole(p), Rest::Whole(q)),
        Statement::Suspend(t, p) => Head::Suspend(t, Rest::Whole(p)),
        Statement::Seq(p, q) => Head::Seq(Rest::Whole(p), Rest::Whole(q)),
        Statement::Loop(p) => Head::Loop(Rest::Whole(p)),
        Statement::Par(p, q) => Head::Par(Rest::Whole(p), Rest::Whole(q)),
        Statement::Trap(p) => Head::Trap(Rest::Whole(p)),
        Statement::Exit(k) => Head::Exit(*k),
        Statement::Local(s, p) => Head::Local(*s, Rest::Whole(p)),
    }
}

/// What is left of a side of `||`: `nothing` where it has ended.
fn side<'a>(s: &'a Statement, pauses: &'a PauseSet) -> Rest<'a>
    ensures { rest_term result ≡ side_term s.now (pauses_of pauses.now) }
{
    if has_live(s, pauses) {
        Rest::Left(s, pauses)
    } else {
        Rest::Nothing
    }
}

/// The head of what pauses leave of a statement. It steps down to the branch of a `present` that
/// was chosen, and to what follows a part that has ended.
fn left_head<'a>(s: &'a Statement, pauses: &'a PauseSet) -> Head<'a>
    ensures { head_term result ≡ term_at s.now (pauses_of pauses.now) }
{
    match s {
        Statement::Nothing | Statement::Pause(_) | Statement::Emit(_) | Statement::Exit(_) => {
            Head::Nothing
        }
        Statement::Present(_, p, q) => {
            if has_live(p, pauses) {
                left_head(p, pauses)
            } else {
                left_head(q, pauses)
            }
        }
        Statement::Suspend(t, p) => Head::Held(t, Rest::Left(p, pauses)),
        Statement::Seq(p, q) => {
            if has_live(p, pauses) {
                Head::Seq(Rest::Left(p, pauses), Rest::Whole(q))
            } else {
                left_head(q, pauses)
            }
        }
        Statement::Loop(p) => Head::Seq(Rest::Left(p, pauses), Rest::Whole(s)),
        Statement::Par(p, q) => Head::Par(side(p, pauses), side(q, pauses)),
        Statement::Trap(p) => Head::Trap(Rest::Left(p, pauses)),
        Statement::Local(s, p) => Head::Local(*s, Rest::Left(p, pauses)),
    }
}

/// The head of a term.
pub(crate) fn head_of(rest: Rest<'_>) -> Head<'_>
    ensures { head_term result ≡ rest_term rest.entry }
{
    match rest {
        Rest::Nothing => Head::Nothing,
        Rest::Whole(s) => whole_head(s),
        Rest::Left(s, pauses) => left_head(s, pauses),
    }
}
