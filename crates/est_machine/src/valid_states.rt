//! Whether a state is one of a statement.

ghost use Rattle.std.specs.Prelude.{◌≡◌, ◌↔◌, ◌<◌, ◌||◌, ◌&&◌, ℕ, true, false, not};
ghost use Rattle.est_kernel.specs.PauseNumbers.{has_pause};
ghost use Rattle.est_kernel.specs.Pauses.{pauses_of};
ghost use Rattle.est_meaning.specs.States.{HasPausedAt, IsExclusive, IsState, is_live};
ghost use Rattle.est_machine.specs.Inner.Pauses.{are_exclusive};

use est_kernel::limits::MOST_STATEMENTS;
use est_kernel::pause_set::PauseSet;
use est_kernel::state::State;
use est_kernel::statement::{PauseIndex, Statement};
use est_rounds::resume::has_live;

/// Whether no `;` and no `present` has pauses that are set on both sides.
fn is_exclusive(s: &Statement, pauses: &PauseSet) -> bool
    ensures { result ≡ are_exclusive s.now (pauses_of pauses.now) }
{
    match s {
        Statement::Nothing | Statement::Pause(_) | Statement::Emit(_) | Statement::Exit(_) => true,
        Statement::Present(_, p, q) | Statement::Seq(p, q) => {
            is_exclusive(p, pauses)
                && is_exclusive(q, pauses)
                && !(has_live(p, pauses) && has_live(q, pauses))
        }
        Statement::Par(p, q) => is_exclusive(p, pauses) && is_exclusive(q, pauses),
        Statement::Suspend(_, p)
        | Statement::Loop(p)
        | Statement::Trap(p)
        | Statement::Local(_, p) => is_exclusive(p, pauses),
    }
}

/// Takes the pauses of a statement out of a set.
fn remove_own(s: &Statement, pauses: &mut PauseSet)
    ensures { (i : ℕ) → pauses_of pauses.new i
        ≡ (pauses_of pauses.old i && not (has_pause s.now i)) }
{
    match s {
        Statement::Nothing => {}
        Statement::Pause(n) => pauses.remove(*n),
        Statement::Emit(_) => {}
        Statement::Present(_, p, q) => {
            remove_own(p, pauses);
            remove_own(q, pauses);
        }
        Statement::Suspend(_, p) => remove_own(p, pauses),
        Statement::Seq(p, q) => {
            remove_own(p, pauses);
            remove_own(q, pauses);
        }
        Statement::Loop(p) => remove_own(p, pauses),
        Statement::Par(p, q) => {
            remove_own(p, pauses);
            remove_own(q, pauses);
        }
        Statement::Trap(p) => remove_own(p, pauses),
        Statement::Exit(_) => {}
        Statement::Local(_, p) => remove_own(p, pauses),
    }
}

/// Whether no pause is set.
pub(crate) fn is_empty(pauses: PauseSet) -> bool
    ensures { (result ≡ true) ↔ ((i : ℕ) → pauses_of pauses i ≡ false) }
{
    for index in 0..MOST_STATEMENTS {
        if pauses.has(PauseIndex { index }) {
            return false;
        }
    }
    true
}

/// Whether a statement can have paused at exactly these pauses.
fn can_pause_at(s: &Statement, pauses: &PauseSet) -> bool
    ensures { (result ≡ true) ↔ HasPausedAt s.now (pauses_of pauses.now) }
{
    let mut others = *pauses;
    remove_own(s, &mut others);
    if !is_empty(others) {
        return false;
    }
    if !has_live(s, pauses) {
        return false;
    }
    is_exclusive(s, pauses)
}

/// Whether this is a state of the statement.
pub fn is_state(s: &Statement, state: &State) -> bool
    ensures { (result ≡ true) ↔ IsState s.now state.now }
{
    match state {
        State::Fresh | State::Done => true,
        State::Paused(pauses) => can_pause_at(s, pauses),
    }
}
