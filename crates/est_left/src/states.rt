//! Whether two states of a statement leave the same term.

ghost use Rattle.std.specs.Prelude.{◌≡◌, ◌↔◌, IsTrue};
ghost use Rattle.est_left.specs.Inner.Heads.{rest_term};
ghost use Rattle.est_meaning.specs.States.{state_term};

use crate::head::Rest;
use crate::same_term::is_same_rest;
use est_kernel::state::State;
use est_kernel::statement::Statement;

/// The term that a state of a statement stands for.
fn rest_of<'a>(root: &'a Statement, state: &'a State) -> Rest<'a>
    ensures { rest_term result ≡ state_term root.now state.now }
{
    match state {
        State::Fresh => Rest::Whole(root),
        State::Done => Rest::Nothing,
        State::Paused(pauses) => Rest::Left(root, pauses),
    }
}

/// Whether two states of a statement stand for the same term. States that are equal are not walked.
/// It takes no memory.
pub fn is_same_state(root: &Statement, one: &State, other: &State) -> bool
    ensures { IsTrue result ↔ (state_term root.now one.now ≡ state_term root.now other.now) }
{
    *one == *other || is_same_rest(rest_of(root, one), rest_of(root, other))
}
