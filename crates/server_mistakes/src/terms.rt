//! Which states of a statement leave one term.
ghost use Rattle.std.specs.Prelude.{◌≡◌, ◌↔◌, IsTrue};
ghost use Rattle.est_meaning.specs.States.{state_term};

use est_kernel::state::State;
use est_kernel::statement::Statement;
use est_left::states;

/// Whether two states of a statement stand for the same term.
pub fn is_same_state(root: &Statement, one: &State, other: &State) -> bool
    ensures { IsTrue result ↔ (state_term root.now one.now ≡ state_term root.now other.now) }
{
    states::is_same_state(root, one, other)
}
