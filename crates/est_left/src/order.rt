//! Whether the pauses of a statement are numbered in text order, as `Kernel::build` numbers them.
//!
//! Then a state of one statement is a state of each other one of the same term.

ghost use Rattle.std.specs.Prelude.{◌≡◌, ◌+◌, MatchOption, true, false};
ghost use Rattle.est_kernel.specs.PauseNumbers.{pause_count};
ghost use Rattle.est_kernel.specs.View.{term_of};
ghost use Rattle.est_kernel.specs.declared.statement.Statement.{Statement as StatementValue};
ghost use Rattle.est_kernel.specs.declared.state.State.{State as StateValue};
ghost use Rattle.est_meaning.specs.States.{state_term};
ghost use Rattle.est_left.specs.Orders.{are_in_order};

use est_kernel::statement::Statement;

/// The number after those of a statement's pauses, if they are numbered in text order from this
/// one on.
fn after_pauses(s: &Statement, first: u16) -> Option<u16>
    ensures { MatchOption result (are_in_order s.now first ≡ false)
        (λ next. (are_in_order s.now first ≡ true) × (next ≡ first + pause_count s.now)) }
{
    match s {
        Statement::Nothing | Statement::Emit(_) | Statement::Exit(_) => Some(first),
        Statement::Pause(n) => {
            if n.index == first {
                Some(n.index + 1)
            } else {
                None
            }
        }
        Statement::Present(_, p, q) | Statement::Seq(p, q) | Statement::Par(p, q) => {
            match after_pauses(p, first) {
                Some(middle) => after_pauses(q, middle),
                None => None,
            }
        }
        Statement::Suspend(_, p)
        | Statement::Loop(p)
        | Statement::Trap(p)
        | Statement::Local(_, p) => after_pauses(p, first),
    }
}

/// Whether the pauses of a statement are numbered in text order, from 0 on.
pub fn is_in_order(s: &Statement) -> bool
    ensures { result ≡ are_in_order s.now 0 }
{
    after_pauses(s, 0).is_some()
}

/// A state stands for one term, whichever statement of one term it is of, if the pauses of both are
/// numbered in text order.
pub fn one_state_of_alike()
    ensures { (one other : StatementValue) (state : StateValue) → term_of one ≡ term_of other
        → are_in_order one 0 ≡ true → are_in_order other 0 ≡ true
        → state_term one state ≡ state_term other state }
{}
