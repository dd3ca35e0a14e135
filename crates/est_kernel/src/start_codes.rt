//! The codes with which a statement can be begun.

ghost use Rattle.std.specs.Prelude.{◌≡◌, MatchOption};
ghost use Rattle.est_kernel.specs.CodeViews.{codes_of};
ghost use Rattle.est_kernel.specs.Masks.{FitsMasks};
ghost use Rattle.est_kernel.specs.StartCodes.{start_codes, IsLoopSafe};
ghost use Rattle.est_kernel.specs.View.{term_of};

use crate::code_set::CodeSet;
use crate::completion::Completion;
use crate::statement::Statement;

/// The codes with which a statement can be begun, if no loop in it has a body that can end at once.
/// Recursion is as deep as the statement: at most 2,048 levels from `Kernel::build`, which counts
/// the statements first.
pub fn start_codes(s: &Statement) -> Option<CodeSet>
    requires fits { FitsMasks s.now }
    ensures { MatchOption result (¬ IsLoopSafe (term_of s.now))
        (λ codes. IsLoopSafe (term_of s.now) × (codes_of codes ≡ start_codes (term_of s.now))) }
{
    match s {
        Statement::Nothing | Statement::Emit(_) => Some(CodeSet::single(Completion::End)),
        Statement::Pause(_) => Some(CodeSet::single(Completion::Pause)),
        Statement::Exit(trap) => Some(CodeSet::single(Completion::Exit(*trap))),
        Statement::Present(_, p, q) => Some(start_codes(p)?.union(start_codes(q)?)),
        Statement::Suspend(_, p) | Statement::Local(_, p) => start_codes(p),
        Statement::Seq(p, q) => {
            let first = start_codes(p)?;
            let second = start_codes(q)?;
            if first.has(Completion::End) {
                Some(first.without_zero().union(second))
            } else {
                Some(first)
            }
        }
        Statement::Loop(p) => {
            let body = start_codes(p)?;
            if body.has(Completion::End) {
                None
            } else {
                Some(body)
            }
        }
        Statement::Par(p, q) => Some(start_codes(p)?.greater_of_pairs(start_codes(q)?)),
        Statement::Trap(p) => Some(start_codes(p)?.out_of_trap()),
    }
}
