//! How deep local signals are nested.
ghost use Rattle.std.specs.Prelude.{◌↔◌, ◌<◌, IsTrue};
ghost use Rattle.est_kernel.specs.View.{term_of};
ghost use Rattle.est_kernel.specs.Limits.{local_depth};

use est_kernel::statement::Statement;

/// Whether local signals are nested deeper than this in a statement. Recursion is as deep as the
/// statement.
pub fn nests_locals(statement: &Statement, depth: u16) -> bool
    ensures { IsTrue result ↔ (depth < local_depth (term_of statement.now)) }
{
    match statement {
        Statement::Local(_, p) => depth == 0 || nests_locals(p, depth - 1),
        Statement::Present(_, p, q) | Statement::Seq(p, q) | Statement::Par(p, q) => {
            nests_locals(p, depth) || nests_locals(q, depth)
        }
        Statement::Suspend(_, p) | Statement::Loop(p) | Statement::Trap(p) => {
            nests_locals(p, depth)
        }
        Statement::Nothing | Statement::Pause(_) | Statement::Emit(_) | Statement::Exit(_) => false,
    }
}
