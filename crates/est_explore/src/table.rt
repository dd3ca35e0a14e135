//! The closed table of a module.
ghost use Rattle.std.specs.Prelude.{◌↔◌, ◌≤◌, ℕ, Bool, IsTrue, length};
ghost use Rattle.est_explore.specs.Explored.{IsExplored};
ghost use Rattle.est_explore.specs.Runs.{Module as ModuleValue};
ghost use Rattle.est_explore.specs.Tables.{IsClosedTable};

use crate::one_module::{Answer, Position};
use est_cover::answered::AnsweredInputs;
use state_search::found::Found;

/// Whether a search has looked at all there is. What it has found of a module is then a closed
/// table: its positions in the order found, and for each its rows.
pub fn is_complete(found: &Found<Position, AnsweredInputs<Answer>>) -> bool
    ensures all { IsTrue result ↔ (length found.now.nodes.items ≤ found.now.done) }
    ensures table { (m : ModuleValue) (watched : ℕ → Bool) → IsExplored m watched found.now
        → IsTrue result → IsClosedTable m found.now }
{
    found.nodes.len() <= found.done
}
