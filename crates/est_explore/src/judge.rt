//! The verdict on a claim, from what a search has found.
ghost use Rattle.std.specs.Prelude.{◌≡◌, ◌<◌, ℕ, IfOk, MatchOption, slice_index_or, length, true};
ghost use Rattle.std.specs.Prelude.{false};
ghost use Rattle.state_search.specs.Table.{HasEnded};
ghost use Rattle.state_search.specs.declared.found.Row.{Row as RowValue};
ghost use Rattle.est_kernel.specs.Bits.{bits};
ghost use Rattle.est_explore.specs.Claims.{IsClaimToldBy};
ghost use Rattle.est_explore.specs.Explored.{IsExplored, fails};
ghost use Rattle.est_explore.specs.Verdicts.{IsRight};
ghost use Rattle.est_explore.specs.Views.{module_of};
ghost use Rattle.est_cover.specs.declared.answered.AnsweredInputs.{AnsweredInputs as AnsweredValue};
ghost use Rattle.est_explore.specs.declared.one_module.Answer.{Answer as AnswerValue};

use crate::claim::Claim;
use crate::one_module::{Answer, OneModule, Position};
use crate::verdict::Verdict;
use est_cover::answered::AnsweredInputs;
use est_cover::lawful_inputs::LawfulInputs;
use est_kernel::state::State;
use est_rounds::part_engine::PartEngine;
use state_search::found::{Found, Row};
use state_search::search::{Limits, search};
use state_search::word::word_to;
use std::alloc::{AllocError, Global};

/// The place of the first row by which the claim fails.
fn first_failure(rows: &[Row<AnsweredInputs<Answer>>], claim: &Claim<'_>) -> Option<usize>
    ensures { MatchOption result
        ((d : RowValue (AnsweredValue AnswerValue)) (k : ℕ) → k < length rows.now → fails claim.now
        (slice_index_or rows.now k d).label.inputs (slice_index_or rows.now k d).label.answer ≡
        false)
        (λ at. (at < length rows.now)
        × ((d : RowValue (AnsweredValue AnswerValue)) → fails claim.now
        (slice_index_or rows.now at d).label.inputs (slice_index_or rows.now at d).label.answer
        ≡ true)
        × ((d : RowValue (AnsweredValue AnswerValue)) (k : ℕ) → k < at → fails claim.now
        (slice_index_or rows.now k d).label.inputs (slice_index_or rows.now k d).label.answer ≡
        false)) }
{
    for at in 0..rows.len() {
        if claim.fails(&rows[at].label) {
            return Some(at);
        }
    }
    None
}

/// Searches all that a module does, as far as the limits allow.
pub fn explore<E: PartEngine>(
    alloc: Global,
    subject: &LawfulInputs<'_, OneModule<'_, E>>,
    engine: &mut E,
    limits: Limits,
) -> Result<Found<Position, AnsweredInputs<Answer>>, AllocError>
    requires engine { E.is_for engine.old subject.now.reactive.now.kernel.now }
    ensures engine { E.is_for engine.new subject.now.reactive.now.kernel.now }
    ensures explored { IfOk result
        (IsExplored (module_of subject.now.reactive.now.kernel.now subject.now.relations.now
        subject.now.allowed) (bits subject.now.watched)) }
    ensures ended { IfOk result (λ f.
        HasEnded limits.states limits.steps f.nodes.items f.rows.items f.done) }
{
    let start = Position {
        state: State::Fresh,
    };
    search(alloc, subject, engine, start, limits)
}

/// The verdict on a claim of a module, from what a search has found of it. What the claim asks was
/// asked of each row.
pub fn judge<E: PartEngine>(
    alloc: Global,
    subject: &LawfulInputs<'_, OneModule<'_, E>>,
    found: &Found<Position, AnsweredInputs<Answer>>,
    claim: &Claim<'_>,
) -> Result<Verdict, AllocError>
    requires explored { IsExplored (module_of subject.now.reactive.now.kernel.now
        subject.now.relations.now subject.now.allowed) (bits subject.now.watched) found.now }
    requires watched { IsClaimToldBy claim.now (bits subject.now.watched) }
    ensures { (states steps : ℕ) → HasEnded states steps found.now.nodes.items found.now.rows.items
        found.now.done
        → IfOk result (IsRight (module_of subject.now.reactive.now.kernel.now
        subject.now.relations.now subject.now.allowed) claim.now states steps) }
{
    if let Some(at) = first_failure(&found.rows, claim) {
        let word = word_to(alloc, subject, found, at)?;
        return Ok(Verdict::Fails { word });
    }
    if found.done < found.nodes.len() {
        return Ok(Verdict::TooMany);
    }
    Ok(Verdict::Holds)
}
