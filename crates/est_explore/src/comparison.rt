//! Whether two modules do the same.
ghost use Rattle.std.specs.Prelude.{◌≡◌, ◌<◌, ℕ, IfOk, MatchOption, slice_index_or, length, true};
ghost use Rattle.std.specs.Prelude.{false};
ghost use Rattle.est_kernel.specs.Bits.{bits};
ghost use Rattle.state_search.specs.Table.{HasEnded};
ghost use Rattle.state_search.specs.declared.found.Row.{Row as RowValue};
ghost use Rattle.est_explore.specs.Inner.Pairs.{agree, AreFor};
ghost use Rattle.est_explore.specs.ExploredBoth.{IsExploredBoth};
ghost use Rattle.est_explore.specs.Comparisons.{IsRightOfBoth};
ghost use Rattle.est_explore.specs.Views.{module_of};
ghost use Rattle.est_cover.specs.declared.answered.AnsweredInputs.{AnsweredInputs as AnsweredValue};
ghost use Rattle.est_explore.specs.declared.two_modules.AnswerPair.{AnswerPair as AnswerPairValue};

use crate::one_module::Position;
use crate::two_modules::{AnswerPair, EnginePair, PositionPair, TwoModules, agree};
use est_cover::answered::AnsweredInputs;
use est_cover::lawful_inputs::LawfulInputs;
use est_kernel::state::State;
use est_rounds::part_engine::PartEngine;
use state_search::found::{Found, Row};
use state_search::search::{Limits, search};
use state_search::word::word_to;
use std::alloc::{AllocError, Global};

/// What is answered of two modules.
#[derive(Drop)]
pub enum Comparison {
    /// They do the same in every run.
    Same,
    /// They differ in the last of these instants, and in no fewer.
    Differ {
        /// What happens.
        word: Vec<AnsweredInputs<AnswerPair>>,
    },
    /// There are more states, or more steps, than were to be looked at.
    TooMany,
}

/// The place of the first row by which the two differ.
fn first_difference(rows: &[Row<AnsweredInputs<AnswerPair>>]) -> Option<usize>
    ensures { MatchOption result
        ((d : RowValue (AnsweredValue AnswerPairValue)) (k : ℕ) → k < length rows.now
        → agree (slice_index_or rows.now k d).label.answer.first
        (slice_index_or rows.now k d).label.answer.second ≡ true)
        (λ at. (at < length rows.now)
        × ((d : RowValue (AnsweredValue AnswerPairValue))
        → agree (slice_index_or rows.now at d).label.answer.first
        (slice_index_or rows.now at d).label.answer.second ≡ false)
        × ((d : RowValue (AnsweredValue AnswerPairValue)) (k : ℕ) → k < at
        → agree (slice_index_or rows.now k d).label.answer.first
        (slice_index_or rows.now k d).label.answer.second ≡ true)) }
{
    for at in 0..rows.len() {
        let both = rows[at].label.answer;
        if !agree(both.first, both.second) {
            return Some(at);
        }
    }
    None
}

/// Searches all that two modules do side by side, as far as the limits allow.
pub fn explore_both<E: PartEngine, F: PartEngine>(
    alloc: Global,
    subject: &LawfulInputs<'_, TwoModules<'_, E, F>>,
    engines: &mut EnginePair<E, F>,
    limits: Limits,
) -> Result<Found<PositionPair, AnsweredInputs<AnswerPair>>, AllocError>
    requires engines { AreFor (E.is_for engines.old.first subject.now.reactive.now.first.kernel.now)
        (F.is_for engines.old.second subject.now.reactive.now.second.kernel.now)
        subject.now.reactive.now.first.kernel.now subject.now.reactive.now.second.kernel.now }
    ensures explored { IfOk result (IsExploredBoth
        (module_of subject.now.reactive.now.first.kernel.now subject.now.relations.now
        subject.now.allowed)
        (module_of subject.now.reactive.now.second.kernel.now subject.now.relations.now
        subject.now.allowed) (bits subject.now.watched)) }
    ensures ended { IfOk result (λ f.
        HasEnded limits.states limits.steps f.nodes.items f.rows.items f.done) }
{
    let fresh = Position {
        state: State::Fresh,
    };
    let start = PositionPair {
        first: fresh,
        second: fresh,
    };
    search(alloc, subject, engines, start, limits)
}

/// Whether two modules do the same, from what a search has found of them.
pub fn compare<E: PartEngine, F: PartEngine>(
    alloc: Global,
    subject: &LawfulInputs<'_, TwoModules<'_, E, F>>,
    found: &Found<PositionPair, AnsweredInputs<AnswerPair>>,
) -> Result<Comparison, AllocError>
    requires interface { subject.now.reactive.now.second.kernel.now.interface
        ≡ subject.now.reactive.now.first.kernel.now.interface }
    requires explored { IsExploredBoth
        (module_of subject.now.reactive.now.first.kernel.now subject.now.relations.now
        subject.now.allowed)
        (module_of subject.now.reactive.now.second.kernel.now subject.now.relations.now
        subject.now.allowed) (bits subject.now.watched) found.now }
    ensures { (states steps : ℕ)
        → HasEnded states steps found.now.nodes.items found.now.rows.items found.now.done
        → IfOk result (IsRightOfBoth
        (module_of subject.now.reactive.now.first.kernel.now subject.now.relations.now
        subject.now.allowed)
        (module_of subject.now.reactive.now.second.kernel.now subject.now.relations.now
        subject.now.allowed)
        states steps) }
{
    if let Some(at) = first_difference(&found.rows) {
        let word = word_to(alloc, subject, found, at)?;
        return Ok(Comparison::Differ { word });
    }
    if found.done < found.nodes.len() {
        return Ok(Comparison::TooMany);
    }
    Ok(Comparison::Same)
}
