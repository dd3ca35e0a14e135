//! All steps of a state, by parts of the inputs.
ghost use Rattle.std.specs.Prelude.{◌≡◌, ◌++◌, ◌∷◌, [], ℕ, ◌<◌, ◌&&◌, IfOk, length, not};
ghost use Rattle.std.specs.Bool.{MatchBool};
ghost use Rattle.est_kernel.specs.Bits.{bits};
ghost use Rattle.est_relations.specs.Keeping.{AreLawful};
ghost use Rattle.est_cover.specs.Inner.Parts.{AreWatched, IsCovered, IsNext, IsPart};

use crate::answered::AnsweredInputs;
use crate::forced::{Forced, first_forced};
use crate::part::{Part, first_in, with, without};
use crate::reactive::Reactive;
use est_kernel::mask;
use est_relations::relations::Relation;
use state_search::transition_system::Step;
use std::alloc::AllocError;

/// Which sets of inputs an instant may have.
#[derive(Clone, Copy)]
pub struct InputSets<'a> {
    /// What has to hold of each.
    pub relations: &'a [Relation],
    /// The signals that the interface lets be offered.
    pub offerable: u64,
    /// Those of them that may be offered.
    pub may: u64,
    /// Those that are asked in any case.
    pub watched: u64,
}

/// What comes of a part of the inputs.
#[derive(Clone, Copy)]
enum Next<S, A> {
    /// This is the step of all sets of inputs that have it.
    Step(Step<S, AnsweredInputs<A>>),
    /// It is split at this signal, which was not asked.
    Split(u8),
}

/// The step of an answer to the part.
fn step_of<S: Copy + Drop, A: Copy + Drop>(
    may: u64,
    part: Part,
    step: Step<S, A>,
) -> Step<S, AnsweredInputs<A>>
    ensures next { result.next ≡ step.next }
    ensures answer { result.label.answer ≡ step.label }
    ensures inputs { result.label.inputs ≡ part.inputs }
    ensures asked { (n : ℕ) → bits result.label.asked n
        ≡ (bits may n && not (bits part.unasked n)) }
{
    Step {
        label: AnsweredInputs {
            inputs: part.inputs,
            asked: mask::difference(may, part.unasked),
            answer: step.label,
        },
        next: step.next,
    }
}

/// What comes of a part that is lawful without all that was not asked.
fn react<R: Reactive>(
    reactive: &R,
    sets: &InputSets<'_>,
    engine: &mut R::Engine,
    state: &R::State,
    part: Part,
) -> Next<R::State, R::Answer>
    requires fits { R.fits reactive.now engine.old }
    requires state { R.is_state reactive.now state.now }
    requires sets { AreWatched (R.signals reactive.now) sets.now.offerable sets.now.may
        sets.now.watched }
    requires part { IsPart (bits sets.now.may) part.unasked part.inputs }
    requires lawful { AreLawful sets.now.relations.now (bits part.inputs) }
    ensures fits { R.fits reactive.now engine.new }
    ensures next { IsNext (R.answers reactive.now state.now) (R.is_state reactive.now)
        (bits sets.now.may) sets.now.relations.now (bits sets.now.watched) part.unasked part.inputs
        result }
{
    if let Some(place) = first_in(mask::intersection(part.unasked, sets.watched)) {
        return Next::Split(place);
    }
    let Some(first) = first_in(part.unasked) else {
        let step = reactive.react(engine, state, part.inputs);
        return Next::Step(step_of(sets.may, part, step));
    };
    let asked = mask::difference(sets.offerable, part.unasked);
    match reactive.react_to_part(engine, state, asked, part.inputs) {
        Ok(step) => Next::Step(step_of(sets.may, part, step)),
        Err(unsettled) => match unsettled.waits_for {
            Some(place) => Next::Split(place),
            None => Next::Split(first),
        },
    }
}

/// Adds a step, and answers whether there are not too many.
fn add_step<S: Copy + Drop, A: Copy + Drop>(
    most: usize,
    step: Step<S, AnsweredInputs<A>>,
    steps: &mut Vec<Step<S, AnsweredInputs<A>>>,
) -> Result<bool, AllocError>
    ensures { IfOk result (λ whole. (steps.new.items ≡ steps.old.items ++ step ∷ [])
        × MatchBool whole (Unit {0}) (most < length steps.new.items)) }
{
    steps.push(step)?;
    Ok(steps.len() <= most)
}

/// Adds the steps of all lawful sets of inputs that have this part, and answers whether there are
/// not too many.
pub fn cover<R: Reactive>(
    reactive: &R,
    sets: &InputSets<'_>,
    engine: &mut R::Engine,
    state: &R::State,
    most: usize,
    part: Part,
    steps: &mut Vec<Step<R::State, AnsweredInputs<R::Answer>>>,
) -> Result<bool, AllocError>
    requires fits { R.fits reactive.now engine.old }
    requires state { R.is_state reactive.now state.now }
    requires sets { AreWatched (R.signals reactive.now) sets.now.offerable sets.now.may
        sets.now.watched }
    requires part { IsPart (bits sets.now.may) part.unasked part.inputs }
    ensures fits { R.fits reactive.now engine.new }
    ensures covered { IfOk result (λ whole. IsCovered (R.answers reactive.now state.now)
        (R.is_state reactive.now)
        (bits sets.now.may) sets.now.relations.now (bits sets.now.watched) part.unasked part.inputs
        most whole steps.old.items steps.new.items) }
{
    match first_forced(sets.relations, part) {
        Some(Forced::Broken) => Ok(true),
        Some(Forced::Present(place)) => {
            let part = with(part.unasked, part.inputs, place);
            cover(reactive, sets, engine, state, most, part, steps)
        }
        Some(Forced::Absent(place)) => {
            let part = without(part.unasked, part.inputs, place);
            cover(reactive, sets, engine, state, most, part, steps)
        }
        None => match react(reactive, sets, engine, state, part) {
            Next::Step(step) => add_step(most, step, steps),
            Next::Split(place) => {
                let low = without(part.unasked, part.inputs, place);
                if !cover(reactive, sets, engine, state, most, low, steps)? {
                    return Ok(false);
                }
                let high = with(part.unasked, part.inputs, place);
                cover(reactive, sets, engine, state, most, high, steps)
            }
        },
    }
}
