//! Two modules side by side, as a search sees them.
ghost use Rattle.std.specs.Prelude.{◌≡◌};
ghost use Rattle.std.proofs.Common.{rules};
ghost use Rattle.est_explore.specs.Inner.Pairs.{AreFor, ArePositions, joined};
ghost use Rattle.est_explore.specs.Inner.Pairs.{AnswersBoth, agree};

use crate::one_module::{Answer, OneModule, Position};
use est_cover::reactive::Reactive;
use est_kernel::interface::Interface;
use est_rounds::part_engine::{PartEngine, Unsettled};
use state_search::transition_system::{SearchState, Step};

/// What two modules answer to the same inputs.
#[derive(Clone, Copy, PartialEq, Eq, Debug)]
pub struct AnswerPair {
    pub first: Answer,
    pub second: Answer,
}

/// Where two modules stand between two instants.
#[derive(Clone, Copy, PartialEq, Eq, Hash)]
pub struct PositionPair {
    pub first: Position,
    pub second: Position,
}

impl SearchState for PositionPair {
    ghost exact = { Prim.search rules };
}

/// The engines of two modules.
#[derive(Drop)]
pub struct EnginePair<E, F> {
    pub first: E,
    pub second: F,
}

/// Two modules over one interface.
#[derive(Drop)]
pub struct TwoModules<'a, E, F> {
    pub first: OneModule<'a, E>,
    pub second: OneModule<'a, F>,
}

/// Whether two modules do the same: both emit these outputs, or both are Stuck.
pub fn agree(first: Answer, second: Answer) -> bool
    ensures { result ≡ agree first second }
{
    match (first, second) {
        (Answer::Reaction { outputs: a }, Answer::Reaction { outputs: b }) => a == b,
        (Answer::Stuck { .. }, Answer::Stuck { .. }) => true,
        _ => false,
    }
}

/// Where both stand, if each goes on and they do the same.
fn joined(same: bool, first: Option<Position>, second: Option<Position>) -> Option<PositionPair>
    ensures { result ≡ joined same first second }
{
    match (same, first, second) {
        (true, Some(first), Some(second)) => Some(PositionPair { first, second }),
        _ => None,
    }
}

impl<'a, E: PartEngine, F: PartEngine> Reactive for TwoModules<'a, E, F> {
    type State = PositionPair;

    type Answer = AnswerPair;

    type Engine = EnginePair<E, F>;

    ghost fits = { λ s e. AreFor (E.is_for e.first s.first.kernel.now)
        (F.is_for e.second s.second.kernel.now)
        s.first.kernel.now s.second.kernel.now };

    ghost is_state = { λ s x. ArePositions s.first.kernel.now s.second.kernel.now x };

    ghost signals = { λ s. s.first.kernel.now.interface };

    ghost answers = { λ s x inputs answer next.
        AnswersBoth s.first.kernel.now s.second.kernel.now x inputs answer next };

    fn interface(&self) -> &Interface {
        self.first.kernel.interface()
    }

    fn react(
        &self,
        engines: &mut EnginePair<E, F>,
        at: &PositionPair,
        inputs: u64,
    ) -> Step<PositionPair, AnswerPair> {
        let first = self.first.react(&mut engines.first, &at.first, inputs);
        let second = self.second.react(&mut engines.second, &at.second, inputs);
        let same = agree(first.label, second.label);
        Step {
            label: AnswerPair {
                first: first.label,
                second: second.label,
            },
            next: joined(same, first.next, second.next),
        }
    }

    fn react_to_part(
        &self,
        engines: &mut EnginePair<E, F>,
        at: &PositionPair,
        asked: u64,
        inputs: u64,
    ) -> Result<Step<PositionPair, AnswerPair>, Unsettled> {
        let first = self
            .first
            .react_to_part(&mut engines.first, &at.first, asked, inputs)?;
        let second = self
            .second
            .react_to_part(&mut engines.second, &at.second, asked, inputs)?;
        let same = agree(first.label, second.label);
        Ok(Step {
            label: AnswerPair {
                first: first.label,
                second: second.label,
            },
            next: joined(same, first.next, second.next),
        })
    }
}
