//! A module as a search sees it.
ghost use Rattle.std.specs.Prelude.{◌≡◌};
ghost use Rattle.std.proofs.Common.{rules};
ghost use Rattle.est_meaning.specs.States.{IsState};
ghost use Rattle.est_explore.specs.Inner.Answers.{AnswersSo};

use est_cover::reactive::Reactive;
use est_kernel::interface::Interface;
use est_kernel::kernel::Kernel;
use est_kernel::state::{Inputs, State};
use est_rounds::part_engine::{PartEngine, Unsettled};
use state_search::transition_system::{SearchState, Step};
use std::marker::PhantomData;

/// What a module answers to the inputs of an instant.
#[derive(Clone, Copy, PartialEq, Eq, Debug)]
pub enum Answer {
    /// It reacts, and emits these outputs.
    Reaction { outputs: u64 },
    /// It is Stuck, and these outputs and inputoutputs stay undecided.
    Stuck { undecided: u64 },
}

/// Where a module stands between two instants.
#[derive(Clone, Copy, PartialEq, Eq, Hash)]
pub struct Position {
    pub state: State,
}

impl SearchState for Position {
    ghost exact = { Prim.search rules };
}

/// A module that reacts by an engine.
#[derive(Drop)]
pub struct OneModule<'a, E> {
    pub kernel: &'a Kernel,
    pub engine: PhantomData<E>,
}

impl<'a, E: PartEngine> Reactive for OneModule<'a, E> {
    type State = Position;

    type Answer = Answer;

    type Engine = E;

    ghost fits = { λ s e. E.is_for e s.kernel.now };

    ghost is_state = { λ s x. IsState s.kernel.now.root x.state };

    ghost signals = { λ s. s.kernel.now.interface };

    ghost answers = { λ s x inputs answer next. AnswersSo s.kernel.now x inputs answer next };

    fn interface(&self) -> &Interface {
        self.kernel.interface()
    }

    fn react(&self, engine: &mut E, position: &Position, inputs: u64) -> Step<Position, Answer> {
        match engine.react(self.kernel, &position.state, &Inputs { signals: inputs }) {
            Ok(outcome) => Step {
                label: Answer::Reaction {
                    outputs: outcome.outputs,
                },
                next: Some(Position {
                    state: outcome.next,
                }),
            },
            Err(stuck) => Step {
                label: Answer::Stuck {
                    undecided: stuck.undecided,
                },
                next: None,
            },
        }
    }

    fn react_to_part(
        &self,
        engine: &mut E,
        position: &Position,
        asked: u64,
        inputs: u64,
    ) -> Result<Step<Position, Answer>, Unsettled> {
        let inputs = Inputs { signals: inputs };
        match engine.react_to_part(self.kernel, &position.state, asked, &inputs) {
            Ok(outcome) => Ok(Step {
                label: Answer::Reaction {
                    outputs: outcome.outputs,
                },
                next: Some(Position {
                    state: outcome.next,
                }),
            }),
            Err(unsettled) => Err(unsettled),
        }
    }
}
