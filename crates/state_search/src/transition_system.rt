//! What a search goes through.
ghost use Rattle.std.specs.Prelude.{◌≡◌, ℕ, ◌<◌, [], List, Option, IfOk, OnOk, length};
ghost use Rattle.std.specs.Bool.{MatchBool};
ghost use Rattle.std.specs.List.{All, AllPairs};
ghost use Rattle.state_search.specs.Table.{IsExact};
ghost use Rattle.state_search.specs.declared.transition_system.Step.{Step as StepValue};

use std::alloc::AllocError;
use std::hash::Hash;

/// What a system stands at.
pub trait SearchState: Copy + Eq + Hash + Drop {
    /// States that compare alike are one.
    ghost exact: { IsExact Self.eq };
}

/// What a system can do at a state: what is to be seen of it, and the state after it, if there is
/// one.
#[derive(Clone, Copy)]
pub struct Step<S, L> {
    pub label: L,
    pub next: Option<S>,
}

/// What a search goes through: states, and steps between them.
pub trait TransitionSystem {
    /// Where it stands.
    type State: SearchState;
    /// What is to be seen of a step.
    type Label: Copy + Drop;
    /// What works out its steps: an engine that may change meanwhile.
    type Engine;

    /// The engine is right for it.
    ghost fits: { Self → Self.Engine → Type 0 };

    /// It can stand there.
    ghost is_state: { Self → Self.State → Type 0 };

    /// At the state it can do this, and is at that state afterwards, or at none.
    ghost does: { Self → Self.State → Self.Label → Option Self.State → Type 0 };

    /// The steps are all that it can do at the state.
    ghost covers: { Self → Self.State → List (StepValue Self.State Self.Label) → Type 0 };

    /// The two are not of one step.
    ghost apart: { Self → Self.Label → Self.Label → Type 0 };

    /// Puts what it can do at a state into an empty list, and answers whether that is all. Where it
    /// is not, there are more steps than `most`.
    fn steps(
        &self,
        engine: &mut Self::Engine,
        state: &Self::State,
        most: usize,
        steps: &mut Vec<Step<Self::State, Self::Label>>,
    ) -> Result<bool, AllocError>
        requires fits { fits self.now engine.old }
        requires state { is_state self.now state.now }
        requires empty { steps.old.items ≡ [] }
        ensures fits { fits self.now engine.new }
        ensures sound { OnOk result (All (λ s. does self.now state.now s.label s.next)
            steps.new.items) }
        ensures states { OnOk result (All (λ s. (y : Self.State) → s.next ≡ Some y → is_state
            self.now y) steps.new.items) }
        ensures apart { OnOk result (AllPairs (λ a b. apart self.now a.label b.label)
            steps.new.items) }
        ensures whole { IfOk result (λ whole. MatchBool whole
            (covers self.now state.now steps.new.items)
            (most < length steps.new.items)) };
}
