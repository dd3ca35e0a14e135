//! What reacts to sets of inputs.
ghost use Rattle.std.specs.Prelude.{◌≡◌, ℕ, Bool, List, Option, Some, IfErr, IfOk, IfSome, true};
ghost use Rattle.est_kernel.specs.Bits.{bits};
ghost use Rattle.est_kernel.specs.Interfaces.{offerable};
ghost use Rattle.est_kernel.specs.declared.interface.Declaration.{Declaration as DeclarationValue};
ghost use Rattle.est_meaning.specs.Knowledge.{IsIn};
ghost use Rattle.est_rounds.specs.Parts.{AreInputOutputsAsked, not_asked};
ghost use Rattle.est_cover.specs.InputSets.{Agrees, InputSet};

use est_kernel::interface::Interface;
use est_rounds::part_engine::Unsettled;
use state_search::transition_system::{SearchState, Step};

/// What reacts to the inputs of an instant.
pub trait Reactive {
    /// Where it stands.
    type State: SearchState;
    /// What it answers.
    type Answer: Copy + Drop;
    /// What works out its reactions: an engine that may change meanwhile.
    type Engine;

    /// The engine is right for it.
    ghost fits: { Self → Self.Engine → Type 0 };

    /// It can stand there.
    ghost is_state: { Self → Self.State → Type 0 };

    /// Its signals.
    ghost signals: { Self → List DeclarationValue };

    /// At the state it answers the inputs so, and is at that state afterwards, or at none.
    ghost answers: { Self → Self.State → (ℕ → Bool) → Self.Answer → Option Self.State → Type 0 };

    /// Its interface.
    fn interface(&self) -> &Interface
        ensures { result.now ≡ signals self.now };

    /// Reacts to inputs that may be offered.
    fn react(
        &self,
        engine: &mut Self::Engine,
        state: &Self::State,
        inputs: u64,
    ) -> Step<Self::State, Self::Answer>
        requires fits { fits self.now engine.old }
        requires state { is_state self.now state.now }
        requires inputs { IsIn (bits inputs) (offerable (signals self.now)) }
        ensures fits { fits self.now engine.new }
        ensures state { (y : Self.State) → result.next ≡ Some y → is_state self.now y }
        ensures answer { answers self.now state.now (bits inputs) result.label result.next };

    /// Reacts where only the inputs in `asked` are known. A step is that of all inputs that are the
    /// same where it is asked. No step says nothing of them.
    fn react_to_part(
        &self,
        engine: &mut Self::Engine,
        state: &Self::State,
        asked: u64,
        inputs: u64,
    ) -> Result<Step<Self::State, Self::Answer>, Unsettled>
        requires fits { fits self.now engine.old }
        requires state { is_state self.now state.now }
        requires inputs { IsIn (bits inputs) (offerable (signals self.now)) }
        requires asked { AreInputOutputsAsked (signals self.now) (bits asked) }
        ensures fits { fits self.now engine.new }
        ensures state { IfOk result (λ s. (y : Self.State) → s.next ≡ Some y → is_state self.now
            y) }
        ensures answer { IfOk result (λ s. (set : InputSet)
            → IsIn set (offerable (signals self.now)) → Agrees (bits asked) (bits inputs) set
            → answers self.now state.now set s.label s.next) }
        ensures unasked { IfErr result (λ u. IfSome u.waits_for
            (λ n. not_asked (signals self.now) (bits asked) n ≡ true)) };
}
