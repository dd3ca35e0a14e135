//! All that something does with lawful inputs.
ghost use Rattle.std.specs.Prelude.{◌≡◌, ◌≢◌};
ghost use Rattle.est_kernel.specs.Bits.{bits};
ghost use Rattle.est_cover.specs.InputSets.{HaveAllInputs, IsAsked, may_offer};

use crate::answered::AnsweredInputs;
use crate::cover::{InputSets, cover};
use crate::part::Part;
use crate::reactive::Reactive;
use est_kernel::mask;
use est_relations::relations::Relations;
use state_search::transition_system::{Step, TransitionSystem};
use std::alloc::AllocError;

/// What something does with the sets of inputs that somebody may offer and that keep the relations.
#[derive(Drop)]
pub struct LawfulInputs<'a, R> {
    pub reactive: &'a R,
    pub relations: &'a Relations,
    /// The signals that somebody may offer.
    pub allowed: u64,
    /// Those of which each answer has to say whether they are offered.
    pub watched: u64,
}

impl<'a, R: Reactive> TransitionSystem for LawfulInputs<'a, R> {
    type State = R::State;

    type Label = AnsweredInputs<R::Answer>;

    type Engine = R::Engine;

    ghost fits = { λ s x. R.fits s.reactive.now x };

    ghost is_state = { λ s x. R.is_state s.reactive.now x };

    ghost does = { λ s x i next. IsAsked (R.answers s.reactive.now x)
        (may_offer (R.signals s.reactive.now) (bits s.allowed)) s.relations.now (bits s.watched) i
        next };

    ghost covers = { λ s x steps.
        HaveAllInputs (may_offer (R.signals s.reactive.now) (bits s.allowed)) s.relations.now
        steps };

    ghost apart = { λ s a b. a.inputs ≢ b.inputs };

    fn steps(
        &self,
        engine: &mut R::Engine,
        state: &R::State,
        most: usize,
        steps: &mut Vec<Step<R::State, AnsweredInputs<R::Answer>>>,
    ) -> Result<bool, AllocError> {
        let interface = self.reactive.interface();
        let offerable = interface.offerable();
        let may = mask::intersection(offerable, self.allowed);
        let sets = InputSets {
            relations: self.relations.as_slice(),
            offerable,
            may,
            watched: mask::union(interface.emittable(), self.watched),
        };
        let all = Part {
            unasked: may,
            inputs: 0,
        };
        cover(self.reactive, &sets, engine, state, most, all, steps)
    }
}
