//! What every reaction engine promises.

ghost use Rattle.std.specs.Prelude.{IfOk, IfErr};
ghost use Rattle.est_kernel.specs.declared.kernel.Kernel.{Kernel as KernelValue};
ghost use Rattle.est_meaning.specs.States.{IsState};
ghost use Rattle.est_rounds.specs.Contract.{AreInputs, IsReaction, HasNoReaction};

use est_kernel::kernel::Kernel;
use est_kernel::state::{Inputs, Outcome, State, Stuck};

/// What reacts for a kernel.
pub trait Engine {
    /// The engine is for this kernel.
    ghost is_for: { Self → KernelValue → Type 0 };

    /// Reacts to the inputs of an instant. It answers the outputs and the next state exactly when
    /// the kernel has a reaction from this state, and else which outputs are undecided. The engine
    /// stays one for the kernel.
    fn react(&mut self, kernel: &Kernel, state: &State, inputs: &Inputs) -> Result<Outcome, Stuck>
        requires engine { is_for self.old kernel.now }
        requires state { IsState kernel.now.root state.now }
        requires inputs { AreInputs kernel.now inputs.now }
        ensures engine { is_for self.new kernel.now }
        ensures ok { IfOk result (λ o. IsReaction kernel.now state.now inputs.now o) }
        ensures stuck { IfErr result (λ s. HasNoReaction kernel.now state.now inputs.now s) };
}
