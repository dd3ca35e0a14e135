//! What an engine promises that reacts where only some inputs are asked.

ghost use Rattle.std.specs.Prelude.{◌≡◌, IfErr, IfOk, IfSome, true};
ghost use Rattle.est_kernel.specs.Bits.{bits};
ghost use Rattle.est_kernel.specs.declared.state.Inputs.{Inputs as InputsValue};
ghost use Rattle.est_meaning.specs.States.{IsState};
ghost use Rattle.est_rounds.specs.Contract.{AreInputs, IsReaction};
ghost use Rattle.est_rounds.specs.Parts.{AgreeOn, AreInputOutputsAsked, not_asked};

use crate::engine::Engine;
use crate::rounds::Rounds;
use est_kernel::kernel::Kernel;
use est_kernel::state::{Inputs, Outcome, State};

/// A part of the inputs that tells no outcome.
#[derive(Clone, Copy)]
pub struct Unsettled {
    /// An input that is waited for, by its place in the interface, if one is named.
    pub waits_for: Option<u8>,
}

/// What reacts for a kernel where only some inputs are asked.
pub trait PartEngine: Engine {
    /// Reacts where only the inputs in `asked` are known, and nothing of any other that may be
    /// offered. An outcome is the reaction to all inputs that are the same where it is asked. No
    /// outcome says nothing of any reaction; what is then named is an input that is not asked.
    fn react_to_part(
        &mut self,
        kernel: &Kernel,
        state: &State,
        asked: u64,
        inputs: &Inputs,
    ) -> Result<Outcome, Unsettled>
        requires engine { Self.is_for self.old kernel.now }
        requires state { IsState kernel.now.root state.now }
        requires inputs { AreInputs kernel.now inputs.now }
        requires asked { AreInputOutputsAsked kernel.now.interface (bits asked) }
        ensures engine { Self.is_for self.new kernel.now }
        ensures ok { IfOk result (λ o. (others : InputsValue)
            → AgreeOn kernel.now (bits asked) (bits inputs.now.signals) others
            → IsReaction kernel.now state.now others o) }
        ensures unasked { IfErr result (λ u. IfSome u.waits_for
            (λ n. not_asked kernel.now.interface (bits asked) n ≡ true)) };
}

impl PartEngine for Rounds {
    /// The plain engine tells nothing by a part.
    fn react_to_part(
        &mut self,
        _kernel: &Kernel,
        _state: &State,
        _asked: u64,
        _inputs: &Inputs,
    ) -> Result<Outcome, Unsettled> {
        Err(Unsettled { waits_for: None })
    }
}
