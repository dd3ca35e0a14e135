//! Reactions by a part of the inputs.

ghost use Rattle.std.specs.Prelude.{◌≡◌, length, IfSome, IfNone, OnSome};
ghost use Rattle.est_kernel.specs.Bits.{bits};
ghost use Rattle.est_meaning.specs.States.{IsState};
ghost use Rattle.est_net.specs.Cells.{decided};
ghost use Rattle.est_rounds.specs.Parts.{not_asked};
ghost use Rattle.est_micro.specs.Engine.{IsNetOf};
ghost use Rattle.est_micro.specs.Inner.Outcomes.{HasNoCode, IsOutcomeOf};

use crate::cells::Swept;
use crate::micro::{Micro, read_outcome};
use crate::question::Question;
use crate::settling::decide_cells;
use crate::waiting::first_waited;
use est_kernel::kernel::Kernel;
use est_kernel::mask;
use est_kernel::state::{Inputs, Outcome, State};
use est_net::net::Net;
use est_rounds::part_engine::{PartEngine, Unsettled};

/// The outcome that the cells tell, where all of them are decided.
fn told_if_decided(net: &Net, kernel: &Kernel, state: &State, swept: &Swept) -> Option<Outcome>
    requires net { IsNetOf net.now kernel.now }
    requires state { IsState kernel.now.root state.now }
    ensures some { IfSome result
        (λ o. IsOutcomeOf kernel.now state.now net.now.cells.items swept.now o) }
    ensures all { OnSome result (decided net.now.cells.items ≡ length net.now.cells.items) }
    ensures none { IfNone result (decided net.now.cells.items ≡ length net.now.cells.items
        → HasNoCode state.now swept.now) }
{
    if net.steps() < net.cells() {
        return None;
    }
    read_outcome(net, kernel, state, swept)
}

/// The inputs that are not asked.
fn unasked_inputs(kernel: &Kernel, asked: u64) -> u64
    ensures { bits result ≡ not_asked kernel.now.interface (bits asked) }
{
    mask::difference(kernel.interface().offerable(), asked)
}

impl PartEngine for Micro {
    ghost use Rattle.std.specs.Prelude.{◌≡◌, IfOk, IfErr, IfSome, OnOk, true};
    ghost use Rattle.est_kernel.specs.Bits.{bits};
    ghost use Rattle.est_kernel.specs.declared.state.Inputs.{Inputs as InputsValue};
    ghost use Rattle.est_meaning.specs.States.{IsState};
    ghost use Rattle.est_net.specs.Kept.{kept, reopened};
    ghost use Rattle.est_rounds.specs.Contract.{AreInputs, IsReaction};
    ghost use Rattle.est_rounds.specs.Parts.{AgreeOn, AreInputOutputsAsked, not_asked};
    ghost use Rattle.est_micro.specs.Engine.{HasValues, IsNetOf, IsSound};
    ghost use Rattle.est_micro.specs.Unsettled.{IsLeftOpen};

    /// Reacts where only the inputs in `asked` are known, and nothing of any other that may be
    /// offered. An outcome is the reaction to all inputs that are the same where it is asked. Where
    /// there is none, nothing is said of any reaction: some cell is open, nothing more can be
    /// decided by what is asked, and the input is named that an open test waits for.
    fn react_to_part(
        &mut self,
        kernel: &Kernel,
        state: &State,
        asked: u64,
        inputs: &Inputs,
    ) -> Result<Outcome, Unsettled>
        requires engine { IsNetOf self.old.net kernel.now }
        requires state { IsState kernel.now.root state.now }
        requires inputs { AreInputs kernel.now inputs.now }
        requires asked { AreInputOutputsAsked kernel.now.interface (bits asked) }
        ensures engine { IsNetOf self.new.net kernel.now }
        ensures ok { IfOk result (λ o. (others : InputsValue)
            → AgreeOn kernel.now (bits asked) (bits inputs.now.signals) others
            → IsReaction kernel.now state.now others o) }
        ensures values { OnOk result ((others : InputsValue)
            → AgreeOn kernel.now (bits asked) (bits inputs.now.signals) others
            → HasValues kernel.now state.now (bits others.signals) self.new.net.cells.items) }
        ensures open { IfErr result (λ u. IsLeftOpen kernel.now state.now (bits asked)
            (bits inputs.now.signals) self.new.net.cells.items u) }
        ensures unasked { IfErr result (λ u. IfSome u.waits_for
            (λ n. not_asked kernel.now.interface (bits asked) n ≡ true)) }
        ensures sound { (others : InputsValue)
            → AgreeOn kernel.now (bits asked) (bits inputs.now.signals) others
            → IsSound kernel.now state.now (bits others.signals) self.new.net.cells.items }
        ensures once { kept self.new.net ≡ reopened self.old.net }
    {
        let unasked = unasked_inputs(kernel, asked);
        let question = Question {
            kernel,
            state,
            inputs: inputs.signals,
            unasked,
        };
        let run_end = decide_cells(&mut self.net, &question, self.beginning);
        self.beginning = run_end.next;
        match told_if_decided(&self.net, kernel, state, &run_end.swept) {
            Some(outcome) => Ok(outcome),
            None => Err(Unsettled {
                waits_for: first_waited(&self.net, &question, &run_end.env),
            }),
        }
    }
}
