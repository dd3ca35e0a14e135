//! The microstep engine.

ghost use Rattle.std.specs.Prelude.{◌≡◌, ◌≤◌, length, IfOk, IfErr, IfSome, IfNone, OnOk};
ghost use Rattle.est_kernel.specs.Bits.{bits};
ghost use Rattle.est_kernel.specs.Pauses.{pauses_of};
ghost use Rattle.est_kernel.specs.declared.state.State.TheVariants.{Done};
ghost use Rattle.est_meaning.specs.States.{IsState};
ghost use Rattle.est_net.specs.Cells.{decided};
ghost use Rattle.est_net.specs.Kept.{kept, reopened};
ghost use Rattle.est_rounds.specs.Contract.{HasNoReaction, IsReaction};
ghost use Rattle.est_micro.specs.Engine.{GoesOnFrom, HasValues, IsAsMeant, IsNetOf};
ghost use Rattle.est_micro.specs.Inner.Outcomes.{HasNoCode, IsOutcomeOf};

use crate::cells::Swept;
use crate::direction::Direction;
use crate::next_pauses::collect_pauses;
use crate::question::Question;
use crate::settling::{Beginning, decide_cells};
use est_kernel::completion::Completion;
use est_kernel::kernel::Kernel;
use est_kernel::mask;
use est_kernel::pause_set::PauseSet;
use est_kernel::state::{Inputs, Outcome, State, Stuck};
use est_net::net::Net;
use est_rounds::engine::Engine;

/// The engine that decides the cells of a table, each once, until nothing more can be decided.
#[derive(Drop)]
pub struct Micro {
    pub(crate) net: Net,
    /// How the next run begins, as the last one told.
    pub(crate) beginning: Beginning,
}

/// The outcome of a kernel that had not ended, where its cells give a code: its pauses are read off
/// the cells.
fn outcome(
    net: &Net,
    kernel: &Kernel,
    state: &State,
    from: &PauseSet,
    swept: &Swept,
) -> Option<Outcome>
    requires net { IsNetOf net.now kernel.now }
    requires state { IsState kernel.now.root state.now }
    requires lives { state.now ≡ Done → ⊥ }
    requires from { GoesOnFrom state.now (pauses_of from.now) }
    ensures some { IfSome result
        (λ o. IsOutcomeOf kernel.now state.now net.now.cells.items swept.now o) }
    ensures none { IfNone result (HasNoCode state.now swept.now) }
{
    let must = swept.judged.must;
    if must.codes.has(Completion::Pause) {
        let cell = net.output_count();
        let mut next = PauseSet::new();
        collect_pauses(net, 0, true, cell, 0, kernel.root(), from, &mut next);
        return Some(Outcome {
            outputs: must.signals.interface,
            next: State::Paused(next),
        });
    }
    if must.codes.has(Completion::End) {
        return Some(Outcome {
            outputs: must.signals.interface,
            next: State::Done,
        });
    }
    None
}

/// The outcome that the cells tell, where they tell one.
pub(crate) fn read_outcome(
    net: &Net,
    kernel: &Kernel,
    state: &State,
    swept: &Swept,
) -> Option<Outcome>
    requires net { IsNetOf net.now kernel.now }
    requires state { IsState kernel.now.root state.now }
    ensures some { IfSome result
        (λ o. IsOutcomeOf kernel.now state.now net.now.cells.items swept.now o) }
    ensures none { IfNone result (HasNoCode state.now swept.now) }
{
    match state {
        State::Done => Some(Outcome {
            outputs: swept.judged.must.signals.interface,
            next: State::Done,
        }),
        State::Fresh => outcome(net, kernel, state, &PauseSet::new(), swept),
        State::Paused(from) => outcome(net, kernel, state, from, swept),
    }
}

impl Micro {
    /// The engine on this table.
    pub fn new(net: Net) -> Micro
        ensures { result.net ≡ net }
    {
        Micro {
            net,
            beginning: Beginning {
                direction: Direction::Forwards,
                leads: true,
            },
        }
    }

    /// The table, as the last run left it.
    pub fn net(&self) -> &Net
        ensures { result.now ≡ self.now.net }
    {
        &self.net
    }

    /// How many cells the last run decided.
    pub fn steps(&self) -> usize
        ensures count { result ≡ decided self.now.net.cells.items }
        ensures bound { result ≤ length self.now.net.cells.items }
    {
        self.net.steps()
    }

    /// Reacts to the inputs of an instant, for the kernel of its table. Where there is a reaction,
    /// each cell is decided, with its value in it, so `steps` is then the number of cells. Where
    /// there is none, exactly those cells are open that the meaning leaves open. The table is
    /// opened once, at the beginning: the run writes as often as it decides a cell.
    pub fn run(&mut self, kernel: &Kernel, state: &State, inputs: &Inputs) -> Result<Outcome, Stuck>
        requires net { IsNetOf self.old.net kernel.now }
        requires state { IsState kernel.now.root state.now }
        ensures net { IsNetOf self.new.net kernel.now }
        ensures ok { IfOk result (λ o. IsReaction kernel.now state.now inputs.now o) }
        ensures values { OnOk result
            (HasValues kernel.now state.now (bits inputs.now.signals)
            self.new.net.cells.items) }
        ensures stuck { IfErr result (λ s. HasNoReaction kernel.now state.now inputs.now s) }
        ensures meant { IsAsMeant kernel.now state.now (bits inputs.now.signals)
            self.new.net.cells.items }
        ensures once { kept self.new.net ≡ reopened self.old.net }
    {
        let question = Question {
            kernel,
            state,
            inputs: inputs.signals,
            unasked: 0,
        };
        let run_end = decide_cells(&mut self.net, &question, self.beginning);
        self.beginning = run_end.next;
        match read_outcome(&self.net, kernel, state, &run_end.swept) {
            Some(outcome) => Ok(outcome),
            None => Err(Stuck {
                undecided: mask::difference(
                    run_end.env.possible.interface,
                    run_end.env.present.interface,
                ),
            }),
        }
    }
}

impl Engine for Micro {
    ghost use Rattle.std.specs.Prelude.{IfOk, IfErr, OnOk};
    ghost use Rattle.est_kernel.specs.Bits.{bits};
    ghost use Rattle.std.specs.Prelude.{◌≡◌};
    ghost use Rattle.est_meaning.specs.States.{IsState};
    ghost use Rattle.est_net.specs.Kept.{kept, reopened};
    ghost use Rattle.est_rounds.specs.Contract.{AreInputs, HasNoReaction, IsReaction};
    ghost use Rattle.est_micro.specs.Engine.{HasValues, IsAsMeant, IsNetOf};

    ghost is_for = { λ m k. IsNetOf m.net k };

    fn react(&mut self, kernel: &Kernel, state: &State, inputs: &Inputs) -> Result<Outcome, Stuck>
        requires engine { IsNetOf self.old.net kernel.now }
        requires state { IsState kernel.now.root state.now }
        requires inputs { AreInputs kernel.now inputs.now }
        ensures engine { IsNetOf self.new.net kernel.now }
        ensures ok { IfOk result (λ o. IsReaction kernel.now state.now inputs.now o) }
        ensures values { OnOk result (HasValues kernel.now state.now (bits inputs.now.signals)
            self.new.net.cells.items) }
        ensures stuck { IfErr result (λ s. HasNoReaction kernel.now state.now inputs.now s) }
        ensures meant { IsAsMeant kernel.now state.now (bits inputs.now.signals)
            self.new.net.cells.items }
        ensures once { kept self.new.net ≡ reopened self.old.net }
    {
        self.run(kernel, state, inputs)
    }
}
