//! A module that runs.

ghost use Rattle.std.specs.Prelude.{◌≡◌, ◌<◌, true, false, IfOk, IfErr, OnErr};
ghost use Rattle.est_kernel.specs.declared.state.State.TheVariants.{Fresh};
ghost use Rattle.est_kernel.specs.declared.state.State.{State as StateValue};
ghost use Rattle.est_machine.specs.Machines.{IsRefused, Reacts, in_state};
ghost use Rattle.est_machine.specs.Saved.{AreSaved, IsSavedWord};
ghost use Rattle.est_meaning.specs.States.{IsState};

use crate::input_checks::check_inputs;
use crate::refusal::MachineRefusal;
use crate::saved::{is_of, saved_word, state_in};
use crate::valid_states::is_state;
use est_kernel::interface::Interface;
use est_kernel::kernel::Kernel;
use est_kernel::state::{Inputs, State};
use est_micro::micro::Micro;
use est_net::net::Net;
use est_relations::relations::Relations;
use est_rounds::engine::Engine;
use std::alloc::{AllocError, Global};
use std::marker::Model;

/// A kernel, the relations between its inputs, a digest of its module, the table of its
/// engine, and the state in which it stands. A contract sees all but the table.
#[derive(Drop)]
pub struct Machine {
    kernel: Kernel,
    relations: Relations,
    digest: [u8; 32],
    engine: Micro,
    state: State,
}

impl Model for Machine {
    ghost use Rattle.std.specs.Coded.{codes};
    ghost use Rattle.std.specs.Prelude.{List, ℕ};
    ghost use Rattle.est_kernel.specs.contracts.kernel.Kernel as the_kernel;
    ghost use Rattle.est_kernel.specs.declared.kernel.Kernel.{Kernel};
    ghost use Rattle.est_kernel.specs.declared.state.State.{State};
    ghost use Rattle.est_meaning.specs.States.{IsState};
    ghost use Rattle.est_micro.specs.Engine.{IsNetOf};
    ghost use Rattle.est_relations.specs.contracts.relations.Relation as the_relation;
    ghost use Rattle.est_relations.specs.declared.relations.Relation.{Relation};

    ghost Value = { Kernel × List Relation × List ℕ × State };

    ghost coded = { Prim.hlevel (codes, the_kernel.the_row.coded, the_relation.the_row.coded) };

    ghost view = { λ m. (m.kernel, m.relations, m.digest, m.state) };

    ghost invariant = { λ m. IsNetOf m.engine.net m.kernel × IsState m.kernel.root m.state };
}

impl Machine {
    /// The machine of a kernel and the relations between its inputs, which has not begun, or memory
    /// was refused. The digest tells it from machines of other modules.
    pub fn begin(
        alloc: Global,
        kernel: Kernel,
        relations: Relations,
        digest: [u8; 32],
    ) -> Result<Machine, AllocError>
        ensures { IfOk result (λ m. m ≡ (kernel, relations, digest, Fresh)) }
    {
        let engine = Micro::new(Net::build(alloc, &kernel)?);
        Ok(Machine {
            kernel,
            relations,
            digest,
            engine,
            state: State::Fresh,
        })
    }

    /// The interface.
    pub fn interface(&self) -> &Interface
        ensures { result.now ≡ self.now.0.interface }
    {
        self.kernel.interface()
    }

    /// One instant with these inputs, a bit for each place of the interface. Answers what is
    /// present then of the signals that may be emitted. It takes no memory.
    pub fn react(&mut self, inputs: u64) -> Result<u64, MachineRefusal>
        ensures reacts { IfOk result (λ outputs. Reacts self.old inputs outputs self.new) }
        ensures refused { IfErr result (IsRefused self.old inputs) }
        ensures same { OnErr result (self.new ≡ self.old) }
    {
        if let Err(refusal) = check_inputs(self.kernel.interface(), &self.relations, inputs) {
            return Err(refusal);
        }
        let inputs = Inputs { signals: inputs };
        match self.engine.react(&self.kernel, &self.state, &inputs) {
            Ok(outcome) => {
                self.state = outcome.next;
                Ok(outcome.outputs)
            }
            Err(stuck) => Err(MachineRefusal::Stuck(stuck.undecided)),
        }
    }

    /// One of the words that keep where it stands. It takes no memory.
    pub fn saved(&self, place: usize) -> u64
        requires { place < 65 }
        ensures { IsSavedWord self.now.2 self.now.3 place result }
    {
        saved_word(&self.digest, &self.state, place)
    }

    /// Goes where a machine stood that these words were saved of, if it had the same digest; else
    /// it stays as it was. It takes no memory.
    pub fn restore(&mut self, words: &[u64; 65]) -> bool
        ensures same_module { self.new ≡ in_state self.old self.new.3 }
        ensures done { result ≡ true → AreSaved self.new words.now }
        ensures refused { result ≡ false
            → (self.new ≡ self.old)
            × ((x : StateValue) → IsState self.old.0.root x
            → AreSaved (in_state self.old x) words.now → ⊥) }
    {
        if !is_of(words, &self.digest) {
            return false;
        }
        let Some(state) = state_in(words) else {
            return false;
        };
        if !is_state(self.kernel.root(), &state) {
            return false;
        }
        self.state = state;
        true
    }

    /// Back to before the first instant. It takes no memory.
    pub fn reset(&mut self)
        ensures { self.new ≡ in_state self.old Fresh }
    {
        self.state = State::Fresh;
    }
}
