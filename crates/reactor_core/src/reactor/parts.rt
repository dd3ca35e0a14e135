//! What a reactor is made of, and what an offer and an instant make of it.
ghost use Rattle.std.specs.Prelude.{◌≡◌, ◌++◌, ◌∷◌, [], MatchResult};
ghost use Rattle.est_kernel.specs.Bits.{bits};
ghost use Rattle.est_kernel.specs.Term.{Term};
ghost use Rattle.est_relations.specs.Keeping.{AreLawful};
ghost use Rattle.reactor_core.specs.Meaning.{entry};
ghost use Rattle.reactor_core.specs.Standing.{AreRunning, HaveOutcome, AreKept, OffersAs};
ghost use Rattle.reactor_core.specs.Standing.{RefusesOffering, RefusesInstant};
ghost use Rattle.reactor_core.specs.Instants.{AddsInstant};
ghost use Rattle.reactor_core.specs.Answers.{HasRoom, RefusesEntry};

use crate::entry::{Move, PastInstant, SlotEntry, Stamp};
use crate::journal::Journal;
use crate::kernel_module::Module;
use crate::refusal::ReactorRefusal;
use est_kernel::state::{Outcome, State};
use est_micro::micro::Micro;
use est_relations::pending::Pending;
use est_text::identifier::Identifier;

/// What a reactor is made of: a journal, the module of its last load with its engine, and how far
/// that has come.
#[derive(Drop)]
pub struct Parts {
    pub journal: Journal,
    pub loaded: Module,
    pub engine: Micro,
    pub state: State,
    /// The inputs that are offered and not yet taken, a bit for each in the order of declaration.
    pub pending: u64,
    /// The instants since the load.
    pub instants: Vec<PastInstant>,
}

/// The pending inputs of a module with the one of this name, where it may join them.
pub fn offer_input(loaded: &Module, pending: u64, name: &Identifier) -> Result<u64, ReactorRefusal>
    requires { AreKept loaded.now pending }
    ensures { MatchResult result
        (OffersAs loaded.now pending name.now)
        (RefusesOffering loaded.now pending name.now) }
{
    let mut pending = Pending::resume(loaded.kernel.interface(), &loaded.relations, pending);
    pending.offer(name)?;
    Ok(pending.inputs())
}

/// Whether an instant may take the pending inputs of a module.
pub fn check_relations(loaded: &Module, pending: u64) -> Result<(), ReactorRefusal>
    requires { AreKept loaded.now pending }
    ensures { MatchResult result
        (λ _. AreLawful loaded.now.relations (bits pending))
        (RefusesInstant loaded.now pending) }
{
    let pending = Pending::resume(loaded.kernel.interface(), &loaded.relations, pending);
    pending.ready()?;
    Ok(())
}

/// Adds a step's entry and its instant, or refuses it as JournalFull or Memory and leaves both as
/// they are.
fn append_step(
    journal: &mut Journal,
    instants: &mut Vec<PastInstant>,
    stamp: Stamp,
    instant: PastInstant,
) -> Result<(), ReactorRefusal>
    ensures { MatchResult result
        (λ _. HasRoom journal.old
        × (journal.new ≡ journal.old ++ entry stamp (Move.Step instant) ∷ [])
        × (instants.new.items ≡ instants.old.items ++ instant ∷ []))
        (λ e. RefusesEntry journal.old e
        × (journal.new ≡ journal.old) × (instants.new.items ≡ instants.old.items)) }
{
    // Asked first, so that JournalFull goes before Memory.
    if journal.is_full() {
        return Err(ReactorRefusal::JournalFull);
    }
    if instants.reserve(1).is_err() {
        return Err(ReactorRefusal::Memory);
    }
    let entry = SlotEntry {
        stamp,
        done: Move::Step(instant),
    };
    journal.append(entry)?;
    instants.push_reserved(instant);
    Ok(())
}

impl Parts {
    /// Adds the instant of this outcome, with its entry. A refusal, JournalFull or Memory, leaves
    /// the journal and the running module as they were.
    pub fn advance(&mut self, stamp: Stamp, outcome: Outcome) -> Result<(), ReactorRefusal>
        requires running { AreRunning self.old }
        requires next { HaveOutcome self.old outcome }
        ensures running { AreRunning self.new }
        ensures adds { MatchResult result
            (λ _. (next : Term)
            × AddsInstant self.old.journal outcome.outputs next stamp self.new.journal)
            (λ e. RefusesEntry self.old.journal e × (self.new.journal ≡ self.old.journal)) }
    {
        let instant = PastInstant {
            inputs: self.pending,
            outputs: outcome.outputs,
        };
        match append_step(&mut self.journal, &mut self.instants, stamp, instant) {
            Ok(()) => {
                self.state = outcome.next;
                self.pending = 0;
                Ok(())
            }
            Err(refusal) => Err(refusal),
        }
    }
}
