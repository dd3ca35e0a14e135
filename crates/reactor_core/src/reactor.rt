//! A running module with its journal.
ghost use Rattle.std.specs.Prelude.{◌≡◌, ◌⊎◌, ◌<◌, ◌-◌, ◌++◌, ◌∷◌, [], length, Some, MatchResult};
ghost use Rattle.std.specs.Prelude.{MatchOption, IfOk, IfErr, true, false, slice_get};
ghost use Rattle.est_kernel.specs.Bits.{bits};
ghost use Rattle.est_kernel.specs.Interfaces.{offerable};
ghost use Rattle.est_meaning.specs.Knowledge.{IsIn};
ghost use Rattle.est_micro.specs.Engine.{IsNetOf};
ghost use Rattle.reactor_core.specs.Meaning.{Running, RunsAfter, ModuleOf, is_loaded, instants_of};
ghost use Rattle.reactor_core.specs.Meaning.{entry};
ghost use Rattle.reactor_core.specs.Loading.{IsLoadFault};
ghost use Rattle.reactor_core.specs.Standing.{given_by};
ghost use Rattle.reactor_core.specs.Instants.{OpenAnswer};
ghost use Rattle.reactor_core.specs.Left.{IsKernelOf, IsLeftOf};
ghost use Rattle.reactor_core.specs.Answers.{LoadAnswer, ReactorOfferAnswer, DiscardAnswer};
ghost use Rattle.reactor_core.specs.Answers.{UnloadAnswer};
ghost use Rattle.reactor_core.specs.Answers.{ShownAnswer, HasRoom, RefusesEntry};

use crate::entry::{Load, Move, PastInstant, SlotEntry, Stamp};
use crate::journal::Journal;
use crate::kernel_module::Module;
use crate::reactor::instant::Instant;
use crate::reactor::parts::{Parts, check_relations, offer_input};
use crate::reading::read_module;
use crate::refusal::{ModuleRefusal, ReactorRefusal};
use est_kernel::interface::Interface;
use est_kernel::kernel::Kernel;
use est_kernel::state::State;
use est_micro::micro::Micro;
use est_net::net::Net;
use est_relations::relations::Relations;
use est_text::identifier::Identifier;
use std::alloc::Global;
use std::marker::Model;

pub mod instant;
mod parts;

/// What is shown of an instant: the signals that were asked for, and those of them that were
/// present, as masks over the interface in the order of declaration.
#[derive(Clone, Copy, PartialEq, Eq)]
pub struct Shown {
    pub mask: u64,
    pub present: u64,
}

/// A journal whose last load runs. A contract sees the list of the journal's entries.
#[derive(Drop)]
pub struct Reactor {
    parts: Parts,
}

impl Model for Reactor {
    ghost use Rattle.std.specs.Prelude.{List};
    ghost use Rattle.std.specs.Coded.{codes};
    ghost use Rattle.reactor_core.specs.contracts.entry.SlotEntry as entry;
    ghost use Rattle.reactor_core.specs.declared.entry.SlotEntry.{SlotEntry};

    ghost Value = { List SlotEntry };

    ghost coded = { Prim.hlevel (codes, entry.the_row.coded) };

    ghost use Rattle.reactor_core.specs.Standing.{AreRunning};

    ghost view = { λ r. r.parts.journal };

    ghost invariant = { λ r. AreRunning r.parts };
}

/// The n-th instant, counted from 1.
fn instant_at(instants: &[PastInstant], n: u64) -> Option<PastInstant>
    ensures { MatchOption result
        ((n ≡ 0) ⊎ (length instants.now < n))
        (λ i. (0 < n) × (slice_get instants.now (n - 1) ≡ Some i)) }
{
    if n == 0 || n > instants.len() as u64 {
        return None;
    }
    Some(instants[(n - 1) as usize])
}

/// The module of a load, which is read from its text, and the engine of the module's kernel.
fn build_module(alloc: Global, load: &Load) -> Result<(Module, Micro), ReactorRefusal>
    ensures given { IfOk result (λ read. ModuleOf load.now (given_by read.0)) }
    ensures engine { IfOk result (λ read. IsNetOf read.1.net read.0.kernel) }
    ensures fault { IfErr result (IsLoadFault load.now.main load.now.text) }
{
    let loaded = read_module(alloc, load.main.as_str(), load.text.as_str())?;
    let engine = Micro::new(Net::build(alloc, &loaded.kernel)?);
    Ok((loaded, engine))
}

impl Reactor {
    /// The interface of the module that runs.
    pub fn interface(&self) -> &Interface
        ensures { (r : Running) × RunsAfter self.now r × (result.now ≡ r.interface) }
    {
        self.parts.loaded.kernel.interface()
    }

    /// The relations between the inputs of the module that runs, in the order of its text. It takes
    /// no memory.
    pub fn relations(&self) -> &Relations
        ensures { (r : Running) × RunsAfter self.now r × (result.now ≡ r.relations) }
    {
        &self.parts.loaded.relations
    }

    /// The kernel of the module that runs. It takes no memory.
    pub fn kernel(&self) -> &Kernel
        ensures { IsKernelOf self.now result.now }
    {
        &self.parts.loaded.kernel
    }

    /// What is left to run: the kernel, and the state of it that stands for the term that is left.
    /// It takes no memory.
    pub fn state(&self) -> (&Kernel, &State)
        ensures { IsLeftOf self.now result.0.now result.1.now }
    {
        (&self.parts.loaded.kernel, &self.parts.state)
    }

    /// The journal, whose last load runs.
    pub fn journal(&self) -> &Journal
        ensures same { result.now ≡ self.now }
        ensures loaded { is_loaded self.now ≡ true }
    {
        &self.parts.journal
    }

    /// The journal alone. It adds no entry and takes no memory.
    pub fn into_journal(self) -> Journal
        ensures { result ≡ self }
    {
        let Reactor { parts } = self;
        parts.journal
    }

    /// How many instants there were since the load.
    pub fn instants(&self) -> u64
        ensures { result ≡ length (instants_of self.now) }
    {
        self.parts.instants.len() as u64
    }

    /// The inputs that are offered and not yet taken by a step, as a mask over the interface in the
    /// order of declaration.
    pub fn pending(&self) -> u64
        ensures mask { (r : Running) × RunsAfter self.now r × (result ≡ r.pending) }
        ensures inputs { (r : Running) × RunsAfter self.now r
            × IsIn (bits result) (offerable r.interface) }
    {
        self.parts.pending
    }

    /// Loads the main module of a text: the reactor has not begun, and its journal has the load's
    /// entry, which keeps the text. A refusal, by the text, JournalFull or Memory, gives the
    /// journal back as it was.
    pub fn load(
        alloc: Global,
        journal: Journal,
        stamp: Stamp,
        load: Load,
    ) -> Result<Reactor, (ReactorRefusal, Journal)>
        ensures { LoadAnswer journal stamp load.main load.text result }
    {
        match build_module(alloc, &load) {
            Ok((loaded, engine)) => Reactor::begin(alloc, journal, stamp, load, loaded, engine),
            Err(fault) => Err((fault, journal)),
        }
    }

    /// The reactor of a load, its module and its engine: it has not begun, and its journal has the
    /// load's entry. A refusal, JournalFull or Memory, gives the journal back as it was.
    fn begin(
        alloc: Global,
        journal: Journal,
        stamp: Stamp,
        load: Load,
        loaded: Module,
        engine: Micro,
    ) -> Result<Reactor, (ReactorRefusal, Journal)>
        requires given { ModuleOf load (given_by loaded) }
        requires engine { IsNetOf engine.net loaded.kernel }
        ensures { MatchResult result
            (λ r. HasRoom journal × (r ≡ journal ++ entry stamp (Move.Load load) ∷ []))
            (λ refused. RefusesEntry journal refused.0 × (refused.1 ≡ journal)) }
    {
        let mut journal = journal;
        let entry = SlotEntry {
            stamp,
            done: Move::Load(load),
        };
        match journal.append(entry) {
            Ok(()) => Ok(Reactor {
                parts: Parts {
                    journal,
                    loaded,
                    engine,
                    state: State::Fresh,
                    pending: 0,
                    instants: Vec::new(alloc),
                },
            }),
            Err(refusal) => Err((refusal, journal)),
        }
    }

    /// Makes an input pending, where that keeps each exclusion of the module.
    pub fn offer(&mut self, stamp: Stamp, name: &Identifier) -> Result<(), ReactorRefusal>
        ensures { ReactorOfferAnswer self.old stamp name.now result self.new }
    {
        let pending = match offer_input(&self.parts.loaded, self.parts.pending, name) {
            Ok(pending) => pending,
            Err(refusal) => return Err(refusal),
        };
        let entry = SlotEntry {
            stamp,
            done: Move::Offer(*name),
        };
        match self.parts.journal.append(entry) {
            Ok(()) => {
                self.parts.pending = pending;
                Ok(())
            }
            Err(refusal) => Err(refusal),
        }
    }

    /// Takes the pending inputs away; the module runs on. A refusal, JournalFull or Memory, leaves
    /// the reactor as it was.
    pub fn discard(&mut self, stamp: Stamp) -> Result<(), ReactorRefusal>
        ensures answer { DiscardAnswer self.old stamp result self.new }
        ensures loaded { is_loaded self.new ≡ true }
    {
        let entry = SlotEntry {
            stamp,
            done: Move::Discard,
        };
        match self.parts.journal.append(entry) {
            Ok(()) => {
                self.parts.pending = 0;
                Ok(())
            }
            Err(refusal) => Err(refusal),
        }
    }

    /// Ends the module, with its pending inputs: the journal, after which none runs. A refusal,
    /// JournalFull or Memory, gives the reactor back as it was.
    pub fn unload(self, stamp: Stamp) -> Result<Journal, (ReactorRefusal, Reactor)>
        ensures answer { UnloadAnswer self stamp result }
        ensures empty { IfOk result (λ journal. is_loaded journal ≡ false) }
    {
        let Reactor { parts } = self;
        let mut parts = parts;
        let entry = SlotEntry {
            stamp,
            done: Move::Unload,
        };
        match parts.journal.append(entry) {
            Ok(()) => Ok(parts.journal),
            Err(refusal) => Err((refusal, Reactor { parts })),
        }
    }

    /// Opens the next instant, which takes the pending inputs, where each relation of the module
    /// holds of them. Where one doesn't it is refused as Implied, and the reactor is handed back as
    /// it was. It adds no entry and takes no memory.
    pub fn open(self) -> Result<Instant, (ReactorRefusal, Reactor)>
        ensures { OpenAnswer self result }
    {
        match check_relations(&self.parts.loaded, self.parts.pending) {
            Ok(()) => Ok(Instant::of(self)),
            Err(refusal) => Err((refusal, self)),
        }
    }

    /// What was present in the n-th instant since the load, within the mask. It takes no memory.
    pub fn shown(&self, n: u64, mask: u64) -> Result<Shown, ReactorRefusal>
        ensures { ShownAnswer self.now n mask result }
    {
        match instant_at(self.parts.instants.as_slice(), n) {
            Some(instant) => Ok(Shown {
                mask,
                present: (instant.inputs | instant.outputs) & mask,
            }),
            None => Err(ReactorRefusal::Module(ModuleRefusal::NoInstant)),
        }
    }
}
