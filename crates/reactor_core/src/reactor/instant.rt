//! The next instant of a reactor, while it is worked out: opened, settled, committed.
//!
//! An `Instant` and a `Settled` hold the reactor, and are spent by a move: neither is `Drop`, so a
//! program that lets one go does not compile. Each way out hands a reactor back, which is as it was
//! before `open` unless the instant was committed.
ghost use Rattle.std.specs.Prelude.{◌≡◌};
ghost use Rattle.reactor_core.specs.Instants.{SettleAnswer, CommitAnswer};

use crate::entry::Stamp;
use crate::reactor::Reactor;
use crate::reactor::parts::Parts;
use crate::refusal::ReactorRefusal;
use est_kernel::state::{Inputs, Outcome, Stuck};
use est_rounds::engine::Engine;
use std::marker::Model;

/// An instant that was opened: its inputs are those that are pending. A contract sees the journal
/// of its reactor.
pub struct Instant {
    reactor: Reactor,
}

impl Model for Instant {
    ghost use Rattle.std.specs.Prelude.{List};
    ghost use Rattle.std.specs.Coded.{codes};
    ghost use Rattle.reactor_core.specs.contracts.entry.SlotEntry as entry;
    ghost use Rattle.reactor_core.specs.declared.entry.SlotEntry.{SlotEntry};

    ghost Value = { List SlotEntry };

    ghost coded = { Prim.hlevel (codes, entry.the_row.coded) };

    ghost view = { λ i. i.reactor };
}

/// An instant whose reaction is known. A contract sees the journal of its reactor and the
/// reaction's outputs.
pub struct Settled {
    parts: Parts,
    outcome: Outcome,
}

impl Model for Settled {
    ghost use Rattle.std.specs.Coded.{codes};
    ghost use Rattle.reactor_core.specs.contracts.entry.SlotEntry as entry;
    ghost use Rattle.reactor_core.specs.Standing.{AreRunning, HaveOutcome};
    ghost use Rattle.reactor_core.specs.Instants.{SettledInstant};

    ghost Value = { SettledInstant };

    ghost coded = { Prim.hlevel (codes, entry.the_row.coded) };

    ghost view = { λ s. record { journal = s.parts.journal; outputs = s.outcome.outputs } };

    ghost invariant = { λ s. AreRunning s.parts × HaveOutcome s.parts s.outcome };
}

impl Instant {
    /// The instant that this reactor opens.
    pub(crate) fn of(reactor: Reactor) -> Instant
        ensures { result ≡ reactor }
    {
        Instant { reactor }
    }

    /// Works out the reaction, exactly when there is one. When there is none it is refused, with
    /// the undecided outputs, and the reactor is handed back as it was before `open`. It takes no
    /// memory.
    pub fn settle(self) -> Result<Settled, (Stuck, Reactor)>
        ensures { SettleAnswer self result }
    {
        let Instant { reactor } = self;
        let Reactor { parts } = reactor;
        let mut parts = parts;
        let inputs = Inputs {
            signals: parts.pending,
        };
        match parts
            .engine
            .react(&parts.loaded.kernel, &parts.state, &inputs)
        {
            Ok(outcome) => Ok(Settled { parts, outcome }),
            Err(stuck) => Err((stuck, Reactor { parts })),
        }
    }

    /// Gives the instant up: the reactor is as it was before `open`. The program never does so;
    /// tests do.
    pub fn abandon(self) -> Reactor
        ensures { result ≡ self }
    {
        let Instant { reactor } = self;
        reactor
    }
}

impl Settled {
    /// Adds the instant, and an entry that keeps its inputs and outputs. Afterwards nothing is
    /// pending. A refusal, JournalFull or Memory, hands the reactor back as it was before `open`.
    pub fn commit(self, stamp: Stamp) -> Result<Reactor, (ReactorRefusal, Reactor)>
        ensures { CommitAnswer self stamp result }
    {
        let Settled { parts, outcome } = self;
        let mut parts = parts;
        match parts.advance(stamp, outcome) {
            Ok(()) => Ok(Reactor { parts }),
            Err(refusal) => Err((refusal, Reactor { parts })),
        }
    }

    /// Gives the instant up: the reactor is as it was before `open`. The program never does so;
    /// tests do.
    pub fn abandon(self) -> Reactor
        ensures { result ≡ self.journal }
    {
        match self {
            Settled { parts, outcome: _ } => Reactor { parts },
        }
    }
}
