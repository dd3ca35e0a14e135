//! Events: what happens to the policy list and the slots, one at a time.
ghost use Rattle.std.specs.Prelude.{◌≡◌, ◌<◌, Some, None, MatchOption, ◌≤◌};

use access_core::command::SlotCommand;
use rbac_policy::commands::{AdminCommand, SessionId};
use std::marker::Model;

/// How many seats there are.
pub const SEATS: u8 = rbac_policy::sizes::SEATS as u8;

/// The number of a seat, under `SEATS`. A contract sees the number.
#[derive(Clone, Copy, PartialEq, Eq)]
pub struct SeatNumber {
    number: u8,
}

impl Model for SeatNumber {
    ghost use Rattle.std.specs.Prelude.{ℕ, ◌<◌};
    ghost use Rattle.history_events.specs.declared.event.TheConstants.{SEATS};

    ghost Value = { ℕ };

    ghost view = { λ s. s.number };

    ghost invariant = { λ s. s.number < SEATS };

    ghost inverse = { λ n. record { number = n } };
}

impl SeatNumber {
    /// The seat of this number, if there is one.
    pub fn new(number: u8) -> Option<SeatNumber>
        ensures { MatchOption result (SEATS ≤ number) (λ s. s ≡ number) }
    {
        if number < SEATS {
            Some(SeatNumber { number })
        } else {
            None
        }
    }

    /// Its number.
    pub fn number(&self) -> u8
        ensures number { result ≡ self.now }
        ensures below { result < SEATS }
    {
        self.number
    }
}

/// What happens: a policy command, or a command on a slot.
#[derive(Drop)]
pub enum Event {
    /// A policy command is given through the seat: by this session, or by none.
    Admin {
        seat: SeatNumber,
        session: Option<SessionId>,
        command: AdminCommand,
    },
    /// A session gives a command on the slot of this number through the seat. It is judged at this
    /// version: by the first `version` entries of the policy list.
    OnSlot {
        seat: SeatNumber,
        version: u64,
        slot: u64,
        session: SessionId,
        command: SlotCommand,
    },
}
