//! A desk, and for each seat how much of the policy list it has seen.
ghost use Rattle.std.specs.Prelude.{◌≡◌, IfOk, slice_get, slice_index_or};
ghost use Rattle.history_events.specs.Runs.{opening_world, journal_in, last_version, newest_known};
ghost use Rattle.history_events.specs.Runs.{has_seen, EventStep};
ghost use Rattle.history_events.specs.declared.event.Event.TheVariants as event;

use crate::event::{SEATS, SeatNumber};
use access_core::command::SlotCommand;
use access_core::refusal::Refusal;
use access_core::reply::Reply;
use access_core::single::Single;
use access_core::slot::Slot;
use rbac_policy::commands::{AdminCommand, Entry, SessionId};
use rbac_policy::objects::SLOTS;
use reactor_core::entry::SlotEntry;
use std::alloc::{AllocError, Global};
use std::marker::Model;

/// A desk, and for each seat the newest version that it has seen. A contract sees the policy list,
/// the slots and what was seen.
#[derive(Drop)]
pub struct EventDesk {
    desk: Single,
    seen: [u64; SEATS as usize],
}

impl Model for EventDesk {
    ghost use Rattle.std.specs.Coded.{codes};
    ghost use Rattle.history_events.specs.Runs.{WorldState};
    ghost use Rattle.reactor_core.specs.contracts.entry.SlotEntry as entry;

    ghost Value = { WorldState };

    ghost coded = { Prim.hlevel (codes, entry.the_row.coded) };

    ghost view = { λ s. record { entries = s.desk.entries; slots = s.desk.slots; seen = s.seen } };
}

/// The version of the last of the entries, 0 where there is none.
fn last_version(entries: &[SlotEntry]) -> u64
    ensures { result ≡ last_version 0 entries.now }
{
    if entries.is_empty() {
        return 0;
    }
    entries[entries.len() - 1].stamp.version
}

/// The version of the last entry of the slot of this number, 0 where it has none or there is no
/// such slot.
fn slot_version(slots: &[Slot], number: u64) -> u64
    ensures { result ≡ last_version 0 (journal_in (slice_get slots.now number)) }
{
    if number >= slots.len() as u64 {
        return 0;
    }
    last_version(slots[number as usize].journal().entries())
}

impl EventDesk {
    /// The opening entries, sixteen empty slots, and seats that have seen nothing.
    pub(crate) fn opening(alloc: Global) -> Result<EventDesk, AllocError>
        ensures { IfOk result (λ desk. desk ≡ opening_world) }
    {
        Ok(EventDesk {
            desk: Single::new(alloc)?,
            seen: [0; SEATS as usize],
        })
    }

    /// The accepted policy entries, the oldest first.
    pub(crate) fn entries(&self) -> &[Entry]
        ensures { result.now ≡ self.now.entries }
    {
        self.desk.entries()
    }

    /// The slots, by number.
    pub(crate) fn slots(&self) -> &[Slot]
        ensures { result.now ≡ self.now.slots }
    {
        self.desk.slots()
    }

    /// The newest version that the seat has seen.
    pub(crate) fn seen(&self, seat: SeatNumber) -> u64
        ensures { result ≡ slice_index_or self.now.seen seat 0 }
    {
        self.seen[seat.number() as usize]
    }

    /// The newest version that the slot's last entry bears or the seat has seen.
    fn newest_known(&self, seat: SeatNumber, slot: u64) -> u64
        ensures { result ≡ newest_known self.now seat slot }
    {
        slot_version(self.desk.slots(), slot).max(self.seen(seat))
    }

    /// Notes that the seat has seen this version, too.
    fn note(&mut self, seat: SeatNumber, version: u64)
        ensures entries { self.new.entries ≡ self.old.entries }
        ensures slots { self.new.slots ≡ self.old.slots }
        ensures seen { self.new.seen ≡ has_seen seat version self.old.seen }
    {
        let place = seat.number() as usize;
        self.seen[place] = self.seen[place].max(version);
    }

    /// Answers a policy command, which comes by this seat.
    pub(crate) fn admin(
        &mut self,
        seat: SeatNumber,
        session: Option<SessionId>,
        command: AdminCommand,
    ) -> Reply
        ensures { EventStep (event.Admin seat session command) self.old result self.new }
    {
        let reply = self.desk.admin(session, command);
        let version = self.desk.entries().len() as u64;
        self.note(seat, version);
        reply
    }

    /// Answers a command on a slot, which comes by this seat and is judged at this version.
    pub(crate) fn on_slot(
        &mut self,
        seat: SeatNumber,
        version: u64,
        slot: u64,
        session: SessionId,
        command: SlotCommand,
    ) -> Reply
        ensures { EventStep (event.OnSlot seat version slot session command) self.old result
            self.new }
    {
        let known = self.newest_known(seat, slot);
        if version < known {
            return Reply::Refused(Refusal::Behind {
                found: version,
                seen: known,
            });
        }
        let length = self.desk.entries().len() as u64;
        if length < version {
            return Reply::Refused(Refusal::Behind {
                found: version,
                seen: length,
            });
        }
        let reply = self.desk.slot_at(version as usize, session, slot, command);
        self.note(seat, version);
        reply
    }
}
