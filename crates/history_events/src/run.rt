//! The run of a list of events.
ghost use Rattle.std.specs.Prelude.{◌≡◌, IfOk, slice_index_or};
ghost use Rattle.history_events.specs.Runs.{EndsIn, EventStep, wants_memory};

use crate::event::{Event, SeatNumber};
use crate::event_desk::EventDesk;
use access_core::refusal::Refusal;
use access_core::reply::Reply;
use access_core::slot::Slot;
use rbac_policy::commands::Entry;
use std::alloc::{AllocError, Global};

/// What a run leaves: the policy list, the slots and what the seats have seen, and the reply to
/// each event.
#[derive(Drop)]
pub struct World {
    desk: EventDesk,
    replies: Vec<Reply>,
}

impl World {
    /// The accepted policy entries, the oldest first.
    pub fn entries(&self) -> &[Entry]
        ensures { result.now ≡ self.now.desk.entries }
    {
        self.desk.entries()
    }

    /// The slots, by number.
    pub fn slots(&self) -> &[Slot]
        ensures { result.now ≡ self.now.desk.slots }
    {
        self.desk.slots()
    }

    /// The newest version that the seat has seen.
    pub fn seen(&self, seat: SeatNumber) -> u64
        ensures { result ≡ slice_index_or self.now.desk.seen seat 0 }
    {
        self.desk.seen(seat)
    }

    /// The reply to each event, in their order.
    pub fn replies(&self) -> &[Reply]
        ensures { result.now ≡ self.now.replies.items }
    {
        self.replies.as_slice()
    }
}

/// Whether the reply is that memory was refused.
fn wants_memory(reply: &Reply) -> bool
    ensures { result ≡ wants_memory reply.now }
{
    matches!(reply, Reply::Refused(Refusal::Memory))
}

/// Answers the event. The error, where memory was refused for a copy of its command, leaves the
/// desk as it was.
fn answer_event(alloc: Global, desk: &mut EventDesk, event: &Event) -> Result<Reply, AllocError>
    ensures { IfOk result (λ reply. EventStep event.now desk.old reply desk.new) }
{
    match event {
        Event::Admin {
            seat,
            session,
            command,
        } => Ok(desk.admin(*seat, *session, command.try_clone()?)),
        Event::OnSlot {
            seat,
            version,
            slot,
            session,
            command,
        } => {
            let command = command.try_clone(alloc)?;
            Ok(desk.on_slot(*seat, *version, *slot, *session, command))
        }
    }
}

/// The run of these events, one after the other, from the opening on.
///
/// # Errors
///
/// Where memory was refused, to an event or for what is kept of the run.
pub fn run_events(alloc: Global, events: &[Event]) -> Result<World, AllocError>
    ensures { IfOk result (λ world. EndsIn events.now world.replies.items world.desk) }
{
    let mut desk = EventDesk::opening(alloc)?;
    let mut replies = Vec::new(alloc);
    for event in events {
        let reply = answer_event(alloc, &mut desk, event)?;
        if wants_memory(&reply) {
            return Err(AllocError);
        }
        replies.push(reply)?;
    }
    Ok(World { desk, replies })
}
