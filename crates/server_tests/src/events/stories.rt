//! Stories of a run: who gives what by which seat, and what is told, so that a story is a table.
use crate::lines::{asked, expect_told, giver};
use access_core::reply::Reply;
use history_events::event::{Event, SeatNumber};
use history_events::run::{World, run_events};
use rbac_policy::commands::SessionId;
use std::alloc::Global;
use std::process::Abort;
use wire_lines::request::Request;

/// An event, and what its reply tells: the seat, the session or 0, the version at which a command
/// on a slot is judged, and the command, both as lines of the protocol. A policy command has
/// version 0 here: it is judged by the whole list.
pub type Line = (u8, u16, u64, &'static str, &'static str);

/// What a story leaves: the newest version that each seat of a table has seen, and how many policy
/// entries there are.
pub type Left = (&'static [(u8, u64)], usize);

fn seat(rt: &impl Abort, number: u8) -> SeatNumber {
    SeatNumber::new(number).expect(rt, "a seat")
}

/// The event of a line.
fn event(rt: &impl Abort, alloc: Global, (by, session, version, line, _): Line) -> Event {
    let seat = seat(rt, by);
    match asked(rt, alloc, line) {
        Request::Policy(command) => Event::Admin {
            seat,
            session: giver(session),
            command,
        },
        Request::Slot { slot, command } => Event::OnSlot {
            seat,
            version,
            slot,
            session: SessionId::new(session),
            command,
        },
        Request::Check { .. } => None.expect(rt, "a command"),
    }
}

/// Adds the events of the lines.
fn add_events(rt: &impl Abort, alloc: Global, events: &mut Vec<Event>, lines: &[Line]) {
    for line in lines {
        events.push(event(rt, alloc, *line)).expect(rt, "room");
    }
}

/// Each of the replies is told as its line says.
fn compare(rt: &impl Abort, alloc: Global, replies: &[Reply], lines: &[Line]) {
    assert_eq!(rt; replies.len(), lines.len());
    for (reply, (_, _, _, line, wanted)) in replies.iter().zip(lines) {
        expect_told(rt, alloc, line, reply, wanted);
    }
}

/// The run of these events. Where memory is refused there is no world, and the same run is done
/// with memory.
fn run(rt: &impl Abort, alloc: Global, events: &[Event]) -> World {
    match run_events(alloc, events) {
        Ok(world) => world,
        Err(_) => run_events(alloc, events).expect(rt, "memory"),
    }
}

/// The replies of the world are those of the opening lines and then of the story.
fn compare_all(rt: &impl Abort, alloc: Global, world: &World, opening: &[Line], story: &[Line]) {
    let (first, rest) = world
        .replies()
        .split_at_checked(opening.len())
        .expect(rt, "a reply to each event");
    compare(rt, alloc, first, opening);
    compare(rt, alloc, rest, story);
}

/// The world is left like this.
fn compare_left(rt: &impl Abort, world: &World, (seen, entries): Left) {
    for (by, version) in seen {
        assert_eq!(rt; world.seen(seat(rt, *by)), *version, "seat {by}");
    }
    assert_eq!(rt; world.entries().len(), entries);
}

/// The run of the opening lines and then of the story; each event is told as its line says.
pub fn follow(rt: &impl Abort, alloc: Global, opening: &[Line], story: &[Line], left: Left) {
    let mut events = Vec::new(alloc);
    add_events(rt, alloc, &mut events, opening);
    add_events(rt, alloc, &mut events, story);
    let world = run(rt, alloc, &events);
    compare_all(rt, alloc, &world, opening, story);
    compare_left(rt, &world, left);
}
