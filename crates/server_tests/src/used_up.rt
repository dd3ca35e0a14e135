//! The policy list is full, or no session number is left.
use crate::lines::{LOGIN, LOGOUT, Row, give_each, giver, policy_command};
use access_core::single::Single;
use rbac_policy::commands::{AdminCommand, SessionId};
use rbac_policy::names::Name;
use std::alloc::Global;
use std::process::Abort;

/// How often a role is activated and dropped until one entry is left of a policy list.
const TURNS: u32 = 131_036;

/// How many sessions are made before the last one.
const SESSIONS: u16 = 65_534;

const ACTIVATE: &str = "{\"cmd\":\"activate\",\"role\":\"x\"}";

const DROP: &str = "{\"cmd\":\"drop\",\"role\":\"x\"}";

const JOURNAL_FULL: &str = "{\"code\":67,\"fault\":\"JournalFull\"}";

/// Root logs in, and gets a role.
const BEGUN: &[Row] = &[
    (
        1,
        0,
        LOGIN,
        "{\"ok\":\"login\",\"session\":1,\"version\":5}",
    ),
    (
        1,
        1,
        "{\"cmd\":\"addrole\",\"role\":\"x\"}",
        "{\"ok\":\"addrole\",\"version\":6}",
    ),
    (
        1,
        1,
        "{\"cmd\":\"assign\",\"role\":\"x\",\"user\":\"root\"}",
        "{\"ok\":\"assign\",\"version\":7}",
    ),
];

/// The list is full: a logout is still accepted, and every other command that would be is
/// JournalFull.
const FULL: &[Row] = &[
    (1, 1, ACTIVATE, "{\"ok\":\"activate\",\"version\":262080}"),
    (1, 1, DROP, JOURNAL_FULL),
    (
        1,
        1,
        ACTIVATE,
        "{\"code\":22,\"fault\":\"AlreadyActive\",\"role\":\"x\"}",
    ),
    (1, 1, LOGOUT, "{\"ok\":\"logout\",\"version\":262081}"),
    (1, 0, LOGIN, JOURNAL_FULL),
];

/// Root's session activates its role and drops it, in turn.
fn fill(rt: &impl Abort, desk: &mut Single) {
    let role = Name::from_bytes(b"x").expect(rt, "a name");
    for _ in 0..TURNS {
        let _activated = desk.admin(giver(1), AdminCommand::AddActiveRole { role });
        let _dropped = desk.admin(giver(1), AdminCommand::DropActiveRole { role });
    }
}

#[test]
fn a_full_policy_list_takes_logouts(rt: HostRuntime) {
    let mut desk = Single::new(rt.alloc()).ok().expect(&rt, "a desk");
    give_each(&rt, rt.alloc(), &mut desk, BEGUN);
    fill(&rt, &mut desk);
    give_each(&rt, rt.alloc(), &mut desk, FULL);
}

/// Each session number is used once. Then an unknown user is told that there are no more, too.
const USED_UP: &[Row] = &[
    (
        1,
        0,
        LOGIN,
        "{\"ok\":\"login\",\"session\":65535,\"version\":131073}",
    ),
    (1, 65_535, LOGOUT, "{\"ok\":\"logout\",\"version\":131074}"),
    (
        1,
        0,
        "{\"cmd\":\"login\",\"roles\":[],\"user\":\"nobody\"}",
        "{\"code\":6,\"fault\":\"SessionsExhausted\"}",
    ),
];

/// Root logs in and out.
fn come_and_go(rt: &impl Abort, alloc: Global, desk: &mut Single) {
    for number in 1..=SESSIONS {
        let _entered = desk.admin(None, policy_command(rt, alloc, LOGIN));
        let _left = desk.admin(Some(SessionId::new(number)), AdminCommand::DeleteSession);
    }
}

#[test]
fn session_numbers_are_used_up(rt: HostRuntime) {
    let mut desk = Single::new(rt.alloc()).ok().expect(&rt, "a desk");
    come_and_go(&rt, rt.alloc(), &mut desk);
    give_each(&rt, rt.alloc(), &mut desk, USED_UP);
}
