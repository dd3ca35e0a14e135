//! Commands and what they are told, as lines of the protocol.
use access_core::reply::Reply;
use access_core::single::Single;
use rbac_policy::commands::{AdminCommand, Entry, SessionId};
use std::alloc::Global;
use std::process::Abort;
use wire_lines::reading::request;
use wire_lines::reply::reply_line;
use wire_lines::request::Request;

pub const LOGIN: &str = "{\"cmd\":\"login\",\"roles\":[\"root\"],\"user\":\"root\"}";

pub const LOGOUT: &str = "{\"cmd\":\"logout\"}";

pub const STEP: &str = "{\"cmd\":\"step\",\"slot\":0}";

pub const DISCARD: &str = "{\"cmd\":\"discard\",\"slot\":0}";

pub const UNLOAD: &str = "{\"cmd\":\"unload\",\"slot\":0}";

pub const LOOK: &str = "{\"cmd\":\"look\",\"instant\":1,\"slot\":0}";

pub const OFFER_A: &str = "{\"cmd\":\"offer\",\"signal\":\"A\",\"slot\":0}";

pub const GRANT_LOAD: &str =
    "{\"cmd\":\"grant\",\"object\":\"0\",\"op\":\"load\",\"role\":\"root\"}";

pub const GRANT_STEP: &str =
    "{\"cmd\":\"grant\",\"object\":\"0\",\"op\":\"step\",\"role\":\"root\"}";

pub const GRANT_O: &str =
    "{\"cmd\":\"grant\",\"object\":\"0.O\",\"op\":\"observe\",\"role\":\"root\"}";

pub const GRANT_P: &str =
    "{\"cmd\":\"grant\",\"object\":\"0.P\",\"op\":\"observe\",\"role\":\"root\"}";

/// A command: how often it is given, by which session or by none, its line, and what it is told the
/// last time.
pub type Row = (u8, u16, &'static str, &'static str);

/// What the line asks for.
pub fn asked(rt: &impl Abort, alloc: Global, line: &str) -> Request {
    request(alloc, line.as_bytes()).ok().expect(rt, "room")
}

/// The session of this number; 0 stands for none.
pub fn giver(number: u16) -> Option<SessionId> {
    if number == 0 {
        None
    } else {
        Some(SessionId::new(number))
    }
}

/// The policy command of the line.
pub fn policy_command(rt: &impl Abort, alloc: Global, line: &str) -> AdminCommand {
    match asked(rt, alloc, line) {
        Request::Policy(command) => command,
        Request::Slot { .. } | Request::Check { .. } => None.expect(rt, "a policy command"),
    }
}

/// The entry of the policy command of the line, given by this session.
pub fn entry(rt: &impl Abort, alloc: Global, session: u16, line: &str) -> Entry {
    Entry {
        session: giver(session),
        command: policy_command(rt, alloc, line),
    }
}

/// The command is told this line, which is without its LF.
pub fn expect_told(rt: &impl Abort, alloc: Global, line: &str, reply: &Reply, wanted: &str) {
    let told = reply_line(alloc, reply).expect(rt, "room");
    assert!(rt;
        told.as_slice().strip_suffix(b"\n") == Some(wanted.as_bytes()),
        "{line}: not {wanted}"
    );
}

/// The command of a row is given so often, and is told what the row says.
fn give(rt: &impl Abort, alloc: Global, desk: &mut Single, (count, session, line, wanted): Row) {
    for _ in 1..count {
        let _reply = desk.admin(giver(session), policy_command(rt, alloc, line));
    }
    let reply = desk.admin(giver(session), policy_command(rt, alloc, line));
    expect_told(rt, alloc, line, &reply, wanted);
}

/// The commands of the rows are given one after another.
pub fn give_each(rt: &impl Abort, alloc: Global, desk: &mut Single, rows: &[Row]) {
    for row in rows {
        give(rt, alloc, desk, *row);
    }
}
