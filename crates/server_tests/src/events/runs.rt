//! Worked runs: at which version a command is judged, what a revocation leaves, duties kept apart,
//! and a session that is ended.
use crate::events::stories::{Line, follow};
use crate::lines::{
    DISCARD, GRANT_LOAD, GRANT_O, GRANT_P, GRANT_STEP, LOGIN, LOGOUT, LOOK, OFFER_A, STEP, UNLOAD,
};

/// O in the first instant, P in the second.
const LOAD_TWO_OUTPUTS: &str = "{\"cmd\":\"load\",\"main\":\"M\",\"slot\":0,\
    \"text\":\"module M: output O, P; emit O; pause; emit P end module\"}";

/// An input, and nothing to do.
const LOAD_ONE_INPUT: &str = "{\"cmd\":\"load\",\"main\":\"M\",\"slot\":0,\
    \"text\":\"module M: input A; pause end module\"}";

const GRANT_A: &str = "{\"cmd\":\"grant\",\"object\":\"0.A\",\"op\":\"observe\",\"role\":\"root\"}";

const GRANT_OFFER_A: &str =
    "{\"cmd\":\"grant\",\"object\":\"0.A\",\"op\":\"offer\",\"role\":\"root\"}";

/// Root's login and four grants of the opening script, by seat 0, up to version 9.
const OPENING: &[Line] = &[
    (
        0,
        0,
        0,
        LOGIN,
        "{\"ok\":\"login\",\"session\":1,\"version\":5}",
    ),
    (0, 1, 0, GRANT_LOAD, "{\"ok\":\"grant\",\"version\":6}"),
    (0, 1, 0, GRANT_STEP, "{\"ok\":\"grant\",\"version\":7}"),
    (0, 1, 0, GRANT_O, "{\"ok\":\"grant\",\"version\":8}"),
    (0, 1, 0, GRANT_P, "{\"ok\":\"grant\",\"version\":9}"),
];

/// Root and ann are logged in by seats 0 and 1, ann with role chief, which stands over driver;
/// driver and judge are kept apart. The version is 13.
const CHIEF: &[Line] = &[
    (
        0,
        0,
        0,
        LOGIN,
        "{\"ok\":\"login\",\"session\":1,\"version\":5}",
    ),
    (
        0,
        1,
        0,
        "{\"cmd\":\"addrole\",\"role\":\"driver\"}",
        "{\"ok\":\"addrole\",\"version\":6}",
    ),
    (
        0,
        1,
        0,
        "{\"cmd\":\"addrole\",\"role\":\"judge\"}",
        "{\"ok\":\"addrole\",\"version\":7}",
    ),
    (
        0,
        1,
        0,
        "{\"cmd\":\"addrole\",\"role\":\"chief\"}",
        "{\"ok\":\"addrole\",\"version\":8}",
    ),
    (
        0,
        1,
        0,
        "{\"cmd\":\"inherit\",\"junior\":\"driver\",\"senior\":\"chief\"}",
        "{\"ok\":\"inherit\",\"version\":9}",
    ),
    (
        0,
        1,
        0,
        "{\"cmd\":\"dsd\",\"count\":2,\"name\":\"d1\",\"roles\":[\"driver\",\"judge\"]}",
        "{\"ok\":\"dsd\",\"version\":10}",
    ),
    (
        0,
        1,
        0,
        "{\"cmd\":\"adduser\",\"user\":\"ann\"}",
        "{\"ok\":\"adduser\",\"version\":11}",
    ),
    (
        0,
        1,
        0,
        "{\"cmd\":\"assign\",\"role\":\"chief\",\"user\":\"ann\"}",
        "{\"ok\":\"assign\",\"version\":12}",
    ),
    (
        1,
        0,
        0,
        "{\"cmd\":\"login\",\"roles\":[\"chief\"],\"user\":\"ann\"}",
        "{\"ok\":\"login\",\"session\":2,\"version\":13}",
    ),
];

/// Seat 1 has seen nothing when it gives its first command, but the slot is at version 9.
const BEHIND_OR_AHEAD: &[Line] = &[
    (
        0,
        1,
        9,
        LOAD_TWO_OUTPUTS,
        "{\"ok\":\"load\",\"place\":1,\"version\":9}",
    ),
    (
        0,
        1,
        8,
        STEP,
        "{\"code\":68,\"fault\":\"Behind\",\"found\":8,\"seen\":9}",
    ),
    (
        0,
        1,
        10,
        STEP,
        "{\"code\":68,\"fault\":\"Behind\",\"found\":10,\"seen\":9}",
    ),
    (
        0,
        1,
        9,
        STEP,
        "{\"instant\":1,\"ok\":\"step\",\"place\":2,\"version\":9}",
    ),
    (
        1,
        1,
        8,
        STEP,
        "{\"code\":68,\"fault\":\"Behind\",\"found\":8,\"seen\":9}",
    ),
    (
        1,
        1,
        9,
        LOOK,
        "{\"instant\":1,\"ok\":\"look\",\"signals\":[[\"O\",true],[\"P\",false]],\"version\":9}",
    ),
];

#[test]
fn a_version_behind_or_ahead(rt: HostRuntime) {
    follow(
        &rt,
        rt.alloc(),
        OPENING,
        BEHIND_OR_AHEAD,
        (&[(0, 9), (1, 9), (2, 0)], 9),
    );
}

/// No session lives before version 5, and no load is granted there yet. O may be observed from
/// version 8 on. Seat 0 has seen 9 through its grants.
const AT_ITS_VERSION: &[Line] = &[
    (
        1,
        1,
        0,
        LOAD_TWO_OUTPUTS,
        "{\"code\":4,\"fault\":\"NoSession\"}",
    ),
    (
        1,
        1,
        4,
        LOAD_TWO_OUTPUTS,
        "{\"code\":4,\"fault\":\"NoSession\"}",
    ),
    (
        1,
        1,
        5,
        LOAD_TWO_OUTPUTS,
        "{\"code\":10,\"fault\":\"Permission\",\"object\":\"0\",\"op\":\"load\"}",
    ),
    (
        1,
        1,
        6,
        LOAD_TWO_OUTPUTS,
        "{\"ok\":\"load\",\"place\":1,\"version\":6}",
    ),
    (
        2,
        1,
        6,
        STEP,
        "{\"code\":10,\"fault\":\"Permission\",\"object\":\"0\",\"op\":\"step\"}",
    ),
    (
        1,
        1,
        10,
        STEP,
        "{\"code\":68,\"fault\":\"Behind\",\"found\":10,\"seen\":9}",
    ),
    (
        2,
        1,
        7,
        STEP,
        "{\"instant\":1,\"ok\":\"step\",\"place\":2,\"version\":7}",
    ),
    (
        1,
        1,
        7,
        LOOK,
        "{\"instant\":1,\"ok\":\"look\",\"signals\":[],\"version\":7}",
    ),
    (
        1,
        1,
        8,
        LOOK,
        "{\"instant\":1,\"ok\":\"look\",\"signals\":[[\"O\",true]],\"version\":8}",
    ),
    (
        0,
        1,
        8,
        LOOK,
        "{\"code\":68,\"fault\":\"Behind\",\"found\":8,\"seen\":9}",
    ),
];

#[test]
fn each_command_at_its_version(rt: HostRuntime) {
    follow(
        &rt,
        rt.alloc(),
        OPENING,
        AT_ITS_VERSION,
        (&[(1, 8), (2, 7)], 9),
    );
}

/// What was offered before the permission was revoked is in the next instant; nothing more may be
/// offered.
const REVOKED: &[Line] = &[
    (0, 1, 0, GRANT_A, "{\"ok\":\"grant\",\"version\":10}"),
    (0, 1, 0, GRANT_OFFER_A, "{\"ok\":\"grant\",\"version\":11}"),
    (
        1,
        1,
        11,
        LOAD_ONE_INPUT,
        "{\"ok\":\"load\",\"place\":1,\"version\":11}",
    ),
    (
        1,
        1,
        11,
        OFFER_A,
        "{\"ok\":\"offer\",\"place\":2,\"version\":11}",
    ),
    (
        0,
        1,
        0,
        "{\"cmd\":\"revoke\",\"object\":\"0.A\",\"op\":\"offer\",\"role\":\"root\"}",
        "{\"ok\":\"revoke\",\"version\":12}",
    ),
    (
        1,
        1,
        12,
        STEP,
        "{\"instant\":1,\"ok\":\"step\",\"place\":3,\"version\":12}",
    ),
    (
        1,
        1,
        12,
        LOOK,
        "{\"instant\":1,\"ok\":\"look\",\"signals\":[[\"A\",true]],\"version\":12}",
    ),
    (
        1,
        1,
        12,
        OFFER_A,
        "{\"code\":10,\"fault\":\"Permission\",\"object\":\"0.A\",\"op\":\"offer\"}",
    ),
    (
        1,
        1,
        12,
        STEP,
        "{\"instant\":2,\"ok\":\"step\",\"place\":4,\"version\":12}",
    ),
    (
        1,
        1,
        12,
        "{\"cmd\":\"look\",\"instant\":2,\"slot\":0}",
        "{\"instant\":2,\"ok\":\"look\",\"signals\":[[\"A\",false]],\"version\":12}",
    ),
];

#[test]
fn a_revocation_leaves_what_was_offered(rt: HostRuntime) {
    follow(&rt, rt.alloc(), OPENING, REVOKED, (&[(0, 12), (1, 12)], 12));
}

/// What a discard takes enters no instant, and neither does what an unload takes.
const TAKEN: &[Line] = &[
    (0, 1, 0, GRANT_A, "{\"ok\":\"grant\",\"version\":10}"),
    (0, 1, 0, GRANT_OFFER_A, "{\"ok\":\"grant\",\"version\":11}"),
    (
        1,
        1,
        11,
        LOAD_ONE_INPUT,
        "{\"ok\":\"load\",\"place\":1,\"version\":11}",
    ),
    (
        1,
        1,
        11,
        OFFER_A,
        "{\"ok\":\"offer\",\"place\":2,\"version\":11}",
    ),
    (
        2,
        1,
        11,
        DISCARD,
        "{\"ok\":\"discard\",\"place\":3,\"version\":11}",
    ),
    (
        1,
        1,
        11,
        STEP,
        "{\"instant\":1,\"ok\":\"step\",\"place\":4,\"version\":11}",
    ),
    (
        1,
        1,
        11,
        LOOK,
        "{\"instant\":1,\"ok\":\"look\",\"signals\":[[\"A\",false]],\"version\":11}",
    ),
    (
        1,
        1,
        11,
        OFFER_A,
        "{\"ok\":\"offer\",\"place\":5,\"version\":11}",
    ),
    (
        2,
        1,
        11,
        UNLOAD,
        "{\"ok\":\"unload\",\"place\":6,\"version\":11}",
    ),
    (1, 1, 11, STEP, "{\"code\":62,\"fault\":\"Empty\"}"),
    (
        1,
        1,
        11,
        LOAD_ONE_INPUT,
        "{\"ok\":\"load\",\"place\":7,\"version\":11}",
    ),
    (
        1,
        1,
        11,
        STEP,
        "{\"instant\":1,\"ok\":\"step\",\"place\":8,\"version\":11}",
    ),
    (
        1,
        1,
        11,
        LOOK,
        "{\"instant\":1,\"ok\":\"look\",\"signals\":[[\"A\",false]],\"version\":11}",
    ),
];

#[test]
fn a_discard_and_an_unload_take_what_was_offered(rt: HostRuntime) {
    follow(&rt, rt.alloc(), OPENING, TAKEN, (&[(1, 11), (2, 11)], 11));
}

/// An edge that would give a session both of the separated roles is refused, and so adds
/// no entry.
const KEPT_APART: &[Line] = &[
    (
        0,
        1,
        0,
        "{\"cmd\":\"inherit\",\"junior\":\"judge\",\"senior\":\"chief\"}",
        "{\"code\":20,\"fault\":\"DsdViolated\",\"session\":2,\"set\":\"d1\"}",
    ),
    (
        0,
        1,
        0,
        "{\"cmd\":\"disinherit\",\"junior\":\"judge\",\"senior\":\"chief\"}",
        "{\"code\":34,\"fault\":\"NoEdge\"}",
    ),
];

#[test]
fn duties_are_kept_apart_on_two_seats(rt: HostRuntime) {
    follow(&rt, rt.alloc(), CHIEF, KEPT_APART, (&[(0, 13)], 13));
}

/// At version 13 the session still lives.
const ENDED: &[Line] = &[
    (
        0,
        1,
        0,
        "{\"cmd\":\"deassign\",\"role\":\"chief\",\"user\":\"ann\"}",
        "{\"ok\":\"deassign\",\"version\":14}",
    ),
    (
        2,
        2,
        13,
        STEP,
        "{\"code\":10,\"fault\":\"Permission\",\"object\":\"0\",\"op\":\"step\"}",
    ),
    (1, 2, 14, STEP, "{\"code\":4,\"fault\":\"NoSession\"}"),
    (1, 2, 0, LOGOUT, "{\"code\":4,\"fault\":\"NoSession\"}"),
    (
        1,
        0,
        0,
        "{\"cmd\":\"login\",\"roles\":[],\"user\":\"ann\"}",
        "{\"ok\":\"login\",\"session\":3,\"version\":15}",
    ),
];

#[test]
fn a_session_is_ended(rt: HostRuntime) {
    follow(&rt, rt.alloc(), CHIEF, ENDED, (&[(1, 15)], 15));
}
