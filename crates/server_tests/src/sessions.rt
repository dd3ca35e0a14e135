//! As many sessions as may live, which no server comes to: each of its workers holds one at a time.
//! Full tables of users, roles, sets and permissions are stories of tests/journals.
use crate::lines::{LOGIN, LOGOUT, Row, give_each};
use access_core::single::Single;

const AS_BOTH: &str = "{\"cmd\":\"login\",\"roles\":[\"a\",\"b\"],\"user\":\"root\"}";

const AS_ONE: &str = "{\"cmd\":\"login\",\"roles\":[\"a\"],\"user\":\"root\"}";

const VIOLATED: &str = "{\"code\":20,\"fault\":\"DsdViolated\",\"session\":65,\"set\":\"d\"}";

/// A login that would violate a set is refused for that, also where there is no room for it. Here
/// session 1 gives 63 logins; by the protocol a login is given by no session.
const SESSIONS: &[Row] = &[
    (
        1,
        0,
        LOGIN,
        "{\"ok\":\"login\",\"session\":1,\"version\":5}",
    ),
    (
        1,
        1,
        "{\"cmd\":\"addrole\",\"role\":\"a\"}",
        "{\"ok\":\"addrole\",\"version\":6}",
    ),
    (
        1,
        1,
        "{\"cmd\":\"addrole\",\"role\":\"b\"}",
        "{\"ok\":\"addrole\",\"version\":7}",
    ),
    (
        1,
        1,
        "{\"cmd\":\"assign\",\"role\":\"a\",\"user\":\"root\"}",
        "{\"ok\":\"assign\",\"version\":8}",
    ),
    (
        1,
        1,
        "{\"cmd\":\"assign\",\"role\":\"b\",\"user\":\"root\"}",
        "{\"ok\":\"assign\",\"version\":9}",
    ),
    (
        1,
        1,
        "{\"cmd\":\"dsd\",\"count\":2,\"name\":\"d\",\"roles\":[\"a\",\"b\"]}",
        "{\"ok\":\"dsd\",\"version\":10}",
    ),
    (
        63,
        1,
        AS_ONE,
        "{\"ok\":\"login\",\"session\":64,\"version\":73}",
    ),
    (1, 0, AS_BOTH, VIOLATED),
    (
        1,
        0,
        AS_ONE,
        "{\"code\":39,\"fault\":\"Full\",\"table\":\"sessions\"}",
    ),
    (1, 7, LOGOUT, "{\"ok\":\"logout\",\"version\":74}"),
    (1, 0, AS_BOTH, VIOLATED),
    (
        1,
        0,
        AS_ONE,
        "{\"ok\":\"login\",\"session\":65,\"version\":75}",
    ),
];

#[test]
fn violated_before_full_of_sessions(rt: HostRuntime) {
    let mut desk = Single::new(rt.alloc()).ok().expect(&rt, "a desk");
    give_each(&rt, rt.alloc(), &mut desk, SESSIONS);
}
