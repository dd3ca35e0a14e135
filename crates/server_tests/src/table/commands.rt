//! What a table of slots answers.
use crate::lines::{GRANT_LOAD, GRANT_STEP, LOGIN, STEP};
use crate::table::server::{Line, entries, play};
use policy_board::board_list::FreshList;
use std::marker::Brand;

const STEP_16: &str = "{\"cmd\":\"step\",\"slot\":16}";

/// What is behind the version 9 that the seat has seen.
const BEHIND: &str = "{\"code\":68,\"fault\":\"Behind\",\"found\":7,\"seen\":9}";

/// What is denied to root.
const DENIED: &str = "{\"code\":10,\"fault\":\"Permission\",\"object\":\"0\",\"op\":\"step\"}";

/// Refusals on the table.
const STORY: &[Line] = &[
    Line::Says(0, STEP_16, "{\"code\":4,\"fault\":\"NoSession\"}", 0),
    Line::Says(1, LOGIN, "5", 1),
    Line::Says(1, GRANT_LOAD, "6", 2),
    Line::Says(1, GRANT_STEP, "7", 3),
    Line::Says(
        1,
        "{\"cmd\":\"load\",\"main\":\"M\",\"slot\":0,\"text\":\"module M: output O; \
        emit O end module\"}",
        "{\"ok\":\"load\",\"place\":1,\"version\":7}",
        4,
    ),
    Line::Says(1, STEP_16, "{\"code\":60,\"fault\":\"NoSlot\"}", 4),
    Line::Says(
        1,
        "{\"cmd\":\"load\",\"main\":\"M\",\"slot\":15,\"text\":\"module M: output O; \
        emit O end module\"}",
        "{\"code\":10,\"fault\":\"Permission\",\"object\":\"15\",\"op\":\"load\"}",
        4,
    ),
    Line::Saw(0, 9),
    Line::Says(0, STEP, BEHIND, 0),
    Line::Says(0, STEP_16, BEHIND, 0),
    Line::Says(
        1,
        STEP,
        "{\"instant\":1,\"ok\":\"step\",\"place\":2,\"version\":7}",
        5,
    ),
    Line::Says(
        1,
        "{\"cmd\":\"revoke\",\"object\":\"0\",\"op\":\"step\",\"role\":\"root\"}",
        "8",
        6,
    ),
    Line::Says(1, STEP, DENIED, 6),
    Line::HasSeen(1, 8),
];

#[test]
fn refusals_on_the_table(rt: HostRuntime) {
    let left = play::<Brand, _>(&rt, rt.alloc(), FreshList::new(), STORY, false);
    assert_eq!(rt; entries(&left), Ok(8));
}
