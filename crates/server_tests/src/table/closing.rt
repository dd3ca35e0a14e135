//! What is left when a server is closed.
use crate::lines::{DISCARD, GRANT_LOAD, GRANT_STEP, LOGIN, STEP};
use crate::table::server::{Line, entries, play};
use history_receipts::mismatch::Mismatch;
use policy_board::board_list::FreshList;
use slot_table::closing::Histories;
use std::marker::Brand;
use std::process::Abort;

const STEP_7: &str = "{\"cmd\":\"step\",\"slot\":7}";

/// Two seats load modules into three slots and step them, in turn, and change the policy between.
const STORY: &[Line] = &[
    Line::Says(0, LOGIN, "5", 1),
    Line::Says(0, GRANT_LOAD, "6", 2),
    Line::Says(0, GRANT_STEP, "7", 3),
    Line::Says(
        0,
        "{\"cmd\":\"load\",\"main\":\"M\",\"slot\":0,\"text\":\"module M: pause end module\"}",
        "{\"ok\":\"load\",\"place\":1,\"version\":7}",
        4,
    ),
    Line::Says(
        1,
        "{\"cmd\":\"grant\",\"object\":\"7\",\"op\":\"load\",\"role\":\"root\"}",
        "8",
        1,
    ),
    Line::Says(
        1,
        "{\"cmd\":\"grant\",\"object\":\"7\",\"op\":\"step\",\"role\":\"root\"}",
        "9",
        2,
    ),
    Line::Says(
        1,
        "{\"cmd\":\"load\",\"main\":\"M\",\"slot\":7,\"text\":\"module M: pause end module\"}",
        "{\"ok\":\"load\",\"place\":1,\"version\":9}",
        3,
    ),
    Line::Says(
        0,
        "{\"cmd\":\"grant\",\"object\":\"15\",\"op\":\"load\",\"role\":\"root\"}",
        "10",
        5,
    ),
    Line::Says(
        0,
        "{\"cmd\":\"grant\",\"object\":\"15\",\"op\":\"step\",\"role\":\"root\"}",
        "11",
        6,
    ),
    Line::Says(
        0,
        "{\"cmd\":\"load\",\"main\":\"M\",\"slot\":15,\"text\":\"module M: pause end module\"}",
        "{\"ok\":\"load\",\"place\":1,\"version\":11}",
        7,
    ),
    Line::Says(
        0,
        STEP,
        "{\"instant\":1,\"ok\":\"step\",\"place\":2,\"version\":11}",
        8,
    ),
    Line::Says(
        1,
        DISCARD,
        "{\"ok\":\"discard\",\"place\":3,\"version\":11}",
        4,
    ),
    Line::Says(
        1,
        STEP_7,
        "{\"instant\":1,\"ok\":\"step\",\"place\":2,\"version\":11}",
        5,
    ),
    Line::Says(
        0,
        STEP,
        "{\"instant\":2,\"ok\":\"step\",\"place\":4,\"version\":11}",
        9,
    ),
    Line::Says(
        1,
        DISCARD,
        "{\"ok\":\"discard\",\"place\":5,\"version\":11}",
        6,
    ),
    Line::Says(
        1,
        STEP_7,
        "{\"instant\":2,\"ok\":\"step\",\"place\":3,\"version\":11}",
        7,
    ),
    Line::Says(
        0,
        STEP,
        "{\"instant\":3,\"ok\":\"step\",\"place\":6,\"version\":11}",
        10,
    ),
    Line::Says(
        1,
        DISCARD,
        "{\"ok\":\"discard\",\"place\":7,\"version\":11}",
        8,
    ),
    Line::Says(
        1,
        STEP_7,
        "{\"instant\":3,\"ok\":\"step\",\"place\":4,\"version\":11}",
        9,
    ),
    Line::Says(
        1,
        "{\"cmd\":\"revoke\",\"object\":\"7\",\"op\":\"step\",\"role\":\"root\"}",
        "12",
        10,
    ),
    Line::Says(
        0,
        STEP_7,
        "{\"code\":10,\"fault\":\"Permission\",\"object\":\"7\",\"op\":\"step\"}",
        10,
    ),
    Line::Says(
        0,
        "{\"cmd\":\"unload\",\"slot\":15}",
        "{\"ok\":\"unload\",\"place\":2,\"version\":12}",
        11,
    ),
];

/// The journals have the entries of the story.
fn compare(rt: &impl Abort, histories: &Histories) {
    let [
        zero,
        one,
        _,
        _,
        _,
        _,
        _,
        seven,
        _,
        _,
        _,
        _,
        _,
        _,
        _,
        fifteen,
    ] = &histories.slots;
    let counts = [zero.len(), one.len(), seven.len(), fifteen.len()];
    assert_eq!(rt; counts, [7, 0, 4, 2]);
    for entry in seven.entries() {
        assert!(rt; entry.stamp.session == 1 && entry.stamp.version <= 11);
    }
}

#[test]
fn journals_of_a_closed_server(rt: HostRuntime) {
    let left = play::<Brand, _>(&rt, rt.alloc(), FreshList::new(), STORY, false);
    assert_eq!(rt; entries(&left), Ok(12));
    if let Ok(histories) = &left {
        compare(&rt, histories);
    }
}

/// A seat is held back, so its receipts are missing.
#[test]
fn a_seat_that_is_held_back(rt: HostRuntime) {
    let left = play::<Brand, _>(&rt, rt.alloc(), FreshList::new(), STORY, true);
    assert_eq!(rt; entries(&left), Err(Mismatch::Count { slot: 0 }));
}
