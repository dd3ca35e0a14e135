//! Which receipts commands on slots leave.
use crate::lines::LOGIN;
use crate::table::server::{Line, entries, play};
use policy_board::board_list::FreshList;
use std::marker::Brand;

/// One seat keeps a receipt of each command that adds an entry, and of no other.
const STORY: &[Line] = &[
    Line::Says(0, LOGIN, "5", 1),
    Line::Says(
        0,
        "{\"cmd\":\"grant\",\"object\":\"3\",\"op\":\"load\",\"role\":\"root\"}",
        "6",
        2,
    ),
    Line::Says(
        0,
        "{\"cmd\":\"grant\",\"object\":\"3\",\"op\":\"step\",\"role\":\"root\"}",
        "7",
        3,
    ),
    Line::Says(
        0,
        "{\"cmd\":\"load\",\"main\":\"M\",\"slot\":3,\"text\":\"module M: input I; \
        pause end module\"}",
        "{\"ok\":\"load\",\"place\":1,\"version\":7}",
        4,
    ),
    Line::Says(
        0,
        "{\"cmd\":\"grant\",\"object\":\"3.I\",\"op\":\"offer\",\"role\":\"root\"}",
        "8",
        5,
    ),
    Line::Says(
        0,
        "{\"cmd\":\"offer\",\"signal\":\"I\",\"slot\":3}",
        "{\"ok\":\"offer\",\"place\":2,\"version\":8}",
        6,
    ),
    Line::Says(
        0,
        "{\"cmd\":\"offer\",\"signal\":\"I\",\"slot\":3}",
        "{\"code\":65,\"fault\":\"AlreadyOffered\"}",
        6,
    ),
    Line::Says(
        0,
        "{\"cmd\":\"step\",\"slot\":3}",
        "{\"instant\":1,\"ok\":\"step\",\"place\":3,\"version\":8}",
        7,
    ),
    Line::Says(
        0,
        "{\"cmd\":\"look\",\"instant\":1,\"slot\":3}",
        "{\"instant\":1,\"ok\":\"look\",\"signals\":[],\"version\":8}",
        7,
    ),
    Line::Says(
        0,
        "{\"cmd\":\"step\",\"slot\":2}",
        "{\"code\":10,\"fault\":\"Permission\",\"object\":\"2\",\"op\":\"step\"}",
        7,
    ),
    Line::Says(
        0,
        "{\"cmd\":\"step\",\"slot\":16}",
        "{\"code\":60,\"fault\":\"NoSlot\"}",
        7,
    ),
    Line::Keeps(0, 3, ("load", "", [3, 1, 7, 1])),
    Line::Keeps(0, 5, ("offer", "I", [3, 2, 8, 2])),
    Line::Keeps(0, 6, ("step", "", [3, 3, 8, 3])),
];

#[test]
fn receipts_of_slot_commands(rt: HostRuntime) {
    let left = play::<Brand, _>(&rt, rt.alloc(), FreshList::new(), STORY, false);
    assert_eq!(rt; entries(&left), Ok(8));
}
