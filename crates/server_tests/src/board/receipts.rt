//! What the seats of a board keep of their calls.
use crate::board::asking::{enter, first, grant, grant_once, login, may_audit, refusal, revoke};
use crate::board::playing::{Example, play};
use history_receipts::receipt::{Kept, SlotReceipt};
use policy_board::board::Board;
use policy_board::board_list::FreshList;
use policy_board::board_name::BoardName;
use policy_board::seat::Seat;
use rbac_policy::commands::{AdminCommand, SessionId};
use reactor_core::entry::SlotWord;
use server_mistakes::{boards, seats};
use std::alloc::Global;
use std::marker::Brand;
use std::process::Abort;
use std::sync::Wait;

/// Whether the seat keeps, at this place, the receipt of a policy command with this version and
/// this command.
fn keeps_admin<B: BoardName>(
    seat: &Seat<B>,
    place: usize,
    version: u64,
    command: &AdminCommand,
) -> bool {
    match seats::receipts(seat).get(place) {
        Some(Kept::Admin { version: v, entry }) => *v == version && entry.command == *command,
        Some(Kept::Slot(_)) | None => false,
    }
}

/// The number of the slot command whose receipt the seat keeps at this place: the second of slot 3,
/// a step.
fn counted<B: BoardName>(seat: &Seat<B>, place: usize) -> Option<u64> {
    match seats::receipts(seat).get(place)? {
        Kept::Slot(
            SlotReceipt {
                slot: 3,
                place: 2,
                version: 5,
                session: 1,
                number,
                word: SlotWord::Step,
                signal: None,
            },
        ) => Some(*number),
        Kept::Slot(_) | Kept::Admin { .. } => None,
    }
}

/// Counts a step, which was the second command of slot 3.
fn count<B: BoardName, R: Wait + Abort>(rt: &R, board: &Board<B>, seat: &mut Seat<B>) {
    match seat.make_room() {
        Ok(()) => boards::number_receipt(
            rt,
            board,
            seat,
            SlotReceipt {
                slot: 3,
                place: 2,
                version: 5,
                session: 1,
                number: 0,
                word: SlotWord::Step,
                signal: None,
            },
        ),
        Err(_) => assert!(rt; false),
    }
}

/// A seat keeps what it was given, and no refusal: a command before it has a session, a login, a
/// grant, and the same grant again.
pub(crate) fn command<B: BoardName, R: Wait + Abort>(
    rt: &R,
    alloc: Global,
    board: &Board<B>,
    seat: &mut Seat<B>,
    other: &mut Seat<B>,
) {
    assert!(rt; refusal(rt, board, seat, grant()).is_some());
    assert!(rt; seats::receipts(seat).len() == 0);
    grant_once(rt, alloc, board, seat);
    assert!(rt; refusal(rt, board, seat, grant()).is_some());
    let command = login(alloc).expect(rt, "room");
    assert!(rt; seats::receipts(seat).len() == 2);
    assert!(rt; keeps_admin(seat, 0, 5, &command) && keeps_admin(seat, 1, 6, &grant()));
    let again = boards::admin(rt, board, other, None, command)
        .ok()
        .expect(rt, "a receipt");
    assert!(rt; seats::session_of(&again) == Some(SessionId::new(2)));
    assert!(rt; seats::receipts(other).len() == 1);
}

/// The first session gives the command, of which the seat keeps no receipt if it is refused.
fn give_or_not<B: BoardName, R: Wait + Abort>(
    rt: &R,
    board: &Board<B>,
    seat: &mut Seat<B>,
    command: AdminCommand,
) {
    let before = seat.receipts().len();
    let refused = refusal(rt, board, seat, command).is_some();
    assert!(rt; !refused || seat.receipts().len() == before);
}

/// Whatever is refused, a seat keeps a receipt for each entry and no others. It gives a login,
/// grants and revokes, and passes over refusals.
pub(crate) fn give_all<B: BoardName, R: Wait + Abort>(
    rt: &R,
    alloc: Global,
    board: &Board<B>,
    seat: &mut Seat<B>,
) {
    if let Ok(command) = login(alloc) {
        let _answer = boards::admin(rt, board, seat, None, command);
    }
    for _ in 0..3u32 {
        give_or_not(rt, board, seat, grant());
        give_or_not(rt, board, seat, revoke());
    }
}

/// A seat that is told of a grant has seen its version, keeps no receipt of it, and finds the
/// permission granted.
pub(crate) fn learn<B: BoardName, R: Wait + Abort>(
    rt: &R,
    alloc: Global,
    board: &Board<B>,
    giver: &mut Seat<B>,
    asker: &mut Seat<B>,
) {
    assert!(rt; matches!(may_audit(board, asker), Ok(false)));
    assert!(rt; asker.seen() == 4);
    seats::learn(asker, grant_once(rt, alloc, board, giver));
    assert!(rt; asker.seen() == 6 && seats::receipts(asker).len() == 0);
    assert!(rt; matches!(may_audit(board, asker), Ok(true)));
    assert!(rt; matches!(asker.lives(first()), Ok(true)));
    assert!(rt; matches!(asker.lives(SessionId::new(2)), Ok(false)));
}

/// Slot commands are counted from 1, whichever seat keeps them, and stand among the policy commands
/// of their seat.
pub(crate) fn count_three<B: BoardName, R: Wait + Abort>(
    rt: &R,
    alloc: Global,
    board: &Board<B>,
    seat: &mut Seat<B>,
    other: &mut Seat<B>,
) {
    enter(rt, alloc, board, seat);
    count(rt, board, seat);
    count(rt, board, other);
    count(rt, board, seat);
    let numbers = [counted(seat, 0), counted(seat, 1), counted(seat, 2)];
    assert!(rt; numbers == [None, Some(1), Some(3)]);
    assert!(rt; counted(other, 0) == Some(2));
    assert!(rt; (seat.receipts().len(), other.receipts().len()) == (3, 1));
}

#[test]
fn accepted_commands_leave_receipts(rt: HostRuntime) {
    let left = play::<Brand, _>(&rt, rt.alloc(), FreshList::new(), Example::Kept);
    assert!(rt; left == (7, 3));
}

#[test]
fn receipts_without_memory(rt: HostRuntime) {
    let (entries, kept) = play::<Brand, _>(&rt, rt.alloc(), FreshList::new(), Example::AllGiven);
    assert!(rt; 4 <= entries && entries - 4 == kept);
}

#[test]
fn learned_versions_leave_none(rt: HostRuntime) {
    let left = play::<Brand, _>(&rt, rt.alloc(), FreshList::new(), Example::Learned);
    assert!(rt; left == (6, 2));
}

#[test]
fn slot_commands_are_counted(rt: HostRuntime) {
    let left = play::<Brand, _>(&rt, rt.alloc(), FreshList::new(), Example::Counted);
    assert!(rt; left == (5, 4));
}
