//! Boards at which examples are played.
ghost use Rattle.std.specs.Prelude.{◌≡◌};

use crate::board::asking::refuse;
use crate::board::receipts::{command, count_three, give_all, learn};
use policy_board::board::Board;
use policy_board::board_list::FreshList;
use policy_board::board_name::BoardName;
use policy_board::opening::Opened;
use policy_board::reader::IdleReader;
use policy_board::seat::Seat;
use server_mistakes::boards;
use std::alloc::Global;
use std::process::Abort;
use std::sync::Wait;

/// What is played at two seats, of which one may be idle.
#[derive(Clone, Copy)]
pub(crate) enum Example {
    /// `command`.
    Kept,
    /// `give_all`.
    AllGiven,
    /// `learn`.
    Learned,
    /// `count_three`.
    Counted,
    /// `refuse`.
    Refused,
}

/// Plays the example at the seats of a board.
fn run<B: BoardName, R: Wait + Abort>(
    rt: &R,
    alloc: Global,
    board: &Board<B>,
    seats: &mut [Seat<B>],
    example: Example,
) {
    match seats {
        [first, second] => match example {
            Example::Kept => command(rt, alloc, board, first, second),
            Example::AllGiven => give_all(rt, alloc, board, first),
            Example::Learned => learn(rt, alloc, board, first, second),
            Example::Counted => count_three(rt, alloc, board, first, second),
            Example::Refused => refuse(rt, alloc, board, first, second),
        },
        _ => assert!(rt; false, "two seats"),
    }
}

/// Closes the board: its readers saw beginnings of the journal. Answers how many entries that has.
fn close<B: BoardName, R: Wait + Abort>(
    rt: &R,
    board: Board<B>,
    readers: Vec<IdleReader<B>>,
) -> usize {
    let mut closed = board.close();
    for reader in readers {
        assert!(rt; closed.reader(reader).is_ok());
    }
    closed.journal(rt).len()
}

/// How many receipts the seats keep. This ends them.
fn receipts_of<B: BoardName>(seats: Vec<Seat<B>>) -> usize {
    let mut kept = 0usize;
    for seat in seats {
        kept = kept.saturating_add(seat.into_receipts().as_slice().len());
    }
    kept
}

/// Plays the example at a new board, and closes it. Answers how many entries the journal has, and
/// how many receipts all seats keep.
pub(crate) fn play<B: BoardName, R: Wait + Abort>(
    rt: &R,
    alloc: Global,
    fresh: FreshList,
    example: Example,
) -> (usize, usize)
    requires { fresh.seen.book ≡ B.book }
{
    let Opened {
        board,
        mut seats,
        readers,
    } = boards::open::<B, R>(rt, alloc, fresh, 2)
        .ok()
        .expect(rt, "a board");
    run(rt, alloc, &board, seats.as_mut_slice(), example);
    let entries = close(rt, board, readers);
    (entries, receipts_of(seats))
}
