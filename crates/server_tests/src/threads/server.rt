//! A board with its seats, and its slots.
ghost use Rattle.std.specs.Prelude.{◌≡◌, ◌≤◌};

use history_receipts::receipt_list::SEATS;
use policy_board::board::Board;
use policy_board::board_list::FreshList;
use policy_board::board_name::BoardName;
use policy_board::opening::Opened;
use policy_board::seat::Seat;
use slot_table::table::SlotTable;
use std::alloc::Global;
use std::process::Abort;
use std::sync::Wait;

/// A board with its seats, and the slots of its readers.
pub(crate) struct Server<B: BoardName> {
    pub board: Board<B>,
    pub seats: Vec<Seat<B>>,
    pub table: SlotTable<B>,
}

/// A board with n seats, and its slots.
pub(crate) fn open<B: BoardName, R: Wait + Abort>(
    rt: &R,
    alloc: Global,
    fresh: FreshList,
    count: usize,
) -> Server<B>
    requires name { fresh.seen.book ≡ B.book }
    requires count { (1 ≤ count) × (count ≤ SEATS) }
{
    let Opened {
        board,
        seats,
        readers,
    } = Board::<B>::open(rt, alloc, fresh, count)
        .ok()
        .expect(rt, "a board");
    Server {
        board,
        seats,
        table: SlotTable::open(alloc, readers),
    }
}
