//! What commands on slots are answered.
ghost use Rattle.slot_table.specs.SlotCommands.{TableCommand};

use access_core::command::SlotCommand;
use access_core::reply::Reply;
use policy_board::board::Board;
use policy_board::board_name::BoardName;
use policy_board::seat::Seat;
use rbac_policy::commands::SessionId;
use slot_table::table::SlotTable;
use std::sync::Wait;

/// Answers a command of this session on the slot of this number, which is given at this seat.
pub fn command<B: BoardName, R: Wait>(
    rt: &R,
    table: &SlotTable<B>,
    board: &Board<B>,
    seat: &mut Seat<B>,
    session: SessionId,
    slot: u64,
    command: SlotCommand,
) -> Reply
    ensures { TableCommand slot session command seat.old result seat.new }
{
    table.command(rt, board, seat, session, slot, command)
}
