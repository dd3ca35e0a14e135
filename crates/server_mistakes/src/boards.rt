//! What a board is opened with, and what it answers.
ghost use Rattle.std.specs.Prelude.{◌≡◌, ◌≤◌, List, replicate, IfOk, IfErr};
ghost use Rattle.rbac_policy.specs.declared.commands.Entry.{Entry};
ghost use Rattle.rbac_policy.specs.declared.objects.TheConstants.{SLOTS};
ghost use Rattle.rbac_policy.specs.Facts.{May};
ghost use Rattle.rbac_policy.specs.Opening.{opening_entries};
ghost use Rattle.rbac_admin.specs.PolicyLists.{Begins, IsPolicyList};
ghost use Rattle.history_receipts.specs.declared.receipt_list.TheConstants.{SEATS};
ghost use Rattle.policy_board.specs.PolicyCommands.{BoardStep, SeatAfter};
ghost use Rattle.policy_board.specs.Reads.{AnswersFor};
ghost use Rattle.policy_board.specs.Receipts.{HasRoom, IsCounted};
ghost use Rattle.policy_board.specs.SeatState.{new_seat};
ghost use Rattle.policy_board.specs.declared.refusal.BoardRefusal.TheVariants.{Memory};

use history_receipts::receipt::SlotReceipt;
use policy_board::board::Board;
use policy_board::board_list::FreshList;
use policy_board::board_name::BoardName;
use policy_board::opening::Opened;
use policy_board::refusal::BoardRefusal;
use policy_board::seat::{Acceptance, Seat};
use rbac_policy::commands::{AdminCommand, SessionId};
use rbac_policy::objects::{Object, Operation};
use std::alloc::Global;
use std::sync::Wait;

/// A board under the name of a fresh list, with n seats, and a reader for each slot.
///
/// # Errors
///
/// Memory, where memory was refused, or there was no reader.
pub fn open<B: BoardName, R: Wait>(
    rt: &R,
    alloc: Global,
    fresh: FreshList,
    seats: usize,
) -> Result<Opened<B>, BoardRefusal>
    requires name { fresh.seen.book ≡ B.book }
    requires seats { (1 ≤ seats) × (seats ≤ SEATS) }
    ensures opened { IfOk result (λ o. (o.board.began.value ≡ opening_entries)
        × (o.seats.items ≡ replicate seats new_seat)
        × (o.readers.items ≡ replicate SLOTS opening_entries)) }
    ensures refused { IfErr result (λ refusal. refusal ≡ Memory) }
{
    Board::<B>::open(rt, alloc, fresh, seats)
}

/// Answers a policy command, which this session gives at this seat.
///
/// # Errors
///
/// Why it adds no entry.
pub fn admin<B: BoardName, R: Wait>(
    rt: &R,
    board: &Board<B>,
    seat: &mut Seat<B>,
    session: Option<SessionId>,
    command: AdminCommand,
) -> Result<Acceptance<B>, BoardRefusal>
    ensures { (before : List Entry) × (after : List Entry)
        × IsPolicyList before × Begins seat.old.known before
        × BoardStep before session command result after
        × SeatAfter seat.old result after seat.new }
{
    board.admin(rt, seat, session, command)
}

/// Gives the receipt of a slot command the next number, and has the seat keep it.
pub fn number_receipt<B: BoardName, R: Wait>(
    rt: &R,
    board: &Board<B>,
    seat: &mut Seat<B>,
    receipt: SlotReceipt,
)
    requires { HasRoom seat.old }
    ensures { IsCounted seat.old receipt seat.new }
{
    board.number_receipt(rt, seat, receipt);
}

/// Whether the session may do the operation on the object.
///
/// # Errors
///
/// Where what was read is too old, or nothing could be read.
pub fn check_access<B: BoardName>(
    board: &Board<B>,
    seat: &mut Seat<B>,
    session: SessionId,
    operation: Operation,
    object: &Object,
) -> Result<bool, BoardRefusal>
    ensures { AnswersFor (λ entries. May entries session operation object.now) seat.old result
        seat.new }
{
    board.check_access(seat, session, operation, object)
}
