//! The desk of a seat at a board and a table that many share.
ghost use Rattle.std.specs.Prelude.{◌≡◌, List, Ok, IfOk, IfErr};
ghost use Rattle.access_core.specs.declared.reply.Reply.TheVariants.{Refused};
ghost use Rattle.slot_table.specs.Conversions.{refusal_of_board};
ghost use Rattle.rbac_policy.specs.declared.commands.Entry.{Entry};
ghost use Rattle.policy_board.specs.PolicyCommands.{IsPublished};
ghost use Rattle.access_core.specs.Desk.{accepted_reply};
ghost use Rattle.client_loop.specs.SharedAnswers.{IsAdministered, SharedAnswers};

use crate::desk::Desk;
use access_core::command::SlotCommand;
use access_core::reply::Reply;
use access_core::single::change_of;
use policy_board::board::Board;
use policy_board::board_name::BoardName;
use policy_board::refusal::BoardRefusal;
use policy_board::seat::{Acceptance, Seat};
use rbac_policy::commands::{AdminCommand, SessionId};
use rbac_policy::objects::{Object, Operation};
use slot_table::conversions::refusal_of_board;
use slot_table::table::SlotTable;
use std::marker::Model;
use std::sync::Wait;

/// A seat, with the board and the table that it asks. A contract sees the seat.
pub struct SharedDesk<'a, B: BoardName, R> {
    /// The handle by which it may wait.
    pub rt: &'a R,
    pub board: &'a Board<B>,
    pub table: &'a SlotTable<B>,
    pub seat: Seat<B>,
}

impl<'a, B: BoardName, R> Model for SharedDesk<'a, B, R> {
    ghost use Rattle.policy_board.specs.SeatState.{SeatState};

    ghost Value = { SeatState };

    ghost view = { λ d. d.seat };
}

/// The reply to an accepted policy command.
fn reply_to<B: BoardName>(acceptance: &Acceptance<B>) -> Reply
    requires { (entry : Entry) × (old : List Entry) × (new : List Entry)
        × IsPublished entry old (Ok acceptance.now) new }
    ensures { (entry : Entry) (old new : List Entry) → IsPublished entry old (Ok acceptance.now) new
        → result ≡ accepted_reply old entry.command }
{
    let version = acceptance.version();
    match change_of(&acceptance.entry().command) {
        Some(change) => Reply::Changed { change, version },
        None => Reply::Login {
            session: acceptance.session().unwrap(),
            version,
        },
    }
}

/// The board's answer to a policy command, as a reply.
fn reply_of<B: BoardName>(answer: Result<Acceptance<B>, BoardRefusal>) -> Reply
    requires { IfOk answer (λ acceptance. (entry : Entry) × (old : List Entry) × (new : List Entry)
        × IsPublished entry old (Ok acceptance) new) }
    ensures accepted { (entry : Entry) (old new : List Entry) → IsPublished entry old answer new
        → result ≡ accepted_reply old entry.command }
    ensures refused { IfErr answer (λ refusal. result ≡ Refused (refusal_of_board refusal)) }
{
    match answer {
        Ok(acceptance) => reply_to(&acceptance),
        Err(refusal) => Reply::Refused(refusal_of_board(refusal)),
    }
}

/// Answers a policy command, under the admin lock.
fn command_board<B: BoardName, R: Wait>(
    rt: &R,
    board: &Board<B>,
    seat: &mut Seat<B>,
    session: Option<SessionId>,
    command: AdminCommand,
) -> Reply
    ensures { IsAdministered session command seat.old result seat.new }
{
    reply_of(board.admin(rt, seat, session, command))
}

impl<'a, B: BoardName, R: Wait> Desk for SharedDesk<'a, B, R> {
    ghost answers = { λ before ask given after. SharedAnswers before ask given after };

    fn admin(&mut self, session: Option<SessionId>, command: AdminCommand) -> Reply {
        command_board(self.rt, self.board, &mut self.seat, session, command)
    }

    fn slot(&mut self, session: SessionId, number: u64, command: SlotCommand) -> Reply {
        self.table.command(
            self.rt,
            self.board,
            &mut self.seat,
            session,
            number,
            command,
        )
    }

    fn check(&mut self, session: SessionId, operation: Operation, object: &Object) -> Reply {
        match self
            .board
            .check_access(&mut self.seat, session, operation, object)
        {
            Ok(allowed) => Reply::Check { allowed },
            Err(refusal) => Reply::Refused(refusal_of_board(refusal)),
        }
    }
}
