//! What lies under a slot's lock.
ghost use Rattle.std.specs.Prelude.{◌≡◌, ◌<◌, [], length, MatchResult};
ghost use Rattle.rbac_policy.specs.declared.objects.TheConstants.{SLOTS};
ghost use Rattle.access_core.specs.Journals.{IsLegal};
ghost use Rattle.access_core.specs.SlotStep.{SlotStep};
ghost use Rattle.history_receipts.specs.declared.mismatch.TheConstants.{POLICY_LIST};
ghost use Rattle.history_receipts.specs.declared.mismatch.Mismatch.TheVariants.{Count};
ghost use Rattle.slot_table.specs.SlotCommands.{LockedCommand};

use crate::receipts::keep;
use access_core::admission::admit_load;
use access_core::command::SlotCommand;
use access_core::refusal::Refusal;
use access_core::reply::Reply;
use access_core::slot::Slot;
use access_core::slot_step::{decide_slot, load_admitted};
use history_receipts::mismatch::Mismatch;
use policy_board::board::{Board, ClosedBoard};
use policy_board::board_name::BoardName;
use policy_board::reader::{IdleReader, Reading};
use policy_board::seat::Seat;
use rbac_policy::commands::SessionId;
use rbac_policy::objects::SlotNumber;
use reactor_core::journal::Journal;
use std::alloc::Global;
use std::marker::Model;
use std::sync::Wait;

/// The slot of this number with its reader. A contract sees its journal, and the policy list that
/// the reader has seen. The journal is legal over that list.
#[derive(Drop)]
pub struct LockedSlot<B: BoardName, const NUMBER: u8> {
    core: Slot,
    // It is away only while a command reads.
    reader: Option<IdleReader<B>>,
}

impl<B: BoardName, const NUMBER: u8> Model for LockedSlot<B, NUMBER> {
    ghost use Rattle.std.specs.Prelude.{◌≡◌, [], unwrap_or, IsSome};
    ghost use Rattle.access_core.specs.Journals.{IsLegal};
    ghost use Rattle.slot_table.specs.LockedState.{LockedState};

    ghost Value = { LockedState };

    ghost view = { λ s. record { list = unwrap_or s.reader []; journal = s.core.journal } };

    ghost invariant = { λ s. IsSome s.reader × (s.core.number ≡ NUMBER)
        × IsLegal (unwrap_or s.reader []) NUMBER s.core.journal };
}

/// Answers a command on the slot at the policy that is read, and ends the read. A load ends it
/// before its text is read, since every change of the policy waits for a read to end.
fn decide_and_leave<B: BoardName>(
    reading: Reading<B>,
    slot: &mut Slot,
    session: SessionId,
    command: SlotCommand,
) -> (Reply, IdleReader<B>)
    ensures number { slot.new.number ≡ slot.old.number }
    ensures step { SlotStep reading slot.old.number session command slot.old.journal result.0
        slot.new.journal }
    ensures reader { result.1 ≡ reading }
{
    match command.into_load() {
        Ok(load) => {
            let admitted = admit_load(reading.policy(), slot.number(), session);
            let reader = reading.leave();
            (load_admitted(admitted, slot, load), reader)
        }
        Err(command) => {
            let reply = decide_slot(reading.policy(), slot, session, command);
            (reply, reading.leave())
        }
    }
}

/// Has the slot's reader read the policy, answers the command at what was read, and hands the
/// reader back. The seat keeps a receipt of a reply that tells of an entry.
fn read_and_decide<B: BoardName, const NUMBER: u8, R: Wait>(
    rt: &R,
    board: &Board<B>,
    seat: &mut Seat<B>,
    slot: &mut Slot,
    reader: IdleReader<B>,
    session: SessionId,
    command: SlotCommand,
) -> (Reply, IdleReader<B>)
    requires { slot.old.number ≡ NUMBER }
    ensures number { slot.new.number ≡ NUMBER }
    ensures command { LockedCommand NUMBER session command
        (record { list = reader; journal = slot.old.journal }) seat.old result.0
        (record { list = result.1; journal = slot.new.journal }) seat.new }
{
    let Ok(()) = seat.make_room() else {
        return (Reply::Refused(Refusal::Memory), reader);
    };
    let reading = match reader.enter() {
        Ok(reading) => reading,
        Err(reader) => return (Reply::Refused(Refusal::Memory), reader),
    };
    let (found, seen) = (reading.prefix().version(), seat.seen());
    if found < seen {
        let behind = Refusal::Behind { found, seen };
        return (Reply::Refused(behind), reading.leave());
    }
    seat.note_list(reading.prefix());
    let signal = command.signal();
    let (reply, reader) = decide_and_leave(reading, slot, session, command);
    keep(rt, board, seat, NUMBER, session, signal, &reply);
    (reply, reader)
}

impl<B: BoardName, const NUMBER: u8> LockedSlot<B, NUMBER> {
    /// An empty slot with this reader.
    pub fn new(alloc: Global, reader: IdleReader<B>) -> LockedSlot<B, NUMBER>
        requires { NUMBER < SLOTS }
        ensures { result ≡ record { list = reader; journal = [] } }
    {
        LockedSlot {
            core: Slot::new(alloc, SlotNumber::new(NUMBER).unwrap()),
            reader: Some(reader),
        }
    }

    /// Answers a command on the policy as the slot's own reader reads it. The seat keeps a receipt
    /// of a reply that tells of an entry.
    pub fn answer<R: Wait>(
        &mut self,
        rt: &R,
        board: &Board<B>,
        seat: &mut Seat<B>,
        session: SessionId,
        command: SlotCommand,
    ) -> Reply
        ensures before { IsLegal self.old.list NUMBER self.old.journal }
        ensures after { IsLegal self.new.list NUMBER self.new.journal }
        ensures command { LockedCommand NUMBER session command self.old seat.old result self.new
            seat.new }
    {
        let reader = self.reader.take().unwrap();
        let (reply, reader) = read_and_decide::<B, NUMBER, R>(
            rt,
            board,
            seat,
            &mut self.core,
            reader,
            session,
            command,
        );
        self.reader = Some(reader);
        reply
    }

    /// Hands the reader back to the board, and gives the journal. The journal is legal over the
    /// policy list, unless the reader has seen more entries than that list has.
    pub fn end(self, board: &mut ClosedBoard<B>) -> (Journal, Result<(), Mismatch>)
        ensures journal { result.0 ≡ self.journal }
        ensures seen { IsLegal self.list NUMBER self.journal }
        ensures handed { MatchResult result.1
            (λ _. IsLegal board.old.policy NUMBER self.journal)
            (λ mismatch. (mismatch ≡ Count POLICY_LIST)
            × (length board.old.policy < length self.list)) }
        ensures board { board.new.policy ≡ board.old.policy }
    {
        let LockedSlot { core, reader } = self;
        let reader = reader.unwrap();
        let handed = board.reader(reader);
        (core.into_journal(), handed)
    }
}
