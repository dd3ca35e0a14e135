//! Sixteen slots, each under a lock of its own.
ghost use Rattle.std.specs.Prelude.{◌≡◌, ◌⊎◌, ◌<◌, ◌≤◌, ◌+◌, vec_len, OnOk, IfOk, IfErr};
ghost use Rattle.rbac_policy.specs.declared.objects.TheConstants.{SLOTS};
ghost use Rattle.rbac_admin.specs.PolicyLists.{IsPolicyList};
ghost use Rattle.history_receipts.specs.declared.receipt_list.TheConstants.{SEATS};
ghost use Rattle.history_laws.specs.CallsInTurn.{AreOfOneRun};
ghost use Rattle.history_merge.specs.OneList.{AreOfOneList};
ghost use Rattle.slot_table.specs.Closing.{AllRise, AreLegal, IsJustified, kept_of};
ghost use Rattle.slot_table.specs.Inner.Ending.{EndFrom};
ghost use Rattle.slot_table.specs.SlotCommands.{IsAnswered, IsNoSlot, IsNotAsked, TableCommand};

use crate::closing::{Closing, Histories, compare_histories};
use crate::conversions::refusal_of_board;
use crate::slot::LockedSlot;
use access_core::command::SlotCommand;
use access_core::refusal::Refusal;
use access_core::reply::Reply;
use history_laws::laws::journals_are_of_one_run;
use history_receipts::mismatch::Mismatch;
use history_receipts::receipt_list::SEATS;
use policy_board::board::Board;
use policy_board::board_name::BoardName;
use policy_board::reader::IdleReader;
use policy_board::seat::Seat;
use rbac_admin::refusal::PolicyRefusal;
use rbac_policy::commands::SessionId;
use rbac_policy::objects::SLOTS;
use reactor_core::journal::Journal;
use std::alloc::Global;
use std::hint::spin_loop;
use std::sync::{Mutex, MutexGuard, Wait};

/// The sixteen slots, each under its lock. A lock's type has the slot's number as a parameter,
/// since of what lies under a lock only facts of its type are known.
#[derive(Drop)]
pub struct SlotTable<B: BoardName> {
    slot0: Mutex<LockedSlot<B, 0>>,
    slot1: Mutex<LockedSlot<B, 1>>,
    slot2: Mutex<LockedSlot<B, 2>>,
    slot3: Mutex<LockedSlot<B, 3>>,
    slot4: Mutex<LockedSlot<B, 4>>,
    slot5: Mutex<LockedSlot<B, 5>>,
    slot6: Mutex<LockedSlot<B, 6>>,
    slot7: Mutex<LockedSlot<B, 7>>,
    slot8: Mutex<LockedSlot<B, 8>>,
    slot9: Mutex<LockedSlot<B, 9>>,
    slot10: Mutex<LockedSlot<B, 10>>,
    slot11: Mutex<LockedSlot<B, 11>>,
    slot12: Mutex<LockedSlot<B, 12>>,
    slot13: Mutex<LockedSlot<B, 13>>,
    slot14: Mutex<LockedSlot<B, 14>>,
    slot15: Mutex<LockedSlot<B, 15>>,
}

// Calls one of the macros below on what it is given, and after it the sixteen slots, each by its
// field and its number.
macro_rules! with_slots {
    ($to:ident: $($given:tt)*) => {
        $to!($($given)*;
            slot0 0, slot1 1, slot2 2, slot3 3, slot4 4, slot5 5, slot6 6, slot7 7,
            slot8 8, slot9 9, slot10 10, slot11 11, slot12 12, slot13 13, slot14 14, slot15 15)
    };
}

macro_rules! open_slots {
    ($alloc:ident, $readers:ident; $($slot:ident $number:literal),*) => {
        SlotTable { $($slot: open_slot($alloc, &mut $readers)),* }
    };
}

macro_rules! answer_at {
    ($table:ident, $at:ident, $rt:ident, $board:ident, $seat:ident, $session:ident, $command:ident;
        $($slot:ident $number:literal),*) => {
        match $at {
            $($number => answer_under_lock($rt, $board, &$table.$slot, $seat, $session, $command),)*
            _ => refuse_number($seat, $session, $at),
        }
    };
}

macro_rules! end_slots {
    ($table:ident, $closing:ident; $($slot:ident $number:literal),*) => {{
        let SlotTable { $($slot),* } = $table;
        [$($closing.end($slot)),*]
    }};
}

/// An empty slot, with the last of the readers, under its lock.
fn open_slot<B: BoardName, const NUMBER: u8>(
    alloc: Global,
    readers: &mut Vec<IdleReader<B>>,
) -> Mutex<LockedSlot<B, NUMBER>>
    requires number { NUMBER < SLOTS }
    requires some { 0 < vec_len readers.old }
    ensures { vec_len readers.new + 1 ≡ vec_len readers.old }
{
    let reader = readers.pop().unwrap();
    Mutex::new(LockedSlot::new(alloc, reader))
}

/// How often a lock that is taken is tried again before the thread sleeps: for about as long as
/// three commands take. To sleep and be woken takes far longer than a command.
const TRIES: u32 = 64;

/// How long a thread waits between two tries.
const PAUSES: u32 = 8;

/// Lets a moment pass.
#[inline(always)]
fn pause() {
    for _ in 0..PAUSES {
        spin_loop();
    }
}

/// Takes a lock. If it is taken, tries again a number of times, and then sleeps until it is free.
fn lock_soon<'a, T, R: Wait>(rt: &R, lock: &'a Mutex<T>) -> MutexGuard<'a, T> {
    for _ in 0..TRIES {
        if let Some(guard) = lock.try_lock() {
            return guard;
        }
        pause();
    }
    lock.lock(rt)
}

/// Answers a command on the slot under this lock.
fn answer_under_lock<B: BoardName, const NUMBER: u8, R: Wait>(
    rt: &R,
    board: &Board<B>,
    slot: &Mutex<LockedSlot<B, NUMBER>>,
    seat: &mut Seat<B>,
    session: SessionId,
    command: SlotCommand,
) -> Reply
    requires { NUMBER < SLOTS }
    ensures { IsAnswered NUMBER session command seat.old result seat.new }
{
    let mut locked = lock_soon(rt, slot);
    let reply = locked.answer(rt, board, seat, session, command);
    MutexGuard::unlock(locked);
    reply
}

/// Answers a command on a number that no slot has.
fn refuse_number<B: BoardName>(seat: &mut Seat<B>, session: SessionId, slot: u64) -> Reply
    requires { SLOTS ≤ slot }
    ensures { IsNoSlot slot session seat.old result seat.new
        ⊎ IsNotAsked slot seat.old result seat.new }
{
    match seat.lives(session) {
        Ok(true) => Reply::Refused(Refusal::NoSlot),
        Ok(false) => Reply::Refused(Refusal::Policy(PolicyRefusal::NoSession)),
        Err(refusal) => Reply::Refused(refusal_of_board(refusal)),
    }
}

impl<B: BoardName> SlotTable<B> {
    /// Sixteen empty slots, which have these readers. It takes no memory.
    pub fn open(alloc: Global, readers: Vec<IdleReader<B>>) -> SlotTable<B>
        requires { vec_len readers ≡ SLOTS }
    {
        let mut readers = readers;
        with_slots!(open_slots: alloc, readers)
    }

    /// Answers a command of this session on the slot of this number, under the slot's lock, for
    /// which it waits. A number that no slot has takes no lock: the seat's own reader tells whether
    /// the session lives. A reply that tells of an entry leaves a receipt with the seat.
    pub fn command<R: Wait>(
        &self,
        rt: &R,
        board: &Board<B>,
        seat: &mut Seat<B>,
        session: SessionId,
        slot: u64,
        command: SlotCommand,
    ) -> Reply
        ensures { TableCommand slot session command seat.old result seat.new }
    {
        with_slots!(answer_at: self, slot, rt, board, seat, session, command)
    }

    /// The journals, by number. Each lock is opened, and its reader handed back.
    fn end(self, closing: &mut Closing<B>) -> [Journal; SLOTS as usize]
        ensures { EndFrom 0 closing.old result closing.new }
    {
        with_slots!(end_slots: self, closing)
    }

    /// Closes a server: gives its journals, if each of their entries has exactly one receipt, kept
    /// by one of these seats. They are then the journals of clients that took turns. Board and
    /// seats have to be those from which the slots have their readers. It waits for reads of the
    /// policy, and takes no memory.
    ///
    /// # Errors
    ///
    /// - Count, where the reader of a slot has seen more policy entries than there are, or the
    ///   receipts of a list are not as many as its entries;
    /// - Receipt, where what it names is not there, has the place of another, or breaks the order.
    pub fn close<R: Wait>(
        self,
        rt: &R,
        alloc: Global,
        board: Board<B>,
        seats: Vec<Seat<B>>,
    ) -> Result<Histories, Mismatch>
        requires few { vec_len seats ≤ SEATS }
        ensures one { IfOk result (λ h. AreOfOneList h.policy h.slots (kept_of seats.items)) }
        ensures run { IfOk result (λ h. AreOfOneRun h.policy h.slots (kept_of seats.items)) }
        ensures rises { OnOk result (AllRise (kept_of seats.items)) }
        ensures list { IfOk result (λ h. IsPolicyList h.policy) }
        ensures legal { IfOk result (λ h. AreLegal h.policy h.slots) }
        ensures err { IfErr result (λ mismatch. IsJustified (kept_of seats.items) mismatch) }
    {
        let mut closing = Closing::begin(board);
        let slots = self.end(&mut closing);
        let policy = closing.journal(rt)?;
        journals_are_of_one_run();
        compare_histories(alloc, Histories { policy, slots }, seats)
    }
}
