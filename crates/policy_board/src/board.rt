//! The board: the writer of the policy under the admin lock.
ghost use Rattle.std.specs.Prelude.{◌≡◌, ◌<◌, List, length, MatchResult};
ghost use Rattle.rbac_policy.specs.declared.commands.Entry.{Entry};
ghost use Rattle.rbac_policy.specs.Facts.{May};
ghost use Rattle.rbac_admin.specs.PolicyLists.{Begins, IsPolicyList};
ghost use Rattle.policy_board.specs.PolicyCommands.{BoardStep, SeatAfter};
ghost use Rattle.policy_board.specs.Reads.{AnswersFor};
ghost use Rattle.policy_board.specs.Receipts.{HasRoom, IsCounted};
ghost use Rattle.history_receipts.specs.declared.mismatch.TheConstants.{POLICY_LIST};
ghost use Rattle.history_receipts.specs.declared.mismatch.Mismatch.TheVariants.{Count};

use crate::board_name::BoardName;
use crate::locked_policy::LockedPolicy;
use crate::reader::IdleReader;
use crate::refusal::BoardRefusal;
use crate::seat::{Acceptance, Seat};
use history_receipts::mismatch::Mismatch;
use history_receipts::receipt::{Kept, SlotReceipt};
use rbac_policy::commands::{AdminCommand, SessionId};
use rbac_policy::journal::PolicyJournal;
use rbac_policy::objects::{Object, Operation};
use std::snapshot::Snapshot;
use std::sync::{Mutex, MutexGuard, Wait};

/// The policy of a server, which many threads share, and the tally of its slot commands. Commands
/// take turns under the admin lock; reads wait for nobody.
pub struct Board<B: BoardName> {
    policy: Mutex<LockedPolicy<B>>,
    // The number of the last slot command that was counted.
    tally: Mutex<u64>,
    // The list that it was made with, for the proofs alone.
    began: Snapshot<PolicyJournal>,
}

impl<B: BoardName> Board<B> {
    pub(crate) fn new(policy: LockedPolicy<B>) -> Board<B>
        ensures { result.began.value ≡ policy }
    {
        Board {
            began: Snapshot::of(policy.journal()),
            policy: Mutex::new(policy),
            tally: Mutex::new(0),
        }
    }

    /// Answers a policy command, which this session gives, on the list as it is under the admin
    /// lock: `before`. It waits for that lock, and for reads that still have the older policy. The
    /// seat keeps a receipt (`Kept`) of an accepted one; the answer, an `Acceptance`, is another
    /// value.
    ///
    /// # Errors
    ///
    /// - the refusal of the policy step;
    /// - else JournalFull, where the list has no room for the command;
    /// - else Memory, where memory was refused.
    pub fn admin<R: Wait>(
        &self,
        rt: &R,
        seat: &mut Seat<B>,
        session: Option<SessionId>,
        command: AdminCommand,
    ) -> Result<Acceptance<B>, BoardRefusal>
        ensures { (before : List Entry) × (after : List Entry)
            × IsPolicyList before × Begins seat.old.known before
            × BoardStep before session command result after
            × SeatAfter seat.old result after seat.new }
    {
        let mut policy = self.policy.lock(rt);
        let answer = policy.answer(rt, seat, session, command);
        MutexGuard::unlock(policy);
        answer
    }

    /// Gives the receipt of a slot command the next number of the tally, and has the seat keep it.
    /// It waits for the tally. The first number is 1; after the greatest, the greatest is given
    /// again.
    pub fn number_receipt<R: Wait>(&self, rt: &R, seat: &mut Seat<B>, receipt: SlotReceipt)
        requires { HasRoom seat.old }
        ensures { IsCounted seat.old receipt seat.new }
    {
        let mut tally = self.tally.lock(rt);
        let number = tally.saturating_add(1);
        *tally = number;
        MutexGuard::unlock(tally);
        seat.keep(Kept::Slot(SlotReceipt { number, ..receipt }));
    }

    /// Whether the session may do the operation on the object. It waits for nobody.
    ///
    /// # Errors
    ///
    /// - Behind, where the policy that was read is older than one that the seat has seen;
    /// - Memory, where `left_right` refuses the read (`IdleReader::enter`).
    pub fn check_access(
        &self,
        seat: &mut Seat<B>,
        session: SessionId,
        operation: Operation,
        object: &Object,
    ) -> Result<bool, BoardRefusal>
        ensures { AnswersFor (λ entries. May entries session operation object.now) seat.old result
            seat.new }
    {
        seat.check(session, operation, object)
    }

    /// Ends the board.
    pub fn close(self) -> ClosedBoard<B> {
        let Board {
            policy,
            tally: _,
            began: _,
        } = self;
        ClosedBoard {
            policy: policy.into_inner(),
        }
    }
}

/// A board that is closed. End it by `journal`.
pub struct ClosedBoard<B: BoardName> {
    policy: LockedPolicy<B>,
}

impl<B: BoardName> ClosedBoard<B> {
    /// Takes a reader back, if what it saw is a beginning of the policy journal.
    ///
    /// # Errors
    ///
    /// Count, where it saw more entries than the journal has.
    pub fn reader(&mut self, reader: IdleReader<B>) -> Result<(), Mismatch>
        ensures seen { MatchResult result
            (λ _. Begins reader self.old.policy)
            (λ mismatch. (mismatch ≡ Count POLICY_LIST)
            × (length self.old.policy < length reader)) }
        ensures same { self.new.policy ≡ self.old.policy }
    {
        self.policy.compare(&reader)
    }

    /// The policy journal. It waits for the readers, and ends the writer.
    pub fn journal<R: Wait>(self, rt: &R) -> PolicyJournal
        ensures same { result ≡ self.policy }
        ensures list { IsPolicyList result }
    {
        let ClosedBoard { policy } = self;
        policy.into_journal(rt)
    }
}
