//! What lies under the admin lock: the writer, and the journal of all accepted entries.
ghost use Rattle.std.specs.Prelude.{◌≡◌, ◌++◌, ◌∷◌, [], ◌<◌, List, Some, IsNone, length, IfOk};
ghost use Rattle.std.specs.Prelude.{MatchResult};
ghost use Rattle.rbac_policy.specs.declared.commands.Entry.{Entry};
ghost use Rattle.rbac_policy.specs.StandsFor.{StandsFor};
ghost use Rattle.refusal_rules.specs.Rules.{accept, MayRefuse, ◌▸◌, Answers};
ghost use Rattle.rbac_admin.specs.PolicyLists.{Begins, IsAccepted, IsPolicyList};
ghost use Rattle.policy_board.specs.PolicyCommands.{BoardStep, IsPublished, IsRefused, SeatAfter};
ghost use Rattle.policy_board.specs.PolicyCommands.{session_made};
ghost use Rattle.policy_board.specs.Inner.Keeping.{KeepsAnswer};
ghost use Rattle.history_receipts.specs.declared.mismatch.TheConstants.{POLICY_LIST};
ghost use Rattle.history_receipts.specs.declared.mismatch.Mismatch.TheVariants.{Count};

use crate::board_name::BoardName;
use crate::publisher::Publisher;
use crate::reader::IdleReader;
use crate::refusal::BoardRefusal;
use crate::seat::{Acceptance, Seat};
use history_receipts::mismatch::{Mismatch, POLICY_LIST};
use history_receipts::receipt::Kept;
use rbac_admin::policy_step::decide;
use rbac_admin::room::has_room;
use rbac_policy::commands::{AdminCommand, Entry, SessionId};
use rbac_policy::journal::PolicyJournal;
use rbac_policy::policy::Policy;
use std::alloc::AllocError;
use std::marker::Model;
use std::sync::Wait;

/// The writer and the journal. A contract sees the journal, which is all that is published.
pub struct LockedPolicy<B: BoardName> {
    publisher: Option<Publisher<B>>,
    journal: PolicyJournal,
}

impl<B: BoardName> Model for LockedPolicy<B> {
    ghost use Rattle.std.specs.Prelude.{◌≡◌, List, Some};
    ghost use Rattle.rbac_policy.specs.declared.commands.Entry.{Entry};

    ghost Value = { List Entry };

    ghost view = { λ d. d.journal };

    ghost invariant = { λ d. d.publisher ≡ Some d.journal };
}

/// Puts the value into the place, which is empty.
fn put_back<T>(place: &mut Option<T>, value: T)
    requires { IsNone place.old }
    ensures { place.new ≡ Some value }
{
    match place.replace(value) {
        None => {}
        Some(_) => unreachable!(),
    }
}

/// Three copies of the entry: one is published, one goes into the `Acceptance` that is answered,
/// and one into the `Kept` that stays with the seat.
fn copies(entry: &Entry) -> Result<(Entry, Entry, Entry), AllocError>
    ensures { IfOk result (λ all. (all.0 ≡ entry.now) × (all.1 ≡ entry.now) × (all.2 ≡ entry.now)) }
{
    let published = entry.clone()?;
    let told = entry.clone()?;
    let kept = entry.clone()?;
    Ok((published, told, kept))
}

/// The session that the entry, which the policy took in last, has made.
fn session_made(policy: &Policy, entry: &Entry) -> Option<SessionId>
    ensures { (before : List Entry) → StandsFor policy.now (before ++ entry.now ∷ [])
        → result ≡ session_made before entry.now }
{
    if entry.command.is_login() {
        Some(SessionId::new(policy.logins()))
    } else {
        None
    }
}

impl<B: BoardName> LockedPolicy<B> {
    /// The writer and the journal. The writer shows the list of the journal.
    pub fn new(publisher: Publisher<B>, journal: PolicyJournal) -> LockedPolicy<B>
        requires { publisher ≡ journal }
        ensures { result ≡ journal }
    {
        LockedPolicy {
            publisher: Some(publisher),
            journal,
        }
    }

    /// The journal.
    pub fn journal(&self) -> &PolicyJournal
        ensures { result.now ≡ self.now }
    {
        &self.journal
    }

    /// Publishes the entry and answers its `Acceptance`; the seat keeps a receipt of its own, a
    /// `Kept`. Every refusal but Memory was asked before. All memory is taken first, so that
    /// nothing is refused once the entry is published.
    fn append<R: Wait>(
        &mut self,
        rt: &R,
        seat: &mut Seat<B>,
        entry: Entry,
    ) -> Result<Acceptance<B>, BoardRefusal>
        requires { IsAccepted self.old entry }
        ensures answer { Answers (MayRefuse BoardRefusal.Memory ▸ accept)
            (λ refusal. IsRefused refusal self.old result
            self.new) (IsPublished entry self.old result self.new) }
        ensures seat { KeepsAnswer seat.old result self.new seat.new }
    {
        let Ok((published, told, kept)) = copies(&entry) else {
            return Err(BoardRefusal::Memory);
        };
        seat.make_room()?;
        let Ok(()) = self.journal.push(entry) else {
            return Err(BoardRefusal::Memory);
        };
        let publisher = self.publisher.take().unwrap().publish(rt, published);
        let acceptance = Acceptance {
            session: session_made(publisher.policy(), &told),
            entry: told,
            list: publisher.prefix(),
        };
        put_back(&mut self.publisher, publisher);
        seat.keep(Kept::Admin {
            version: acceptance.version(),
            entry: kept,
        });
        Ok(acceptance)
    }

    /// The answer to a policy command: its entry is decided on the policy that is published, and
    /// appended where there is room.
    fn decide_and_append<R: Wait>(
        &mut self,
        rt: &R,
        seat: &mut Seat<B>,
        session: Option<SessionId>,
        command: AdminCommand,
    ) -> Result<Acceptance<B>, BoardRefusal>
        ensures step { BoardStep self.old session command result self.new }
        ensures seat { KeepsAnswer seat.old result self.new seat.new }
    {
        let policy = self.publisher.as_ref().unwrap().policy();
        let entry = match decide(policy, session, command) {
            Ok(entry) => entry,
            Err(refusal) => return Err(BoardRefusal::Policy(refusal)),
        };
        if !has_room(self.journal.entries(), &entry.command) {
            return Err(BoardRefusal::JournalFull);
        }
        self.append(rt, seat, entry)
    }

    /// Answers a policy command. An accepted one adds its entry at the end, and publishes it. The
    /// seat then knows the list, and keeps a receipt (`Kept`) of an accepted one.
    pub fn answer<R: Wait>(
        &mut self,
        rt: &R,
        seat: &mut Seat<B>,
        session: Option<SessionId>,
        command: AdminCommand,
    ) -> Result<Acceptance<B>, BoardRefusal>
        ensures known { Begins seat.old.known self.old }
        ensures list { IsPolicyList self.old }
        ensures step { BoardStep self.old session command result self.new }
        ensures seat { SeatAfter seat.old result self.new seat.new }
    {
        let publisher = self.publisher.as_ref().unwrap();
        publisher.confirm_all_published(rt, seat.known());
        seat.note_known(&publisher.prefix());
        let answer = self.decide_and_append(rt, seat, session, command);
        if let Ok(acceptance) = &answer {
            seat.note_known(acceptance.list());
        }
        answer
    }

    /// Whether what the reader saw is a beginning of the journal.
    pub fn compare(&self, reader: &IdleReader<B>) -> Result<(), Mismatch>
        ensures { MatchResult result
            (λ _. Begins reader.now self.now)
            (λ mismatch. (mismatch ≡ Count POLICY_LIST) × (length self.now < length reader.now)) }
    {
        if reader
            .prefix()
            .begins(&self.publisher.as_ref().unwrap().prefix())
        {
            return Ok(());
        }
        Err(Mismatch::Count { slot: POLICY_LIST })
    }

    /// Waits for the readers, ends the writer, and gives the journal.
    pub fn into_journal<R: Wait>(self, rt: &R) -> PolicyJournal
        ensures same { result ≡ self }
        ensures list { IsPolicyList self }
    {
        let LockedPolicy { publisher, journal } = self;
        publisher.unwrap().take(rt);
        journal
    }
}
