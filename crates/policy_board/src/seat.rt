//! A caller's place at the board: what it has seen, and its own reader.
ghost use Rattle.std.specs.Prelude.{◌≡◌, ◌⊎◌, ◌≤◌, max, length, MatchResult};
ghost use Rattle.rbac_policy.specs.Facts.{IsLive, May};
ghost use Rattle.rbac_policy.specs.Opening.{opening_entries};
ghost use Rattle.rbac_admin.specs.PolicyLists.{Begins, IsPolicyList};
ghost use Rattle.policy_board.specs.Reads.{AnswersFor};
ghost use Rattle.policy_board.specs.Inner.Reading.{IsRead, IsNotRead};
ghost use Rattle.policy_board.specs.PolicyCommands.{seat_after};
ghost use Rattle.policy_board.specs.Receipts.{HasRoom, seat_keeping};
ghost use Rattle.policy_board.specs.SeatState.{KeepsReceipts, new_seat};
ghost use Rattle.policy_board.specs.declared.refusal.BoardRefusal.TheVariants.{Memory};

use crate::board_list::BoardPrefix;
use crate::board_name::BoardName;
use crate::reader::{IdleReader, Reading};
use crate::refusal::BoardRefusal;
use history_receipts::receipt::Kept;
use history_receipts::receipt_list::Receipts;
use rbac_policy::commands::{Entry, SessionId};
use rbac_policy::objects::{Object, Operation};
use std::alloc::Global;
use std::marker::Model;

/// What an accepted policy command answers its caller: its entry, the list that ends with it, and
/// the session that it made, if it is a login. What the seat keeps of the call is a `Kept`.
#[derive(Drop)]
pub struct Acceptance<B: BoardName> {
    pub(crate) entry: Entry,
    pub(crate) list: BoardPrefix<B>,
    pub(crate) session: Option<SessionId>,
}

impl<B: BoardName> Acceptance<B> {
    /// The entry.
    pub fn entry(&self) -> &Entry
        ensures { result.now ≡ self.now.entry }
    {
        &self.entry
    }

    /// The policy's version with the entry.
    pub fn version(&self) -> u64
        ensures { result ≡ length self.now.list }
    {
        self.list.version()
    }

    /// The session that the entry made.
    pub fn session(&self) -> Option<SessionId>
        ensures { result ≡ self.now.session }
    {
        self.session
    }

    /// The list that ends with the entry: a prefix that another seat may learn.
    pub fn list(&self) -> &BoardPrefix<B>
        ensures { result.now ≡ self.now.list }
    {
        &self.list
    }
}

/// A caller's place. What it asks is answered for a policy that is no older than any that it has
/// seen or was told of. It keeps the receipts of its calls that added an entry, in their order.
#[derive(Drop)]
pub struct Seat<B: BoardName> {
    // It is away only while a call of the seat reads.
    reader: Option<IdleReader<B>>,
    known: BoardPrefix<B>,
    seen: u64,
    kept: Vec<Kept>,
}

impl<B: BoardName> Model for Seat<B> {
    ghost use Rattle.std.specs.Prelude.{◌≤◌, [], max, length, unwrap_or, vec_capacity, IsSome};
    ghost use Rattle.rbac_policy.specs.Opening.{opening_entries};
    ghost use Rattle.policy_board.specs.SeatState.{SeatState};

    ghost Value = { SeatState };

    ghost view = { λ s. record {
      known = s.known;
      read = unwrap_or s.reader [];
      seen = s.seen;
      kept = s.kept.items;
      room = vec_capacity s.kept;
    } };

    ghost invariant = { λ s. IsSome s.reader
        × (length s.known ≤ max s.seen (length opening_entries)) };
}

/// Reads. What is read is then known, unless it is older than what was seen. A refused read hands
/// the reader back.
fn read_newer<B: BoardName>(
    reader: IdleReader<B>,
    known: &mut BoardPrefix<B>,
    seen: &mut u64,
) -> Result<Reading<B>, (BoardRefusal, IdleReader<B>)>
    requires { length known.old ≤ max seen.old (length opening_entries) }
    ensures { MatchResult result
        (λ reading. IsRead reader (record { known = known.old; seen = seen.old }) reading
        (record { known = known.new; seen = seen.new }))
        (λ left. IsNotRead reader (record { known = known.old; seen = seen.old }) left.0 left.1
        (record { known = known.new; seen = seen.new })) }
{
    let reading = match reader.enter() {
        Ok(reading) => reading,
        Err(reader) => return Err((BoardRefusal::Memory, reader)),
    };
    let prefix = reading.prefix().copied();
    let found = prefix.version();
    if found < *seen {
        let refusal = BoardRefusal::Behind { found, seen: *seen };
        return Err((refusal, reading.leave()));
    }
    known.assert_begins(&prefix);
    *known = prefix;
    *seen = found;
    Ok(reading)
}

impl<B: BoardName> Seat<B> {
    /// A seat that knows the opening entries alone. Its seen number is 0.
    pub(crate) fn new(alloc: Global, reader: IdleReader<B>) -> Seat<B>
        requires { reader ≡ opening_entries }
        ensures { result ≡ new_seat }
    {
        Seat {
            known: reader.prefix().copied(),
            reader: Some(reader),
            seen: 0,
            kept: Vec::new(alloc),
        }
    }

    /// Its seen number: the greatest version that it has seen, and 0 for a new seat.
    pub fn seen(&self) -> u64
        ensures { result ≡ self.now.seen }
    {
        self.seen
    }

    /// Notes that it has seen this version. The program never does so; tests do, to get a Behind.
    pub fn note_version(&mut self, version: u64)
        ensures { self.new ≡ record self.old { seen = max self.old.seen version } }
    {
        self.seen = self.seen.max(version);
    }

    /// The receipts of its calls, the oldest first.
    pub fn receipts(&self) -> &[Kept]
        ensures { result.now ≡ self.now.kept }
    {
        self.kept.as_slice()
    }

    /// Makes room for one receipt.
    ///
    /// # Errors
    ///
    /// Memory, where memory was refused. The seat is then as it was.
    pub fn make_room(&mut self) -> Result<(), BoardRefusal>
        ensures { MatchResult result
            (λ _. HasRoom self.new × (self.new ≡ record self.old { room = self.new.room }))
            (λ refusal. (refusal ≡ Memory) × (self.new ≡ self.old)) }
    {
        match self.kept.reserve(1) {
            Ok(()) => Ok(()),
            Err(_) => Err(BoardRefusal::Memory),
        }
    }

    /// Keeps this receipt, at the end of the others.
    pub(crate) fn keep(&mut self, kept: Kept)
        requires { HasRoom self.old }
        ensures { self.new ≡ seat_keeping self.old kept }
    {
        self.kept.push_reserved(kept);
    }

    /// Its receipts. This ends the seat.
    pub fn into_receipts(self) -> Receipts
        ensures { result ≡ self.kept }
    {
        let Seat { kept, .. } = self;
        Receipts::from_vec(kept)
    }

    /// Notes that it has seen this list, which is no shorter than its seen number: so the list
    /// begins with all that it knew.
    pub fn note_list(&mut self, list: &BoardPrefix<B>)
        requires { self.old.seen ≤ length list.now }
        ensures later { Begins self.old.known list.now }
        ensures list { IsPolicyList list.now }
        ensures seat { self.new ≡ seat_after self.old list.now }
    {
        let version = list.version();
        self.known.assert_begins(list);
        self.known = list.copied();
        self.seen = version;
    }

    /// The longest list that it has read or was told of.
    pub(crate) fn known(&self) -> &BoardPrefix<B>
        ensures { result.now ≡ self.now.known }
    {
        &self.known
    }

    /// Notes that it knows this list, which begins with what it knew.
    pub(crate) fn note_known(&mut self, list: &BoardPrefix<B>)
        requires { Begins self.old.known list.now }
        ensures { self.new ≡ seat_after self.old list.now }
    {
        self.seen = self.seen.max(list.version());
        self.known = list.copied();
    }

    /// Learns of the list of an answer: from now on it is answered for no shorter one.
    /// The program never does so; tests do.
    pub fn learn(&mut self, acceptance: Acceptance<B>)
        ensures before { Begins self.old.known self.new.known }
        ensures told { Begins acceptance.list self.new.known }
        ensures one { (self.new.known ≡ self.old.known) ⊎ (self.new.known ≡ acceptance.list) }
        ensures seen { self.new.seen ≡ max self.old.seen (length acceptance.list) }
        ensures read { self.new.read ≡ self.old.read }
        ensures kept { KeepsReceipts self.old self.new }
    {
        let Acceptance { list, .. } = acceptance;
        self.seen = self.seen.max(list.version());
        if self.known.begins(&list) {
            self.known = list;
        }
    }

    /// Whether the session may do the operation on the object. It waits for nobody.
    ///
    /// # Errors
    ///
    /// - Behind, where the policy that was read is older than one that the seat has seen;
    /// - Memory, where `left_right` refuses the read (`IdleReader::enter`).
    pub(crate) fn check(
        &mut self,
        session: SessionId,
        operation: Operation,
        object: &Object,
    ) -> Result<bool, BoardRefusal>
        ensures { AnswersFor (λ entries. May entries session operation object.now) self.old result
            self.new }
    {
        let reader = self.reader.take().unwrap();
        match read_newer(reader, &mut self.known, &mut self.seen) {
            Ok(reading) => {
                let allowed = reading.policy().may(session, &operation, object);
                self.reader = Some(reading.leave());
                Ok(allowed)
            }
            Err((refusal, reader)) => {
                self.reader = Some(reader);
                Err(refusal)
            }
        }
    }

    /// Whether the session lives. It waits for nobody.
    ///
    /// # Errors
    ///
    /// As those of `Board::check_access`.
    pub fn lives(&mut self, session: SessionId) -> Result<bool, BoardRefusal>
        ensures { AnswersFor (λ entries. IsLive entries session) self.old result self.new }
    {
        let reader = self.reader.take().unwrap();
        match read_newer(reader, &mut self.known, &mut self.seen) {
            Ok(reading) => {
                let lives = reading.policy().lives(session);
                self.reader = Some(reading.leave());
                Ok(lives)
            }
            Err((refusal, reader)) => {
                self.reader = Some(reader);
                Err(refusal)
            }
        }
    }
}
