//! A new board, with its seats and readers.
ghost use Rattle.std.specs.Prelude.{◌≡◌, ◌≤◌, [], drop, replicate, vec_capacity, IfOk, IfErr};
ghost use Rattle.std.specs.Prelude.{IfSome};
ghost use Rattle.rbac_policy.specs.Opening.{opening_entries};
ghost use Rattle.rbac_policy.specs.declared.objects.TheConstants.{SLOTS};
ghost use Rattle.history_receipts.specs.declared.receipt_list.TheConstants.{SEATS};
ghost use Rattle.policy_board.specs.SeatState.{new_seat};
ghost use Rattle.policy_board.specs.Inner.Publishing.{IsPublishing};
ghost use Rattle.policy_board.specs.declared.refusal.BoardRefusal.TheVariants.{Memory};

use crate::board::Board;
use crate::board_list::{BoardPrefix, FreshList};
use crate::board_name::BoardName;
use crate::locked_policy::LockedPolicy;
use crate::published::{PolicyWriter, PublishedPolicy};
use crate::publisher::Publisher;
use crate::reader::IdleReader;
use crate::refusal::BoardRefusal;
use crate::seat::Seat;
use history_receipts::receipt_list::SEATS;
use rbac_policy::journal::PolicyJournal;
use rbac_policy::objects::SLOTS;
use rbac_policy::policy::Policy;
use std::alloc::{AllocError, Global};
use std::sync::Wait;

/// A board with its seats, and a reader for each slot.
pub struct Opened<B: BoardName> {
    pub board: Board<B>,
    pub seats: Vec<Seat<B>>,
    pub readers: Vec<IdleReader<B>>,
}

/// A writer that shows the opening policy, with room for n readers.
fn open_writer<B: BoardName>(
    alloc: Global,
    opening: &BoardPrefix<B>,
    readers: usize,
) -> Result<PolicyWriter<B>, AllocError>
    requires opening { opening.now ≡ opening_entries }
    requires readers { (1 ≤ readers) × (readers ≤ 1024) }
    ensures { IfOk result (λ w. (w.desk.shown.value.book_prefix.list ≡ opening_entries)
        × IsPublishing B.book w.desk.shown.value.policy w.desk.shown.value.book_prefix
        (drop w.behind w.log.items)) }
{
    let first = PublishedPolicy {
        policy: Policy::opening(),
        book_prefix: opening.book_prefix(),
    };
    let second = PublishedPolicy {
        policy: Policy::opening(),
        book_prefix: opening.book_prefix(),
    };
    let writer = PolicyWriter::<B>::new(alloc, first, second, readers)?;
    Ok(writer)
}

/// n readers, in room that was made for them; none if `left_right` has no place for one of them.
fn fill_readers<B: BoardName>(
    room: Vec<IdleReader<B>>,
    publisher: &Publisher<B>,
    opening: &BoardPrefix<B>,
    count: usize,
) -> Option<Vec<IdleReader<B>>>
    requires opening { opening.now ≡ opening_entries }
    requires room { (room.items ≡ []) × (count ≤ vec_capacity room) }
    ensures { IfSome result (λ readers. readers.items ≡ replicate count opening_entries) }
{
    let mut readers = room;
    while readers.len() < count {
        let Some(reader) = publisher.reader(opening) else {
            return None;
        };
        readers.push_reserved(reader);
    }
    Some(readers)
}

/// n seats, in room that was made for them; none if `left_right` has no place for the reader of one
/// of them.
fn fill_seats<B: BoardName>(
    alloc: Global,
    room: Vec<Seat<B>>,
    publisher: &Publisher<B>,
    opening: &BoardPrefix<B>,
    count: usize,
) -> Option<Vec<Seat<B>>>
    requires opening { opening.now ≡ opening_entries }
    requires room { (room.items ≡ []) × (count ≤ vec_capacity room) }
    ensures { IfSome result (λ seats. seats.items ≡ replicate count new_seat) }
{
    let mut seats = room;
    while seats.len() < count {
        let Some(reader) = publisher.reader(opening) else {
            return None;
        };
        seats.push_reserved(Seat::new(alloc, reader));
    }
    Some(seats)
}

/// The parts of a new board. What it holds itself gets its room before there is a writer, which
/// only a wait can end. If `left_right` then refuses room or a reader, the writer is ended.
fn open_parts<B: BoardName, R: Wait>(
    rt: &R,
    alloc: Global,
    fresh: FreshList,
    seats: usize,
) -> Result<Opened<B>, AllocError>
    requires name { fresh.seen.book ≡ B.book }
    requires seats { (1 ≤ seats) × (seats ≤ SEATS) }
    ensures { IfOk result (λ o. (o.board.began.value ≡ opening_entries)
        × (o.seats.items ≡ replicate seats new_seat)
        × (o.readers.items ≡ replicate SLOTS opening_entries)) }
{
    let (head, opening) = fresh.named::<B>();
    let slots = usize::from(SLOTS);
    let journal = PolicyJournal::opening(alloc)?;
    let seat_room = Vec::with_capacity(alloc, seats)?;
    let reader_room = Vec::with_capacity(alloc, slots)?;
    let writer = open_writer(alloc, &opening, seats + slots)?;
    let publisher = match Publisher::new(writer, head) {
        Ok(publisher) => publisher,
        Err(writer) => {
            writer.take(rt);
            return Err(AllocError);
        }
    };
    let seats = fill_seats(alloc, seat_room, &publisher, &opening, seats);
    let readers = fill_readers(reader_room, &publisher, &opening, slots);
    let (Some(seats), Some(readers)) = (seats, readers) else {
        publisher.take(rt);
        return Err(AllocError);
    };
    Ok(Opened {
        board: Board::new(LockedPolicy::new(publisher, journal)),
        seats,
        readers,
    })
}

impl<B: BoardName> Board<B> {
    /// A board under the name of a fresh list, with n seats, and a reader for each slot. The board
    /// is made with the opening entries. Each seat and slot can read, and none has seen more.
    ///
    /// # Errors
    ///
    /// Memory, where memory was refused, or `left_right` gave no reader.
    pub fn open<R: Wait>(
        rt: &R,
        alloc: Global,
        fresh: FreshList,
        seats: usize,
    ) -> Result<Opened<B>, BoardRefusal>
        requires name { fresh.seen.book ≡ B.book }
        requires seats { (1 ≤ seats) × (seats ≤ SEATS) }
        ensures opened { IfOk result (λ o. (o.board.began.value ≡ opening_entries)
            × (o.seats.items ≡ replicate seats new_seat)
            × (o.readers.items ≡ replicate SLOTS opening_entries)) }
        ensures refused { IfErr result (λ refusal. refusal ≡ Memory) }
    {
        match open_parts(rt, alloc, fresh, seats) {
            Ok(opened) => Ok(opened),
            Err(_) => Err(BoardRefusal::Memory),
        }
    }
}
