//! A board with its seats and its slots, and stories of it.
ghost use Rattle.std.specs.Prelude.{◌≡◌, ◌≤◌};
ghost use Rattle.history_receipts.specs.declared.receipt_list.TheConstants.{SEATS};

use crate::lines::{asked, expect_told};
use history_receipts::mismatch::Mismatch;
use history_receipts::receipt::{Kept, SlotReceipt};
use history_receipts::receipt_list::SEATS;
use policy_board::board::Board;
use policy_board::board_list::FreshList;
use policy_board::board_name::BoardName;
use policy_board::opening::Opened;
use policy_board::seat::Seat;
use rbac_policy::commands::{AdminCommand, SessionId};
use server_mistakes::closing::close;
use server_mistakes::slots;
use slot_table::closing::Histories;
use slot_table::table::SlotTable;
use std::alloc::Global;
use std::process::Abort;
use std::sync::Wait;
use wire_lines::request::Request;

/// A line of a story. The first number is that of the seat.
#[derive(Clone, Copy)]
pub(crate) enum Line {
    /// Root says this, and is told this; then the seat keeps this number of receipts. An accepted
    /// policy command is told the version with it.
    Says(usize, &'static str, &'static str, usize),
    /// The seat notes that it has seen this version.
    Saw(usize, u64),
    /// The greatest version that the seat has seen is this.
    HasSeen(usize, u64),
    /// The receipt at this place, counted from 0, is one of a slot command of session 1.
    Keeps(usize, usize, Told),
}

/// What a receipt tells: what was asked for, and the signal of an offer; the slot, the place, the
/// version and the number.
pub(crate) type Told = (&'static str, &'static str, [u64; 4]);

/// A board with its seats, and the slots of its readers.
struct Server<B: BoardName> {
    board: Board<B>,
    seats: Vec<Seat<B>>,
    table: SlotTable<B>,
}

/// A board with n seats, and its slots.
fn open<B: BoardName, R: Wait + Abort>(
    rt: &R,
    alloc: Global,
    fresh: FreshList,
    count: usize,
) -> Server<B>
    requires name { fresh.seen.book ≡ B.book }
    requires count { (1 ≤ count) × (count ≤ SEATS) }
{
    let Opened {
        board,
        seats,
        readers,
    } = Board::<B>::open(rt, alloc, fresh, count)
        .ok()
        .expect(rt, "a board");
    Server {
        board,
        seats,
        table: SlotTable::open(alloc, readers),
    }
}

/// The session that root logs in with.
fn root() -> SessionId {
    SessionId::new(1)
}

/// A policy command of root is accepted, with this version.
fn change<B: BoardName, R: Wait + Abort>(
    rt: &R,
    alloc: Global,
    board: &Board<B>,
    seat: &mut Seat<B>,
    command: AdminCommand,
    version: &str,
) {
    let session = match &command {
        AdminCommand::CreateSession { .. } => None,
        _ => Some(root()),
    };
    let receipt = board.admin(rt, seat, session, command);
    let receipt = receipt.ok().expect(rt, "a receipt");
    let found = format!(in alloc; "{}", receipt.version()).expect(rt, "room");
    assert_eq!(rt; found.as_str(), version);
}

/// A line of root is told this, without its LF.
fn say<B: BoardName, R: Wait + Abort>(
    rt: &R,
    alloc: Global,
    board: &Board<B>,
    table: &SlotTable<B>,
    seat: &mut Seat<B>,
    line: &str,
    wanted: &str,
) {
    match asked(rt, alloc, line) {
        Request::Policy(command) => change(rt, alloc, board, seat, command, wanted),
        Request::Slot { slot, command } => {
            let reply = slots::command(rt, table, board, seat, root(), slot, command);
            expect_told(rt, alloc, line, &reply, wanted);
        }
        Request::Check { .. } => assert!(rt; false, "a check"),
    }
}

/// The signal of an offer, or nothing.
fn signal_of(receipt: &SlotReceipt) -> &str {
    match &receipt.signal {
        Some(signal) => signal.as_str(),
        None => "",
    }
}

/// The receipt is one of a slot command of session 1, and tells this.
fn expect_kept(rt: &impl Abort, kept: Option<&Kept>, (word, signal, numbers): Told) {
    let receipt = match kept {
        Some(Kept::Slot(receipt)) => Some(receipt),
        Some(Kept::Admin { .. }) | None => None,
    }
    .expect(rt, "a slot command");
    let told = [receipt.slot, receipt.place, receipt.version, receipt.number];
    assert_eq!(rt; (receipt.word.text(), signal_of(receipt)), (word, signal));
    assert_eq!(rt; told, numbers);
    assert_eq!(rt; receipt.session, 1);
}

/// The line of the story comes true.
fn follow<B: BoardName, R: Wait + Abort>(
    rt: &R,
    alloc: Global,
    board: &Board<B>,
    table: &SlotTable<B>,
    seats: &mut [Seat<B>],
    line: Line,
) {
    let (Line::Says(by, ..) | Line::Saw(by, _) | Line::HasSeen(by, _) | Line::Keeps(by, ..)) = line;
    let seat = seats.get_mut(by).expect(rt, "a seat");
    match line {
        Line::Says(_, text, wanted, kept) => {
            say(rt, alloc, board, table, seat, text, wanted);
            assert_eq!(rt; seat.receipts().len(), kept, "{text}");
        }
        Line::Saw(_, version) => seat.note_version(version),
        Line::HasSeen(_, version) => assert_eq!(rt; seat.seen(), version),
        Line::Keeps(_, place, told) => expect_kept(rt, seat.receipts().get(place), told),
    }
}

/// The story of a server with two seats comes true, line by line, and the server is closed. Where
/// a seat is held back, it is closed without the second one.
pub(crate) fn play<B: BoardName, R: Wait + Abort>(
    rt: &R,
    alloc: Global,
    fresh: FreshList,
    story: &[Line],
    is_held_back: bool,
) -> Result<Histories, Mismatch>
    requires { fresh.seen.book ≡ B.book }
{
    let Server {
        board,
        mut seats,
        table,
    } = open::<B, R>(rt, alloc, fresh, 2);
    for line in story {
        follow(rt, alloc, &board, &table, &mut seats, *line);
    }
    if is_held_back {
        let seat = seats.pop().expect(rt, "a seat");
        let _receipts = seat.into_receipts();
    }
    assert!(rt; seats.len() <= SEATS);
    close(rt, alloc, table, board, seats)
}

/// How many policy entries a closed server has, or why it gives no journals.
pub(crate) fn entries(left: &Result<Histories, Mismatch>) -> Result<usize, Mismatch> {
    match left {
        Ok(histories) => Ok(histories.policy.len()),
        Err(mismatch) => Err(*mismatch),
    }
}
