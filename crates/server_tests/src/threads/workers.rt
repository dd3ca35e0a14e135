//! Workers that serve two clients side by side.
ghost use Rattle.std.specs.Prelude.{◌≡◌};

use crate::threads::clients::{Client, Clients};
use crate::threads::meeting::Meeting;
use crate::threads::server::{Server, open};
use client_loop::workers::run_workers;
use policy_board::board_list::FreshList;
use policy_board::board_name::BoardName;
use rbac_policy::commands::SessionId;
use rbac_policy::journal::PolicyJournal;
use reactor_core::entry::{Move, SlotEntry};
use reactor_core::journal::Journal;
use slot_table::closing::Histories;
use std::alloc::Global;
use std::marker::Brand;
use std::process::Abort;
use std::sync::Wait;
use std::test::Fail;
use std::thread::Threads;
use std::time::Clock;

/// A client that loads a module in slot 0 and steps it.
const ON_SLOT_0: &str = "{\"cmd\":\"login\",\"roles\":[\"root\"],\"user\":\"root\"}
{\"cmd\":\"grant\",\"object\":\"0\",\"op\":\"load\",\"role\":\"root\"}
{\"cmd\":\"grant\",\"object\":\"0\",\"op\":\"step\",\"role\":\"root\"}
{\"cmd\":\"load\",\"main\":\"M\",\"slot\":0,\"text\":\"module M: output O; emit O end module\"}
{\"cmd\":\"step\",\"slot\":0}
{\"cmd\":\"step\",\"slot\":0}
{\"cmd\":\"logout\"}
";

/// A client that does so in slot 1.
const ON_SLOT_1: &str = "{\"cmd\":\"login\",\"roles\":[\"root\"],\"user\":\"root\"}
{\"cmd\":\"grant\",\"object\":\"1\",\"op\":\"load\",\"role\":\"root\"}
{\"cmd\":\"grant\",\"object\":\"1\",\"op\":\"step\",\"role\":\"root\"}
{\"cmd\":\"load\",\"main\":\"M\",\"slot\":1,\"text\":\"module M: output O; emit O end module\"}
{\"cmd\":\"step\",\"slot\":1}
{\"cmd\":\"step\",\"slot\":1}
{\"cmd\":\"logout\"}
";

/// How many lines each of them sends.
const LINES: u64 = 7;

/// What a policy opens with, and four entries of each client: its login, two grants and its logout.
const ENTRIES: usize = 12;

/// How many policy commands each of them gives in its session.
const GIVEN: usize = 3;

/// The receipts that a seat keeps after it served a client: each of the client's lines adds an
/// entry.
const RECEIPTS: usize = 7;

/// The least that a seat has seen after it served a client: the opening entries and that client's.
const LEAST_SEEN: u64 = 8;

/// Two workers serve two clients, each on a slot of its own. The one that reads first waits until
/// the other has answered. Then the server is closed; for each of its entries a seat has the
/// receipt.
fn serve_two<B: BoardName + Send + Sync, R: Threads + Wait + Abort + Clock + Sync>(
    rt: &R,
    alloc: Global,
    fresh: FreshList,
) -> Histories
    requires { fresh.seen.book ≡ B.book }
{
    let Server {
        board,
        seats,
        table,
    } = open::<B, R>(rt, alloc, fresh, 2);
    let clients = [Client::new(ON_SLOT_0), Client::new(ON_SLOT_1)];
    let meeting = Meeting::new(rt);
    let source = Clients {
        clients: &clients,
        meeting: &meeting,
    };
    let served = run_workers(rt, alloc, &table, &board, seats, &source, 1)
        .ok()
        .expect(rt, "room for two workers");
    assert!(rt; meeting.is_met());
    assert!(rt; served.all_taken);
    // Each client has one connection: there is none for a second turn.
    let back = run_workers(rt, alloc, &table, &board, served.seats, &source, 1)
        .ok()
        .expect(rt, "room for two workers");
    assert!(rt; !back.all_taken);
    let seats = back.seats;
    assert_eq!(rt; seats.len(), 2);
    for seat in &seats {
        assert!(rt; seat.seen() >= LEAST_SEEN);
        assert_eq!(rt; seat.receipts().len(), RECEIPTS);
    }
    for client in &clients {
        assert!(rt; client.is_closed());
        assert_eq!(rt; client.counts(), (LINES, 0));
    }
    table
        .close(rt, alloc, board, seats)
        .ok()
        .expect(rt, "histories")
}

/// The journal is that of a load and two steps. Answers their session.
fn session_of<R: Abort>(rt: &R, journal: &Journal) -> u16 {
    match journal.entries() {
        [
            SlotEntry {
                stamp: loaded,
                done: Move::Load(_),
            },
            SlotEntry {
                stamp: first,
                done: Move::Step(_),
            },
            SlotEntry {
                stamp: second,
                done: Move::Step(_),
            },
        ] => {
            assert_eq!(rt; loaded.session, first.session);
            assert_eq!(rt; first.session, second.session);
            Some(loaded.session)
        }
        _ => None,
    }
    .expect(rt, "a load and two steps")
}

/// How many entries of the policy list this session gave.
fn given_by(policy: &PolicyJournal, session: u16) -> usize {
    policy
        .entries()
        .iter()
        .filter(|entry| entry.session == Some(SessionId::new(session)))
        .count()
}

/// A worker that waits for its client holds up nobody, each worker serves its own client, and the
/// histories are what the two clients did.
#[test]
fn two_at_once(rt: HostRuntime) -> Result<(), Fail> {
    let Histories { policy, slots } = serve_two::<Brand, _>(&rt, rt.alloc(), FreshList::new());
    assert_eq!(rt; policy.len(), ENTRIES);
    let [first, second, ..] = &slots;
    let sessions = (session_of(&rt, first), session_of(&rt, second));
    assert!(rt; sessions == (1, 2) || sessions == (2, 1));
    assert_eq!(rt; given_by(&policy, 1), GIVEN);
    assert_eq!(rt; given_by(&policy, 2), GIVEN);
    assert!(rt; slots.iter().skip(2).all(|journal| journal.len() == 0));
    Ok(())
}
