//! A revocation that is answered in one thread, and obeyed in another that was told of it.
ghost use Rattle.std.specs.Prelude.{◌≡◌};

use crate::threads::asking::{INPUT, begin, enter, grant, name, order, revoke, root};
use crate::threads::lending::{Lends, assert_send};
use crate::threads::server::{Server, open};
use access_core::command::SlotCommand;
use access_core::refusal::Refusal;
use access_core::reply::{Added, Reply};
use audit_report::audit::audit_journals;
use est_text::identifier::Identifier;
use policy_board::board::Board;
use policy_board::board_list::FreshList;
use policy_board::board_name::BoardName;
use policy_board::reader::IdleReader;
use policy_board::seat::{Acceptance, Seat};
use policy_board::sharing::boards_are_shared;
use rbac_admin::refusal::PolicyRefusal;
use rbac_policy::commands::{AdminCommand, SessionId};
use rbac_policy::names::Name;
use rbac_policy::objects::{Object, Operation, SlotNumber};
use reactor_core::entry::{Move, SlotEntry, SlotWord};
use slot_table::closing::Histories;
use slot_table::table::SlotTable;
use std::alloc::Global;
use std::marker::Brand;
use std::process::Abort;
use std::sync::Wait;
use std::test::Fail;
use std::thread::{Threads, join};

/// How many commands each of two threads gives while the policy is changed.
const COMMANDS: u32 = 3;

/// What a policy opens with, and what is given before the first round: root's login and two grants,
/// a user, a role, its assignment, and a login.
const BEFORE: usize = 4 + 3 + 3 + 1;

/// Who is served: root, who changes the policy; ann, whose permission is given and taken; and one
/// more client of root's session.
struct Seats<B: BoardName> {
    giver: Seat<B>,
    asker: Seat<B>,
    third: Seat<B>,
}

/// The session that ann logs in with, the second of all.
fn ann() -> SessionId {
    SessionId::new(2)
}

/// A module runs in slot 0, and ann is logged in as a driver, who may do nothing yet.
fn prepare<B: BoardName, R: Wait + Abort>(
    rt: &R,
    alloc: Global,
    board: &Board<B>,
    table: &SlotTable<B>,
    seats: &mut Seats<B>,
) {
    let (user, role, first) = (name(rt, "ann"), name(rt, "driver"), Name::root());
    let giver = &mut seats.giver;
    enter(rt, alloc, board, giver, first, first);
    begin(rt, alloc, board, table, giver, 0);
    order(rt, board, giver, AdminCommand::AddUser { user });
    order(rt, board, giver, AdminCommand::AddRole { role });
    order(rt, board, giver, AdminCommand::AssignUser { user, role });
    let session = enter(rt, alloc, board, &mut seats.asker, user, role);
    assert_eq!(rt; session, ann());
}

/// The input of the module in slot 0.
fn input<R: Abort>(rt: &R) -> Object {
    let slot = SlotNumber::new(0).expect(rt, "a slot");
    Object::Signal(slot, Identifier::from_text(INPUT).expect(rt, "a name"))
}

/// What ann is answered to an offer of the input.
fn offer<B: BoardName, R: Wait + Abort>(
    rt: &R,
    board: &Board<B>,
    table: &SlotTable<B>,
    seat: &mut Seat<B>,
) -> Reply {
    let signal = Identifier::from_text(INPUT).expect(rt, "a name");
    let command = SlotCommand::Move(Move::Offer(signal));
    table.command(rt, board, seat, ann(), 0, command)
}

/// Whether ann may offer the input, as her seat is told.
fn may_offer<B: BoardName, R: Abort>(rt: &R, board: &Board<B>, seat: &mut Seat<B>) -> bool {
    board
        .check_access(seat, ann(), Operation::Offer, &input(rt))
        .ok()
        .expect(rt, "an answer")
}

/// Ann asks whether she may offer, and offers, as far as she may. What her seat has seen never
/// falls.
fn offer_on<B: BoardName, R: Wait + Abort>(
    rt: &R,
    board: &Board<B>,
    table: &SlotTable<B>,
    mut seat: Seat<B>,
) -> Seat<B> {
    for _ in 0..COMMANDS {
        let before = seat.seen();
        may_offer(rt, board, &mut seat);
        offer(rt, board, table, &mut seat);
        assert!(rt; before <= seat.seen());
    }
    seat
}

/// Root steps slot 0. What its seat has seen never falls.
fn step_on<B: BoardName, R: Wait + Abort>(
    rt: &R,
    board: &Board<B>,
    table: &SlotTable<B>,
    mut seat: Seat<B>,
) -> Seat<B> {
    for _ in 0..COMMANDS {
        let before = seat.seen();
        let reply = table.command(
            rt,
            board,
            &mut seat,
            root(),
            0,
            SlotCommand::Move(Move::Step(())),
        );
        assert!(rt;
            matches!(
                reply,
                Reply::Added(Added {
                    word: SlotWord::Step,
                    ..
                })
            )
        );
        assert!(rt; before <= seat.seen());
    }
    seat
}

/// Root gives the command, and hands its receipt over.
fn change<B: BoardName, R: Wait + Abort>(
    rt: &R,
    board: &Board<B>,
    mut seat: Seat<B>,
    command: AdminCommand,
) -> (Seat<B>, Acceptance<B>) {
    let receipt = order(rt, board, &mut seat, command);
    (seat, receipt)
}

/// Root gives the command in a thread of its own, while ann offers in a second one, and a third
/// steps. When they have joined, ann is told. It answers the version, too.
fn change_at_once<
    B: BoardName + Send + Sync,
    T: Lends<SlotTable<B>> + Sync,
    R: Threads + Wait + Abort + Sync,
>(rt: &R, board: &Board<B>, table: &T, seats: Seats<B>, command: AdminCommand) -> (Seats<B>, u64) {
    let Seats {
        giver,
        asker,
        third,
    } = seats;
    boards_are_shared::<B>();
    let ((giver, receipt), (mut asker, third)) = join(
        rt,
        || change(rt, board, giver, command),
        || {
            boards_are_shared::<B>();
            join(
                rt,
                || offer_on(rt, board, table.lent(), asker),
                || step_on(rt, board, table.lent(), third),
            )
        },
    );
    let version = receipt.version();
    asker.learn(receipt);
    let seats = Seats {
        giver,
        asker,
        third,
    };
    (seats, version)
}

/// Ann is told of a grant, and then of a revocation: she may offer the input, and her next offer is
/// accepted; then she may not, and it is refused.
fn play_round<
    B: BoardName + Send + Sync,
    T: Lends<SlotTable<B>> + Sync,
    R: Threads + Wait + Abort + Sync,
>(rt: &R, board: &Board<B>, table: &T, seats: Seats<B>) -> Seats<B> {
    let role = name(rt, "driver");
    let granted = grant(role, Operation::Offer, input(rt));
    let (seats, told) = change_at_once(rt, board, table, seats, granted);
    let Seats {
        giver,
        mut asker,
        third,
    } = seats;
    // What she offered meanwhile is pending no longer.
    let third = step_on(rt, board, table.lent(), third);
    assert!(rt; may_offer(rt, board, &mut asker));
    let reply = offer(rt, board, table.lent(), &mut asker);
    let added = match reply {
        Reply::Added(added) => added.word == SlotWord::Offer && added.version == told,
        _ => false,
    };
    assert!(rt; added);
    let seats = Seats {
        giver,
        asker,
        third,
    };
    let revoked = revoke(role, Operation::Offer, input(rt));
    let (mut seats, told) = change_at_once(rt, board, table, seats, revoked);
    assert!(rt; !may_offer(rt, board, &mut seats.asker));
    let reply = offer(rt, board, table.lent(), &mut seats.asker);
    assert!(rt;
        matches!(
            reply,
            Reply::Refused(Refusal::Policy(PolicyRefusal::Permission {
                operation: Operation::Offer,
                object: Object::Signal(..),
            }))
        )
    );
    assert_eq!(rt; seats.asker.seen(), told);
    seats
}

/// Plays n rounds; then root removes ann, and she has no session any more.
fn play<
    B: BoardName + Send + Sync,
    T: Lends<SlotTable<B>> + Sync,
    R: Threads + Wait + Abort + Sync,
>(rt: &R, board: &Board<B>, table: &T, seats: Seats<B>, rounds: u32) -> Seats<B> {
    let mut seats = seats;
    for _ in 0..rounds {
        seats = play_round(rt, board, table, seats);
    }
    let removed = AdminCommand::DeleteUser {
        user: name(rt, "ann"),
    };
    let (mut seats, told) = change_at_once(rt, board, table, seats, removed);
    let reply = offer(rt, board, table.lent(), &mut seats.asker);
    assert!(rt;
        matches!(
            reply,
            Reply::Refused(Refusal::Policy(PolicyRefusal::NoSession))
        )
    );
    assert_eq!(rt; seats.asker.seen(), told);
    seats
}

/// How many of the entries are offers of ann.
fn offers_of_ann(entries: &[SlotEntry]) -> usize {
    entries
        .iter()
        .filter(|entry| {
            entry.stamp.session == ann().number() && matches!(entry.done, Move::Offer(_))
        })
        .count()
}

/// After n rounds the server is closed, and an audit finds nothing in its histories. Ann's offers
/// are in the slot's journal, though she is gone.
fn serve<B: BoardName + Send + Sync, R: Threads + Wait + Abort + Sync>(
    rt: &R,
    alloc: Global,
    fresh: FreshList,
    rounds: u32,
) -> Histories
    requires { fresh.seen.book ≡ B.book }
{
    let Server {
        board,
        mut seats,
        table,
    } = open::<B, R>(rt, alloc, fresh, 3);
    let mut seats = Seats {
        giver: seats.pop().expect(rt, "a seat"),
        asker: seats.pop().expect(rt, "a seat"),
        third: seats.pop().expect(rt, "a seat"),
    };
    prepare(rt, alloc, &board, &table, &mut seats);
    assert_send::<IdleReader<B>>();
    let Seats {
        giver,
        asker,
        third,
    } = play(rt, &board, &table, seats, rounds);
    let seats = vec![in alloc; giver, asker, third].ok().expect(rt, "room");
    let histories = table
        .close(rt, alloc, board, seats)
        .ok()
        .expect(rt, "histories");
    assert!(rt; audit_journals(alloc, &histories.policy, &histories.slots).is_ok());
    assert!(rt; offers_of_ann(histories.slots[0].entries()) >= rounds as usize);
    histories
}

/// An offer that is refused, since its permission was taken, or its session ended, in another
/// thread.
#[test]
fn revoked_is_denied(rt: HostRuntime) -> Result<(), Fail> {
    let histories = serve::<Brand, _>(&rt, rt.alloc(), FreshList::new(), 1);
    assert_eq!(rt; histories.policy.len(), BEFORE + 3);
    Ok(())
}

/// The same a thousand times.
#[test]
fn revoked_is_denied_a_thousand_times(rt: HostRuntime) -> Result<(), Fail> {
    let histories = serve::<Brand, _>(&rt, rt.alloc(), FreshList::new(), 1000);
    assert_eq!(rt; histories.policy.len(), BEFORE + 2001);
    Ok(())
}
