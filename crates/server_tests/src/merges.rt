//! What journals and receipts say of each other.
use crate::audit::journals::{journals_of, stamped, stepped};
use est_text::identifier::Identifier;
use history_merge::compare::compare;
use history_receipts::mismatch::{Mismatch, POLICY_LIST};
use history_receipts::receipt::{Kept, SlotReceipt};
use history_receipts::receipt_list::Receipts;
use rbac_policy::commands::{AdminCommand, Entry, SessionId};
use rbac_policy::names::Name;
use rbac_policy::opening::opening_entries;
use reactor_core::entry::{Move, SlotWord};
use reactor_core::journal::Journal;
use std::alloc::Global;
use std::process::Abort;

/// A receipt of a command of session 1.
#[derive(Clone, Copy)]
enum Row {
    /// The user root is added, at this version.
    Adds(u64),
    /// The user root is deleted, at this version.
    Deletes(u64),
    /// The signal is offered to slot 2: the place, the version and the number.
    Offers(&'static str, u64, u64, u64),
    /// Slot 3 is stepped at version 6, with this number.
    Steps(u64),
}

/// What three seats keep, and what is found.
type Case = ([&'static [Row]; 3], Result<(), Mismatch>);

/// The commands on slot 2.
const FIRST: Row = Row::Offers("A", 1, 5, 2);

const SECOND: Row = Row::Offers("B", 2, 6, 4);

/// What seat 0 keeps where there is no fault: the fifth policy entry, and the commands on slot 2.
const LOW: &[Row] = &[Row::Adds(5), FIRST, SECOND];

/// What seat 1 keeps where there is no fault: the sixth policy entry, and the command on slot 3.
const HIGH: &[Row] = &[Row::Deletes(6), Row::Steps(1)];

/// A policy entry of session 1, by which the user root is added, or deleted.
fn entry(is_added: bool) -> Entry {
    let user = Name::root();
    Entry {
        session: Some(SessionId::new(1)),
        command: if is_added {
            AdminCommand::AddUser { user }
        } else {
            AdminCommand::DeleteUser { user }
        },
    }
}

fn identifier(rt: &impl Abort, text: &str) -> Identifier {
    Identifier::from_text(text).expect(rt, "a name")
}

/// The receipt of a command on a slot.
fn on_slot(
    slot: u64,
    (place, version, number): (u64, u64, u64),
    word: SlotWord,
    signal: Option<Identifier>,
) -> Kept {
    Kept::Slot(SlotReceipt {
        slot,
        place,
        version,
        session: 1,
        number,
        word,
        signal,
    })
}

/// The receipt of a row.
fn kept(rt: &impl Abort, row: Row) -> Kept {
    match row {
        Row::Adds(version) => Kept::Admin {
            version,
            entry: entry(true),
        },
        Row::Deletes(version) => Kept::Admin {
            version,
            entry: entry(false),
        },
        Row::Offers(signal, place, version, number) => on_slot(
            2,
            (place, version, number),
            SlotWord::Offer,
            Some(identifier(rt, signal)),
        ),
        Row::Steps(number) => on_slot(3, (1, 6, number), SlotWord::Step, None),
    }
}

/// The receipts of the rows.
fn receipts(rt: &impl Abort, alloc: Global, rows: &[Row]) -> Receipts {
    let mut receipts = Vec::new(alloc);
    for row in rows {
        receipts.push(kept(rt, *row)).expect(rt, "room");
    }
    Receipts::from_vec(receipts)
}

/// What is found where three seats keep these.
fn find(
    rt: &impl Abort,
    alloc: Global,
    policy: &[Entry],
    journals: &[Journal; 16],
    [first, second, third]: [&[Row]; 3],
) -> Result<(), Mismatch> {
    let seats = [
        receipts(rt, alloc, first),
        receipts(rt, alloc, second),
        receipts(rt, alloc, third),
    ];
    compare(policy, journals, &seats)
}

/// The policy list: root is added once more, and deleted.
fn policy(rt: &impl Abort, alloc: Global) -> Vec<Entry> {
    let mut policy = Vec::from_array(alloc, opening_entries()).expect(rt, "room");
    policy.push(entry(true)).expect(rt, "room");
    policy.push(entry(false)).expect(rt, "room");
    policy
}

/// Slot 3 reads version 6 and draws number 1, while slot 2, which read version 5 before, waits and
/// draws number 2. Then slot 2 reads version 6, and draws number 4.
fn journals(rt: &impl Abort, alloc: Global) -> [Journal; 16] {
    let (a, b) = (identifier(rt, "A"), identifier(rt, "B"));
    let two = vec![in alloc;
        stamped(5, 1, Move::Offer(a)),
        stamped(6, 1, Move::Offer(b)),
    ];
    let three = vec![in alloc; stamped(6, 1, stepped(0, 0))];
    let two = (2, two.expect(rt, "room"));
    journals_of(rt, alloc, two, (3, three.expect(rt, "room")))
}

/// In each case what its row says is found.
fn find_each(rt: &impl Abort, alloc: Global, cases: &[Case]) {
    let policy = policy(rt, alloc);
    let journals = journals(rt, alloc);
    for (seats, found) in cases {
        let answer = find(rt, alloc, policy.as_slice(), &journals, *seats);
        assert_eq!(rt; answer, *found);
    }
}

/// What seat 0 keeps where its receipt of the second command on slot 2 tells another signal, and
/// where it has the number of the one before it.
const OTHER_SIGNAL: &[Row] = &[Row::Adds(5), FIRST, Row::Offers("A", 2, 6, 4)];

const SAME_NUMBER: &[Row] = &[Row::Adds(5), FIRST, Row::Offers("B", 2, 6, 2)];

/// What seat 0 keeps where it keeps the command on slot 3 too, whose number is lower than that of
/// the command before.
const FALLING: &[Row] = &[Row::Adds(5), FIRST, Row::Steps(1), SECOND];

/// What seat 1 keeps where it keeps the second command on slot 2 too.
const TWO_RECEIPTS: &[Row] = &[Row::Deletes(6), Row::Steps(1), Row::Offers("B", 2, 6, 5)];

/// What seat 1 keeps where its receipt of the last policy entry tells the entry before it.
const OTHER_ENTRY: &[Row] = &[Row::Adds(6), Row::Steps(1)];

/// The receipts fit; the second command on slot 2 has none; its receipt tells another signal; it
/// has the number of the one before it; one seat's numbers fall; a command has two receipts; of the
/// last policy entry nobody keeps one, two seats do, or the receipt tells another entry.
const CASES: &[Case] = &[
    ([LOW, HIGH, &[]], Ok(())),
    (
        [&[Row::Adds(5), FIRST], HIGH, &[]],
        Err(Mismatch::Count { slot: 2 }),
    ),
    (
        [OTHER_SIGNAL, HIGH, &[]],
        Err(Mismatch::Receipt {
            seat: 0,
            slot: 2,
            place: 2,
        }),
    ),
    (
        [SAME_NUMBER, HIGH, &[]],
        Err(Mismatch::Receipt {
            seat: 0,
            slot: 2,
            place: 2,
        }),
    ),
    (
        [FALLING, &[Row::Deletes(6)], &[]],
        Err(Mismatch::Receipt {
            seat: 0,
            slot: 3,
            place: 1,
        }),
    ),
    (
        [LOW, TWO_RECEIPTS, &[]],
        Err(Mismatch::Receipt {
            seat: 1,
            slot: 2,
            place: 2,
        }),
    ),
    (
        [LOW, &[Row::Steps(1)], &[]],
        Err(Mismatch::Count { slot: POLICY_LIST }),
    ),
    (
        [LOW, HIGH, &[Row::Deletes(6)]],
        Err(Mismatch::Receipt {
            seat: 2,
            slot: POLICY_LIST,
            place: 6,
        }),
    ),
    (
        [LOW, OTHER_ENTRY, &[]],
        Err(Mismatch::Receipt {
            seat: 1,
            slot: POLICY_LIST,
            place: 6,
        }),
    ),
];

#[test]
fn journals_and_receipts(rt: HostRuntime) {
    find_each(&rt, rt.alloc(), CASES);
}
