//! What examples ask of a board, and refusals.
use crate::board::playing::{Example, play};
use policy_board::board::Board;
use policy_board::board_list::FreshList;
use policy_board::board_name::BoardName;
use policy_board::refusal::BoardRefusal;
use policy_board::seat::{Acceptance, Seat};
use rbac_admin::refusal::PolicyRefusal;
use rbac_policy::commands::{AdminCommand, SessionId};
use rbac_policy::names::{Name, RoleNames};
use rbac_policy::objects::{Object, Operation};
use server_mistakes::{boards, seats};
use std::alloc::{AllocError, Global};
use std::marker::Brand;
use std::process::Abort;
use std::sync::Wait;

/// A login of root, in its role.
pub(crate) fn login(alloc: Global) -> Result<AdminCommand, AllocError> {
    let roles = RoleNames::from_vec(vec![in alloc; Name::root()]?)?;
    Ok(AdminCommand::CreateSession {
        user: Name::root(),
        roles,
    })
}

/// The permission to audit the policy, which role root doesn't have at the start.
pub(crate) fn grant() -> AdminCommand {
    AdminCommand::GrantPermission {
        role: Name::root(),
        operation: Operation::Audit,
        object: Object::Policy,
    }
}

pub(crate) fn revoke() -> AdminCommand {
    AdminCommand::RevokePermission {
        role: Name::root(),
        operation: Operation::Audit,
        object: Object::Policy,
    }
}

/// The session that is made first.
pub(crate) fn first() -> SessionId {
    SessionId::new(1)
}

/// Whether the first session may audit the policy, as this seat reads it.
pub(crate) fn may_audit<B: BoardName>(
    board: &Board<B>,
    seat: &mut Seat<B>,
) -> Result<bool, BoardRefusal> {
    boards::check_access(board, seat, first(), Operation::Audit, &Object::Policy)
}

/// Logs root in, whose session is the first.
pub(crate) fn enter<B: BoardName, R: Wait + Abort>(
    rt: &R,
    alloc: Global,
    board: &Board<B>,
    seat: &mut Seat<B>,
) {
    let command = login(alloc).expect(rt, "room");
    let receipt = boards::admin(rt, board, seat, None, command)
        .ok()
        .expect(rt, "a receipt");
    assert!(rt; receipt.version() == 5 && seats::session_of(&receipt) == Some(first()));
}

/// The receipt of a command that the first session gives, and that is accepted.
pub(crate) fn give<B: BoardName, R: Wait + Abort>(
    rt: &R,
    board: &Board<B>,
    seat: &mut Seat<B>,
    command: AdminCommand,
) -> Acceptance<B> {
    boards::admin(rt, board, seat, Some(first()), command)
        .ok()
        .expect(rt, "a receipt")
}

/// Why a command that the first session gives is refused, if it is.
pub(crate) fn refusal<B: BoardName, R: Wait>(
    rt: &R,
    board: &Board<B>,
    seat: &mut Seat<B>,
    command: AdminCommand,
) -> Option<BoardRefusal> {
    boards::admin(rt, board, seat, Some(first()), command).err()
}

/// Logs root in, and grants.
pub(crate) fn grant_once<B: BoardName, R: Wait + Abort>(
    rt: &R,
    alloc: Global,
    board: &Board<B>,
    seat: &mut Seat<B>,
) -> Acceptance<B> {
    enter(rt, alloc, board, seat);
    give(rt, board, seat, grant())
}

/// Refusals, which leave the list.
pub(crate) fn refuse<B: BoardName, R: Wait + Abort>(
    rt: &R,
    alloc: Global,
    board: &Board<B>,
    seat: &mut Seat<B>,
    other: &mut Seat<B>,
) {
    assert!(rt; seat.seen() == 0);
    let early = refusal(rt, board, seat, grant());
    assert!(rt; matches!(early, Some(BoardRefusal::Policy(PolicyRefusal::NoSession))));
    assert!(rt; seat.seen() == 4);
    grant_once(rt, alloc, board, seat);
    let twice = refusal(rt, board, seat, grant());
    assert!(rt;
        matches!(
            twice,
            Some(BoardRefusal::Policy(PolicyRefusal::AlreadyGranted))
        )
    );
    seat.note_version(7);
    let behind = may_audit(board, seat);
    assert!(rt; matches!(behind, Err(BoardRefusal::Behind { found: 6, seen: 7 })));
    assert!(rt; seat.seen() == 7);
    assert!(rt; matches!(may_audit(board, other), Ok(true)));
}

#[test]
fn refusals_leave_the_list(rt: HostRuntime) {
    let left = play::<Brand, _>(&rt, rt.alloc(), FreshList::new(), Example::Refused);
    assert!(rt; left == (6, 2));
}
