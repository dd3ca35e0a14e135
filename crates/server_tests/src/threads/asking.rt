//! Commands to a board and to its slots, and what is answered.

use access_core::command::SlotCommand;
use access_core::reply::{Added, Reply};
use est_text::identifier::Identifier;
use policy_board::board::Board;
use policy_board::board_name::BoardName;
use policy_board::seat::{Acceptance, Seat};
use rbac_policy::commands::{AdminCommand, SessionId};
use rbac_policy::names::{Name, RoleNames};
use rbac_policy::objects::{Object, Operation, SlotNumber};
use reactor_core::entry::{Load, Move, SlotWord};
use reactor_core::text::Text;
use slot_table::table::SlotTable;
use std::alloc::{AllocError, Global};
use std::process::Abort;
use std::sync::Wait;

/// An output in the first instant, and an input that nothing asks for.
const ONCE: &str = "module M: input A; output O; emit O end module";

/// The input.
pub(crate) const INPUT: &str = "A";

/// The session that root logs in with, the first of all.
pub(crate) fn root() -> SessionId {
    SessionId::new(1)
}

/// The name of a user or of a role.
pub(crate) fn name<R: Abort>(rt: &R, text: &str) -> Name {
    Name::from_bytes(text.as_bytes()).expect(rt, "a name")
}

/// A login of the user, in this role.
fn login(alloc: Global, user: Name, role: Name) -> Result<AdminCommand, AllocError> {
    let roles = RoleNames::from_vec(vec![in alloc; role]?)?;
    Ok(AdminCommand::CreateSession { user, roles })
}

/// The permission for the operation on the object, given to the role.
pub(crate) fn grant(role: Name, operation: Operation, object: Object) -> AdminCommand {
    AdminCommand::GrantPermission {
        role,
        operation,
        object,
    }
}

/// The permission for the operation on the object, taken from the role.
pub(crate) fn revoke(role: Name, operation: Operation, object: Object) -> AdminCommand {
    AdminCommand::RevokePermission {
        role,
        operation,
        object,
    }
}

/// A policy command, which is accepted.
fn give<B: BoardName, R: Wait + Abort>(
    rt: &R,
    board: &Board<B>,
    seat: &mut Seat<B>,
    session: Option<SessionId>,
    command: AdminCommand,
) -> Acceptance<B> {
    board
        .admin(rt, seat, session, command)
        .ok()
        .expect(rt, "a receipt")
}

/// A policy command of root, which is accepted.
pub(crate) fn order<B: BoardName, R: Wait + Abort>(
    rt: &R,
    board: &Board<B>,
    seat: &mut Seat<B>,
    command: AdminCommand,
) -> Acceptance<B> {
    give(rt, board, seat, Some(root()), command)
}

/// Logs the user in, in this role, and answers the session.
pub(crate) fn enter<B: BoardName, R: Wait + Abort>(
    rt: &R,
    alloc: Global,
    board: &Board<B>,
    seat: &mut Seat<B>,
    user: Name,
    role: Name,
) -> SessionId {
    let command = login(alloc, user, role).ok().expect(rt, "room");
    give(rt, board, seat, None, command)
        .session()
        .expect(rt, "a session")
}

/// Grants root loads and steps of the slot, and loads the module there: the first entry of the
/// slot.
pub(crate) fn begin<B: BoardName, R: Wait + Abort>(
    rt: &R,
    alloc: Global,
    board: &Board<B>,
    table: &SlotTable<B>,
    seat: &mut Seat<B>,
    number: u8,
) {
    let slot = SlotNumber::new(number).expect(rt, "a slot");
    for operation in [Operation::Load, Operation::Step] {
        order(
            rt,
            board,
            seat,
            grant(Name::root(), operation, Object::Slot(slot)),
        );
    }
    let load = SlotCommand::Move(Move::Load(Load {
        main: Identifier::from_text("M").expect(rt, "a name"),
        text: Text::copied(alloc, ONCE).ok().expect(rt, "room"),
    }));
    let reply = table.command(rt, board, seat, root(), u64::from(number), load);
    assert!(rt;
        matches!(
            reply,
            Reply::Added(Added {
                word: SlotWord::Load,
                place: 1,
                ..
            })
        )
    );
}
