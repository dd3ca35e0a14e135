//! Steps on one table.
ghost use Rattle.std.specs.Prelude.{◌≡◌, ◌<◌, ◌==◌, ◌&&◌, IfSome, map, position, is_none};
ghost use Rattle.std.specs.List.{list_any};
ghost use Rattle.std.specs.Option.{ForSome};
ghost use Rattle.rbac_policy.specs.Tables.{first_of, grant_given, grant_is, grant_of, grants_given};
ghost use Rattle.rbac_policy.specs.Tables.{has_only_authorized, mask_of, place_of, put_free};
ghost use Rattle.rbac_policy.specs.Tables.{role_is, roles_of, session_of, session_kept};
ghost use Rattle.rbac_policy.specs.Tables.{session_without, user_assigned, user_is};
ghost use Rattle.rbac_policy.specs.Tables.{with_found_place, grant_cleared, grant_revoked};
ghost use Rattle.rbac_policy.specs.Tables.{grant_with, session_activated, session_of_other};
ghost use Rattle.rbac_policy.specs.Tables.{session_dropped, set_without, user_cleared};
ghost use Rattle.rbac_policy.specs.Tables.{user_deassigned, user_without};

use crate::below::below;
use crate::commands::SessionId;
use crate::names::{Name, RoleNames};
use crate::objects::{Object, Operation};
use crate::rows::{DsdSet, Grant, Session, User};
use crate::sizes::{GRANTS, ROLES, SESSIONS, SETS, USERS};
use rbac_closure::hierarchy::RoleHierarchy;
use rbac_closure::role_sets::RoleSet;

/// The first free place of a table.
pub fn free<X, const N: usize>(rows: &[Option<X>; N]) -> Option<usize>
    ensures { result ≡ position is_none rows.now }
{
    rows.iter().position(|row| row.is_none())
}

/// Puts the value into the first free place of a table, if there is one.
pub fn put<X: Copy, const N: usize>(rows: &mut [Option<X>; N], value: X)
    ensures { rows.new ≡ put_free value rows.old }
{
    if let Some(place) = free(rows) {
        rows[place] = Some(value);
    }
}

fn user_is(row: &Option<User>, name: &Name) -> bool
    ensures { result ≡ user_is name.now row.now }
{
    match row {
        Some(user) => user.name == *name,
        None => false,
    }
}

fn role_is(row: &Option<Name>, name: &Name) -> bool
    ensures { result ≡ role_is name.now row.now }
{
    match row {
        Some(role) => role == name,
        None => false,
    }
}

/// Whether there is such a user.
pub fn has_user(users: &[Option<User>; USERS], name: &Name) -> bool
    ensures { result ≡ list_any (user_is name.now) users.now }
{
    users.iter().any(|row| user_is(row, name))
}

/// The place of the role.
pub fn place_of(roles: &[Option<Name>; ROLES], name: &Name) -> Option<usize>
    ensures place { result ≡ place_of name.now roles.now }
    ensures below { IfSome result (λ p. p < ROLES) }
{
    roles.iter().position(|row| role_is(row, name))
}

fn user_assigned(row: &Option<User>, name: &Name, place: usize) -> Option<User>
    requires { place < ROLES }
    ensures { result ≡ user_assigned name.now place row.now }
{
    match row {
        Some(user) if user.name == *name => Some(User {
            name: user.name,
            roles: user.roles.with(place),
        }),
        _ => *row,
    }
}

/// Assigns the role at this place to the user.
pub fn assign_role(users: &mut [Option<User>; USERS], name: &Name, place: usize)
    requires { place < ROLES }
    ensures { users.new ≡ map (user_assigned name.now place) users.old }
{
    for at in 0..USERS {
        users[at] = user_assigned(&users[at], name, place);
    }
}

fn user_deassigned(row: &Option<User>, name: &Name, place: usize) -> Option<User>
    requires { place < ROLES }
    ensures { result ≡ user_deassigned name.now place row.now }
{
    match row {
        Some(user) if user.name == *name => Some(User {
            name: user.name,
            roles: user.roles.without(place),
        }),
        _ => *row,
    }
}

/// Takes the role at this place from the user.
pub fn deassign_role(users: &mut [Option<User>; USERS], name: &Name, place: usize)
    requires { place < ROLES }
    ensures { users.new ≡ map (user_deassigned name.now place) users.old }
{
    for at in 0..USERS {
        users[at] = user_deassigned(&users[at], name, place);
    }
}

fn user_cleared(row: &Option<User>, place: usize) -> Option<User>
    requires { place < ROLES }
    ensures { result ≡ user_cleared place row.now }
{
    match row {
        Some(user) => Some(User {
            name: user.name,
            roles: user.roles.without(place),
        }),
        None => None,
    }
}

/// Takes the role at this place from each user.
pub fn deassign_role_from_all(users: &mut [Option<User>; USERS], place: usize)
    requires { place < ROLES }
    ensures { users.new ≡ map (user_cleared place) users.old }
{
    for at in 0..USERS {
        users[at] = user_cleared(&users[at], place);
    }
}

fn user_without(row: &Option<User>, name: &Name) -> Option<User>
    ensures { result ≡ user_without name.now row.now }
{
    match row {
        Some(user) if user.name == *name => None,
        _ => *row,
    }
}

/// Removes the user, with its roles.
pub fn remove_user(users: &mut [Option<User>; USERS], name: &Name)
    ensures { users.new ≡ map (user_without name.now) users.old }
{
    for at in 0..USERS {
        users[at] = user_without(&users[at], name);
    }
}

/// The mask of the roles that are assigned to the user.
pub fn roles_of(users: &[Option<User>; USERS], name: &Name) -> RoleSet
    ensures { result ≡ roles_of name.now users.now }
{
    for row in users {
        if let Some(user) = row {
            if user.name == *name {
                return user.roles;
            }
        }
    }
    RoleSet::empty()
}

fn grant_is(row: &Option<Grant>, operation: &Operation, object: &Object) -> bool
    ensures { result ≡ grant_is operation.now object.now row.now }
{
    match row {
        Some(grant) => grant.operation == *operation && grant.object == *object,
        None => false,
    }
}

/// Whether the pair has a row.
pub fn has_grant(grants: &[Option<Grant>; GRANTS], operation: &Operation, object: &Object) -> bool
    ensures { result ≡ list_any (grant_is operation.now object.now) grants.now }
{
    grants.iter().any(|row| grant_is(row, operation, object))
}

fn grant_given(
    row: &Option<Grant>,
    operation: &Operation,
    object: &Object,
    place: usize,
) -> Option<Grant>
    requires { place < ROLES }
    ensures { result ≡ grant_given operation.now object.now place row.now }
{
    match row {
        Some(grant) if grant.operation == *operation && grant.object == *object => Some(Grant {
            operation: grant.operation,
            object: grant.object,
            roles: grant.roles.with(place),
        }),
        _ => *row,
    }
}

fn widen_grants(
    grants: &mut [Option<Grant>; GRANTS],
    operation: &Operation,
    object: &Object,
    place: usize,
)
    requires { place < ROLES }
    ensures { grants.new ≡ map (grant_given operation.now object.now place) grants.old }
{
    for at in 0..GRANTS {
        grants[at] = grant_given(&grants[at], operation, object, place);
    }
}

/// Grants the pair to the role at this place: in the row of the pair, or else in the first free
/// place, if there is one.
pub fn give_grant(
    grants: &mut [Option<Grant>; GRANTS],
    operation: &Operation,
    object: &Object,
    place: usize,
)
    requires { place < ROLES }
    ensures { grants.new ≡ grants_given operation.now object.now place grants.old }
{
    if has_grant(grants, operation, object) {
        widen_grants(grants, operation, object, place);
    } else {
        let row = Grant {
            operation: *operation,
            object: *object,
            roles: RoleSet::empty().with(place),
        };
        put(grants, row);
    }
}

/// The row of the pair with these roles, if there are any.
fn grant_with(grant: &Grant, roles: RoleSet) -> Option<Grant>
    ensures { result ≡ grant_with grant.now roles }
{
    if roles == RoleSet::empty() {
        return None;
    }
    Some(Grant {
        operation: grant.operation,
        object: grant.object,
        roles,
    })
}

fn grant_revoked(
    row: &Option<Grant>,
    operation: &Operation,
    object: &Object,
    place: usize,
) -> Option<Grant>
    requires { place < ROLES }
    ensures { result ≡ grant_revoked operation.now object.now place row.now }
{
    match row {
        Some(grant) if grant.operation == *operation && grant.object == *object => {
            grant_with(grant, grant.roles.without(place))
        }
        _ => *row,
    }
}

/// Takes the pair from the role at this place. If no role has it any more, its place is free.
pub fn take_grant(
    grants: &mut [Option<Grant>; GRANTS],
    operation: &Operation,
    object: &Object,
    place: usize,
)
    requires { place < ROLES }
    ensures { grants.new ≡ map (grant_revoked operation.now object.now place) grants.old }
{
    for at in 0..GRANTS {
        grants[at] = grant_revoked(&grants[at], operation, object, place);
    }
}

fn grant_cleared(row: &Option<Grant>, place: usize) -> Option<Grant>
    requires { place < ROLES }
    ensures { result ≡ grant_cleared place row.now }
{
    match row {
        Some(grant) => grant_with(grant, grant.roles.without(place)),
        None => None,
    }
}

/// Takes each pair from the role at this place. If no role has a pair any more, its place is free.
pub fn take_all_grants(grants: &mut [Option<Grant>; GRANTS], place: usize)
    requires { place < ROLES }
    ensures { grants.new ≡ map (grant_cleared place) grants.old }
{
    for at in 0..GRANTS {
        grants[at] = grant_cleared(&grants[at], place);
    }
}

/// The row of the pair.
pub fn grant_of(
    grants: &[Option<Grant>; GRANTS],
    operation: &Operation,
    object: &Object,
) -> Option<Grant>
    ensures { result ≡ grant_of operation.now object.now grants.now }
{
    for row in grants {
        if let Some(grant) = row {
            if grant.operation == *operation && grant.object == *object {
                return Some(*grant);
            }
        }
    }
    None
}

/// Whether the user of the session is authorized for each role that is active in it: the role is
/// assigned to the user, or lies below one that is.
fn has_only_authorized(
    session: &Session,
    users: &[Option<User>; USERS],
    juniors: &RoleHierarchy,
) -> bool
    ensures { result ≡ has_only_authorized users.now juniors.now session.now }
{
    let authorized = below(juniors, roles_of(users, &session.user));
    session.active.union(authorized) == authorized
}

fn session_kept(
    row: &Option<Session>,
    users: &[Option<User>; USERS],
    juniors: &RoleHierarchy,
) -> Option<Session>
    ensures { result ≡ session_kept users.now juniors.now row.now }
{
    match row {
        Some(session) if has_only_authorized(session, users, juniors) => Some(*session),
        _ => None,
    }
}

/// Ends each session that has an active role for which its user is not authorized.
pub fn end_unauthorized(
    sessions: &mut [Option<Session>; SESSIONS],
    users: &[Option<User>; USERS],
    juniors: &RoleHierarchy,
)
    ensures { sessions.new ≡ map (session_kept users.now juniors.now) sessions.old }
{
    for at in 0..SESSIONS {
        sessions[at] = session_kept(&sessions[at], users, juniors);
    }
}

fn session_without(row: &Option<Session>, number: SessionId) -> Option<Session>
    ensures { result ≡ session_without number row.now }
{
    match row {
        Some(session) if session.number == number => None,
        _ => *row,
    }
}

/// Ends the session of this number.
pub fn end_session(sessions: &mut [Option<Session>; SESSIONS], number: SessionId)
    ensures { sessions.new ≡ map (session_without number) sessions.old }
{
    for at in 0..SESSIONS {
        sessions[at] = session_without(&sessions[at], number);
    }
}

fn session_of_other(row: &Option<Session>, user: &Name) -> Option<Session>
    ensures { result ≡ session_of_other user.now row.now }
{
    match row {
        Some(session) if session.user == *user => None,
        _ => *row,
    }
}

/// Ends the sessions of the user.
pub fn end_sessions_of(sessions: &mut [Option<Session>; SESSIONS], user: &Name)
    ensures { sessions.new ≡ map (session_of_other user.now) sessions.old }
{
    for at in 0..SESSIONS {
        sessions[at] = session_of_other(&sessions[at], user);
    }
}

fn session_activated(row: &Option<Session>, number: SessionId, place: usize) -> Option<Session>
    requires { place < ROLES }
    ensures { result ≡ session_activated number place row.now }
{
    match row {
        Some(session) if session.number == number => Some(Session {
            number: session.number,
            user: session.user,
            active: session.active.with(place),
        }),
        _ => *row,
    }
}

/// Makes the role at this place active in the session of this number.
pub fn activate(sessions: &mut [Option<Session>; SESSIONS], number: SessionId, place: usize)
    requires { place < ROLES }
    ensures { sessions.new ≡ map (session_activated number place) sessions.old }
{
    for at in 0..SESSIONS {
        sessions[at] = session_activated(&sessions[at], number, place);
    }
}

fn session_dropped(row: &Option<Session>, number: SessionId, place: usize) -> Option<Session>
    requires { place < ROLES }
    ensures { result ≡ session_dropped number place row.now }
{
    match row {
        Some(session) if session.number == number => Some(Session {
            number: session.number,
            user: session.user,
            active: session.active.without(place),
        }),
        _ => *row,
    }
}

/// Makes the role at this place inactive in the session of this number.
pub fn deactivate(sessions: &mut [Option<Session>; SESSIONS], number: SessionId, place: usize)
    requires { place < ROLES }
    ensures { sessions.new ≡ map (session_dropped number place) sessions.old }
{
    for at in 0..SESSIONS {
        sessions[at] = session_dropped(&sessions[at], number, place);
    }
}

fn set_without(row: &Option<DsdSet>, name: &Name) -> Option<DsdSet>
    ensures { result ≡ set_without name.now row.now }
{
    match row {
        Some(set) if set.name == *name => None,
        _ => *row,
    }
}

/// Removes the separation set.
pub fn remove_set(sets: &mut [Option<DsdSet>; SETS], name: &Name)
    ensures { sets.new ≡ map (set_without name.now) sets.old }
{
    for at in 0..SETS {
        sets[at] = set_without(&sets[at], name);
    }
}

/// The session of this number.
pub fn session_of(sessions: &[Option<Session>; SESSIONS], number: SessionId) -> Option<Session>
    ensures { result ≡ session_of number sessions.now }
{
    for row in sessions {
        if let Some(session) = row {
            if session.number == number {
                return Some(*session);
            }
        }
    }
    None
}

fn with_found_place(mask: RoleSet, place: Option<usize>) -> RoleSet
    requires { ForSome place (λ p. p < ROLES) }
    ensures { result ≡ with_found_place mask place }
{
    match place {
        Some(place) => mask.with(place),
        None => mask,
    }
}

/// The mask of the listed roles.
pub fn mask_of(roles: &[Option<Name>; ROLES], listed: &RoleNames) -> RoleSet
    ensures { result ≡ mask_of roles.now listed.now }
{
    let mut mask = RoleSet::empty();
    for name in listed.as_slice() {
        mask = with_found_place(mask, place_of(roles, name));
    }
    mask
}
