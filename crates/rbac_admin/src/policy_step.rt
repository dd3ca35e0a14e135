//! The answer to a policy command.
ghost use Rattle.std.specs.Prelude.{◌≡◌, List, Option, Err, Ok};
ghost use Rattle.rbac_policy.specs.declared.commands.Entry.{Entry};
ghost use Rattle.rbac_policy.specs.StandsFor.{StandsFor};
ghost use Rattle.refusal_rules.specs.Rules.{Answers, AllPass};
ghost use Rattle.rbac_admin.specs.Conditions.{IsGiven};
ghost use Rattle.rbac_admin.specs.PolicyStep.{Checks, PolicyStep, entry_of, session_rules};
ghost use Rattle.rbac_admin.specs.PolicyStep.{permission_rules, existence_rules, condition_rules};
ghost use Rattle.rbac_admin.specs.PolicyStep.{separation_rules, table_rules};

use crate::refusal::PolicyRefusal;
use crate::rules::{
    check_assigned, check_assignment_is_new, check_dsd_shape, check_edge_exists, check_edge_is_new,
    check_edge_separation, check_grant_is_new, check_granted, check_in_no_set,
    check_login_separation, check_may_administer, check_no_cycle, check_number_left,
    check_role_active, check_role_authorized, check_role_exists, check_role_inactive,
    check_role_is_new, check_role_separation, check_roles_authorized, check_roles_differ,
    check_roles_exist, check_room_for_grant, check_room_for_role, check_room_for_session,
    check_room_for_set, check_room_for_user, check_set_exists, check_set_is_new,
    check_set_separation, check_user_exists, check_user_is_new, find_living_session,
};
use rbac_policy::commands::{AdminCommand, Entry, SessionId};
use rbac_policy::policy::Policy;

/// The session that the command's entry names: the living session that gives it, and none for a
/// login. Refuses where that session does not live.
fn find_giver(
    policy: &Policy,
    session: Option<SessionId>,
    command: &AdminCommand,
) -> Result<Option<SessionId>, PolicyRefusal>
    ensures { (entries : List Entry) → StandsFor policy.now entries
        → Answers (session_rules entries session command.now) (λ refusal. result ≡ Err refusal)
        ((result ≡ Ok (entry_of session command.now).session)
        × IsGiven entries (entry_of session command.now)) }
{
    if command.is_login() {
        return Ok(None);
    }
    match find_living_session(policy, session) {
        Ok(session) => Ok(Some(session)),
        Err(refusal) => Err(refusal),
    }
}

/// Refuses an administrative command whose session may not administer the policy.
fn check_permission(policy: &Policy, entry: &Entry) -> Result<(), PolicyRefusal>
    ensures { (entries : List Entry) → StandsFor policy.now entries → IsGiven entries entry.now
        → Checks (permission_rules entries entry.now.session entry.now.command) result }
{
    match entry.session {
        Some(session) if entry.command.is_administrative() => check_may_administer(policy, session),
        Some(_) | None => Ok(()),
    }
}

/// Refuses a command that makes what is there already, or that names what is not there.
fn check_existence(policy: &Policy, command: &AdminCommand) -> Result<(), PolicyRefusal>
    ensures { (entries : List Entry) → StandsFor policy.now entries
        → Checks (existence_rules entries command.now) result }
{
    match command {
        AdminCommand::AddUser { user } => check_user_is_new(policy, user),
        AdminCommand::DeleteUser { user } => check_user_exists(policy, user),
        AdminCommand::AddRole { role } => check_role_is_new(policy, role),
        AdminCommand::DeleteRole { role }
        | AdminCommand::GrantPermission { role, .. }
        | AdminCommand::RevokePermission { role, .. }
        | AdminCommand::AddActiveRole { role }
        | AdminCommand::DropActiveRole { role } => check_role_exists(policy, role),
        AdminCommand::AssignUser { user, role } | AdminCommand::DeassignUser { user, role } => {
            check_user_exists(policy, user)?;
            check_role_exists(policy, role)
        }
        AdminCommand::AddInheritance { senior, junior }
        | AdminCommand::DeleteInheritance { senior, junior } => {
            check_role_exists(policy, senior)?;
            check_role_exists(policy, junior)
        }
        AdminCommand::CreateDsdSet { set, roles, .. } => {
            check_set_is_new(policy, set)?;
            check_roles_exist(policy, roles)
        }
        AdminCommand::DeleteDsdSet { set } => check_set_exists(policy, set),
        AdminCommand::CreateSession { user, roles } => {
            check_number_left(policy)?;
            check_user_exists(policy, user)?;
            check_roles_exist(policy, roles)
        }
        AdminCommand::DeleteSession => Ok(()),
    }
}

/// Refuses a command whose own conditions don't hold, as an assignment that is there already, or
/// an edge that closes a circle.
fn check_conditions(policy: &Policy, entry: &Entry) -> Result<(), PolicyRefusal>
    ensures { (entries : List Entry) → StandsFor policy.now entries
        → IsGiven entries entry.now
        → Checks (condition_rules entries entry.now.session entry.now.command) result }
{
    match &entry.command {
        AdminCommand::AddUser { .. }
        | AdminCommand::DeleteUser { .. }
        | AdminCommand::AddRole { .. }
        | AdminCommand::DeleteDsdSet { .. }
        | AdminCommand::DeleteSession => Ok(()),
        AdminCommand::DeleteRole { role } => check_in_no_set(policy, role),
        AdminCommand::AssignUser { user, role } => check_assignment_is_new(policy, user, role),
        AdminCommand::DeassignUser { user, role } => check_assigned(policy, user, role),
        AdminCommand::GrantPermission {
            role,
            operation,
            object,
        } => check_grant_is_new(policy, role, operation, object),
        AdminCommand::RevokePermission {
            role,
            operation,
            object,
        } => check_granted(policy, role, operation, object),
        AdminCommand::AddInheritance { senior, junior } => {
            check_no_cycle(policy, senior, junior)?;
            check_edge_is_new(policy, senior, junior)
        }
        AdminCommand::DeleteInheritance { senior, junior } => check_edge_exists(
            policy, senior, junior,
        ),
        AdminCommand::CreateDsdSet { count, roles, .. } => check_dsd_shape(*count, roles),
        AdminCommand::CreateSession { user, roles } => {
            check_roles_authorized(policy, user, roles)?;
            check_roles_differ(roles)
        }
        AdminCommand::AddActiveRole { role } => {
            let session = entry.session.ok_or(PolicyRefusal::NoSession)?;
            check_role_authorized(policy, session, role)?;
            check_role_inactive(policy, session, role)
        }
        AdminCommand::DropActiveRole { role } => {
            let session = entry.session.ok_or(PolicyRefusal::NoSession)?;
            check_role_active(policy, session, role)
        }
    }
}

/// Refuses a command after which a session would violate a separation set.
fn check_separation(policy: &Policy, entry: &Entry) -> Result<(), PolicyRefusal>
    ensures { (entries : List Entry) → StandsFor policy.now entries
        → IsGiven entries entry.now
        → AllPass (existence_rules entries entry.now.command)
        → AllPass (condition_rules entries entry.now.session entry.now.command)
        → Checks (separation_rules entries entry.now.session entry.now.command) result }
{
    match &entry.command {
        AdminCommand::AddInheritance { senior, junior } => check_edge_separation(
            policy, senior, junior,
        ),
        AdminCommand::CreateDsdSet { set, count, roles } => check_set_separation(
            policy, set, *count, roles,
        ),
        AdminCommand::CreateSession { user, roles } => check_login_separation(policy, user, roles),
        AdminCommand::AddActiveRole { role } => match entry.session {
            Some(session) => check_role_separation(policy, session, role),
            None => Err(PolicyRefusal::NoSession),
        },
        AdminCommand::AddUser { .. }
        | AdminCommand::DeleteUser { .. }
        | AdminCommand::AddRole { .. }
        | AdminCommand::DeleteRole { .. }
        | AdminCommand::AssignUser { .. }
        | AdminCommand::DeassignUser { .. }
        | AdminCommand::GrantPermission { .. }
        | AdminCommand::RevokePermission { .. }
        | AdminCommand::DeleteInheritance { .. }
        | AdminCommand::DeleteDsdSet { .. }
        | AdminCommand::DeleteSession
        | AdminCommand::DropActiveRole { .. } => Ok(()),
    }
}

/// Refuses a command for whose new row its table has no room.
fn check_tables(policy: &Policy, command: &AdminCommand) -> Result<(), PolicyRefusal>
    ensures { (entries : List Entry) → StandsFor policy.now entries
        → Checks (table_rules entries command.now) result }
{
    match command {
        AdminCommand::AddUser { .. } => check_room_for_user(policy),
        AdminCommand::AddRole { .. } => check_room_for_role(policy),
        AdminCommand::GrantPermission {
            operation,
            object,
            ..
        } => check_room_for_grant(policy, operation, object),
        AdminCommand::CreateDsdSet { .. } => check_room_for_set(policy),
        AdminCommand::CreateSession { .. } => check_room_for_session(policy),
        AdminCommand::DeleteUser { .. }
        | AdminCommand::DeleteRole { .. }
        | AdminCommand::AssignUser { .. }
        | AdminCommand::DeassignUser { .. }
        | AdminCommand::RevokePermission { .. }
        | AdminCommand::AddInheritance { .. }
        | AdminCommand::DeleteInheritance { .. }
        | AdminCommand::DeleteDsdSet { .. }
        | AdminCommand::DeleteSession
        | AdminCommand::AddActiveRole { .. }
        | AdminCommand::DropActiveRole { .. } => Ok(()),
    }
}

/// The entry of the command that this session gives. It takes no memory.
///
/// # Errors
///
/// The first refusal, in the order of the policy step:
///
/// - of AddUser: NoSession, Permission, UserExists, Full of users;
/// - of DeleteUser: NoSession, Permission, UnknownUser;
/// - of AddRole: NoSession, Permission, RoleExists, Full of roles;
/// - of DeleteRole: NoSession, Permission, UnknownRole, RoleInDsd (the set that was made first);
/// - of AssignUser: NoSession, Permission, UnknownUser, UnknownRole, AlreadyAssigned;
/// - of DeassignUser: NoSession, Permission, UnknownUser, UnknownRole, NotAssigned;
/// - of GrantPermission: NoSession, Permission, UnknownRole, AlreadyGranted, Full of permissions;
/// - of RevokePermission: NoSession, Permission, UnknownRole, NotGranted;
/// - of AddInheritance: NoSession, Permission, UnknownRole (the senior, then the junior), Cycle,
///   EdgeExists, DsdViolated;
/// - of DeleteInheritance: NoSession, Permission, UnknownRole (the senior, then the junior),
///   NoEdge;
/// - of CreateDsdSet: NoSession, Permission, DsdExists, UnknownRole (the first listed), DsdShape,
///   DsdViolated, Full of sets;
/// - of DeleteDsdSet: NoSession, Permission, NoDsd;
/// - of CreateSession: SessionsExhausted, UnknownUser, UnknownRole (the first listed),
///   NotAuthorized (the first listed), AlreadyActive (the first that stands a second time),
///   DsdViolated, Full of sessions;
/// - of DeleteSession: NoSession;
/// - of AddActiveRole: NoSession, UnknownRole, NotAuthorized, AlreadyActive, DsdViolated;
/// - of DropActiveRole: NoSession, UnknownRole, NotActive.
pub fn decide(
    policy: &Policy,
    session: Option<SessionId>,
    command: AdminCommand,
) -> Result<Entry, PolicyRefusal>
    ensures { (entries : List Entry) → StandsFor policy.now entries
        → PolicyStep entries session command result }
{
    let session = find_giver(policy, session, &command)?;
    let entry = Entry { session, command };
    check_permission(policy, &entry)?;
    check_existence(policy, &entry.command)?;
    check_conditions(policy, &entry)?;
    check_separation(policy, &entry)?;
    check_tables(policy, &entry.command)?;
    Ok(entry)
}
