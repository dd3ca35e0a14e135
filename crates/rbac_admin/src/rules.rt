//! The rules of refusal, each asked of a policy. A test passes if its rule doesn't refuse; else it
//! answers the rule's refusal.
ghost use Rattle.std.specs.Prelude.{◌≡◌, ◌↔◌, ℕ, List, Option, Some, None, IsTrue, MatchOption};
ghost use Rattle.std.specs.Prelude.{Contains, take};
ghost use Rattle.std.specs.Result.{MatchResult};
ghost use Rattle.rbac_policy.specs.declared.commands.Entry.{Entry};
ghost use Rattle.rbac_policy.specs.StandsFor.{StandsFor};
ghost use Rattle.rbac_policy.specs.Names.{NameText};
ghost use Rattle.rbac_policy.specs.Facts.{IsUser, IsRole, IsSetName, IsAssigned, IsAuthorized};
ghost use Rattle.rbac_policy.specs.Facts.{IsGranted, IsEdge, IsAtOrBelow, IsActive, Lives, IsLive};
ghost use Rattle.rbac_policy.specs.Facts.{May};
ghost use Rattle.rbac_policy.specs.Fits.{NumbersExhausted, UsersFull, RolesFull, SetsFull};
ghost use Rattle.rbac_policy.specs.Fits.{SessionsFull};
ghost use Rattle.rbac_policy.specs.Separation.{IsFirstSetOf};
ghost use Rattle.refusal_rules.specs.Rules.{RefuseIf, RefuseUnless, RefuseNaming, Tests};
ghost use Rattle.rbac_admin.specs.Conditions.{IsGivenBy, HasNoRoomFor, IsNoShape, FirstListed};
ghost use Rattle.rbac_admin.specs.PolicyStep.{no_session, unknown_user, unknown_role};
ghost use Rattle.rbac_admin.specs.PolicyStep.{unknown_listed, unauthorized_listed, repeated_listed};
ghost use Rattle.rbac_admin.specs.PolicyStep.{violation};

use crate::refusal::PolicyRefusal;
use rbac_policy::commands::{AdminCommand, SessionId, Table};
use rbac_policy::names::{Name, RoleNames};
use rbac_policy::objects::{Object, Operation};
use rbac_policy::policy::Policy;

/// The session that gives the command. Refuses if none gives it, or it doesn't live.
pub fn find_living_session(
    policy: &Policy,
    session: Option<SessionId>,
) -> Result<SessionId, PolicyRefusal>
    ensures { (entries : List Entry) → StandsFor policy.now entries
        → MatchResult result (IsGivenBy entries session) (no_session entries session).refuses }
{
    let Some(number) = session else {
        return Err(PolicyRefusal::NoSession);
    };
    if policy.lives(number) {
        Ok(number)
    } else {
        Err(PolicyRefusal::NoSession)
    }
}

/// Refuses a session that may not change the policy.
pub fn check_may_administer(policy: &Policy, session: SessionId) -> Result<(), PolicyRefusal>
    ensures { (entries : List Entry) → StandsFor policy.now entries
        → Tests (RefuseUnless (May entries session Operation.Administer Object.Policy)
        (PolicyRefusal.Permission Operation.Administer Object.Policy)) result }
{
    if policy.may(session, &Operation::Administer, &Object::Policy) {
        Ok(())
    } else {
        Err(PolicyRefusal::Permission {
            operation: Operation::Administer,
            object: Object::Policy,
        })
    }
}

/// Refuses if there is no such role.
pub fn check_role_exists(policy: &Policy, role: &Name) -> Result<(), PolicyRefusal>
    ensures { (entries : List Entry) → StandsFor policy.now entries
        → Tests (unknown_role entries role.now) result }
{
    if policy.has_role(role) {
        Ok(())
    } else {
        Err(PolicyRefusal::UnknownRole { role: *role })
    }
}

/// Refuses if the role itself has the permission.
pub fn check_grant_is_new(
    policy: &Policy,
    role: &Name,
    operation: &Operation,
    object: &Object,
) -> Result<(), PolicyRefusal>
    ensures { (entries : List Entry) → StandsFor policy.now entries
        → Tests (RefuseIf PolicyRefusal.AlreadyGranted
        (IsGranted entries role.now operation.now object.now))
        result }
{
    if policy.is_granted(role, operation, object) {
        Err(PolicyRefusal::AlreadyGranted)
    } else {
        Ok(())
    }
}

/// Refuses if the pair is granted to no role and there is no room for it.
pub fn check_room_for_grant(
    policy: &Policy,
    operation: &Operation,
    object: &Object,
) -> Result<(), PolicyRefusal>
    ensures { (entries : List Entry) → StandsFor policy.now entries
        → Tests (RefuseIf (PolicyRefusal.Full Table.Permissions) (HasNoRoomFor entries operation.now
        object.now)) result }
{
    if policy.is_pair_granted(operation, object) {
        return Ok(());
    }
    if policy.are_permissions_full() {
        return Err(PolicyRefusal::Full {
            table: Table::Permissions,
        });
    }
    Ok(())
}

/// Refuses if there is such a user.
pub fn check_user_is_new(policy: &Policy, user: &Name) -> Result<(), PolicyRefusal>
    ensures { (entries : List Entry) → StandsFor policy.now entries
        → Tests (RefuseIf (PolicyRefusal.UserExists user.now) (IsUser entries user.now)) result }
{
    if policy.has_user(user) {
        Err(PolicyRefusal::UserExists { user: *user })
    } else {
        Ok(())
    }
}

/// Refuses if there is no room for another user.
pub fn check_room_for_user(policy: &Policy) -> Result<(), PolicyRefusal>
    ensures { (entries : List Entry) → StandsFor policy.now entries
        → Tests (RefuseIf (PolicyRefusal.Full Table.Users) (UsersFull entries)) result }
{
    if policy.are_users_full() {
        Err(PolicyRefusal::Full {
            table: Table::Users,
        })
    } else {
        Ok(())
    }
}

/// Refuses if there is such a role.
pub fn check_role_is_new(policy: &Policy, role: &Name) -> Result<(), PolicyRefusal>
    ensures { (entries : List Entry) → StandsFor policy.now entries
        → Tests (RefuseIf (PolicyRefusal.RoleExists role.now) (IsRole entries role.now)) result }
{
    if policy.has_role(role) {
        Err(PolicyRefusal::RoleExists { role: *role })
    } else {
        Ok(())
    }
}

/// Refuses if there is no room for another role.
pub fn check_room_for_role(policy: &Policy) -> Result<(), PolicyRefusal>
    ensures { (entries : List Entry) → StandsFor policy.now entries
        → Tests (RefuseIf (PolicyRefusal.Full Table.Roles) (RolesFull entries)) result }
{
    if policy.are_roles_full() {
        Err(PolicyRefusal::Full {
            table: Table::Roles,
        })
    } else {
        Ok(())
    }
}

/// Refuses if the role is assigned to the user.
pub fn check_assignment_is_new(
    policy: &Policy,
    user: &Name,
    role: &Name,
) -> Result<(), PolicyRefusal>
    ensures { (entries : List Entry) → StandsFor policy.now entries
        → Tests (RefuseIf PolicyRefusal.AlreadyAssigned (IsAssigned entries user.now role.now))
        result }
{
    if policy.is_assigned(user, role) {
        Err(PolicyRefusal::AlreadyAssigned)
    } else {
        Ok(())
    }
}

/// Refuses if the role is not assigned to the user.
pub fn check_assigned(policy: &Policy, user: &Name, role: &Name) -> Result<(), PolicyRefusal>
    ensures { (entries : List Entry) → StandsFor policy.now entries
        → Tests (RefuseUnless (IsAssigned entries user.now role.now) PolicyRefusal.NotAssigned)
        result }
{
    if policy.is_assigned(user, role) {
        Ok(())
    } else {
        Err(PolicyRefusal::NotAssigned)
    }
}

/// Refuses if the role itself doesn't have the permission.
pub fn check_granted(
    policy: &Policy,
    role: &Name,
    operation: &Operation,
    object: &Object,
) -> Result<(), PolicyRefusal>
    ensures { (entries : List Entry) → StandsFor policy.now entries
        → Tests (RefuseUnless (IsGranted entries role.now operation.now object.now)
        PolicyRefusal.NotGranted)
        result }
{
    if policy.is_granted(role, operation, object) {
        Ok(())
    } else {
        Err(PolicyRefusal::NotGranted)
    }
}

/// Refuses if the edge itself isn't there.
pub fn check_edge_exists(policy: &Policy, senior: &Name, junior: &Name) -> Result<(), PolicyRefusal>
    ensures { (entries : List Entry) → StandsFor policy.now entries
        → Tests (RefuseUnless (IsEdge entries senior.now junior.now) PolicyRefusal.NoEdge) result }
{
    if policy.has_edge(senior, junior) {
        Ok(())
    } else {
        Err(PolicyRefusal::NoEdge)
    }
}

/// Refuses if the role is not active in the session, which lives.
pub fn check_role_active(
    policy: &Policy,
    session: SessionId,
    role: &Name,
) -> Result<(), PolicyRefusal>
    ensures { (entries : List Entry) → StandsFor policy.now entries → IsLive entries session
        → Tests (RefuseUnless (IsActive entries session role.now)
        (PolicyRefusal.NotActive role.now))
        result }
{
    if policy.is_active(session, role) {
        Ok(())
    } else {
        Err(PolicyRefusal::NotActive { role: *role })
    }
}

/// Refuses if the role is active in the session, which lives.
pub fn check_role_inactive(
    policy: &Policy,
    session: SessionId,
    role: &Name,
) -> Result<(), PolicyRefusal>
    ensures { (entries : List Entry) → StandsFor policy.now entries → IsLive entries session
        → Tests (RefuseIf (PolicyRefusal.AlreadyActive role.now)
        (IsActive entries session role.now))
        result }
{
    if policy.is_active(session, role) {
        Err(PolicyRefusal::AlreadyActive { role: *role })
    } else {
        Ok(())
    }
}

/// Refuses if the user of the session, which lives, is not authorized for the role.
pub fn check_role_authorized(
    policy: &Policy,
    session: SessionId,
    role: &Name,
) -> Result<(), PolicyRefusal>
    ensures { (entries : List Entry) (user : NameText) → StandsFor policy.now entries
        → Lives entries session user
        → Tests (RefuseUnless (IsAuthorized entries user role.now)
        (PolicyRefusal.NotAuthorized role.now))
        result }
{
    match policy.user_of(session) {
        Some(user) if policy.is_authorized(&user, role) => Ok(()),
        _ => Err(PolicyRefusal::NotAuthorized { role: *role }),
    }
}

/// Refuses if there is such a separation set.
pub fn check_set_is_new(policy: &Policy, set: &Name) -> Result<(), PolicyRefusal>
    ensures { (entries : List Entry) → StandsFor policy.now entries
        → Tests (RefuseIf (PolicyRefusal.DsdExists set.now) (IsSetName entries set.now)) result }
{
    if policy.has_set(set) {
        Err(PolicyRefusal::DsdExists { set: *set })
    } else {
        Ok(())
    }
}

/// Refuses if there is no such separation set.
pub fn check_set_exists(policy: &Policy, set: &Name) -> Result<(), PolicyRefusal>
    ensures { (entries : List Entry) → StandsFor policy.now entries
        → Tests (RefuseUnless (IsSetName entries set.now) (PolicyRefusal.NoDsd set.now)) result }
{
    if policy.has_set(set) {
        Ok(())
    } else {
        Err(PolicyRefusal::NoDsd { set: *set })
    }
}

/// Refuses if there is no room for another separation set.
pub fn check_room_for_set(policy: &Policy) -> Result<(), PolicyRefusal>
    ensures { (entries : List Entry) → StandsFor policy.now entries
        → Tests (RefuseIf (PolicyRefusal.Full Table.Sets) (SetsFull entries)) result }
{
    if policy.are_sets_full() {
        Err(PolicyRefusal::Full { table: Table::Sets })
    } else {
        Ok(())
    }
}

/// Refuses if the senior is the junior, or lies below it.
pub fn check_no_cycle(policy: &Policy, senior: &Name, junior: &Name) -> Result<(), PolicyRefusal>
    ensures { (entries : List Entry) → StandsFor policy.now entries
        → Tests (RefuseIf PolicyRefusal.Cycle (IsAtOrBelow entries senior.now junior.now)) result }
{
    if policy.is_at_or_below(senior, junior) {
        Err(PolicyRefusal::Cycle)
    } else {
        Ok(())
    }
}

/// Refuses if the edge itself is there.
pub fn check_edge_is_new(policy: &Policy, senior: &Name, junior: &Name) -> Result<(), PolicyRefusal>
    ensures { (entries : List Entry) → StandsFor policy.now entries
        → Tests (RefuseIf PolicyRefusal.EdgeExists (IsEdge entries senior.now junior.now)) result }
{
    if policy.has_edge(senior, junior) {
        Err(PolicyRefusal::EdgeExists)
    } else {
        Ok(())
    }
}

/// Refuses if the role is a member of a separation set, and names the first.
pub fn check_in_no_set(policy: &Policy, role: &Name) -> Result<(), PolicyRefusal>
    ensures { (entries : List Entry) → StandsFor policy.now entries
        → Tests (RefuseNaming PolicyRefusal.RoleInDsd (IsFirstSetOf entries role.now)) result }
{
    match policy.first_set_of(role) {
        Some(set) => Err(PolicyRefusal::RoleInDsd { set }),
        None => Ok(()),
    }
}

/// Refuses if a session violates a separation set once an edge leads from the senior to the junior.
pub fn check_edge_separation(
    policy: &Policy,
    senior: &Name,
    junior: &Name,
) -> Result<(), PolicyRefusal>
    ensures { (entries : List Entry) (session : Option ℕ) → StandsFor policy.now entries
        → IsRole entries senior.now → IsRole entries junior.now
        → Tests (violation entries session (AdminCommand.AddInheritance senior.now junior.now))
        result }
{
    match policy.first_violated_by_edge(senior, junior) {
        Some(violation) => Err(PolicyRefusal::DsdViolated {
            set: violation.set,
            session: violation.session,
        }),
        None => Ok(()),
    }
}

/// Refuses if a session violates a separation set once there is one more of this name, number and
/// roles.
pub fn check_set_separation(
    policy: &Policy,
    set: &Name,
    count: u64,
    roles: &RoleNames,
) -> Result<(), PolicyRefusal>
    ensures { (entries : List Entry) (session : Option ℕ) → StandsFor policy.now entries
        → ((role : NameText) → Contains roles.now role → IsRole entries role)
        → Tests (violation entries session (AdminCommand.CreateDsdSet set.now count roles.now))
        result }
{
    match policy.first_violated_by_set(set, count, roles) {
        Some(violation) => Err(PolicyRefusal::DsdViolated {
            set: violation.set,
            session: violation.session,
        }),
        None => Ok(()),
    }
}

/// Refuses if some session would violate a separation set once the role is active in this session
/// too. Its user is authorized for the role.
pub fn check_role_separation(
    policy: &Policy,
    session: SessionId,
    role: &Name,
) -> Result<(), PolicyRefusal>
    ensures { (entries : List Entry) (user : NameText) → StandsFor policy.now entries
        → Lives entries session user → IsAuthorized entries user role.now
        → Tests (violation entries (Some session) (AdminCommand.AddActiveRole role.now)) result }
{
    match policy.first_violated_by_role(session, role) {
        Some(violation) => Err(PolicyRefusal::DsdViolated {
            set: violation.set,
            session: violation.session,
        }),
        None => Ok(()),
    }
}

/// Refuses if the number is under two or over that of the roles, or a role is listed twice.
pub fn check_dsd_shape(count: u64, roles: &RoleNames) -> Result<(), PolicyRefusal>
    ensures { Tests (RefuseIf PolicyRefusal.DsdShape (IsNoShape count roles.now)) result }
{
    if count < 2 || (roles.len() as u64) < count {
        return Err(PolicyRefusal::DsdShape);
    }
    match first_repeated(roles) {
        Some(_) => Err(PolicyRefusal::DsdShape),
        None => Ok(()),
    }
}

/// Refuses if no session number is left.
pub fn check_number_left(policy: &Policy) -> Result<(), PolicyRefusal>
    ensures { (entries : List Entry) → StandsFor policy.now entries
        → Tests (RefuseIf PolicyRefusal.SessionsExhausted (NumbersExhausted entries)) result }
{
    if policy.are_numbers_exhausted() {
        Err(PolicyRefusal::SessionsExhausted)
    } else {
        Ok(())
    }
}

/// Refuses if there is no such user.
pub fn check_user_exists(policy: &Policy, user: &Name) -> Result<(), PolicyRefusal>
    ensures { (entries : List Entry) → StandsFor policy.now entries
        → Tests (unknown_user entries user.now) result }
{
    if policy.has_user(user) {
        Ok(())
    } else {
        Err(PolicyRefusal::UnknownUser { user: *user })
    }
}

/// The first listed name that is no role's.
fn first_unknown(policy: &Policy, roles: &RoleNames) -> Option<Name>
    ensures { (entries : List Entry) → StandsFor policy.now entries
        → MatchOption result
        ((role : NameText) → FirstListed (λ before name. IsRole entries name → ⊥) roles.now role
        → ⊥)
        (FirstListed (λ before name. IsRole entries name → ⊥) roles.now) }
{
    for place in 0..roles.len() {
        if let Some(role) = roles.get(place) {
            if !policy.has_role(&role) {
                return Some(role);
            }
        }
    }
    None
}

/// The first listed role for which the user isn't authorized.
fn first_unauthorized(policy: &Policy, user: &Name, roles: &RoleNames) -> Option<Name>
    ensures { (entries : List Entry) → StandsFor policy.now entries
        → MatchOption result
        ((role : NameText) → FirstListed (λ before name. IsAuthorized entries user.now name → ⊥)
        roles.now role → ⊥)
        (FirstListed (λ before name. IsAuthorized entries user.now name → ⊥) roles.now) }
{
    for place in 0..roles.len() {
        if let Some(role) = roles.get(place) {
            if !policy.is_authorized(user, &role) {
                return Some(role);
            }
        }
    }
    None
}

/// Whether the role is listed before this place.
fn is_listed_before(roles: &RoleNames, place: usize, role: &Name) -> bool
    ensures { IsTrue result ↔ Contains (take place roles.now) role.now }
{
    for earlier in 0..place {
        if let Some(name) = roles.get(earlier) {
            if name == *role {
                return true;
            }
        }
    }
    false
}

/// The first role that stands a second time.
fn first_repeated(roles: &RoleNames) -> Option<Name>
    ensures { MatchOption result ((role : NameText) → FirstListed Contains roles.now role → ⊥)
        (FirstListed Contains roles.now) }
{
    for place in 0..roles.len() {
        if let Some(role) = roles.get(place) {
            if is_listed_before(roles, place, &role) {
                return Some(role);
            }
        }
    }
    None
}

/// Refuses if a listed name is no role's, and names the first.
pub fn check_roles_exist(policy: &Policy, roles: &RoleNames) -> Result<(), PolicyRefusal>
    ensures { (entries : List Entry) → StandsFor policy.now entries
        → Tests (unknown_listed entries roles.now) result }
{
    match first_unknown(policy, roles) {
        Some(role) => Err(PolicyRefusal::UnknownRole { role }),
        None => Ok(()),
    }
}

/// Refuses if a session violates a separation set once the user has logged in with these roles, for
/// which it is authorized.
pub fn check_login_separation(
    policy: &Policy,
    user: &Name,
    roles: &RoleNames,
) -> Result<(), PolicyRefusal>
    ensures { (entries : List Entry) → StandsFor policy.now entries → ¬ (NumbersExhausted entries)
        → ((role : NameText) → Contains roles.now role → IsAuthorized entries user.now role)
        → Tests (violation entries None (AdminCommand.CreateSession user.now roles.now)) result }
{
    match policy.first_violated_by_login(user, roles) {
        Some(violation) => Err(PolicyRefusal::DsdViolated {
            set: violation.set,
            session: violation.session,
        }),
        None => Ok(()),
    }
}

/// Refuses if the user is not authorized for a listed role, and names the first.
pub fn check_roles_authorized(
    policy: &Policy,
    user: &Name,
    roles: &RoleNames,
) -> Result<(), PolicyRefusal>
    ensures { (entries : List Entry) → StandsFor policy.now entries
        → Tests (unauthorized_listed entries user.now roles.now) result }
{
    match first_unauthorized(policy, user, roles) {
        Some(role) => Err(PolicyRefusal::NotAuthorized { role }),
        None => Ok(()),
    }
}

/// Refuses if a listed role stands a second time, and names the first.
pub fn check_roles_differ(roles: &RoleNames) -> Result<(), PolicyRefusal>
    ensures { Tests (repeated_listed roles.now) result }
{
    match first_repeated(roles) {
        Some(role) => Err(PolicyRefusal::AlreadyActive { role }),
        None => Ok(()),
    }
}

/// Refuses if there is no room for another session.
pub fn check_room_for_session(policy: &Policy) -> Result<(), PolicyRefusal>
    ensures { (entries : List Entry) → StandsFor policy.now entries
        → Tests (RefuseIf (PolicyRefusal.Full Table.Sessions) (SessionsFull entries)) result }
{
    if policy.are_sessions_full() {
        Err(PolicyRefusal::Full {
            table: Table::Sessions,
        })
    } else {
        Ok(())
    }
}
