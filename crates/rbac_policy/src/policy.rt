//! The policy, and what each entry makes of it.
ghost use Rattle.std.specs.Prelude.{◌≡◌, ◌↔◌, ◌++◌, ◌∷◌, [], List, length, IsTrue};
ghost use Rattle.rbac_policy.specs.declared.commands.Entry.{Entry};
ghost use Rattle.rbac_policy.specs.Entries.{logins};
ghost use Rattle.rbac_policy.specs.Facts.{May};
ghost use Rattle.rbac_policy.specs.Fits.{Fits};
ghost use Rattle.rbac_closure.specs.Sets.{Meets};
ghost use Rattle.rbac_policy.specs.Order.{below};
ghost use Rattle.rbac_policy.specs.Opening.{opening_entries};
ghost use Rattle.rbac_policy.specs.StandsFor.{StandsFor};
ghost use Rattle.rbac_policy.specs.Change.{absorbed, assigned, changed, deassigned, disinherited};
ghost use Rattle.rbac_policy.specs.Change.{granted, inherited, role_dropped, logged_in, logged_out};
ghost use Rattle.rbac_policy.specs.Change.{policy_of, revoked, role_deleted, set_created};
ghost use Rattle.rbac_policy.specs.Change.{role_activated, user_deleted};

use crate::below::below;
use crate::commands::{AdminCommand, Entry, SessionId};
use crate::names::{Name, RoleNames};
use crate::objects::{Object, Operation};
use crate::opening::opening_entries;
use crate::rows::{DsdSet, Grant, Session, User};
use crate::sizes::{GRANTS, ROLES, SESSIONS, SETS, USERS};
use crate::tables::{
    activate, assign_role, deactivate, deassign_role, deassign_role_from_all, end_session,
    end_sessions_of, end_unauthorized, give_grant, grant_of, mask_of, place_of, put, remove_set,
    remove_user, session_of, take_all_grants, take_grant,
};
use rbac_closure::hierarchy::RoleHierarchy;
use rbac_closure::role_sets::RoleSet;

/// What a list of accepted entries says, in tables of fixed size. It takes no memory. Two policies
/// are equal if their tables are, place by place.
#[derive(PartialEq, Eq, Drop)]
pub struct Policy {
    pub(crate) version: u64,
    pub(crate) logins: u16,
    pub(crate) users: [Option<User>; USERS],
    pub(crate) roles: [Option<Name>; ROLES],
    pub(crate) juniors: RoleHierarchy,
    pub(crate) grants: [Option<Grant>; GRANTS],
    pub(crate) sessions: [Option<Session>; SESSIONS],
    pub(crate) sets: [Option<DsdSet>; SETS],
}

impl Policy {
    /// The policy that has taken in no entry.
    pub fn empty() -> Policy
        ensures exact { result ≡ policy_of [] }
        ensures stands { StandsFor result [] }
    {
        Policy {
            version: 0,
            logins: 0,
            users: [None; USERS],
            roles: [None; ROLES],
            juniors: RoleHierarchy::new(),
            grants: [None; GRANTS],
            sessions: [None; SESSIONS],
            sets: [None; SETS],
        }
    }

    /// The policy that a server opens with: the user `root`, who may administer it.
    pub fn opening() -> Policy
        ensures exact { result ≡ policy_of opening_entries }
        ensures stands { StandsFor result opening_entries }
    {
        let entries = opening_entries();
        let mut policy = Policy::empty();
        for entry in &entries {
            policy.absorb(entry);
        }
        policy
    }

    fn assign(&mut self, user: &Name, role: &Name)
        ensures { self.new ≡ assigned user.now role.now self.old }
    {
        if let Some(place) = place_of(&self.roles, role) {
            assign_role(&mut self.users, user, place);
        }
    }

    fn grant(&mut self, role: &Name, operation: &Operation, object: &Object)
        ensures { self.new ≡ granted role.now operation.now object.now self.old }
    {
        if let Some(place) = place_of(&self.roles, role) {
            give_grant(&mut self.grants, operation, object, place);
        }
    }

    fn deassign(&mut self, user: &Name, role: &Name)
        ensures { self.new ≡ deassigned user.now role.now self.old }
    {
        if let Some(place) = place_of(&self.roles, role) {
            deassign_role(&mut self.users, user, place);
        }
    }

    fn revoke(&mut self, role: &Name, operation: &Operation, object: &Object)
        ensures { self.new ≡ revoked role.now operation.now object.now self.old }
    {
        if let Some(place) = place_of(&self.roles, role) {
            take_grant(&mut self.grants, operation, object, place);
        }
    }

    fn delete_user(&mut self, user: &Name)
        ensures { self.new ≡ user_deleted user.now self.old }
    {
        remove_user(&mut self.users, user);
        end_sessions_of(&mut self.sessions, user);
    }

    /// The role stays active in sessions: `end_unauthorized`, which runs after each entry, finds it
    /// there and ends them.
    fn delete_role(&mut self, role: &Name)
        ensures { self.new ≡ role_deleted role.now self.old }
    {
        if let Some(place) = place_of(&self.roles, role) {
            self.roles[place] = None;
            deassign_role_from_all(&mut self.users, place);
            take_all_grants(&mut self.grants, place);
            self.juniors.clear_role(place);
        }
    }

    fn inherit(&mut self, senior: &Name, junior: &Name)
        ensures { self.new ≡ inherited senior.now junior.now self.old }
    {
        let places = (place_of(&self.roles, senior), place_of(&self.roles, junior));
        if let (Some(senior), Some(junior)) = places {
            self.juniors.add_edge(senior, junior);
        }
    }

    fn disinherit(&mut self, senior: &Name, junior: &Name)
        ensures { self.new ≡ disinherited senior.now junior.now self.old }
    {
        let places = (place_of(&self.roles, senior), place_of(&self.roles, junior));
        if let (Some(senior), Some(junior)) = places {
            self.juniors.remove_edge(senior, junior);
        }
    }

    fn create_set(&mut self, name: &Name, count: u64, roles: &RoleNames)
        ensures { self.new ≡ set_created name.now count roles.now self.old }
    {
        let set = DsdSet {
            name: *name,
            count,
            roles: mask_of(&self.roles, roles),
            place: self.version,
        };
        put(&mut self.sets, set);
    }

    fn activate_role(&mut self, session: Option<SessionId>, role: &Name)
        ensures { self.new ≡ role_activated session role.now self.old }
    {
        if let (Some(number), Some(place)) = (session, place_of(&self.roles, role)) {
            activate(&mut self.sessions, number, place);
        }
    }

    fn drop_role(&mut self, session: Option<SessionId>, role: &Name)
        ensures { self.new ≡ role_dropped session role.now self.old }
    {
        if let (Some(number), Some(place)) = (session, place_of(&self.roles, role)) {
            deactivate(&mut self.sessions, number, place);
        }
    }

    fn log_in(&mut self, user: &Name, roles: &RoleNames)
        ensures { self.new ≡ logged_in user.now roles.now self.old }
    {
        self.logins = self.logins.wrapping_add(1);
        let active = mask_of(&self.roles, roles);
        let session = Session {
            number: SessionId::new(self.logins),
            user: *user,
            active,
        };
        put(&mut self.sessions, session);
    }

    fn log_out(&mut self, session: Option<SessionId>)
        ensures { self.new ≡ logged_out session self.old }
    {
        if let Some(number) = session {
            end_session(&mut self.sessions, number);
        }
    }

    fn change_tables(&mut self, entry: &Entry)
        ensures { self.new ≡ changed self.old entry.now }
    {
        match &entry.command {
            AdminCommand::AddUser { user } => put(
                &mut self.users,
                User {
                    name: *user,
                    roles: RoleSet::empty(),
                },
            ),
            AdminCommand::AddRole { role } => put(&mut self.roles, *role),
            AdminCommand::AssignUser { user, role } => self.assign(user, role),
            AdminCommand::GrantPermission {
                role,
                operation,
                object,
            } => self.grant(role, operation, object),
            AdminCommand::CreateSession { user, roles } => self.log_in(user, roles),
            AdminCommand::DeleteSession => self.log_out(entry.session),
            AdminCommand::DeleteUser { user } => self.delete_user(user),
            AdminCommand::DeleteRole { role } => self.delete_role(role),
            AdminCommand::DeassignUser { user, role } => self.deassign(user, role),
            AdminCommand::RevokePermission {
                role,
                operation,
                object,
            } => self.revoke(role, operation, object),
            AdminCommand::AddInheritance { senior, junior } => self.inherit(senior, junior),
            AdminCommand::DeleteInheritance { senior, junior } => self.disinherit(senior, junior),
            AdminCommand::CreateDsdSet { set, count, roles } => self.create_set(set, *count, roles),
            AdminCommand::DeleteDsdSet { set } => remove_set(&mut self.sets, set),
            AdminCommand::AddActiveRole { role } => self.activate_role(entry.session, role),
            AdminCommand::DropActiveRole { role } => self.drop_role(entry.session, role),
        }
    }

    #[tactic(auto, unfolding(crate::specs::Change::absorbed))]
    fn absorb_into_tables(&mut self, entry: &Entry)
        ensures { self.new ≡ absorbed self.old entry.now }
    {
        self.change_tables(entry);
        self.version = self.version.wrapping_add(1);
        end_unauthorized(&mut self.sessions, &self.users, &self.juniors);
    }

    /// Takes the entry in, whether it was accepted or not: what it leaves depends on the tables and
    /// the entry alone.
    pub fn absorb(&mut self, entry: &Entry)
        ensures exact { self.new ≡ absorbed self.old entry.now }
        ensures stands { (entries : List Entry) → StandsFor self.old entries
            → Fits entries entry.now
            → StandsFor self.new (entries ++ entry.now ∷ []) }
    {
        self.absorb_into_tables(entry);
    }

    /// Whether a role that is active in the session, or lies below one, has the grant.
    fn reaches(&self, session: &Session, grant: &Grant) -> bool
        ensures { IsTrue result ↔ Meets (below self.now.juniors session.now.active)
            grant.now.roles }
    {
        below(&self.juniors, session.active).meets(grant.roles)
    }

    /// Whether the session may do the operation on the object.
    pub fn may(&self, session: SessionId, operation: &Operation, object: &Object) -> bool
        ensures { (entries : List Entry) → StandsFor self.now entries
            → (IsTrue result ↔ May entries session operation.now object.now) }
    {
        match session_of(&self.sessions, session) {
            Some(found) => match grant_of(&self.grants, operation, object) {
                Some(grant) => self.reaches(&found, &grant),
                None => false,
            },
            None => false,
        }
    }

    /// How many entries it took in.
    pub fn version(&self) -> u64
        ensures { (entries : List Entry) → StandsFor self.now entries → result ≡ length entries }
    {
        self.version
    }

    /// How many sessions were ever made, which is the number of the last one.
    pub fn logins(&self) -> u16
        ensures { (entries : List Entry) → StandsFor self.now entries → result ≡ logins entries }
    {
        self.logins
    }
}
