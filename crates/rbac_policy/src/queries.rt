//! What a policy says of users, roles, permissions and sessions: what it is asked before a policy
//! command is accepted.
ghost use Rattle.std.specs.Prelude.{ℕ, Option, Some, ◌↔◌, ◌++◌, ◌∷◌, [], List, IsTrue, MatchOption};
ghost use Rattle.std.specs.Prelude.{Contains};
ghost use Rattle.rbac_policy.specs.Names.{NameText};
ghost use Rattle.rbac_policy.specs.Separation.{AnswersFirstViolated, IsFirstSetOf, entry_of};
ghost use Rattle.rbac_policy.specs.Separation.{login_entry};
ghost use Rattle.rbac_policy.specs.declared.commands.AdminCommand.TheVariants.{AddActiveRole};
ghost use Rattle.rbac_policy.specs.declared.commands.AdminCommand.TheVariants.{AddInheritance};
ghost use Rattle.rbac_policy.specs.declared.commands.AdminCommand.TheVariants.{CreateDsdSet};
ghost use Rattle.rbac_policy.specs.declared.commands.Entry.{Entry};
ghost use Rattle.rbac_policy.specs.Facts.{IsUser, IsRole, IsSetName, IsAssigned, IsGranted};
ghost use Rattle.rbac_policy.specs.Facts.{IsPairGranted, IsEdge, IsAtOrBelow, IsAuthorized};
ghost use Rattle.rbac_policy.specs.Facts.{IsActive, Lives, IsLive};
ghost use Rattle.rbac_policy.specs.Fits.{NumbersExhausted, UsersFull, RolesFull, SetsFull};
ghost use Rattle.rbac_policy.specs.Fits.{SessionsFull, PermissionsFull};
ghost use Rattle.rbac_policy.specs.StandsFor.{StandsFor};

use crate::below::below;
use crate::commands::SessionId;
use crate::names::{Name, RoleNames};
use crate::objects::{Object, Operation};
use crate::policy::Policy;
use crate::rows::{DsdSet, Session};
use crate::separation::{Violation, first_violation, first_violation_with};
use crate::separation_sets::{first_set_with, has_set};
use crate::sizes::LAST_SESSION;
use crate::tables::{free, grant_of, has_user, mask_of, place_of, roles_of, session_of};

impl Policy {
    /// Whether the session lives.
    pub fn lives(&self, session: SessionId) -> bool
        ensures { (entries : List Entry) → StandsFor self.now entries
            → (IsTrue result ↔ IsLive entries session) }
    {
        session_of(&self.sessions, session).is_some()
    }

    /// Whether there is such a user.
    pub fn has_user(&self, user: &Name) -> bool
        ensures { (entries : List Entry) → StandsFor self.now entries
            → (IsTrue result ↔ IsUser entries user.now) }
    {
        has_user(&self.users, user)
    }

    /// Whether there is such a role.
    pub fn has_role(&self, role: &Name) -> bool
        ensures { (entries : List Entry) → StandsFor self.now entries
            → (IsTrue result ↔ IsRole entries role.now) }
    {
        place_of(&self.roles, role).is_some()
    }

    /// The user of the session, if it lives.
    pub fn user_of(&self, session: SessionId) -> Option<Name>
        ensures { (entries : List Entry) → StandsFor self.now entries
            → MatchOption result (IsLive entries session → ⊥) (Lives entries session) }
    {
        match session_of(&self.sessions, session) {
            Some(found) => Some(found.user),
            None => None,
        }
    }

    /// Whether the session lives and the role is active in it.
    pub fn is_active(&self, session: SessionId, role: &Name) -> bool
        ensures { (entries : List Entry) → StandsFor self.now entries
            → (IsTrue result ↔ (IsLive entries session × IsActive entries session role.now)) }
    {
        match session_of(&self.sessions, session) {
            Some(found) => match place_of(&self.roles, role) {
                Some(place) => found.active.has(place),
                None => false,
            },
            None => false,
        }
    }

    /// Whether the role is assigned to the user, not through other roles.
    pub fn is_assigned(&self, user: &Name, role: &Name) -> bool
        ensures { (entries : List Entry) → StandsFor self.now entries
            → (IsTrue result ↔ IsAssigned entries user.now role.now) }
    {
        match place_of(&self.roles, role) {
            Some(place) => roles_of(&self.users, user).has(place),
            None => false,
        }
    }

    /// Whether an edge leads from the senior to the junior, not through others.
    pub fn has_edge(&self, senior: &Name, junior: &Name) -> bool
        ensures { (entries : List Entry) → StandsFor self.now entries
            → (IsTrue result ↔ IsEdge entries senior.now junior.now) }
    {
        match place_of(&self.roles, senior) {
            Some(above) => match place_of(&self.roles, junior) {
                Some(place) => self.juniors.has_edge(above, place),
                None => false,
            },
            None => false,
        }
    }

    /// Whether a chain of edges, possibly empty, leads from the senior to the junior.
    pub fn is_at_or_below(&self, junior: &Name, senior: &Name) -> bool
        ensures { (entries : List Entry) → StandsFor self.now entries
            → (IsTrue result ↔ IsAtOrBelow entries junior.now senior.now) }
    {
        match place_of(&self.roles, senior) {
            Some(above) => match place_of(&self.roles, junior) {
                Some(place) => self.juniors.below(above).has(place),
                None => false,
            },
            None => *senior == *junior,
        }
    }

    /// Whether the role itself has the permission.
    pub fn is_granted(&self, role: &Name, operation: &Operation, object: &Object) -> bool
        ensures { (entries : List Entry) → StandsFor self.now entries
            → (IsTrue result ↔ IsGranted entries role.now operation.now object.now) }
    {
        match grant_of(&self.grants, operation, object) {
            Some(grant) => match place_of(&self.roles, role) {
                Some(place) => grant.roles.has(place),
                None => false,
            },
            None => false,
        }
    }

    /// Whether some role itself has the permission.
    pub fn is_pair_granted(&self, operation: &Operation, object: &Object) -> bool
        ensures { (entries : List Entry) → StandsFor self.now entries
            → (IsTrue result ↔ IsPairGranted entries operation.now object.now) }
    {
        grant_of(&self.grants, operation, object).is_some()
    }

    /// Whether a role at or above this one is assigned to the user.
    pub fn is_authorized(&self, user: &Name, role: &Name) -> bool
        ensures { (entries : List Entry) → StandsFor self.now entries
            → (IsTrue result ↔ IsAuthorized entries user.now role.now) }
    {
        match place_of(&self.roles, role) {
            Some(place) => below(&self.juniors, roles_of(&self.users, user)).has(place),
            None => false,
        }
    }

    /// The first separation set, in order of creation, that some session violates once the user has
    /// logged in with these roles, for which it is authorized, and the least session that does. The
    /// new session has the next number.
    pub fn first_violated_by_login(&self, user: &Name, roles: &RoleNames) -> Option<Violation>
        ensures { (entries : List Entry) → StandsFor self.now entries → ¬ (NumbersExhausted entries)
            → ((role : NameText) → Contains roles.now role → IsAuthorized entries user.now role)
            → AnswersFirstViolated (entries ++ login_entry user.now roles.now ∷ []) result }
    {
        let coming = Some(Session {
            number: SessionId::new(self.logins.wrapping_add(1)),
            user: *user,
            active: mask_of(&self.roles, roles),
        });
        first_violation(&self.sets, &self.sessions, &coming, &self.juniors)
    }

    /// The first separation set, in order of creation, that some session violates once an edge
    /// leads from the senior to the junior, and the least session that does.
    pub fn first_violated_by_edge(&self, senior: &Name, junior: &Name) -> Option<Violation>
        ensures { (entries : List Entry) (by : Option ℕ) → StandsFor self.now entries
            → IsRole entries senior.now → IsRole entries junior.now
            → AnswersFirstViolated (entries ++ entry_of by (AddInheritance senior.now junior.now) ∷
            []) result }
    {
        match place_of(&self.roles, senior) {
            Some(above) => match place_of(&self.roles, junior) {
                Some(place) => {
                    let juniors = self.juniors.with_edge(above, place);
                    first_violation(&self.sets, &self.sessions, &None, &juniors)
                }
                None => None,
            },
            None => None,
        }
    }

    /// The first separation set, in order of creation, that some session violates once the role is
    /// active in this session too, and the least session that does. The session's user is
    /// authorized for the role.
    pub fn first_violated_by_role(&self, session: SessionId, role: &Name) -> Option<Violation>
        ensures { (entries : List Entry) (user : NameText) → StandsFor self.now entries
            → Lives entries session user → IsAuthorized entries user role.now
            → AnswersFirstViolated (entries ++ entry_of (Some session) (AddActiveRole role.now) ∷
            []) result }
    {
        match session_of(&self.sessions, session) {
            Some(found) => match place_of(&self.roles, role) {
                Some(place) => {
                    // The session with the role added is judged beside its own row: whatever set
                    // the row violates, the session with one role more violates too.
                    let coming = Some(Session {
                        number: found.number,
                        user: found.user,
                        active: found.active.with(place),
                    });
                    first_violation(&self.sets, &self.sessions, &coming, &self.juniors)
                }
                None => None,
            },
            None => None,
        }
    }

    /// The first separation set, in order of creation, that some session violates once there is one
    /// more of this name, number and roles, and the least session that does.
    pub fn first_violated_by_set(
        &self,
        set: &Name,
        count: u64,
        roles: &RoleNames,
    ) -> Option<Violation>
        ensures { (entries : List Entry) (by : Option ℕ) → StandsFor self.now entries
            → ((role : NameText) → Contains roles.now role → IsRole entries role)
            → AnswersFirstViolated (entries ++ entry_of by (CreateDsdSet set.now count roles.now) ∷
            []) result }
    {
        let coming = Some(DsdSet {
            name: *set,
            count,
            roles: mask_of(&self.roles, roles),
            place: self.version,
        });
        first_violation_with(&self.sets, &coming, &self.sessions, &self.juniors)
    }

    /// Whether there is such a separation set.
    pub fn has_set(&self, set: &Name) -> bool
        ensures { (entries : List Entry) → StandsFor self.now entries
            → (IsTrue result ↔ IsSetName entries set.now) }
    {
        has_set(&self.sets, set)
    }

    /// Whether there are as many separation sets as there is room for.
    pub fn are_sets_full(&self) -> bool
        ensures { (entries : List Entry) → StandsFor self.now entries
            → (IsTrue result ↔ SetsFull entries) }
    {
        free(&self.sets).is_none()
    }

    /// The first separation set, in order of creation, of which the role is a member.
    pub fn first_set_of(&self, role: &Name) -> Option<Name>
        ensures { (entries : List Entry) → StandsFor self.now entries
            → MatchOption result
            ((set : NameText) → IsFirstSetOf entries role.now set → ⊥)
            (IsFirstSetOf entries role.now) }
    {
        match place_of(&self.roles, role) {
            Some(place) => match first_set_with(&self.sets, place) {
                Some(row) => Some(row.name),
                None => None,
            },
            None => None,
        }
    }

    /// Whether all session numbers were given.
    pub fn are_numbers_exhausted(&self) -> bool
        ensures { (entries : List Entry) → StandsFor self.now entries
            → (IsTrue result ↔ NumbersExhausted entries) }
    {
        self.logins == LAST_SESSION
    }

    /// Whether there are as many users as there is room for.
    pub fn are_users_full(&self) -> bool
        ensures { (entries : List Entry) → StandsFor self.now entries
            → (IsTrue result ↔ UsersFull entries) }
    {
        free(&self.users).is_none()
    }

    /// Whether there are as many roles as there is room for.
    pub fn are_roles_full(&self) -> bool
        ensures { (entries : List Entry) → StandsFor self.now entries
            → (IsTrue result ↔ RolesFull entries) }
    {
        free(&self.roles).is_none()
    }

    /// Whether as many sessions live as there is room for.
    pub fn are_sessions_full(&self) -> bool
        ensures { (entries : List Entry) → StandsFor self.now entries
            → (IsTrue result ↔ SessionsFull entries) }
    {
        free(&self.sessions).is_none()
    }

    /// Whether as many pairs of an operation and an object as there is room for are granted to some
    /// role.
    pub fn are_permissions_full(&self) -> bool
        ensures { (entries : List Entry) → StandsFor self.now entries
            → (IsTrue result ↔ PermissionsFull entries) }
    {
        free(&self.grants).is_none()
    }
}
