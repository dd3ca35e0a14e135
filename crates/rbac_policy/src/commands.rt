//! Policy commands, and the entries that accepted ones leave in the policy's list.
ghost use Rattle.std.specs.Prelude.{◌≡◌, IfOk};
ghost use Rattle.std.specs.Bool.{Decides};
ghost use Rattle.rbac_policy.specs.declared.commands.AdminCommand.TheVariants.{DeleteSession};
ghost use Rattle.rbac_policy.specs.Entries.{makes_session, is_administrative};

use crate::names::{Name, RoleNames};
use crate::objects::{Object, Operation};
use std::alloc::AllocError;
use std::marker::Model;

/// The number of a session. The first is 1, and none is used again. A contract sees the number.
#[derive(Clone, Copy, PartialEq, Eq, Debug)]
pub struct SessionId {
    number: u16,
}

impl Model for SessionId {
    ghost use Rattle.std.specs.Prelude.{ℕ};

    ghost Value = { ℕ };

    ghost view = { λ s. s.number };

    ghost inverse = { λ n. record { number = n } };
}

impl SessionId {
    /// The session of this number.
    pub fn new(number: u16) -> SessionId
        ensures { result ≡ number }
    {
        SessionId { number }
    }

    /// Its number.
    pub fn number(&self) -> u16
        ensures { result ≡ self.now }
    {
        self.number
    }
}

/// What a policy command asks for. The sixteen are commands of ANSI INCITS 359-2004. They change
/// users, roles, assignments, permissions, the order of roles, sets of dynamic separation of duty,
/// and sessions; which ones are left out stands in docs/ACCESS.md.
#[derive(Clone, PartialEq, Eq, Drop)]
pub enum AdminCommand {
    /// Adds a user of this name, to whom nothing is assigned.
    AddUser {
        user: Name,
    },
    /// Removes the user, its assignments and its sessions.
    DeleteUser {
        user: Name,
    },
    /// Adds a role of this name, to which nothing is granted.
    AddRole {
        role: Name,
    },
    /// Removes the role, its assignments, its permissions and its edges.
    DeleteRole {
        role: Name,
    },
    /// Gives the role to the user.
    AssignUser {
        user: Name,
        role: Name,
    },
    /// Takes the role from the user.
    DeassignUser {
        user: Name,
        role: Name,
    },
    /// Lets the role do the operation on the object.
    GrantPermission {
        role: Name,
        operation: Operation,
        object: Object,
    },
    /// Takes that permission from the role.
    RevokePermission {
        role: Name,
        operation: Operation,
        object: Object,
    },
    /// Puts the senior above the junior: it may do what the junior may do.
    AddInheritance {
        senior: Name,
        junior: Name,
    },
    /// Takes that edge away.
    DeleteInheritance {
        senior: Name,
        junior: Name,
    },
    /// Makes a separation set: no session may have this number of these roles, or more, active or
    /// below an active role.
    CreateDsdSet {
        set: Name,
        count: u64,
        roles: RoleNames,
    },
    /// Takes the separation set away.
    DeleteDsdSet {
        set: Name,
    },
    /// Makes a session of the user, in which these roles are active.
    CreateSession {
        user: Name,
        roles: RoleNames,
    },
    /// Ends the session that gives the command.
    DeleteSession,
    /// Makes the role active in the session that gives the command.
    AddActiveRole {
        role: Name,
    },
    /// Makes the role inactive in the session that gives the command.
    DropActiveRole {
        role: Name,
    },
}

impl AdminCommand {
    /// A copy of the command. It takes no memory.
    pub fn try_clone(&self) -> Result<AdminCommand, AllocError>
        ensures { IfOk result (λ copy. copy ≡ self.now) }
    {
        self.clone()
    }

    /// Whether it is a login, which makes a session and which no session gives.
    pub fn is_login(&self) -> bool
        ensures { result ≡ makes_session self.now }
    {
        matches!(self, AdminCommand::CreateSession { .. })
    }

    /// Whether it is a logout, which ends the session that gives it.
    pub fn is_logout(&self) -> bool
        ensures { Decides result (self.now ≡ DeleteSession) }
    {
        matches!(self, AdminCommand::DeleteSession)
    }

    /// Whether it needs the right to administer the policy. The others are those of sessions.
    pub fn is_administrative(&self) -> bool
        ensures { result ≡ is_administrative self.now }
    {
        match self {
            AdminCommand::CreateSession { .. }
            | AdminCommand::DeleteSession
            | AdminCommand::AddActiveRole { .. }
            | AdminCommand::DropActiveRole { .. } => false,
            AdminCommand::AddUser { .. }
            | AdminCommand::DeleteUser { .. }
            | AdminCommand::AddRole { .. }
            | AdminCommand::DeleteRole { .. }
            | AdminCommand::AssignUser { .. }
            | AdminCommand::DeassignUser { .. }
            | AdminCommand::GrantPermission { .. }
            | AdminCommand::RevokePermission { .. }
            | AdminCommand::AddInheritance { .. }
            | AdminCommand::DeleteInheritance { .. }
            | AdminCommand::CreateDsdSet { .. }
            | AdminCommand::DeleteDsdSet { .. } => true,
        }
    }
}

/// An accepted command, with the session that gave it. A CreateSession has none. It is small, and
/// its clone takes no memory.
#[derive(PartialEq, Eq, Drop)]
pub struct Entry {
    /// The session that gave the command.
    pub session: Option<SessionId>,
    /// The command.
    pub command: AdminCommand,
}

impl Clone for Entry {
    ghost is_clone = { λ one other. other ≡ one };

    fn clone(&self) -> Result<Entry, AllocError> {
        let command = self.command.clone()?;
        Ok(Entry {
            session: self.session,
            command,
        })
    }
}

const _: () = prove!(size_of::<Entry>() < 128);

/// The tables of the policy; a command that one has no room for is refused.
#[derive(Clone, Copy, PartialEq, Eq)]
pub enum Table {
    /// Users, at most `USERS`.
    Users,
    /// Roles, at most `ROLES`.
    Roles,
    /// Pairs of an operation and an object that are granted to some role, at most `GRANTS`.
    Permissions,
    /// Live sessions, at most `SESSIONS`.
    Sessions,
    /// Separation sets, at most `SETS`.
    Sets,
}
