//! Why a policy command is refused, with the number and the name of each refusal.
ghost use Rattle.std.specs.Prelude.{◌≡◌};
ghost use Rattle.rbac_admin.specs.Refusals.{code_of, name_of, table_text};

use rbac_policy::commands::{SessionId, Table};
use rbac_policy::names::Name;
use rbac_policy::objects::{Object, Operation};

/// Why a policy command is refused: the first cause in the order of `decide`.
#[derive(Clone, Copy, PartialEq, Eq)]
pub enum PolicyRefusal {
    /// No session gives the command, or the session has ended.
    NoSession,
    /// Each session number has been used.
    SessionsExhausted,
    /// Neither an active role of the session nor a role below one has the permission.
    Permission {
        operation: Operation,
        object: Object,
    },
    /// Some session would have too many roles of a separation set: `set` is the violated set that
    /// was made first, and `session` the session with the least number that violates it.
    DsdViolated {
        set: Name,
        session: SessionId,
    },
    /// The user is not authorized for the role.
    NotAuthorized {
        role: Name,
    },
    /// The role is active already, or is listed twice.
    AlreadyActive {
        role: Name,
    },
    /// The role is not active.
    NotActive {
        role: Name,
    },
    /// The senior role is the junior one, or lies below it.
    Cycle,
    /// There is no such user.
    UnknownUser {
        user: Name,
    },
    /// There is no such role.
    UnknownRole {
        role: Name,
    },
    /// There is such a user already.
    UserExists {
        user: Name,
    },
    /// There is such a role already.
    RoleExists {
        role: Name,
    },
    /// The role is assigned to the user already.
    AlreadyAssigned,
    /// The role is not assigned to the user.
    NotAssigned,
    /// This role itself has the permission already.
    AlreadyGranted,
    /// This role itself doesn't have the permission.
    NotGranted,
    /// This very edge was given already.
    EdgeExists,
    /// This very edge was not given.
    NoEdge,
    /// There is a separation set of this name already.
    DsdExists {
        set: Name,
    },
    /// There is no separation set of this name.
    NoDsd {
        set: Name,
    },
    /// A role is listed twice, or the number is under two or over the number of roles.
    DsdShape,
    /// The role is a member of a separation set: `set` is the one of them that was made first.
    RoleInDsd {
        set: Name,
    },
    /// The table has no place for another.
    Full {
        table: Table,
    },
}

impl PolicyRefusal {
    /// Its number and its name.
    pub fn label(&self) -> (u8, &'static str)
        ensures code { result.0 ≡ code_of self.now }
        ensures name { result.1.now ≡ name_of self.now }
    {
        match self {
            PolicyRefusal::NoSession => (4, "NoSession"),
            PolicyRefusal::SessionsExhausted => (6, "SessionsExhausted"),
            PolicyRefusal::Permission { .. } => (10, "Permission"),
            PolicyRefusal::DsdViolated { .. } => (20, "DsdViolated"),
            PolicyRefusal::NotAuthorized { .. } => (21, "NotAuthorized"),
            PolicyRefusal::AlreadyActive { .. } => (22, "AlreadyActive"),
            PolicyRefusal::NotActive { .. } => (23, "NotActive"),
            PolicyRefusal::Cycle => (24, "Cycle"),
            PolicyRefusal::UnknownUser { .. } => (25, "UnknownUser"),
            PolicyRefusal::UnknownRole { .. } => (26, "UnknownRole"),
            PolicyRefusal::UserExists { .. } => (27, "UserExists"),
            PolicyRefusal::RoleExists { .. } => (28, "RoleExists"),
            PolicyRefusal::AlreadyAssigned => (29, "AlreadyAssigned"),
            PolicyRefusal::NotAssigned => (30, "NotAssigned"),
            PolicyRefusal::AlreadyGranted => (31, "AlreadyGranted"),
            PolicyRefusal::NotGranted => (32, "NotGranted"),
            PolicyRefusal::EdgeExists => (33, "EdgeExists"),
            PolicyRefusal::NoEdge => (34, "NoEdge"),
            PolicyRefusal::DsdExists { .. } => (35, "DsdExists"),
            PolicyRefusal::NoDsd { .. } => (36, "NoDsd"),
            PolicyRefusal::DsdShape => (37, "DsdShape"),
            PolicyRefusal::RoleInDsd { .. } => (38, "RoleInDsd"),
            PolicyRefusal::Full { .. } => (39, "Full"),
        }
    }
}

/// The word that a refusal uses for a table of the policy.
pub fn table_text(table: &Table) -> &'static str
    ensures { result.now ≡ table_text table.now }
{
    match table {
        Table::Users => "users",
        Table::Roles => "roles",
        Table::Permissions => "permissions",
        Table::Sessions => "sessions",
        Table::Sets => "sets",
    }
}
