//! Whether two policy entries are equal.
ghost use Rattle.std.specs.Prelude.{◌≡◌};
ghost use Rattle.std.specs.Bool.{Decides};
ghost use Rattle.rbac_policy.specs.declared.commands.AdminCommand.TheVariants.{GrantPermission};
ghost use Rattle.rbac_policy.specs.declared.commands.AdminCommand.TheVariants.{RevokePermission};

use rbac_policy::commands::{AdminCommand, Entry};
use rbac_policy::names::Name;
use rbac_policy::objects::{Object, Operation};

/// Whether the command grants this permission to this role.
#[tactic(auto, using(crate::proofs::Sameness::names_one, crate::proofs::Sameness::objects_one))]
fn grants(command: &AdminCommand, role: &Name, operation: Operation, object: &Object) -> bool
    ensures { Decides result (command.now ≡ GrantPermission role.now operation object.now) }
{
    matches!(command, AdminCommand::GrantPermission { role: r, operation: o, object: named }
        if role == r && operation == *o && object == named)
}

/// Whether the command revokes this permission from this role.
#[tactic(auto, using(crate::proofs::Sameness::names_one, crate::proofs::Sameness::objects_one))]
fn revokes(command: &AdminCommand, role: &Name, operation: Operation, object: &Object) -> bool
    ensures { Decides result (command.now ≡ RevokePermission role.now operation object.now) }
{
    matches!(command, AdminCommand::RevokePermission { role: r, operation: o, object: named }
        if role == r && operation == *o && object == named)
}

/// Whether the two commands are equal.
#[tactic(auto, using(crate::proofs::Sameness::names_one, crate::proofs::Sameness::lists_one))]
fn is_same_command(one: &AdminCommand, other: &AdminCommand) -> bool
    ensures { Decides result (one.now ≡ other.now) }
{
    use AdminCommand::*;
    match one {
        AddUser { user } => matches!(other, AddUser { user: u } if user == u),
        DeleteUser { user } => matches!(other, DeleteUser { user: u } if user == u),
        AddRole { role } => matches!(other, AddRole { role: r } if role == r),
        DeleteRole { role } => matches!(other, DeleteRole { role: r } if role == r),
        AssignUser { user, role } =>
            matches!(other, AssignUser { user: u, role: r } if user == u && role == r),
        DeassignUser { user, role } =>
            matches!(other, DeassignUser { user: u, role: r } if user == u && role == r),
        GrantPermission {
            role,
            operation,
            object,
        } => grants(other, role, *operation, object),
        RevokePermission {
            role,
            operation,
            object,
        } => revokes(other, role, *operation, object),
        AddInheritance { senior, junior } =>
            matches!(other, AddInheritance { senior: s, junior: j } if senior == s && junior == j),
        DeleteInheritance { senior, junior } => matches!(other,
            DeleteInheritance { senior: s, junior: j } if senior == s && junior == j),
        CreateDsdSet { set, count, roles } => matches!(other,
            CreateDsdSet { set: s, count: n, roles: r } if set == s && count == n && roles == r),
        DeleteDsdSet { set } => matches!(other, DeleteDsdSet { set: s } if set == s),
        CreateSession { user, roles } =>
            matches!(other, CreateSession { user: u, roles: r } if user == u && roles == r),
        DeleteSession => matches!(other, DeleteSession),
        AddActiveRole { role } => matches!(other, AddActiveRole { role: r } if role == r),
        DropActiveRole { role } => matches!(other, DropActiveRole { role: r } if role == r),
    }
}

/// Whether the two entries are equal.
pub(crate) fn is_same_entry(one: &Entry, other: &Entry) -> bool
    ensures { Decides result (one.now ≡ other.now) }
{
    one.session == other.session && is_same_command(&one.command, &other.command)
}
