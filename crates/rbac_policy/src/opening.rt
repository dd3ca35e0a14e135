//! The entries that a policy opens with.
ghost use Rattle.std.specs.Prelude.{◌≡◌, None};
ghost use Rattle.rbac_policy.specs.Opening.{opening_entries};

use crate::commands::{AdminCommand, Entry};
use crate::names::Name;
use crate::objects::{Object, Operation};
use crate::sizes::OPENING_ENTRIES;

/// The command's entry, given by no session.
fn given_by_none(command: AdminCommand) -> Entry
    ensures session { result.session ≡ None }
    ensures command { result.command ≡ command }
{
    Entry {
        session: None,
        command,
    }
}

/// The first entries of every policy list, in their order.
pub fn opening_entries() -> [Entry; OPENING_ENTRIES]
    ensures { result ≡ opening_entries }
{
    let root = Name::root();
    let permission = AdminCommand::GrantPermission {
        role: root,
        operation: Operation::Administer,
        object: Object::Policy,
    };
    [
        given_by_none(AdminCommand::AddUser { user: root }),
        given_by_none(AdminCommand::AddRole { role: root }),
        given_by_none(AdminCommand::AssignUser {
            user: root,
            role: root,
        }),
        given_by_none(permission),
    ]
}
