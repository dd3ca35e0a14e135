//! The room of a policy list: which commands still find a place in it.
ghost use Rattle.std.specs.Prelude.{◌↔◌, IsTrue};
ghost use Rattle.rbac_admin.specs.Room.{HasRoomFor};

use rbac_policy::commands::{AdminCommand, Entry};
use rbac_policy::sizes::POLICY_ENTRIES;

/// Whether the policy list has room for the command. A logout always has.
pub fn has_room(entries: &[Entry], command: &AdminCommand) -> bool
    ensures { IsTrue result ↔ HasRoomFor command.now entries.now }
{
    command.is_logout() || entries.len() < POLICY_ENTRIES
}
