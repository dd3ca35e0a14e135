//! What a line may ask for.
use access_core::command::SlotCommand;
use rbac_policy::commands::AdminCommand;
use rbac_policy::objects::{Object, Operation};

/// What a line asks for.
#[derive(Drop)]
pub enum Request {
    /// A policy command. A login is the CreateSession of its user, a logout the DeleteSession.
    Policy(AdminCommand),
    /// A command on the slot of this number; there may be no such slot.
    Slot {
        slot: u64,
        command: SlotCommand,
    },
    /// Whether the connection's session may do this operation on this object.
    Check {
        operation: Operation,
        object: Object,
    },
}
