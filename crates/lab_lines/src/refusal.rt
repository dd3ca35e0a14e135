//! The numbers of the refusals that the lab has beside those of the server.

/// A claim can't be read.
pub const CLAIM_CODE: u8 = 81;

/// The other module has another interface.
pub const INTERFACE_CODE: u8 = 82;

/// There are too many states or reactions for a table.
pub const TOO_MANY_CODE: u8 = 83;
