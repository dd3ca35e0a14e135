//! The sizes of the policy's tables and of its list, and the last of its numbers.

/// Places in the table of users.
pub const USERS: usize = 64;

/// Places in the table of roles.
pub const ROLES: usize = rbac_closure::role_sets::ROLES;

/// Places in the table of granted pairs of an operation and an object.
pub const GRANTS: usize = 256;

/// Places in the table of live sessions.
pub const SESSIONS: usize = 64;

/// Places in the table of separation sets.
pub const SETS: usize = 16;

/// The most seats that a server has.
pub const SEATS: usize = 16;

/// How many entries a policy list opens with. Nobody gave them.
pub const OPENING_ENTRIES: usize = 4;

/// The most entries that the policy list takes, but for DeleteSession.
pub const POLICY_ENTRIES: usize = 262_080;

/// The further places of the policy list, which are for DeleteSession alone: one for each session
/// that may live.
pub const ENDING_ENTRIES: usize = SESSIONS;

/// The number of the last session that can be made.
pub const LAST_SESSION: u16 = u16::MAX;

/// The version of the longest list.
pub const LAST_VERSION: u64 = u64::MAX;
