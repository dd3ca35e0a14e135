//! Why a call of the board is refused.
use rbac_admin::refusal::PolicyRefusal;

/// Why a call of the board is refused. A refusal leaves the policy and its list as they were.
#[derive(Clone, Copy, PartialEq, Eq)]
pub enum BoardRefusal {
    /// The policy step refuses the command.
    Policy(PolicyRefusal),
    /// The policy list has as many entries as it may have.
    JournalFull,
    /// The policy that was read is older than one seen before: its version, and the version that
    /// was seen.
    Behind { found: u64, seen: u64 },
    /// Memory was refused, or the policy could not be read.
    Memory,
}
