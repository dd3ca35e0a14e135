//! A machine with what it told last, as it lies at the pointer that C has.

use est_machine::machine::Machine;

/// A machine, and what its last reaction gave.
#[derive(Drop)]
pub struct HostedMachine {
    /// The machine, until it is ended.
    pub machine: Option<Machine>,
    /// The outputs of the last reaction; or, where it was refused, what the refusal tells.
    pub given: u64,
    /// The words that were put, from which it may be restored.
    pub words: [u64; 65],
}
