//! What a run is asked.

use est_kernel::kernel::Kernel;
use est_kernel::state::State;

/// What a run is asked: how a kernel reacts from a state to the inputs of an instant.
#[derive(Clone, Copy)]
pub struct Question<'a> {
    /// The kernel of the table.
    pub kernel: &'a Kernel,
    /// The state from which it reacts.
    pub state: &'a State,
    /// The inputs that are offered.
    pub inputs: u64,
    /// The inputs of which nothing is known.
    pub unasked: u64,
}
