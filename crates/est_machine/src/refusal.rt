//! Why a machine refuses inputs.

/// Why a machine refuses the inputs of an instant. It then stays as it was.
#[derive(Clone, Copy, PartialEq, Eq)]
pub enum MachineRefusal {
    /// These signals, a bit for each place of the interface, are no inputs and no inputoutputs.
    NotInputs(u64),
    /// The inputs break the relation of this number, counted from 1 in the order of the text, and
    /// none before it.
    Broken(usize),
    /// There is no constructive reaction. These outputs and inputoutputs, a bit for each place of
    /// the interface, stay undecided.
    Stuck(u64),
}
