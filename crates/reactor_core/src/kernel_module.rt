//! What a load makes of a text.
ghost use Rattle.est_relations.specs.Keeping.{AreOverInputs};

use est_kernel::kernel::Kernel;
use est_relations::relations::Relations;

/// A module as it runs: its kernel, which has its interface, and the relations between its inputs.
/// Its drop goes as deep as the kernel's statement, at most 2,048 levels.
#[derive(Drop)]
pub struct Module {
    pub kernel: Kernel,
    pub relations: Relations,
    /// Each signal of a relation is an input or an inputoutput.
    pub ghost over_inputs: { AreOverInputs kernel.interface relations },
}
