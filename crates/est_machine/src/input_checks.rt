//! Whether an instant takes inputs.

ghost use Rattle.std.specs.Prelude.{◌≡◌, IfOk, IfErr, position, not};
ghost use Rattle.est_kernel.specs.Bits.{bits};
ghost use Rattle.est_relations.specs.Keeping.{has_one_at_most, keeps};
ghost use Rattle.est_machine.specs.Machines.{AreNotTaken, AreTaken};

use crate::refusal::MachineRefusal;
use est_kernel::interface::Interface;
use est_kernel::mask;
use est_relations::relations::{Members, Relation, Relations};
/// Whether at most one of the members is in the mask. One that is written twice counts once.
fn has_one_at_most(members: &Members, inputs: u64) -> bool
    ensures { result ≡ has_one_at_most (bits inputs) members.now }
{
    match members.first_in(inputs) {
        Some(first) => members
            .first_in(mask::difference(inputs, mask::single(first.index)))
            .is_none(),
        None => true,
    }
}

/// Whether the inputs keep a relation.
fn keeps(relation: &Relation, inputs: u64) -> bool
    ensures { result ≡ keeps (bits inputs) relation.now }
{
    match relation {
        Relation::Exclusion(members) => has_one_at_most(members, inputs),
        Relation::Implication(condition, implied) => {
            !mask::has(inputs, condition.index) || mask::has(inputs, implied.index)
        }
    }
}

/// The place of the first relation that the inputs break.
fn first_broken(relations: &[Relation], inputs: u64) -> Option<usize>
    ensures { result ≡ position (λ r. not (keeps (bits inputs) r)) relations.now }
{
    relations
        .iter()
        .position(|relation| !keeps(relation, inputs))
}

/// Whether an instant takes these inputs; else why not.
pub fn check_inputs(
    interface: &Interface,
    relations: &Relations,
    inputs: u64,
) -> Result<(), MachineRefusal>
    ensures taken { IfOk result (λ _. AreTaken interface.now relations.now inputs) }
    ensures refused { IfErr result (AreNotTaken interface.now relations.now inputs) }
{
    let others = mask::difference(inputs, interface.offerable());
    if others != 0 {
        return Err(MachineRefusal::NotInputs(others));
    }
    match first_broken(relations.as_slice(), inputs) {
        Some(place) => Err(MachineRefusal::Broken(place + 1)),
        None => Ok(()),
    }
}
