//! The first relation that does not hold.
ghost use Rattle.std.specs.Prelude.{◌≡◌, ◌≢◌, ◌<◌, ◌≤◌, ◌+◌, length, List, true, false};
ghost use Rattle.std.specs.Prelude.{MatchOption, MatchResult, IfSome, option_map, position, Some};
ghost use Rattle.std.specs.Prelude.{None};
ghost use Rattle.std.specs.List.{list_all};
ghost use Rattle.est_kernel.specs.Bits.{bits};
ghost use Rattle.est_relations.specs.Keeping.{keeps, keeps_exclusion};
ghost use Rattle.est_relations.specs.Inner.Violations.{Excludes, Lacks};
ghost use Rattle.est_relations.specs.Offers.{with_place, IsFirstBroken, IsFirstLacking};
ghost use Rattle.est_relations.specs.declared.relations.TheConstants.{MOST_RELATIONS};

use crate::relations::Relation;
use est_kernel::mask;
use est_kernel::statement::InterfaceSignal;

/// A relation that does not hold, and the signal that is to blame.
#[derive(Clone, Copy)]
pub struct BrokenRelation {
    /// Its number, counted from 1.
    pub relation: u8,
    /// Of an exclusion, its first pending member; of an implication, the signal that is missing.
    pub signal: InterfaceSignal,
}

/// The pending signal that excludes this one by the relation. This one is not pending.
fn excluded_by(relation: &Relation, inputs: u64, signal: InterfaceSignal) -> Option<InterfaceSignal>
    requires kept { keeps_exclusion (bits inputs) relation.now ≡ true }
    requires new { bits inputs signal.index ≡ false }
    ensures { MatchOption result
        (keeps_exclusion (bits (with_place inputs signal.index)) relation.now ≡ true)
        (λ m. Excludes relation.now inputs signal.index m.index) }
{
    match relation {
        Relation::Exclusion(members) => {
            if members.has(signal) {
                members.first_in(inputs)
            } else {
                None
            }
        }
        Relation::Implication(_, _) => None,
    }
}

/// The first exclusion that would not hold with this signal. The signal is not pending.
pub fn first_broken_exclusion(
    relations: &[Relation],
    inputs: u64,
    signal: InterfaceSignal,
) -> Option<BrokenRelation>
    requires few { length relations.now ≤ MOST_RELATIONS }
    requires kept { list_all (keeps_exclusion (bits inputs)) relations.now ≡ true }
    requires new { bits inputs signal.index ≡ false }
    ensures { MatchOption result
        (list_all (keeps_exclusion (bits (with_place inputs signal.index))) relations.now ≡ true)
        (λ b. IsFirstBroken relations.now inputs signal.index b.relation b.signal.index) }
{
    for (index, relation) in relations.iter().enumerate() {
        if let Some(member) = excluded_by(relation, inputs, signal) {
            return Some(BrokenRelation {
                relation: index as u8 + 1,
                signal: member,
            });
        }
    }
    None
}

/// The signal that is missing by the relation.
fn lacking_by(relation: &Relation, inputs: u64) -> Option<InterfaceSignal>
    requires kept { keeps_exclusion (bits inputs) relation.now ≡ true }
    ensures { MatchOption result
        (keeps (bits inputs) relation.now ≡ true)
        (λ m. Lacks relation.now inputs m) }
{
    match relation {
        Relation::Exclusion(_) => None,
        Relation::Implication(condition, implied) => {
            if mask::has(inputs, condition.index) && !mask::has(inputs, implied.index) {
                Some(*implied)
            } else {
                None
            }
        }
    }
}

/// The first relation that does not hold. Each exclusion holds.
pub fn first_broken_implication(relations: &[Relation], inputs: u64) -> Option<BrokenRelation>
    requires few { length relations.now ≤ MOST_RELATIONS }
    requires kept { list_all (keeps_exclusion (bits inputs)) relations.now ≡ true }
    ensures { MatchOption result
        (list_all (keeps (bits inputs)) relations.now ≡ true)
        (λ b. IsFirstLacking relations.now inputs b.relation b.signal.index) }
{
    for (index, relation) in relations.iter().enumerate() {
        if let Some(missing) = lacking_by(relation, inputs) {
            return Some(BrokenRelation {
                relation: index as u8 + 1,
                signal: missing,
            });
        }
    }
    None
}
