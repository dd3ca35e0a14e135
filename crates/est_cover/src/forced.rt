//! What relations say of a part of the inputs.
ghost use Rattle.std.specs.Prelude.{◌≡◌, ◌<◌, MatchOption, ℕ, true, false};
ghost use Rattle.std.specs.List.{list_all};
ghost use Rattle.est_kernel.specs.Bits.{bits};
ghost use Rattle.est_relations.specs.Keeping.{AreLawful, has_implied, has_one_at_most, keeps};
ghost use Rattle.est_cover.specs.Inner.Parts.{IsForced};

use crate::part::Part;
use est_kernel::mask;
use est_relations::relations::{Members, Relation};

/// What is said of a part.
#[derive(Clone, Copy)]
pub enum Forced {
    /// No lawful set of inputs has it.
    Broken,
    /// The lawful sets that have it have this signal, which was not asked.
    Present(u8),
    /// The lawful sets that have it have not this signal, which was not asked.
    Absent(u8),
}

/// What it says that at most one of the members is offered, unless that holds of the part without
/// all that was not asked.
fn forced_by_exclusion(members: &Members, part: Part) -> Option<Forced>
    requires { (n : ℕ) → bits part.unasked n ≡ true → bits part.inputs n ≡ false }
    ensures { MatchOption result (has_one_at_most (bits part.inputs) members.now ≡ true)
        (λ s. IsForced s (λ set. has_one_at_most set members.now ≡ true) part.unasked part.inputs) }
{
    let Some(first) = members.first_in(part.inputs) else {
        return None;
    };
    let all = mask::union(part.inputs, part.unasked);
    let Some(other) = members.first_in(mask::without(all, first.index)) else {
        return None;
    };
    if mask::has(part.unasked, other.index) {
        return Some(Forced::Absent(other.index));
    }
    Some(Forced::Broken)
}

/// What it says that one signal is offered where another is, unless that holds of the part without
/// all that was not asked.
fn forced_by_implication(condition: u8, implied: u8, part: Part) -> Option<Forced>
    requires condition { condition < 64 }
    requires implied { implied < 64 }
    requires apart { (n : ℕ) → bits part.unasked n ≡ true → bits part.inputs n ≡ false }
    ensures { MatchOption result (has_implied (bits part.inputs) condition implied ≡ true)
        (λ s. IsForced s (λ set. has_implied set condition implied ≡ true) part.unasked
        part.inputs) }
{
    if mask::has(part.inputs, implied) {
        return None;
    }
    match (
        mask::has(part.unasked, implied),
        mask::has(part.inputs, condition),
    ) {
        (true, true) => Some(Forced::Present(implied)),
        (true, false) => None,
        (false, true) => Some(Forced::Broken),
        (false, false) => {
            if mask::has(part.unasked, condition) {
                Some(Forced::Absent(condition))
            } else {
                None
            }
        }
    }
}

/// What the relation says of the part, unless it holds of it without all that was not asked, and
/// says nothing more.
fn forced_by(relation: &Relation, part: Part) -> Option<Forced>
    requires { (n : ℕ) → bits part.unasked n ≡ true → bits part.inputs n ≡ false }
    ensures { MatchOption result (keeps (bits part.inputs) relation.now ≡ true)
        (λ s. IsForced s (λ set. keeps set relation.now ≡ true) part.unasked part.inputs) }
{
    match relation {
        Relation::Exclusion(members) => forced_by_exclusion(members, part),
        Relation::Implication(condition, implied) => {
            forced_by_implication(condition.index, implied.index, part)
        }
    }
}

/// What the first relation that says something of the part says. If none does, the part without
/// all that was not asked is lawful.
pub fn first_forced(relations: &[Relation], part: Part) -> Option<Forced>
    requires { (n : ℕ) → bits part.unasked n ≡ true → bits part.inputs n ≡ false }
    ensures { MatchOption result (AreLawful relations.now (bits part.inputs))
        (λ s. IsForced s (AreLawful relations.now) part.unasked part.inputs) }
{
    for relation in relations {
        if let Some(forced) = forced_by(relation, part) {
            return Some(forced);
        }
    }
    None
}
