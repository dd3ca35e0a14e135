//! Sets of roles, each role being named by its place in a table.
ghost use Rattle.std.specs.Prelude.{◌≡◌, ◌↔◌, ◌<◌, ◌≤◌, ◌^◌, ℕ, IsTrue, IfSome, MatchOption};
ghost use Rattle.std.specs.Prelude.{length};
ghost use Rattle.rbac_closure.specs.Sets.{Has, Meets, IsFirstFrom, with_place};
ghost use Rattle.rbac_closure.specs.Sets.{without_place, either, common, places_of};

use std::marker::Model;

/// A word with a bit for each place.
type Word = u64;

/// How many places there are, and so how many roles there can be.
pub const ROLES: usize = Word::BITS as usize;

/// A set of places, in one word. A contract sees the number that has a bit for each of its places.
#[derive(Clone, Copy, PartialEq, Eq, Debug)]
pub struct RoleSet {
    pub(crate) bits: Word,
}

impl Model for RoleSet {
    ghost use Rattle.std.specs.Prelude.{ℕ, ◌<◌, ◌^◌};
    ghost use Rattle.rbac_closure.specs.declared.role_sets.TheConstants.{ROLES};

    ghost Value = { ℕ };

    ghost view = { λ s. s.bits };

    ghost invariant = { λ s. s.bits < 2 ^ ROLES };

    ghost inverse = { λ n. record { bits = n } };
}

impl RoleSet {
    /// The set without a place.
    pub fn empty() -> RoleSet
        ensures { result ≡ 0 }
    {
        RoleSet { bits: 0 }
    }

    /// The set of this place alone.
    pub fn single(place: usize) -> RoleSet
        requires { place < ROLES }
        ensures { result ≡ 2 ^ place }
    {
        RoleSet { bits: 1 << place }
    }

    /// Whether the place is in the set.
    pub fn has(self, place: usize) -> bool
        requires { place < ROLES }
        ensures { IsTrue result ↔ Has self place }
    {
        (self.bits >> place) & 1 == 1
    }

    /// The set with the place.
    #[tactic(auto, using(crate::proofs::SetLemmas::or_fits))]
    pub fn with(self, place: usize) -> RoleSet
        requires { place < ROLES }
        ensures { result ≡ with_place self place }
    {
        RoleSet {
            bits: self.bits | 1 << place,
        }
    }

    /// The set without the place.
    #[tactic(auto, using(crate::proofs::SetLemmas::or_fits, crate::proofs::SetLemmas::xor_fits))]
    pub fn without(self, place: usize) -> RoleSet
        requires { place < ROLES }
        ensures { result ≡ without_place self place }
    {
        RoleSet {
            bits: (self.bits | 1 << place) ^ (1 << place),
        }
    }

    /// The places of either set.
    #[tactic(auto, using(crate::proofs::SetLemmas::or_fits))]
    pub fn union(self, other: RoleSet) -> RoleSet
        ensures { result ≡ either self other }
    {
        RoleSet {
            bits: self.bits | other.bits,
        }
    }

    /// The places of both sets.
    pub fn common(self, other: RoleSet) -> RoleSet
        ensures { result ≡ common self other }
    {
        RoleSet {
            bits: self.bits & other.bits,
        }
    }

    /// How many places it has.
    pub fn len(self) -> usize
        ensures { result ≡ length (places_of self) }
    {
        self.bits.count_ones() as usize
    }

    /// The first of its places from this one on.
    pub fn first_from(self, start: usize) -> Option<usize>
        requires { start ≤ ROLES }
        ensures first { MatchOption result
            ((place : ℕ) → start ≤ place → ¬ (Has self place)) (IsFirstFrom self start) }
        ensures within { IfSome result (λ place. place < ROLES) }
    {
        let bits = self.bits;
        if start == ROLES {
            return None;
        }
        let left = bits >> start;
        if left == 0 {
            return None;
        }
        Some(start + left.trailing_zeros() as usize)
    }

    /// Whether the set has no place.
    pub fn is_empty(self) -> bool
        ensures { IsTrue result ↔ (self ≡ 0) }
    {
        self.bits == 0
    }

    /// Whether a place is in both sets.
    pub fn meets(self, other: RoleSet) -> bool
        ensures { IsTrue result ↔ Meets self other }
    {
        !self.common(other).is_empty()
    }
}
