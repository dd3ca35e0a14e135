//! The relations of a module, in the order of its text.

ghost use Rattle.std.specs.Prelude.{◌≡◌, ◌++◌, ◌∷◌, [], ◌≤◌, ◌<◌, length, map, IfOk, OnErr, IsTrue};
ghost use Rattle.std.specs.Prelude.{◌↔◌, option_map, nat_eq};
ghost use Rattle.std.specs.List.{find, list_all, list_any};
ghost use Rattle.est_relations.specs.Keeping.{is_within};
ghost use Rattle.est_kernel.specs.Bits.{bits};

use est_kernel::interface::Interface;
use est_kernel::mask;
use est_kernel::statement::InterfaceSignal;
use std::alloc::{AllocError, Global};
use std::marker::Model;

/// The most relations of a module.
pub const MOST_RELATIONS: usize = 32;

/// The members of an exclusion, in the order in which they are written; a signal may be written
/// twice. A contract sees the list of their places in the interface.
#[derive(Drop)]
pub struct Members {
    signals: Vec<InterfaceSignal>,
}

impl Model for Members {
    ghost use Rattle.std.specs.Prelude.{List, ℕ, map};

    ghost Value = { List ℕ };

    ghost view = { λ m. map (λ s. s.index) m.signals.items };
}

impl Members {
    /// No members. It takes no memory.
    pub fn new(alloc: Global) -> Members
        ensures { result ≡ [] }
    {
        Members {
            signals: Vec::new(alloc),
        }
    }

    /// Adds a member at the end.
    pub fn push(&mut self, member: InterfaceSignal) -> Result<(), AllocError>
        ensures ok { IfOk result (λ _. self.new ≡ self.old ++ member.index ∷ []) }
        ensures err { OnErr result (self.new ≡ self.old) }
    {
        self.signals.push(member)?;
        Ok(())
    }

    /// Whether each member is in the mask.
    pub fn are_in(&self, signals: u64) -> bool
        ensures { result ≡ list_all (bits signals) self.now }
    {
        are_all_in(&self.signals, signals)
    }

    /// Whether the signal is a member.
    #[tactic(auto, using(crate::proofs::Members::any_place))]
    pub fn has(&self, signal: InterfaceSignal) -> bool
        ensures { result ≡ list_any (nat_eq signal.index) self.now }
    {
        is_among(&self.signals, signal)
    }

    /// The first member, in written order, that is in the mask.
    #[tactic(auto, using(crate::proofs::Members::find_place))]
    pub fn first_in(&self, signals: u64) -> Option<InterfaceSignal>
        ensures { option_map (λ s. s.index) result ≡ find (bits signals) self.now }
    {
        match first_among(&self.signals, signals) {
            Some(member) => Some(*member),
            None => None,
        }
    }
}

/// Whether each of these is in the mask.
fn are_all_in(members: &[InterfaceSignal], signals: u64) -> bool
    ensures { result ≡ list_all (λ s. bits signals s.index) members.now }
{
    members
        .iter()
        .all(|member| mask::has(signals, member.index))
}

/// Whether the signal is one of these.
fn is_among(members: &[InterfaceSignal], signal: InterfaceSignal) -> bool
    ensures { result ≡ list_any (λ s. nat_eq signal.index s.index) members.now }
{
    members.iter().any(|member| signal.index == member.index)
}

/// The first of these that is in the mask.
fn first_among(members: &[InterfaceSignal], signals: u64) -> Option<&InterfaceSignal>
    ensures { option_map (λ s. s.now) result ≡ find (λ s. bits signals s.index) members.now }
{
    members
        .iter()
        .find(|member| mask::has(signals, member.index))
}

/// A relation between signals that may be offered: it is about the offers alone.
#[derive(Drop)]
pub enum Relation {
    /// `A # B # C`: at most one of them is offered.
    Exclusion(Members),
    /// `A => B`: the second is offered where the first is.
    Implication(InterfaceSignal, InterfaceSignal),
}

impl Relation {
    ghost use Rattle.est_relations.specs.Keeping.{is_within};

    /// Whether each signal of the relation is in the mask.
    pub fn is_within(&self, signals: u64) -> bool
        ensures { result ≡ is_within (bits signals) self.now }
    {
        match self {
            Relation::Exclusion(members) => members.are_in(signals),
            Relation::Implication(condition, implied) => {
                mask::has(signals, condition.index) && mask::has(signals, implied.index)
            }
        }
    }
}

/// Whether each signal of each of these is in the mask.
fn are_within(relations: &[Relation], signals: u64) -> bool
    ensures { result ≡ list_all (is_within (bits signals)) relations.now }
{
    relations.iter().all(|relation| relation.is_within(signals))
}

/// At most `MOST_RELATIONS` relations. A contract sees the list of them; the first has the number
/// 1.
#[derive(Drop)]
pub struct Relations {
    relations: Vec<Relation>,
}

impl Model for Relations {
    ghost use Rattle.std.specs.Prelude.{List, ◌≤◌, length};
    ghost use Rattle.est_relations.specs.declared.relations.Relation.{Relation};
    ghost use Rattle.est_relations.specs.declared.relations.TheConstants.{MOST_RELATIONS};

    ghost Value = { List Relation };

    ghost view = { λ r. r.relations.items };

    ghost invariant = { λ r. length r.relations.items ≤ MOST_RELATIONS };
}

impl Relations {
    ghost use Rattle.est_relations.specs.Keeping.{AreOverInputs};

    /// No relation. It takes no memory.
    pub fn new(alloc: Global) -> Relations
        ensures { result ≡ [] }
    {
        Relations {
            relations: Vec::new(alloc),
        }
    }

    /// Whether there is no room for another relation.
    pub fn is_full(&self) -> bool
        ensures { IsTrue result ↔ (length self.now ≡ MOST_RELATIONS) }
    {
        self.relations.len() == MOST_RELATIONS
    }

    /// Adds a relation at the end.
    pub fn push(&mut self, relation: Relation) -> Result<(), AllocError>
        requires room { length self.old < MOST_RELATIONS }
        ensures ok { IfOk result (λ _. self.new ≡ self.old ++ relation ∷ []) }
        ensures err { OnErr result (self.new ≡ self.old) }
    {
        self.relations.push(relation)?;
        Ok(())
    }

    /// Whether each signal of each relation may be offered.
    pub fn are_over_inputs(&self, interface: &Interface) -> bool
        ensures { IsTrue result ↔ AreOverInputs interface.now self.now }
    {
        are_within(&self.relations, interface.offerable())
    }

    /// The relations, in order.
    pub fn as_slice(&self) -> &[Relation]
        ensures all { result.now ≡ self.now }
        ensures bound { length self.now ≤ MOST_RELATIONS }
    {
        &self.relations
    }
}
