//! The edges between roles, and what they make: all that lies below each role and above it.
ghost use Rattle.std.specs.Prelude.{◌≡◌, ◌↔◌, ◌⊎◌, ◌<◌, ◌^◌, ℕ, IsTrue, length, replicate};
ghost use Rattle.std.specs.Prelude.{slice_index, slice_set, map};
ghost use Rattle.std.specs.Cmp.{partial_equiv_from_equiv};
ghost use Rattle.std.specs.Cmp.Lexicographic.{nat_list_eq_equiv};
ghost use Rattle.std.specs.Str.{bytes_eq};
ghost use Rattle.rbac_closure.specs.Sets.{Has, either, without_place};
ghost use Rattle.rbac_closure.specs.Edges.{IsEdge, IsAbove, IsBelowSome, edge_added, edge_removed};
ghost use Rattle.rbac_closure.specs.Edges.{role_cleared};
ghost use Rattle.rbac_closure.specs.Inner.Rows.{HasJuniors, IsInTable};

use crate::role_sets::{ROLES, RoleSet};
use std::marker::Model;

/// Edges from senior roles to junior ones, and what lies below and above each role, itself
/// included. A contract sees the edges alone: for each place, the set of the juniors to which an
/// edge leads from it.
#[derive(Clone, Drop)]
pub struct RoleHierarchy {
    juniors: [RoleSet; ROLES],
    below: [RoleSet; ROLES],
    above: [RoleSet; ROLES],
}

impl Model for RoleHierarchy {
    ghost use Rattle.std.specs.Prelude.{List, ℕ};
    ghost use Rattle.rbac_closure.specs.Inner.Rows.{IsClosed};

    ghost Value = { List ℕ };

    ghost view = { λ r. r.juniors };

    ghost invariant = { λ r. IsClosed r.juniors r.below r.above };
}

/// Hierarchies are equal where their edges are.
impl PartialEq for RoleHierarchy {
    ghost eq = { bytes_eq };

    ghost laws = { partial_equiv_from_equiv nat_list_eq_equiv };

    fn eq(&self, other: &RoleHierarchy) -> bool {
        self.juniors == other.juniors
    }
}

impl Eq for RoleHierarchy {
    ghost laws = { nat_list_eq_equiv };
}

/// Each place's set has that place alone.
fn each_alone() -> [RoleSet; ROLES]
    ensures { (role : ℕ) → role < ROLES → slice_index result role ≡ 2 ^ role }
{
    let mut rows = [RoleSet::empty(); ROLES];
    for role in 0..ROLES {
        rows[role] = RoleSet::single(role);
    }
    rows
}

/// The rows of these places take in the set.
fn join(rows: &mut [RoleSet; ROLES], places: RoleSet, more: RoleSet)
    ensures { (role : ℕ) → role < ROLES → (place : ℕ) → Has (slice_index rows.new role) place
        ↔ (Has (slice_index rows.old role) place ⊎ (Has places role × Has more place)) }
{
    for role in 0..ROLES {
        if places.has(role) {
            rows[role] = rows[role].union(more);
        }
    }
}

/// The place is taken out of each set.
fn take_out(rows: &mut [RoleSet; ROLES], place: usize)
    requires { place < ROLES }
    ensures { rows.new ≡ map (λ row. without_place row place) rows.old }
{
    for role in 0..ROLES {
        rows[role] = rows[role].without(place);
    }
}

impl RoleHierarchy {
    /// No edges.
    pub fn new() -> RoleHierarchy
        ensures { result ≡ replicate ROLES 0 }
    {
        RoleHierarchy {
            juniors: [RoleSet::empty(); ROLES],
            below: each_alone(),
            above: each_alone(),
        }
    }

    /// Whether an edge leads from the senior to the junior.
    pub fn has_edge(&self, senior: usize, junior: usize) -> bool
        requires senior_is { senior < ROLES }
        requires junior_is { junior < ROLES }
        ensures { IsTrue result ↔ IsEdge self.now senior junior }
    {
        self.juniors[senior].has(junior)
    }

    /// The role, and all that lies below it.
    pub fn below(&self, role: usize) -> RoleSet
        requires { role < ROLES }
        ensures { (place : ℕ) → Has result place ↔ IsAbove self.now role place }
    {
        self.below[role]
    }

    /// The roles of the set, and all that lies below one of them.
    pub fn below_some(&self, roles: RoleSet) -> RoleSet
        ensures found { (place : ℕ) → Has result place ↔ IsBelowSome self.now roles place }
        ensures within { (place : ℕ) → Has result place → place < ROLES }
        ensures places { length self.now ≡ ROLES }
    {
        // For the proof: it needs the invariants of `self` and of `roles`, and sees them once a
        // field of each is looked at.
        let _ = &self.juniors;
        let _ = &roles.bits;
        let mut found = roles;
        let mut next = 0;
        while let Some(role) = roles.first_from(next) {
            found = found.union(self.below(role));
            next = role + 1;
        }
        found
    }

    /// Adds the edge. The caller has to ask for a cycle first: there would be one if the senior is
    /// the junior or lies below it.
    pub fn add_edge(&mut self, senior: usize, junior: usize)
        requires senior_is { senior < ROLES }
        requires junior_is { junior < ROLES }
        ensures added { self.new ≡ edge_added senior junior self.old }
        ensures again { IsEdge self.old senior junior → self.new ≡ self.old }
        ensures places { length self.new ≡ ROLES }
    {
        let upper = self.above[senior];
        let lower = self.below[junior];
        self.juniors[senior] = self.juniors[senior].with(junior);
        join(&mut self.below, upper, lower);
        join(&mut self.above, lower, upper);
    }

    /// Adds an edge from the senior to each of these.
    fn add_edges(&mut self, senior: usize, juniors: RoleSet)
        requires { senior < ROLES }
        ensures { HasJuniors self.old self.new senior juniors ROLES }
    {
        for junior in 0..ROLES {
            if juniors.has(junior) {
                self.add_edge(senior, junior);
            }
        }
    }

    /// The hierarchy of these edges.
    fn rebuild(juniors: &[RoleSet; ROLES]) -> RoleHierarchy
        requires { IsInTable juniors.now }
        ensures { result ≡ juniors.now }
    {
        let mut hierarchy = RoleHierarchy::new();
        for senior in 0..ROLES {
            hierarchy.add_edges(senior, juniors[senior]);
        }
        hierarchy
    }

    /// The same with the edge, in a hierarchy of its own.
    pub fn with_edge(&self, senior: usize, junior: usize) -> RoleHierarchy
        requires senior_is { senior < ROLES }
        requires junior_is { junior < ROLES }
        ensures { result ≡ edge_added senior junior self.now }
    {
        let mut hierarchy = RoleHierarchy {
            juniors: self.juniors,
            below: self.below,
            above: self.above,
        };
        hierarchy.add_edge(senior, junior);
        hierarchy
    }

    /// Removes the edge. What lies below the senior by other edges stays there.
    pub fn remove_edge(&mut self, senior: usize, junior: usize)
        requires senior_is { senior < ROLES }
        requires junior_is { junior < ROLES }
        ensures removed { self.new ≡ edge_removed senior junior self.old }
        ensures absent { ¬ (IsEdge self.old senior junior) → self.new ≡ self.old }
    {
        let mut juniors = self.juniors;
        juniors[senior] = juniors[senior].without(junior);
        *self = RoleHierarchy::rebuild(&juniors);
    }

    /// Removes all edges from and to the role.
    pub fn clear_role(&mut self, role: usize)
        requires { role < ROLES }
        ensures { self.new ≡ role_cleared role self.old }
    {
        let mut juniors = self.juniors;
        take_out(&mut juniors, role);
        juniors[role] = RoleSet::empty();
        *self = RoleHierarchy::rebuild(&juniors);
    }
}
