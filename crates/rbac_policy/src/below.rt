//! The order of roles: what lies below a set of them.
ghost use Rattle.std.specs.Prelude.{◌≡◌, ◌↔◌, ℕ};
ghost use Rattle.rbac_closure.specs.Edges.{IsBelowSome};
ghost use Rattle.rbac_closure.specs.Sets.{Has};
ghost use Rattle.rbac_policy.specs.Order.{below};

use rbac_closure::hierarchy::RoleHierarchy;
use rbac_closure::role_sets::RoleSet;

/// The roles of the set, and all that lie below one of them.
pub fn below(hierarchy: &RoleHierarchy, roles: RoleSet) -> RoleSet
    ensures chains { (place : ℕ) → Has result place ↔ IsBelowSome hierarchy.now roles place }
    ensures exact { result ≡ below hierarchy.now roles }
{
    hierarchy.below_some(roles)
}
