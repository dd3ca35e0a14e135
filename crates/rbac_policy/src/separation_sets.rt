//! Steps on the table of separation sets.
ghost use Rattle.std.specs.Prelude.{◌≡◌, ◌<◌, None};
ghost use Rattle.std.specs.List.{list_any};
ghost use Rattle.rbac_policy.specs.Inner.SetTables.{first_set_with, place_of_row, set_is, set_with};
ghost use Rattle.rbac_policy.specs.Inner.Violations.{lesser};

use crate::names::Name;
use crate::rows::DsdSet;
use crate::sizes::{ROLES, SETS};

fn set_is(row: &Option<DsdSet>, name: &Name) -> bool
    ensures { result ≡ set_is name.now row.now }
{
    match row {
        Some(row) => row.name == *name,
        None => false,
    }
}

/// Whether there is such a separation set.
pub fn has_set(sets: &[Option<DsdSet>; SETS], name: &Name) -> bool
    ensures { result ≡ list_any (set_is name.now) sets.now }
{
    sets.iter().any(|row| set_is(row, name))
}

fn set_with(row: &Option<DsdSet>, place: usize) -> Option<DsdSet>
    requires { place < ROLES }
    ensures { result ≡ set_with place row.now }
{
    match row {
        Some(row) => {
            if row.roles.has(place) {
                Some(*row)
            } else {
                None
            }
        }
        None => None,
    }
}

fn earlier(known: Option<DsdSet>, found: Option<DsdSet>) -> Option<DsdSet>
    ensures { result ≡ lesser place_of_row known found }
{
    let Some(first) = known else {
        return found;
    };
    match found {
        Some(row) if row.place < first.place => Some(row),
        _ => Some(first),
    }
}

/// The first separation set, in order of creation, of which the role at this place is a member.
#[tactic(auto, unfolding(crate::specs::Inner::SetTables::first_set_with))]
pub fn first_set_with(sets: &[Option<DsdSet>; SETS], place: usize) -> Option<DsdSet>
    requires { place < ROLES }
    ensures { result ≡ first_set_with place sets.now }
{
    let mut first = None;
    for row in sets {
        first = earlier(first, set_with(row, place));
    }
    first
}
