//! Names of users, roles and separation sets, and lists of role names, in fixed space.
ghost use Rattle.std.specs.Prelude.{◌≡◌, ◌≤◌, codes, length, slice_get, IsTrue, IfOk, Some, None};
ghost use Rattle.std.specs.Prelude.{if◌then◌else◌};
ghost use Rattle.std.specs.Cmp.{partial_equiv_from_equiv};
ghost use Rattle.std.specs.Cmp.Lexicographic.{pointwise, lists_equiv, nat_list_eq_equiv};
ghost use Rattle.std.specs.List.{list_all};
ghost use Rattle.std.specs.Str.{bytes_eq};
ghost use Rattle.rbac_policy.specs.Names.{is_name, is_name_byte};

use std::alloc::{AllocError, Global};
use std::marker::Model;
use std::sync::ArcSlice;

/// The most bytes that a name may have.
pub const NAME_BYTES: usize = 24;

/// The most roles that one command may list.
pub const LISTED_ROLES: usize = 32;

/// A name of a user, a role or a separation set: letters, digits, `_` and `-`, at least one and at
/// most `NAME_BYTES`. A contract sees the list of its bytes.
#[derive(Clone, Copy)]
pub struct Name {
    bytes: [u8; NAME_BYTES],
    count: u8,
}

impl Model for Name {
    ghost use Rattle.std.specs.Prelude.{List, ℕ, ◌-◌, ◌++◌, length, take, replicate, IsTrue};
    ghost use Rattle.est_text.specs.Identifiers.{IsFilled};
    ghost use Rattle.rbac_policy.specs.Names.{is_name};
    ghost use Rattle.rbac_policy.specs.declared.names.TheConstants.{NAME_BYTES};

    ghost Value = { List ℕ };

    ghost view = { λ n. take n.count n.bytes };

    ghost invariant = { λ n. IsFilled NAME_BYTES n.bytes n.count
        × IsTrue (is_name (take n.count n.bytes)) };

    ghost inverse = { λ s. record {
      bytes = s ++ replicate (NAME_BYTES - length s) 0;
      count = length s;
    } };
}

fn is_name_byte(byte: u8) -> bool
    ensures { result ≡ is_name_byte byte }
{
    byte.is_ascii_alphanumeric() || byte == b'_' || byte == b'-'
}

fn only_name_bytes(text: &[u8]) -> bool
    ensures { result ≡ list_all is_name_byte text.now }
{
    text.iter().all(|byte| is_name_byte(*byte))
}

/// Whether the text is a name.
pub fn is_name(text: &[u8]) -> bool
    ensures { result ≡ is_name text.now }
{
    match text {
        [] => false,
        [_, ..] => text.len() <= NAME_BYTES && only_name_bytes(text),
    }
}

impl Name {
    /// The name that these bytes are, if they are one.
    pub fn from_bytes(text: &[u8]) -> Option<Name>
        ensures { result ≡ (if is_name text.now then Some text.now else None) }
    {
        if !is_name(text) {
            return None;
        }
        let mut bytes = [0; NAME_BYTES];
        bytes[..text.len()].copy_from_slice(text);
        Some(Name {
            bytes,
            count: text.len() as u8,
        })
    }

    /// The name `root`, of the first user and of its role.
    pub fn root() -> Name
        ensures { result ≡ codes "root" }
    {
        Name {
            bytes: *b"root\0\0\0\0\0\0\0\0\0\0\0\0\0\0\0\0\0\0\0\0",
            count: 4,
        }
    }

    /// Its bytes, at least one and at most `NAME_BYTES`, all of them ASCII.
    pub fn as_bytes(&self) -> &[u8]
        ensures { result.now ≡ self.now }
    {
        &self.bytes[..self.count as usize]
    }

    /// Its text.
    pub fn as_str(&self) -> &str
        ensures same { result.now ≡ self.now }
        ensures name { IsTrue (is_name self.now) }
    {
        let text = &self.bytes[..self.count as usize];
        std::str::from_utf8(text).unwrap()
    }
}

impl PartialEq for Name {
    ghost eq = { bytes_eq };

    ghost laws = { partial_equiv_from_equiv nat_list_eq_equiv };

    fn eq(&self, other: &Name) -> bool {
        self.as_bytes() == other.as_bytes()
    }
}

impl Eq for Name {
    ghost laws = { nat_list_eq_equiv };
}

/// The roles that a command lists, at most `LISTED_ROLES`, in the order of the command. A clone
/// shares the list and takes no memory. A contract sees the list of their names.
#[derive(Drop)]
pub struct RoleNames {
    names: ArcSlice<Name, Global>,
}

impl Model for RoleNames {
    ghost use Rattle.std.specs.Prelude.{List, ℕ, ◌≤◌, length};
    ghost use Rattle.std.specs.Arc.{arc_slice_items};
    ghost use Rattle.rbac_policy.specs.declared.names.TheConstants.{LISTED_ROLES};

    ghost Value = { List (List ℕ) };

    ghost view = { λ r. arc_slice_items r.names };

    ghost invariant = { λ r. length (arc_slice_items r.names) ≤ LISTED_ROLES };
}

impl RoleNames {
    /// The list of these roles.
    pub fn from_vec(names: Vec<Name>) -> Result<RoleNames, AllocError>
        requires { length names.items ≤ LISTED_ROLES }
        ensures { IfOk result (λ roles. roles ≡ names.items) }
    {
        let names = ArcSlice::from_vec(names)?;
        Ok(RoleNames { names })
    }

    /// How many there are, at most `LISTED_ROLES`.
    pub fn len(&self) -> usize
        ensures same { result ≡ length self.now }
        ensures short { result ≤ LISTED_ROLES }
    {
        self.names.len()
    }

    /// The role at this place, counted from 0.
    pub fn get(&self, place: usize) -> Option<Name>
        ensures { result ≡ slice_get self.now place }
    {
        self.as_slice().get(place).copied()
    }

    /// The roles, at most `LISTED_ROLES`.
    pub fn as_slice(&self) -> &[Name]
        ensures same { result.now ≡ self.now }
        ensures short { length self.now ≤ LISTED_ROLES }
    {
        self.names.as_slice()
    }
}

impl Clone for RoleNames {
    ghost is_clone = { λ one other. other ≡ one };

    fn clone(&self) -> Result<RoleNames, AllocError> {
        let names = self.names.clone()?;
        Ok(RoleNames { names })
    }
}

impl PartialEq for RoleNames {
    ghost eq = { pointwise bytes_eq };

    ghost laws = { partial_equiv_from_equiv (lists_equiv nat_list_eq_equiv) };

    fn eq(&self, other: &RoleNames) -> bool {
        self.as_slice() == other.as_slice()
    }
}

impl Eq for RoleNames {
    ghost laws = { lists_equiv nat_list_eq_equiv };
}
