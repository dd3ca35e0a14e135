//! The rows of the policy's tables. A set of roles names them by their places in the table of
//! roles.
use crate::commands::SessionId;
use crate::names::Name;
use crate::objects::{Object, Operation};
use rbac_closure::role_sets::RoleSet;

/// A user, with the roles that are assigned to it.
#[derive(Clone, Copy, PartialEq, Eq)]
pub struct User {
    /// Its name.
    pub name: Name,
    /// The roles that are assigned to it.
    pub roles: RoleSet,
}

/// A pair of an operation and an object, with the roles that are granted it.
#[derive(Clone, Copy, PartialEq, Eq)]
pub struct Grant {
    /// What may be done.
    pub operation: Operation,
    /// On what.
    pub object: Object,
    /// The roles that may.
    pub roles: RoleSet,
}

/// A live session, with the roles that are active in it.
#[derive(Clone, Copy, PartialEq, Eq)]
pub struct Session {
    /// Its number.
    pub number: SessionId,
    /// Its user.
    pub user: Name,
    /// The roles that are active in it.
    pub active: RoleSet,
}

/// A separation set: its name, its number, its roles, and the place of its entry in the list, which
/// orders the sets.
#[derive(Clone, Copy, PartialEq, Eq)]
pub struct DsdSet {
    /// Its name.
    pub name: Name,
    /// In one session, fewer of its roles than this may be active or below an active one.
    pub count: u64,
    /// Its roles.
    pub roles: RoleSet,
    /// The place of the entry that made it, counted from 0.
    pub place: u64,
}
