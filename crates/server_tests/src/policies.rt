//! What a policy says after entries that it takes in.
use crate::lines::{LOGIN, entry};
use rbac_policy::commands::SessionId;
use rbac_policy::objects::{Object, Operation};
use rbac_policy::opening::opening_entries;
use rbac_policy::policy::Policy;

/// A policy that takes in the opening entries has the tables of the opening policy.
#[test]
fn the_opening_policy_is_that_of_its_entries(rt: HostRuntime) {
    let mut policy = Policy::empty();
    for entry in &opening_entries() {
        policy.absorb(entry);
    }
    assert!(rt; policy == Policy::opening());
}

/// Entries of no session. Root is not authorized for the role of its first login.
const UNAUTHORIZED: [&str; 3] = [
    "{\"cmd\":\"addrole\",\"role\":\"driver\"}",
    "{\"cmd\":\"login\",\"roles\":[\"driver\"],\"user\":\"root\"}",
    LOGIN,
];

/// A login in a role that its user is not authorized for, which no server accepts, makes a session
/// that has ended at once.
#[test]
fn roles_of_sessions(rt: HostRuntime) {
    let mut policy = Policy::opening();
    for line in UNAUTHORIZED {
        policy.absorb(&entry(&rt, rt.alloc(), 0, line));
    }
    let (first, second) = (SessionId::new(1), SessionId::new(2));
    assert!(rt; !policy.lives(first) && policy.lives(second));
    assert!(rt; policy.may(second, &Operation::Administer, &Object::Policy));
}
