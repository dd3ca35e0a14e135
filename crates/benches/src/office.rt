//! The policy that is asked: an office of 60 users.
ghost use Rattle.std.specs.Prelude.{◌<◌};

use est_text::identifier::Identifier;
use rbac_admin::policy_step::decide;
use rbac_policy::commands::{AdminCommand, SessionId};
use rbac_policy::names::{Name, RoleNames};
use rbac_policy::objects::{Object, Operation, SLOTS, SlotNumber};
use rbac_policy::policy::Policy;
use std::alloc::{AllocError, Global};

/// Levels of the order, and roles on each; root's role stands beside them.
const LEVELS: u32 = 5;

const WIDTH: u32 = 6;

/// What the office is made of.
enum Part {
    /// The session of root, who administers the policy.
    Root,
    Role,
    /// Each role lies above two of the next level.
    Edge,
    /// The pairs are granted to the lowest roles.
    Pair,
    User,
    /// Each user has one role.
    Assignment,
    /// Each user has a session, in which its role is active.
    Session,
    /// Nobody holds root's role, a lowest role and one of the level above it, all three at once.
    Set,
}

/// How many of each there are: users besides root, and pairs besides root's own.
const PARTS: [(Part, u32); 8] = [
    (Part::Root, 1),
    (Part::Role, LEVELS * WIDTH),
    (Part::Edge, 2 * (LEVELS - 1) * WIDTH),
    (Part::Pair, 249),
    (Part::User, 59),
    (Part::Assignment, 59),
    (Part::Session, 59),
    (Part::Set, 16),
];

/// The name of a letter and two digits. These always make a name; root stands where they don't, so
/// that nothing can fail here.
fn named(letter: u8, number: u32) -> Name {
    let digits = [
        letter,
        b'0' + (number / 10 % 10) as u8,
        b'0' + (number % 10) as u8,
    ];
    Name::from_bytes(&digits).unwrap_or(Name::root())
}

/// The role of this place on this level. After the last place of a level comes its first again.
pub fn role(level: u32, place: u32) -> Name
    requires { level < 32 }
{
    named(b'r', level * WIDTH + place % WIDTH)
}

/// One of 256 pairs: an operation, to offer or to observe, and a signal, one of eight in each slot.
pub fn pair(number: u32) -> (Operation, Object) {
    let slot = SlotNumber::new((number / 2 % u32::from(SLOTS)) as u8);
    let signal = Identifier::from_bytes(&[b'S', b'0' + (number / 32 % 8) as u8]);
    let object = match (slot, signal) {
        (Some(slot), Some(signal)) => Object::Signal(slot, signal),
        _ => Object::Policy,
    };
    if number % 2 == 0 {
        (Operation::Offer, object)
    } else {
        (Operation::Observe, object)
    }
}

/// A login of a user in one role.
fn login(alloc: Global, user: Name, role: Name) -> Result<AdminCommand, AllocError> {
    Ok(AdminCommand::CreateSession {
        user,
        roles: RoleNames::from_vec(vec![in alloc; role]?)?,
    })
}

/// The command that adds a part of this number.
fn command(alloc: Global, part: &Part, number: u32) -> Result<AdminCommand, AllocError> {
    let (user, any_role) = (named(b'u', number), named(b'r', number % (LEVELS * WIDTH)));
    let lowest = role(LEVELS - 1, number);
    let (level, place) = (number / 2 / WIDTH % LEVELS, number / 2);
    let (operation, object) = pair(number);
    Ok(match part {
        Part::Root => login(alloc, Name::root(), Name::root())?,
        Part::Role => AdminCommand::AddRole { role: any_role },
        Part::Edge => AdminCommand::AddInheritance {
            senior: role(level, place),
            junior: role(level + 1, place + number % 2),
        },
        Part::Pair => AdminCommand::GrantPermission {
            role: lowest,
            operation,
            object,
        },
        Part::User => AdminCommand::AddUser { user },
        Part::Assignment => AdminCommand::AssignUser {
            user,
            role: any_role,
        },
        Part::Session => login(alloc, user, any_role)?,
        Part::Set => AdminCommand::CreateDsdSet {
            set: named(b's', number),
            count: 3,
            roles: RoleNames::from_vec(vec![in alloc;
                Name::root(),
                lowest,
                role(LEVELS - 2, number),
            ]?)?,
        },
    })
}

/// The session of root, who administers the policy.
pub fn root_session() -> Option<SessionId> {
    Some(SessionId::new(1))
}

/// Decides the command, and takes its entry in. Whether it was accepted.
pub fn give(policy: &mut Policy, command: AdminCommand) -> bool {
    match decide(policy, root_session(), command) {
        Ok(entry) => {
            policy.absorb(&entry);
            true
        }
        Err(_) => false,
    }
}

/// Adds so many parts. Whether each was accepted.
fn add(alloc: Global, policy: &mut Policy, part: &Part, count: u32) -> Result<bool, AllocError> {
    let mut accepted = true;
    for number in 0..count {
        accepted &= give(policy, command(alloc, part, number)?);
    }
    Ok(accepted)
}

/// Adds all parts. Whether each was accepted.
fn add_all(alloc: Global, policy: &mut Policy) -> Result<bool, AllocError> {
    let mut accepted = true;
    for (part, count) in &PARTS {
        accepted &= add(alloc, policy, part, *count)?;
    }
    Ok(accepted)
}

/// The policy of the office; none if a part was refused.
pub fn open_office(alloc: Global) -> Result<Option<Policy>, AllocError> {
    let mut policy = Policy::opening();
    let accepted = add_all(alloc, &mut policy)?;
    Ok(if accepted { Some(policy) } else { None })
}
