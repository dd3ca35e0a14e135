//! Dynamic separation of duty: which set is violated first, and by which session.
ghost use Rattle.std.specs.Prelude.{◌≡◌, ◌++◌, ◌∷◌, [], None};
ghost use Rattle.rbac_policy.specs.Inner.Violations.{first_violation, holds_many, least_violator};
ghost use Rattle.rbac_policy.specs.Inner.Violations.{lesser, place_of_set, violated_by};
ghost use Rattle.rbac_policy.specs.Inner.Violations.{violation_of, violator};

use crate::below::below;
use crate::commands::SessionId;
use crate::names::Name;
use crate::rows::{DsdSet, Session};
use rbac_closure::hierarchy::RoleHierarchy;

/// A separation set, and a session that violates it.
#[derive(Clone, Copy, PartialEq, Eq)]
pub struct Violation {
    /// The place of the entry that made the set, counted from 0.
    pub place: u64,
    /// The name of the set.
    pub set: Name,
    /// The session.
    pub session: SessionId,
}

/// Whether at least `count` of the set's roles are active in the session, or lie below one that is.
fn holds_many(set: &DsdSet, session: &Session, juniors: &RoleHierarchy) -> bool
    ensures { result ≡ holds_many juniors.now set.now session.now }
{
    let held = below(juniors, session.active).common(set.roles);
    set.count <= held.len() as u64
}

fn violator(row: &Option<Session>, set: &DsdSet, juniors: &RoleHierarchy) -> Option<SessionId>
    ensures { result ≡ violator juniors.now set.now row.now }
{
    match row {
        Some(session) if holds_many(set, session, juniors) => Some(session.number),
        _ => None,
    }
}

fn lesser(known: Option<SessionId>, found: Option<SessionId>) -> Option<SessionId>
    ensures { result ≡ lesser (λ n. n) known found }
{
    let Some(least) = known else {
        return found;
    };
    match found {
        Some(session) if session.number() < least.number() => Some(session),
        _ => Some(least),
    }
}

/// The least session of these that holds too many roles of the set.
#[tactic(auto, unfolding(crate::specs::Inner::Violations::least_violator))]
fn least_violator(
    set: &DsdSet,
    sessions: &[Option<Session>],
    juniors: &RoleHierarchy,
) -> Option<SessionId>
    ensures { result ≡ least_violator juniors.now sessions.now set.now }
{
    let mut least = None;
    for row in sessions {
        least = lesser(least, violator(row, set, juniors));
    }
    least
}

/// The same, with one more session beside those of the table.
#[tactic(auto, unfolding(crate::specs::Inner::Violations::least_violator))]
fn least_of_all(
    set: &DsdSet,
    sessions: &[Option<Session>],
    coming: &Option<Session>,
    juniors: &RoleHierarchy,
) -> Option<SessionId>
    ensures { result ≡ least_violator juniors.now (sessions.now ++ coming.now ∷ []) set.now }
{
    let least = least_violator(set, sessions, juniors);
    lesser(least, violator(coming, set, juniors))
}

fn violated_by(set: &DsdSet, session: Option<SessionId>) -> Option<Violation>
    ensures { result ≡ violated_by set.now session }
{
    match session {
        Some(session) => Some(Violation {
            place: set.place,
            set: set.name,
            session,
        }),
        None => None,
    }
}

fn violation_of(
    row: &Option<DsdSet>,
    sessions: &[Option<Session>],
    coming: &Option<Session>,
    juniors: &RoleHierarchy,
) -> Option<Violation>
    ensures { result ≡ violation_of juniors.now (sessions.now ++ coming.now ∷ []) row.now }
{
    match row {
        Some(set) => violated_by(set, least_of_all(set, sessions, coming, juniors)),
        None => None,
    }
}

fn earlier(known: Option<Violation>, found: Option<Violation>) -> Option<Violation>
    ensures { result ≡ lesser place_of_set known found }
{
    let Some(first) = known else {
        return found;
    };
    match found {
        Some(violation) if violation.place < first.place => Some(violation),
        _ => Some(first),
    }
}

/// The first of the sets, in order of creation, that one of the sessions or the coming one
/// violates, and the least session that does.
#[tactic(auto, unfolding(crate::specs::Inner::Violations::first_violation))]
pub(crate) fn first_violation(
    sets: &[Option<DsdSet>],
    sessions: &[Option<Session>],
    coming: &Option<Session>,
    juniors: &RoleHierarchy,
) -> Option<Violation>
    ensures { result ≡ first_violation juniors.now (sessions.now ++ coming.now ∷ []) sets.now }
{
    let mut first = None;
    for row in sets {
        first = earlier(first, violation_of(row, sessions, coming, juniors));
    }
    first
}

/// The same, with one more set beside those of the table.
#[tactic(auto, unfolding(crate::specs::Inner::Violations::first_violation))]
pub(crate) fn first_violation_with(
    sets: &[Option<DsdSet>],
    coming: &Option<DsdSet>,
    sessions: &[Option<Session>],
    juniors: &RoleHierarchy,
) -> Option<Violation>
    ensures { result ≡ first_violation juniors.now (sessions.now ++ None ∷ [])
        (sets.now ++ coming.now ∷ []) }
{
    let first = first_violation(sets, sessions, &None, juniors);
    earlier(first, violation_of(coming, sessions, &None, juniors))
}
