//! The audit of the policy list.
ghost use Rattle.std.specs.Prelude.{◌≡◌, ◌↔◌, ◌<◌, ℕ, IsTrue, IfOk, IfErr, OnOk, length, slice_get};
ghost use Rattle.rbac_policy.specs.Opening.{opening_entries};
ghost use Rattle.rbac_policy.specs.StandsFor.{StandsFor};
ghost use Rattle.rbac_admin.specs.PolicyLists.{IsAccepted, IsPolicyList};
ghost use Rattle.audit_report.specs.Replaying.{IsRightAt};
ghost use Rattle.audit_report.specs.Findings.{IsPolicyFinding};
ghost use Rattle.audit_report.specs.Inner.Openings.{is_root, is_opening};

use crate::finding::Finding;
use rbac_admin::policy_step::decide;
use rbac_admin::room::has_room;
use rbac_policy::commands::{AdminCommand, Entry, SessionId};
use rbac_policy::names::Name;
use rbac_policy::objects::{Object, Operation};
use rbac_policy::policy::Policy;
use rbac_policy::sizes::OPENING_ENTRIES;
use std::alloc::AllocError;

/// Whether the name is `root`.
fn is_root(name: &Name) -> bool
    ensures { result ≡ is_root name.now }
{
    *name == Name::root()
}

/// Whether the command is the opening one of this place, counted from 0.
fn is_opening(place: usize, command: &AdminCommand) -> bool
    ensures { result ≡ is_opening place command.now }
{
    match command {
        AdminCommand::AddUser { user } => place == 0 && is_root(user),
        AdminCommand::AddRole { role } => place == 1 && is_root(role),
        AdminCommand::AssignUser { user, role } => place == 2 && (is_root(user) && is_root(role)),
        AdminCommand::GrantPermission {
            role,
            operation,
            object,
        } => {
            let is_right = matches!(operation, Operation::Administer);
            place == 3 && (is_root(role) && (is_right && matches!(object, Object::Policy)))
        }
        _ => false,
    }
}

/// Whether this place of the list has its opening entry.
fn opens_at(entries: &[Entry], place: usize) -> bool
    requires { place < length opening_entries }
    ensures { IsTrue result ↔ (slice_get entries.now place ≡ slice_get opening_entries place) }
{
    match entries.get(place) {
        Some(entry) => entry.session.is_none() && is_opening(place, &entry.command),
        None => false,
    }
}

/// Ok if the list begins with the opening entries, else the first place where it doesn't.
fn check_opening(entries: &[Entry]) -> Result<(), Finding>
    ensures ok { OnOk result ((at : ℕ) → at < length opening_entries → IsRightAt entries.now at) }
    ensures err { IfErr result (IsPolicyFinding entries.now) }
{
    for at in 0..OPENING_ENTRIES {
        if !opens_at(entries, at) {
            return Err(Finding::Policy {
                place: at as u64 + 1,
            });
        }
    }
    Ok(())
}

/// Whether the two are the same session, or both none.
fn is_same_session(one: Option<SessionId>, other: Option<SessionId>) -> bool
    ensures { IsTrue result ↔ (one ≡ other) }
{
    one == other
}

/// Whether the policy step gives this entry for its session and command after those before it, and
/// there is room for it.
fn is_accepted(policy: &Policy, before: &[Entry], entry: &Entry) -> Result<bool, AllocError>
    requires { StandsFor policy.now before.now }
    ensures { IfOk result (λ accepted. IsTrue accepted ↔ IsAccepted before.now entry.now) }
{
    if !has_room(before, &entry.command) {
        return Ok(false);
    }
    let asked = entry.clone()?;
    match decide(policy, asked.session, asked.command) {
        Ok(given) => Ok(is_same_session(given.session, entry.session)),
        Err(_) => Ok(false),
    }
}

/// Ok if the list is a policy list, else the first finding in it, or that memory was refused.
pub(crate) fn audit_policy(entries: &[Entry]) -> Result<(), Finding>
    ensures ok { OnOk result (IsPolicyList entries.now) }
    ensures err { IfErr result (IsPolicyFinding entries.now) }
{
    check_opening(entries)?;
    let mut policy = Policy::opening();
    for at in OPENING_ENTRIES..entries.len() {
        if !is_accepted(&policy, &entries[..at], &entries[at])? {
            return Err(Finding::Policy {
                place: at as u64 + 1,
            });
        }
        policy.absorb(&entries[at]);
    }
    Ok(())
}
