//! What is asked of a policy, and how often.

use crate::office::{give, open_office, pair, role, root_session};
use anyhow::{Result, bail};
use rbac_admin::policy_step::decide;
use rbac_policy::commands::{AdminCommand, SessionId};
use rbac_policy::names::Name;
use rbac_policy::objects::{Object, Operation};
use rbac_policy::policy::Policy;
use std::alloc::Global;

/// A change of the policy that can be taken back.
#[derive(Drop)]
enum Change {
    /// A pair is granted to a role.
    Grant(Name, (Operation, Object)),
    /// A role is assigned to root.
    Assign(Name),
    /// An edge is added.
    Edge(Name, Name),
}

/// What is asked of the policy.
#[derive(Drop)]
enum Question {
    /// Whether a session may do this.
    May(u16, (Operation, Object)),
    /// Whether a change would be accepted.
    Decided(Change),
    /// A change is made, and taken back.
    Made(Change),
}

/// The question of a word.
fn question_of(word: &str) -> Option<Question> {
    match word {
        "held" => Some(Question::May(2, pair(0))),
        "not-held" => Some(Question::May(2, pair(5))),
        "no-session" => Some(Question::May(999, pair(0))),
        "grant" => Some(Question::Made(Change::Grant(role(4, 1), pair(0)))),
        "assign" => Some(Question::Made(Change::Assign(role(1, 1)))),
        "edge-decided" => Some(Question::Decided(Change::Edge(role(0, 0), role(1, 2)))),
        "edge" => Some(Question::Made(Change::Edge(role(0, 0), role(1, 2)))),
        _ => None,
    }
}

/// The command of a change, or the one that takes it back.
fn command(change: &Change, is_back: bool) -> AdminCommand {
    let user = Name::root();
    match *change {
        Change::Grant(role, (operation, object)) => if is_back {
            AdminCommand::RevokePermission {
                role,
                operation,
                object,
            }
        } else {
            AdminCommand::GrantPermission {
                role,
                operation,
                object,
            }
        },
        Change::Assign(role) => if is_back {
            AdminCommand::DeassignUser { user, role }
        } else {
            AdminCommand::AssignUser { user, role }
        },
        Change::Edge(senior, junior) => if is_back {
            AdminCommand::DeleteInheritance { senior, junior }
        } else {
            AdminCommand::AddInheritance { senior, junior }
        },
    }
}

/// Asks once: whether the answer is yes, or how many of the commands are accepted.
fn ask(policy: &mut Policy, question: &Question) -> u64 {
    match question {
        Question::May(session, (operation, object)) => {
            u64::from(policy.may(SessionId::new(*session), operation, object))
        }
        Question::Decided(change) => {
            u64::from(decide(policy, root_session(), command(change, false)).is_ok())
        }
        Question::Made(change) => {
            let made = give(policy, command(change, false));
            u64::from(made) + u64::from(give(policy, command(change, true)))
        }
    }
}

/// Asks so often, and answers the sum of the answers.
fn ask_often(policy: &mut Policy, question: &Question, repetitions: u64) -> u64 {
    let mut sum = 0u64;
    for _ in 0..repetitions {
        sum = sum.wrapping_add(ask(policy, question));
    }
    sum
}

/// Asks the policy of the office `repetitions` times, and prints how many of the questions
/// were answered yes, or how many of the commands were accepted:
///
/// - `held`, `not-held`: whether a session may do what a role four levels below its own may do, or
///   a role that is not below its own; `no-session`: whether one may that does not live;
/// - `grant`: a permission is granted and revoked; `assign`: a role is assigned to a user and taken
///   back;
/// - `edge-decided`: an edge is decided, which asks 16 sets and 60 sessions; `edge`: it is added
///   and taken away.
pub fn ask_again(
    rt: &(impl Alloc<A = Global> + Print),
    word: &str,
    repetitions: u64,
) -> Result<()> {
    let Some(question) = question_of(word) else {
        bail!("{word} is no work");
    };
    let Some(mut office) = open_office(rt.alloc())? else {
        bail!("a part of the office is refused");
    };
    let answered = ask_often(&mut office, &question, repetitions);
    println!(rt; "{word}: {repetitions} repetitions, {answered}")?;
    Ok(())
}
