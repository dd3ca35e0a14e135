//! From a line to its reply: the rules of a connection, over any desk.
ghost use Rattle.std.specs.Prelude.{◌≡◌, Some};
ghost use Rattle.rbac_policy.specs.declared.commands.AdminCommand.TheVariants.{CreateSession};
ghost use Rattle.rbac_policy.specs.declared.commands.AdminCommand.TheVariants.{DeleteSession};
ghost use Rattle.wire_lines.specs.declared.request.Request.TheVariants.{Policy};
ghost use Rattle.client_loop.specs.Asking.{to_policy};
ghost use Rattle.client_loop.specs.Logins.{session_of};
ghost use Rattle.client_loop.specs.LineSteps.{Held, Asks, login_after, with_login, LineStep};

use crate::desk::Desk;
use crate::login::{Login, held_session, log_in};
use access_core::refusal::Refusal;
use access_core::reply::Reply;
use rbac_admin::refusal::PolicyRefusal;
use rbac_policy::commands::{AdminCommand, SessionId};
use rbac_policy::names::{Name, RoleNames};
use std::alloc::Global;
use wire_lines::reading::RequestReader;
use wire_lines::request::Request;
use wire_reader::lines::LINE_BYTES;

/// What a line is answered, and the login that the connection holds afterwards.
pub(crate) struct LineAnswer {
    pub(crate) reply: Reply,
    pub(crate) login: Option<Login>,
}

/// Answers a policy command of the session that the connection holds; NoSession if it holds none.
fn answer_held_command<D: Desk>(
    desk: &mut D,
    held: &Option<SessionId>,
    command: AdminCommand,
) -> Reply
    ensures { Held D.answers held.now (λ session. to_policy (Some session) command)
        desk.old result desk.new }
{
    match held {
        Some(session) => desk.admin(Some(*session), command),
        None => Reply::Refused(Refusal::Policy(PolicyRefusal::NoSession)),
    }
}

/// Answers a login of this user in these roles; AlreadyLoggedIn if the connection holds a login.
fn answer_login<D: Desk>(
    desk: &mut D,
    login: Option<Login>,
    user: Name,
    roles: RoleNames,
) -> LineAnswer
    ensures asked { Asks D.answers (Policy (CreateSession user roles)) (session_of login)
        desk.old result.reply desk.new }
    ensures login { session_of result.login
        ≡ login_after (Policy (CreateSession user roles)) result.reply (session_of login) }
{
    match login {
        Some(login) => LineAnswer {
            reply: Reply::Refused(Refusal::AlreadyLoggedIn),
            login: Some(login),
        },
        None => {
            let (reply, login) = log_in(desk, user, roles);
            LineAnswer { reply, login }
        }
    }
}

/// Answers a logout; NoSession if the connection holds no login.
fn answer_logout<D: Desk>(desk: &mut D, login: Option<Login>) -> LineAnswer
    ensures asked { Asks D.answers (Policy DeleteSession) (session_of login)
        desk.old result.reply desk.new }
    ensures login { session_of result.login
        ≡ login_after (Policy DeleteSession) result.reply (session_of login) }
{
    match login {
        Some(login) => {
            let (reply, login) = login.end(desk);
            LineAnswer { reply, login }
        }
        None => LineAnswer {
            reply: Reply::Refused(Refusal::Policy(PolicyRefusal::NoSession)),
            login: None,
        },
    }
}

/// Answers a policy command on a connection that holds this login. An accepted login or logout
/// changes what login the connection holds; so does a logout whose session had ended.
fn answer_policy_command<D: Desk>(
    desk: &mut D,
    login: Option<Login>,
    command: AdminCommand,
) -> LineAnswer
    ensures asked { Asks D.answers (Policy command) (session_of login)
        desk.old result.reply desk.new }
    ensures login { session_of result.login
        ≡ login_after (Policy command) result.reply (session_of login) }
{
    match command {
        AdminCommand::CreateSession { user, roles } => answer_login(desk, login, user, roles),
        AdminCommand::DeleteSession => answer_logout(desk, login),
        command => {
            let reply = answer_held_command(desk, &held_session(&login), command);
            LineAnswer { reply, login }
        }
    }
}

/// Answers a request on a connection that holds this login; NoSession if it needs one and the
/// connection holds none.
fn answer_request<D: Desk>(desk: &mut D, login: Option<Login>, request: Request) -> LineAnswer
    ensures asked { Asks D.answers request (session_of login) desk.old result.reply desk.new }
    ensures login { session_of result.login
        ≡ login_after request result.reply (session_of login) }
{
    let held = held_session(&login);
    let reply = match request {
        Request::Policy(command) => return answer_policy_command(desk, login, command),
        Request::Slot { slot, command } => match held {
            Some(session) => desk.slot(session, slot, command),
            None => Reply::Refused(Refusal::Policy(PolicyRefusal::NoSession)),
        },
        Request::Check { operation, object } => match held {
            Some(session) => desk.check(session, operation, &object),
            None => Reply::Refused(Refusal::Policy(PolicyRefusal::NoSession)),
        },
    };
    LineAnswer { reply, login }
}

/// Answers a line on a connection that holds this login.
pub(crate) fn respond<D: Desk>(
    alloc: Global,
    requests: &mut RequestReader,
    desk: &mut D,
    login: Option<Login>,
    line: &[u8],
) -> LineAnswer
    ensures { LineStep D.answers line.now (with_login desk.old (session_of login))
        result.reply (with_login desk.new (session_of result.login)) }
{
    // `wire_reader` gives no such line. The branch is here so that the line step says an answer for
    // every line.
    if line.len() > LINE_BYTES {
        let reply = Reply::Refused(Refusal::TooLong);
        return LineAnswer { reply, login };
    }
    match requests.read(alloc, line) {
        Ok(request) => answer_request(desk, login, request),
        Err(refusal) => {
            let reply = Reply::Refused(refusal);
            LineAnswer { reply, login }
        }
    }
}
