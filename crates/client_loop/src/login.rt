//! Logins: sessions that someone has to end.
ghost use Rattle.std.specs.Prelude.{◌≡◌, Some, None, MatchResult};
ghost use Rattle.rbac_policy.specs.declared.commands.AdminCommand.TheVariants.{CreateSession};
ghost use Rattle.access_core.specs.declared.refusal.Refusal.TheVariants.{Memory};
ghost use Rattle.access_core.specs.declared.reply.Reply.TheVariants.{Refused};
ghost use Rattle.client_loop.specs.Asking.{to_policy, IsLogoutReply};
ghost use Rattle.client_loop.specs.Logins.{session_of, after_login, after_logout, EndsSession};
ghost use Rattle.client_loop.specs.Logins.{LogsOut, LogsOutAtLast};

use crate::desk::Desk;
use access_core::refusal::Refusal;
use access_core::reply::Reply;
use rbac_admin::refusal::PolicyRefusal;
use rbac_policy::commands::{AdminCommand, SessionId};
use rbac_policy::names::{Name, RoleNames};
use std::mem;
use std::sync::Wait;

/// What a logout did.
#[derive(Clone, Copy, PartialEq, Eq)]
pub enum Logout {
    /// The session lived, and was ended.
    Ended,
    /// The session had ended before.
    WasEnded,
}

/// A session that someone has to end. It has no `Drop`: a program that loses one doesn't compile.
pub struct Login {
    session: SessionId,
}

/// Asks for a session of this user in which these roles are active. If it is made, the login comes
/// with the reply.
pub fn log_in<D: Desk>(desk: &mut D, user: Name, roles: RoleNames) -> (Reply, Option<Login>)
    ensures asked { D.answers desk.old (to_policy None (CreateSession user roles)) result.0
        desk.new }
    ensures held { session_of result.1 ≡ after_login result.0 None }
{
    let reply = desk.admin(None, AdminCommand::CreateSession { user, roles });
    let login = match &reply {
        Reply::Login { session, .. } => Some(Login { session: *session }),
        _ => None,
    };
    (reply, login)
}

/// Stores the login, if there is one, in an empty place.
pub(crate) fn hold(place: &mut Option<Login>, login: Option<Login>)
    requires { place.old ≡ None }
    ensures { place.new ≡ login }
{
    match mem::replace(place, login) {
        None => {}
        Some(Login { session: _ }) => unreachable!(),
    }
}

/// The session of the login that is held, if one is.
pub(crate) fn held_session(login: &Option<Login>) -> Option<SessionId>
    ensures { result ≡ session_of login.now }
{
    match login {
        Some(login) => Some(login.session),
        None => None,
    }
}

impl Login {
    /// The number of the session.
    pub fn session(&self) -> SessionId
        ensures { result ≡ self.now.session }
    {
        self.session
    }

    /// The desk's reply to a logout of this session: it is ended now (`Changed`), or had ended
    /// before (NoSession), or memory was refused. No other reply comes, so the `_` of `end` and
    /// `logout` stand for one reply each.
    fn ask_end<D: Desk>(&self, desk: &mut D) -> Reply
        ensures asked { EndsSession D.answers self.now.session desk.old result desk.new }
        ensures reply { IsLogoutReply result }
    {
        desk.admin(Some(self.session), AdminCommand::DeleteSession)
    }

    /// Ends the session, and gives the reply. If memory was refused, the login comes back.
    pub(crate) fn end<D: Desk>(self, desk: &mut D) -> (Reply, Option<Login>)
        ensures asked { EndsSession D.answers self.session desk.old result.0 desk.new }
        ensures held { session_of result.1 ≡ after_logout result.0 (Some self.session) }
    {
        let reply = self.ask_end(desk);
        let Login { session } = self;
        let held = match &reply {
            Reply::Changed { .. } => None,
            Reply::Refused(Refusal::Policy(PolicyRefusal::NoSession)) => None,
            _ => Some(Login { session }),
        };
        (reply, held)
    }

    /// Ends the session.
    ///
    /// # Errors
    ///
    /// Where memory was refused: then the login comes back.
    pub fn logout<D: Desk>(self, desk: &mut D) -> Result<Logout, (Refusal, Login)>
        ensures { MatchResult result
            (λ done. LogsOut D.answers self.session desk.old done desk.new)
            (λ back. (back.0 ≡ Memory) × (back.1 ≡ self)
            × EndsSession D.answers self.session desk.old (Refused Memory) desk.new) }
    {
        let reply = self.ask_end(desk);
        let Login { session } = self;
        match reply {
            Reply::Refused(Refusal::Policy(PolicyRefusal::NoSession)) => Ok(Logout::WasEnded),
            Reply::Refused(refusal) => Err((refusal, Login { session })),
            _ => Ok(Logout::Ended),
        }
    }

    /// Ends the session, and asks again while memory is refused.
    pub fn logout_at_last<R: Wait, D: Desk>(self, rt: &R, desk: &mut D) -> Logout
        ensures { LogsOutAtLast D.answers self.session desk.old result desk.new }
    {
        let mut login = self;
        for _ in rt.forever() {
            match login.logout(desk) {
                Ok(done) => return done,
                Err((_, back)) => login = back,
            }
        }
        unreachable!()
    }
}
