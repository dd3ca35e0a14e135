//! Desks: what a connection asks.
ghost use Rattle.std.specs.Prelude.{◌≡◌};
ghost use Rattle.rbac_policy.specs.declared.commands.AdminCommand.TheVariants.{DeleteSession};
ghost use Rattle.access_core.specs.declared.reply.Reply.{Reply};
ghost use Rattle.client_loop.specs.Asking.{Ask, to_policy, to_slot, to_check, DeskAnswers};
ghost use Rattle.client_loop.specs.Asking.{IsLogoutReply};

use access_core::command::SlotCommand;
use access_core::reply::Reply;
use access_core::single::Single;
use rbac_policy::commands::{AdminCommand, SessionId};
use rbac_policy::objects::{Object, Operation};

/// What one connection talks to: it answers the connection's commands. It is either a desk of one
/// client, or a seat at a policy and slots that many share.
pub trait Desk {
    /// Relates the desk before, what it is asked, its reply, and the desk after.
    ghost answers: { Self → Ask → Reply → Self → Type 0 };

    /// Answers a policy command of this session, or a login, which has no session yet. A logout is
    /// refused only if its session has ended, or if memory was refused.
    fn admin(&mut self, session: Option<SessionId>, command: AdminCommand) -> Reply
        ensures answered { answers self.old (to_policy session command) result self.new }
        ensures logout { command ≡ DeleteSession → IsLogoutReply result };

    /// Answers a command of this session on the slot of this number.
    fn slot(&mut self, session: SessionId, number: u64, command: SlotCommand) -> Reply
        ensures { answers self.old (to_slot session number command) result self.new };

    /// Answers whether the session may do the operation on the object.
    fn check(&mut self, session: SessionId, operation: Operation, object: &Object) -> Reply
        ensures { answers self.old (to_check session operation object.now) result self.new };
}

impl Desk for Single {
    ghost answers = { λ before ask given after. DeskAnswers before ask given after };

    fn admin(&mut self, session: Option<SessionId>, command: AdminCommand) -> Reply {
        self.admin(session, command)
    }

    fn slot(&mut self, session: SessionId, number: u64, command: SlotCommand) -> Reply {
        self.slot(session, number, command)
    }

    fn check(&mut self, session: SessionId, operation: Operation, object: &Object) -> Reply {
        let allowed = Single::check(self, session, operation, object);
        Reply::Check { allowed }
    }
}
