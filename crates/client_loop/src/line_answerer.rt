//! The server's side of one connection: it answers the lines.
ghost use Rattle.client_loop.specs.LineSteps.{Tells, TellsNothing};
ghost use Rattle.client_loop.specs.Inner.Clients.{seen_of};

use crate::answer::{LineAnswer, respond};
use crate::desk::Desk;
use crate::login::{Login, hold};
use std::alloc::{AllocError, Global};
use wire_lines::reading::RequestReader;
use wire_lines::reply::reply_text;
use wire_reader::serving::{AnswerText, Answerer};

/// The server's side of one connection: its login, if it holds one, and what reads its lines.
pub(crate) struct LineAnswerer {
    pub(crate) login: Option<Login>,
    pub(crate) requests: RequestReader,
}

impl<D: Desk> Answerer<D> for LineAnswerer {
    ghost tells = { λ before line text after.
        Tells D.answers line (seen_of before) text (seen_of after) };

    ghost fails = { λ before line after.
        TellsNothing D.answers line (seen_of before) (seen_of after) };

    fn answer(
        &mut self,
        alloc: Global,
        desk: &mut D,
        line: &[u8],
    ) -> Result<AnswerText, AllocError> {
        let held = self.login.take();
        let LineAnswer { reply, login } = respond(alloc, &mut self.requests, desk, held, line);
        hold(&mut self.login, login);
        reply_text(alloc, &reply)
    }
}
