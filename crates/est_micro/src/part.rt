//! A part of a kernel's statement that a walk has come to, and its parts.

ghost use Rattle.std.specs.Prelude.{◌≡◌, ◌<◌, ◌≤◌, ◌+◌, length};
ghost use Rattle.est_micro.specs.Inner.Parts.{AreTwo, begun_by, body_part, first_part};
ghost use Rattle.est_micro.specs.Inner.Parts.{gated, second_part, side_part};

use crate::cells::StatementPlace;
use crate::extents::{number_after, past};
use crate::sides::Side;
use est_kernel::pause_set::PauseSet;
use est_kernel::statement::Statement;
use est_meaning::status::Status;
use est_net::net::Net;

/// A part of a kernel's statement that a walk has come to.
#[derive(Clone, Copy)]
pub struct Part<'a> {
    pub statement: &'a Statement,
    pub place: StatementPlace,
    /// What is known of whether it is begun, or run.
    pub gate: Status,
    /// The pauses from which it goes on, if it does.
    pub pauses: Option<&'a PauseSet>,
}

impl<'a> Part<'a> {
    /// The part by another gate.
    #[inline(always)]
    pub fn gated(self, gate: Status) -> Part<'a>
        ensures { result ≡ gated self.entry gate }
    {
        Part { gate, ..self }
    }

    /// The part where it is begun, if at all, by this gate.
    #[inline(always)]
    pub fn begun(self, gate: Status) -> Part<'a>
        ensures { result ≡ begun_by self.entry gate }
    {
        Part {
            gate,
            pauses: None,
            ..self
        }
    }

    /// A side of this `||`.
    #[inline(always)]
    pub fn side(&self, side: &Side<'a>) -> Part<'a>
        ensures { result ≡ side_part self.now side.now }
    {
        Part {
            statement: side.statement,
            place: StatementPlace {
                number: side.number,
                cell: side.cell,
                ..self.place
            },
            ..*self
        }
    }

    /// Its body, inside this many traps. It has this many cells of its own, and one for each trap
    /// around it.
    #[inline(always)]
    pub fn body(&self, p: &'a Statement, own: usize, traps: usize) -> Part<'a>
        requires number { self.now.place.number < 18446744073709551615 }
        requires cell { self.now.place.cell + self.now.place.traps + own ≤ 18446744073709551615 }
        ensures { result ≡ body_part self.now p.entry own traps }
    {
        Part {
            statement: p,
            place: StatementPlace {
                number: self.place.number + 1,
                cell: self.place.cell + self.place.traps + own,
                traps,
                ..self.place
            },
            ..*self
        }
    }

    /// Its first part.
    #[inline(always)]
    pub fn first(&self, p: &'a Statement) -> Part<'a>
        requires number { self.now.place.number < 18446744073709551615 }
        requires cell { self.now.place.cell + self.now.place.traps + 3 ≤ 18446744073709551615 }
        ensures { result ≡ first_part self.now p.entry }
    {
        self.body(p, 3, self.place.traps)
    }

    /// Its second part, after the first one.
    #[inline(always)]
    pub fn second(&self, net: &Net, p: &'a Statement, q: &'a Statement) -> Part<'a>
        requires { AreTwo net.now.extents.items (length net.now.cells.items) self.now.place
            p.now q.now }
        ensures { result ≡ second_part self.now p.entry q.entry }
    {
        let first = self.first(p);
        Part {
            statement: q,
            place: StatementPlace {
                number: number_after(net, &first.place, p),
                cell: past(net, &first.place, p),
                ..self.place
            },
            ..*self
        }
    }
}
