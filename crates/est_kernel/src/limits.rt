//! How large a kernel may be: how many statements it has, and how deep its loops, traps and local
//! signals are nested.

ghost use Rattle.std.specs.Prelude.{◌≡◌, ◌≤◌, ◌+◌, ◌-◌};
ghost use Rattle.est_kernel.specs.View.{joint_of, query_of, term_of};
ghost use Rattle.est_kernel.specs.Limits.{joint_word_count, statement_count, word_count};
ghost use Rattle.est_kernel.specs.Limits.{loop_depth, trap_depth, local_depth, limit_passed};

use crate::statement::{Operands, Statement, Test};

/// The most statements of a kernel.
pub const MOST_STATEMENTS: u16 = 2048;
/// How deep loops may be nested.
pub const MOST_LOOPS: u16 = 16;
/// How deep traps may be nested.
pub const MOST_TRAPS: u16 = 16;
/// How deep local signals may be nested.
pub const MOST_LOCALS: u16 = 32;

/// What a kernel has too many of.
#[derive(Clone, Copy, PartialEq, Eq, Debug)]
pub enum Limit {
    /// Statements, over `MOST_STATEMENTS`.
    Statements,
    /// Nested loops, over `MOST_LOOPS`.
    Loops,
    /// Nested traps, over `MOST_TRAPS`.
    Traps,
    /// Nested local signals, over `MOST_LOCALS`.
    Locals,
}

/// How deep the loops, traps and local signals of a statement are nested.
#[derive(Clone, Copy)]
struct Depths {
    loops: u16,
    traps: u16,
    locals: u16,
}

impl Depths {
    ghost use Rattle.std.specs.Prelude.{max};

    const NONE: Depths = Depths {
        loops: 0,
        traps: 0,
        locals: 0,
    };

    fn larger(self, other: Depths) -> Depths
        ensures loops { result.loops ≡ max self.loops other.loops }
        ensures traps { result.traps ≡ max self.traps other.traps }
        ensures locals { result.locals ≡ max self.locals other.locals }
    {
        Depths {
            loops: self.loops.max(other.loops),
            traps: self.traps.max(other.traps),
            locals: self.locals.max(other.locals),
        }
    }
}

/// How deep loops, traps and local signals are nested. Recursion is as deep as the statement, which
/// has at most 2,048 nodes.
#[tactic(auto, using(crate::proofs::Counts::loops_are_statements, crate::proofs::Counts::traps_are_statements, crate::proofs::Counts::locals_are_statements))]
fn nesting_of(s: &Statement) -> Depths
    requires { statement_count (term_of s.now) ≤ MOST_STATEMENTS }
    ensures loops { result.loops ≡ loop_depth (term_of s.now) }
    ensures traps { result.traps ≡ trap_depth (term_of s.now) }
    ensures locals { result.locals ≡ local_depth (term_of s.now) }
{
    match s {
        Statement::Nothing | Statement::Pause(_) | Statement::Emit(_) | Statement::Exit(_) => {
            Depths::NONE
        }
        Statement::Present(_, p, q) | Statement::Seq(p, q) | Statement::Par(p, q) => {
            nesting_of(p).larger(nesting_of(q))
        }
        Statement::Suspend(_, p) => nesting_of(p),
        Statement::Loop(p) => {
            let inner = nesting_of(p);
            Depths {
                loops: inner.loops + 1,
                ..inner
            }
        }
        Statement::Trap(p) => {
            let inner = nesting_of(p);
            Depths {
                traps: inner.traps + 1,
                ..inner
            }
        }
        Statement::Local(_, p) => {
            let inner = nesting_of(p);
            Depths {
                locals: inner.locals + 1,
                ..inner
            }
        }
    }
}

/// What is left of a room for statements after the words of a test (`not`, `and`, `or`). A room
/// begins as the limit plus one: it is 0 exactly when the limit is passed, and then nothing more is
/// counted. Recursion is no deeper than the room.
#[cycle(words)]
fn room_after_test(t: &Test, room: u16) -> u16
    ensures { result ≡ room - word_count (query_of t.now) }
{
    if room == 0 {
        return 0;
    }
    match t {
        Test::Tick | Test::Status(_) => room,
        Test::Not(t) => room_after_test(t, room - 1),
        Test::Joined(_, operands) => room_after_operands(operands, room - 1),
    }
}

/// The same for operands, whose first connective is counted already.
#[cycle(words)]
#[tactic(auto, using(crate::proofs::Tests::operands_words))]
fn room_after_operands(operands: &Operands, room: u16) -> u16
    ensures { result ≡ room + 1 - joint_word_count (joint_of operands.now) }
{
    let first = room_after_test(&operands.first, room);
    let mut left = room_after_test(&operands.second, first);
    for test in &operands.later {
        left = room_after_test(test, left.saturating_sub(1));
    }
    left
}

/// What is left of a room for statements after this statement. Recursion is no deeper than the
/// room, whatever the statement.
fn room_after(s: &Statement, room: u16) -> u16
    ensures { result ≡ room - statement_count (term_of s.now) }
{
    if room == 0 {
        return 0;
    }
    let room = room - 1;
    match s {
        Statement::Nothing | Statement::Pause(_) | Statement::Emit(_) | Statement::Exit(_) => room,
        Statement::Present(t, p, q) => room_after(q, room_after(p, room_after_test(t, room))),
        Statement::Suspend(t, p) => room_after(p, room_after_test(t, room)),
        Statement::Seq(p, q) | Statement::Par(p, q) => room_after(q, room_after(p, room)),
        Statement::Loop(p) | Statement::Trap(p) | Statement::Local(_, p) => room_after(p, room),
    }
}

/// The first limit that a statement passes.
pub fn limit_passed(s: &Statement) -> Option<Limit>
    ensures { result ≡ limit_passed (term_of s.now) }
{
    if room_after(s, MOST_STATEMENTS + 1) == 0 {
        return Some(Limit::Statements);
    }
    let depths = nesting_of(s);
    if depths.loops > MOST_LOOPS {
        Some(Limit::Loops)
    } else if depths.traps > MOST_TRAPS {
        Some(Limit::Traps)
    } else if depths.locals > MOST_LOCALS {
        Some(Limit::Locals)
    } else {
        None
    }
}
