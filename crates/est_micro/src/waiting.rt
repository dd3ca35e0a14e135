//! Which of the inputs that are not asked an open test waits for.
//!
//! What calls itself here does so on a part of the statement or of the test that it was given, and
//! goes as deep as they are.

ghost use Rattle.std.specs.Prelude.{◌≡◌, ◌<◌, ◌≤◌, ◌+◌, ◌&&◌, true, false, cond, length};
ghost use Rattle.est_kernel.specs.Bits.{bits};
ghost use Rattle.est_kernel.specs.Masks.{FitsMasks};
ghost use Rattle.est_kernel.specs.Pauses.{pauses_of};
ghost use Rattle.est_kernel.specs.View.{joint_of, name_of, query_of};
ghost use Rattle.est_kernel.specs.declared.statement.Statement.TheVariants.{Present', Suspend'};
ghost use Rattle.est_kernel.specs.declared.statement.Statement.TheVariants.{Loop', Trap'};
ghost use Rattle.est_kernel.specs.declared.statement.Statement.TheVariants.{Local' as Binder'};
ghost use Rattle.est_meaning.specs.States.{is_live};
ghost use Rattle.est_meaning.specs.declared.status.Status.TheVariants.{Absent, Present};
ghost use Rattle.est_meaning.specs.Views.{env_of};
ghost use Rattle.est_cells.specs.Tables.{sheet_size};
ghost use Rattle.est_net.specs.Cells.{cell_at};
ghost use Rattle.est_net.specs.Layout.{output_count, sheet_in};
ghost use Rattle.est_micro.specs.Engine.{IsNetOf};
ghost use Rattle.est_micro.specs.Waiting.{AreWaiting, IsWaiting, first_read, first_read_of_joint};
ghost use Rattle.est_micro.specs.Waiting.{if_unasked, pauses_from, waits_at, waits_for};

use crate::question::Question;
use est_kernel::mask;
use est_kernel::pause_set::PauseSet;
use est_kernel::state::State;
use est_kernel::statement::{LocalSignal, Operands, Signal, Statement, Test};
use est_meaning::signal_set::{self, Env};
use est_meaning::status::Status;
use est_net::net::Net;
use est_rounds::answer::answer_to;
use est_rounds::resume::has_live;

/// What the search for open tests reads.
#[derive(Clone, Copy)]
pub struct WaitContext<'a> {
    /// The cells.
    pub net: &'a Net,
    /// The pauses from which the statement goes on.
    pub pauses: &'a PauseSet,
    /// The inputs that are not asked.
    pub unasked: u64,
}

/// What the cells of a statement say of its open tests.
#[derive(Clone, Copy)]
pub struct Waited {
    /// The input, by its place in the interface.
    pub input: Option<u8>,
    /// The first place after the cells.
    pub past: usize,
}

/// The signal, if it is one of the interface that is not asked.
fn if_unasked(unasked: u64, s: Signal) -> Option<u8>
    ensures { result ≡ if_unasked (bits unasked) (name_of s) }
{
    match s {
        Signal::Interface(s) => {
            if mask::has(unasked, s.index) {
                Some(s.index)
            } else {
                None
            }
        }
        Signal::Local(_) => None,
    }
}

/// The first signal in a test that is not asked.
#[cycle(read)]
fn first_read(unasked: u64, test: &Test) -> Option<u8>
    ensures { result ≡ first_read (bits unasked) (query_of test.now) }
{
    match test {
        Test::Tick => None,
        Test::Status(s) => if_unasked(unasked, *s),
        Test::Not(t) => first_read(unasked, t),
        Test::Joined(_, operands) => first_read_of_joint(unasked, operands),
    }
}

/// The first signal in operands that is not asked.
#[cycle(read)]
fn first_read_of_joint(unasked: u64, operands: &Operands) -> Option<u8>
    ensures { result ≡ first_read_of_joint (bits unasked) (joint_of operands.now) }
{
    let first = first_read(unasked, &operands.first);
    let mut found = first.or(first_read(unasked, &operands.second));
    for test in &operands.later {
        found = found.or(first_read(unasked, test));
    }
    found
}

/// What a test of this status waits for.
fn waits_at(unasked: u64, asked: Status, status: Status, test: &Test) -> Option<u8>
    ensures { result ≡ waits_at (bits unasked) asked status (query_of test.now) }
{
    match (asked, status) {
        (Status::Absent, _) => None,
        (_, Status::Unknown) => first_read(unasked, test),
        _ => None,
    }
}

/// What two parts wait for, the second after the first.
#[cycle(find_waited)]
fn find_in_two(
    context: &WaitContext<'_>,
    main: bool,
    cell: usize,
    traps: usize,
    p: &Statement,
    q: &Statement,
    run: Status,
    env: &Env,
) -> Waited
    requires fits { FitsMasks p.now × FitsMasks q.now }
    requires within { cell + sheet_size main p.now traps + sheet_size main q.now traps
        ≤ length context.now.net.now.cells.items }
    ensures { AreWaiting (bits context.now.unasked) main p.now q.now cell traps
        context.now.net.now.cells.items (pauses_of context.now.pauses.now) run
        (env_of env.now) result }
{
    let first = find_waited(context, main, cell, traps, p, run, env);
    let second = find_waited(context, main, first.past, traps, q, run, env);
    Waited {
        input: first.input.or(second.input),
        past: second.past,
    }
}

/// What a `present` waits for.
#[cycle(find_waited)]
fn find_in_present(
    context: &WaitContext<'_>,
    main: bool,
    cell: usize,
    traps: usize,
    test: &Test,
    p: &Statement,
    q: &Statement,
    run: Status,
    env: &Env,
) -> Waited
    requires fits { FitsMasks p.now × FitsMasks q.now }
    requires within { cell + traps + 3 + sheet_size main p.now traps + sheet_size main q.now traps
        ≤ length context.now.net.now.cells.items }
    ensures { (a b : _) → IsWaiting (bits context.now.unasked) main
        (Present' test.now a p.now b q.now) cell traps context.now.net.now.cells.items
        (pauses_of context.now.pauses.now) run (env_of env.now) result }
{
    let go = context.net.status(cell);
    let own = waits_at(context.unasked, go, answer_to(env, test), test);
    let parts = find_in_two(context, main, cell + traps + 3, traps, p, q, run, env);
    Waited {
        input: own.or(parts.input),
        past: parts.past,
    }
}

/// Whether the test of a `suspend` may be asked: whether it goes on and is run.
fn suspend_status(main: bool, p: &Statement, pauses: &PauseSet, run: Status) -> Status
    ensures { result ≡ cond (main && is_live p.now (pauses_of pauses.now)) run Absent }
{
    if main && has_live(p, pauses) {
        run
    } else {
        Status::Absent
    }
}

/// What a `suspend` waits for.
#[cycle(find_waited)]
fn find_in_suspend(
    context: &WaitContext<'_>,
    main: bool,
    cell: usize,
    traps: usize,
    test: &Test,
    p: &Statement,
    run: Status,
    env: &Env,
) -> Waited
    requires fits { FitsMasks p.now }
    requires within { cell + traps + 3 + sheet_size main p.now traps
        ≤ length context.now.net.now.cells.items }
    ensures { (a : _) → IsWaiting (bits context.now.unasked) main (Suspend' test.now a p.now)
        cell traps context.now.net.now.cells.items (pauses_of context.now.pauses.now) run
        (env_of env.now) result }
{
    let status = answer_to(env, test);
    let is_asked = suspend_status(main, p, context.pauses, run);
    let own = waits_at(context.unasked, is_asked, status, test);
    let inside = run.and(status.opposite());
    let body = find_waited(context, main, cell + traps + 3, traps, p, inside, env);
    Waited {
        input: own.or(body.input),
        past: body.past,
    }
}

/// What a loop of the incarnation that can go on waits for.
#[cycle(find_waited)]
fn find_in_loop(
    context: &WaitContext<'_>,
    main: bool,
    cell: usize,
    traps: usize,
    p: &Statement,
    run: Status,
    env: &Env,
) -> Waited
    requires main { main ≡ true }
    requires fits { FitsMasks p.now }
    requires within { cell + traps + 3 + sheet_size true p.now traps + sheet_size false p.now traps
        ≤ length context.now.net.now.cells.items }
    ensures { (a : _) → IsWaiting (bits context.now.unasked) main (Loop' a p.now)
        cell traps context.now.net.now.cells.items (pauses_of context.now.pauses.now) run
        (env_of env.now) result }
{
    let first = find_waited(context, main, cell + traps + 3, traps, p, run, env);
    let again = find_waited(context, false, first.past, traps, p, run, env);
    Waited {
        input: first.input.or(again.input),
        past: again.past,
    }
}

/// What a local signal's binder waits for.
#[cycle(find_waited)]
fn find_in_local(
    context: &WaitContext<'_>,
    main: bool,
    cell: usize,
    traps: usize,
    s: LocalSignal,
    p: &Statement,
    run: Status,
    env: &Env,
) -> Waited
    requires fits { (s.index < 64) × FitsMasks p.now }
    requires within { cell + traps + 4 + sheet_size main p.now traps
        ≤ length context.now.net.now.cells.items }
    ensures { (a : _) → IsWaiting (bits context.now.unasked) main (Binder' s a p.now)
        cell traps context.now.net.now.cells.items (pauses_of context.now.pauses.now) run
        (env_of env.now) result }
{
    let inside = signal_set::set_local(env, s, context.net.status(cell + traps + 3));
    find_waited(context, main, cell + traps + 4, traps, p, run, &inside)
}

/// What a statement whose cells begin at a place waits for.
#[cycle(find_waited)]
pub fn find_waited(
    context: &WaitContext<'_>,
    main: bool,
    cell: usize,
    traps: usize,
    s: &Statement,
    run: Status,
    env: &Env,
) -> Waited
    requires fits { FitsMasks s.now }
    requires within { cell + sheet_size main s.now traps ≤ length context.now.net.now.cells.items }
    ensures { IsWaiting (bits context.now.unasked) main s.now cell traps
        context.now.net.now.cells.items (pauses_of context.now.pauses.now) run
        (env_of env.now) result }
{
    let parts = cell + traps + 3;
    match s {
        Statement::Nothing | Statement::Pause(_) | Statement::Emit(_) | Statement::Exit(_) =>
            Waited {
                input: None,
                past: parts,
            },
        Statement::Present(t, p, q) => {
            find_in_present(context, main, cell, traps, t, p, q, run, env)
        }
        Statement::Suspend(t, p) => find_in_suspend(context, main, cell, traps, t, p, run, env),
        Statement::Seq(p, q) => find_in_two(context, main, parts, traps, p, q, run, env),
        Statement::Par(p, q) => find_in_two(context, main, parts, traps, p, q, run, env),
        Statement::Loop(p) => {
            if main {
                find_in_loop(context, main, cell, traps, p, run, env)
            } else {
                find_waited(context, main, parts, traps, p, run, env)
            }
        }
        Statement::Trap(p) => find_waited(context, main, parts, traps + 1, p, run, env),
        Statement::Local(s, p) => find_in_local(context, main, cell, traps, *s, p, run, env),
    }
}

/// The first input in the text that is not asked and that an open test waits for.
pub fn first_waited(net: &Net, question: &Question<'_>, env: &Env) -> Option<u8>
    requires net { IsNetOf net.now question.now.kernel.now }
    ensures { result ≡ waits_for (bits question.now.unasked) true question.now.kernel.now.root
        (pauses_from question.now.state.now) Present (env_of env.now)
        (sheet_in (cell_at net.now.cells.items) true question.now.kernel.now.root
        (output_count question.now.kernel.now.interface) 0) }
{
    let none = PauseSet::new();
    let pauses = match question.state {
        State::Fresh | State::Done => &none,
        State::Paused(pauses) => pauses,
    };
    let context = WaitContext {
        net,
        pauses,
        unasked: question.unasked,
    };
    find_waited(
        &context,
        true,
        net.output_count(),
        0,
        question.kernel.root(),
        Status::Present,
        env,
    )
    .input
}
