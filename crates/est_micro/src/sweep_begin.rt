//! A sweep through the cells of a statement that doesn't go on from its pauses: the gate says
//! whether it is begun. (The comments below call it a statement that is begun, if at all.)
//!
//! What calls itself here does so on a part of the statement that it was given, and goes as deep as
//! the statement is.

ghost use Rattle.std.specs.Prelude.{◌≡◌, ◌<◌, ◌≤◌, ◌+◌, true, false, length};
ghost use Rattle.est_kernel.specs.CodeViews.{code_of};
ghost use Rattle.est_kernel.specs.Limits.{trap_depth};
ghost use Rattle.est_kernel.specs.Masks.{FitsMasks, HasSignalBit};
ghost use Rattle.est_kernel.specs.View.{query_of, term_of};
ghost use Rattle.est_kernel.specs.declared.statement.Statement.TheVariants.{Nothing, Pause, Emit};
ghost use Rattle.est_kernel.specs.declared.statement.Statement.TheVariants.{Present', Suspend'};
ghost use Rattle.est_kernel.specs.declared.statement.Statement.TheVariants.{Seq', Loop', Par'};
ghost use Rattle.est_kernel.specs.declared.statement.Statement.TheVariants.{Trap', Exit};
ghost use Rattle.est_kernel.specs.declared.statement.Statement.TheVariants.{Local' as Binder'};
ghost use Rattle.est_meaning.specs.Environments.{status_of};
ghost use Rattle.est_meaning.specs.Views.{env_of};
ghost use Rattle.est_cells.specs.Tables.{sheet_size};
ghost use Rattle.est_net.specs.Extents.{HasExtents};
ghost use Rattle.est_net.specs.Kept.{kept};
ghost use Rattle.est_net.specs.Owners.{statements};
ghost use Rattle.est_micro.specs.Inner.Views.{IsBegun, IsFresh};
ghost use Rattle.est_micro.specs.declared.direction.Direction.TheVariants.{Forwards, Backwards};

use crate::cells::{self, StatementPlace, Swept};
use crate::direction::Direction;
use crate::extents::{number_after, past};
use crate::idle::past_idle;
use crate::learning::{fill_false, tell_cell};
use crate::sweep_kind::SweepKind;
use crate::{decided, must_can};
use est_kernel::completion::Completion;
use est_kernel::statement::{LocalSignal, Signal, Statement};
use est_meaning::signal_set::{self, Env};
use est_meaning::status::Status;
use est_net::net::Net;
use est_rounds::answer::answer_to;

/// Sweeps a statement without parts that gives this code where it is begun.
#[inline(always)]
fn begin_leaf<K: SweepKind>(
    net: &mut Net,
    at: &StatementPlace,
    completion: Completion,
    gate: Status,
) -> Swept
    requires code { code_of completion < 64 }
    requires within { at.now.cell + at.now.traps + 3 ≤ length net.old.cells.items }
    requires fresh { IsFresh K.first at.now.cell
        (at.now.cell + at.now.traps + 3) net.old.cells.items }
    requires few { at.now.traps ≤ 62 }
    ensures nothing { (e : _) → code_of completion ≡ 0
        → IsBegun Nothing at.now gate e net.old.cells.items net.new.cells.items result }
    ensures pause { (e n : _) → code_of completion ≡ 1
        → IsBegun (Pause n) at.now gate e net.old.cells.items net.new.cells.items result }
    ensures exit { (e k : _) → code_of completion ≡ k.index + 2
        → IsBegun (Exit k) at.now gate e net.old.cells.items net.new.cells.items result }
    ensures kept { kept net.new ≡ kept net.old }
{
    let go = tell_cell::<K>(net, at.cell, gate);
    let own = must_can::leaf(go, completion);
    cells::finish_statement::<K>(net, at, &own, at.cell + at.traps + 3)
}

/// Sweeps an emission.
fn begin_emit<K: SweepKind>(
    net: &mut Net,
    at: &StatementPlace,
    signal: Signal,
    gate: Status,
) -> Swept
    requires bit { HasSignalBit signal }
    requires within { at.now.cell + at.now.traps + 3 ≤ length net.old.cells.items }
    requires fresh { IsFresh K.first at.now.cell
        (at.now.cell + at.now.traps + 3) net.old.cells.items }
    requires few { at.now.traps ≤ 62 }
    ensures swept { (e : _)
        → IsBegun (Emit signal) at.now gate e net.old.cells.items net.new.cells.items result }
    ensures kept { kept net.new ≡ kept net.old }
{
    let go = tell_cell::<K>(net, at.cell, gate);
    let own = must_can::emission(go, signal);
    cells::finish_statement::<K>(net, at, &own, at.cell + at.traps + 3)
}

/// Sweeps a `present` whose test has this status.
#[cycle(sweep_begun)]
fn begin_present<K: SweepKind>(
    net: &mut Net,
    at: &StatementPlace,
    asked: Status,
    p: &Statement,
    q: &Statement,
    gate: Status,
    env: &Env,
) -> Swept
    requires fits { FitsMasks p.now × FitsMasks q.now }
    requires first_extents { HasExtents net.old.extents.items (at.now.number + 1)
        at.now.traps p.now }
    requires second_extents { HasExtents net.old.extents.items
        (at.now.number + 1 + statements p.now) at.now.traps q.now }
    requires within { at.now.cell + at.now.traps + 3 + sheet_size at.now.main p.now at.now.traps
        + sheet_size at.now.main q.now at.now.traps
        ≤ length net.old.cells.items }
    requires fresh { IsFresh K.first at.now.cell
        (at.now.cell + at.now.traps + 3 + sheet_size at.now.main p.now at.now.traps
        + sheet_size at.now.main q.now at.now.traps) net.old.cells.items }
    requires first_traps { at.now.traps + trap_depth (term_of p.now) ≤ 62 }
    requires second_traps { at.now.traps + trap_depth (term_of q.now) ≤ 62 }
    ensures swept { (t a b : _) → asked ≡ status_of (env_of env.now) (query_of t)
        → IsBegun (Present' t a p.now b q.now) at.now gate env.now net.old.cells.items
        net.new.cells.items result }
    ensures kept { kept net.new ≡ kept net.old }
{
    let go = tell_cell::<K>(net, at.cell, gate);
    let place = StatementPlace {
        number: at.number + 1,
        main: at.main,
        direction: at.direction,
        cell: at.cell + at.traps + 3,
        traps: at.traps,
    };
    let first = sweep_begun::<K>(net, &place, p, go.and(asked), env);
    let place = StatementPlace {
        number: number_after(net, &place, p),
        main: at.main,
        direction: at.direction,
        cell: first.past,
        traps: at.traps,
    };
    let second = sweep_begun::<K>(net, &place, q, go.and(asked.opposite()), env);
    let own = must_can::either(&first.judged, &second.judged);
    cells::finish_statement::<K>(net, at, &own, second.past)
}

/// Sweeps a `suspend`.
#[cycle(sweep_begun)]
fn begin_suspend<K: SweepKind>(
    net: &mut Net,
    at: &StatementPlace,
    p: &Statement,
    gate: Status,
    env: &Env,
) -> Swept
    requires fits { FitsMasks p.now }
    requires extents { HasExtents net.old.extents.items (at.now.number + 1)
        at.now.traps p.now }
    requires within { at.now.cell + at.now.traps + 3 + sheet_size at.now.main p.now at.now.traps
        ≤ length net.old.cells.items }
    requires fresh { IsFresh K.first at.now.cell
        (at.now.cell + at.now.traps + 3 + sheet_size at.now.main p.now at.now.traps)
        net.old.cells.items }
    requires traps { at.now.traps + trap_depth (term_of p.now) ≤ 62 }
    ensures swept { (t a : _)
        → IsBegun (Suspend' t a p.now) at.now gate env.now net.old.cells.items
        net.new.cells.items
        result }
    ensures kept { kept net.new ≡ kept net.old }
{
    let go = tell_cell::<K>(net, at.cell, gate);
    let place = StatementPlace {
        number: at.number + 1,
        main: at.main,
        direction: at.direction,
        cell: at.cell + at.traps + 3,
        traps: at.traps,
    };
    let body = sweep_begun::<K>(net, &place, p, go, env);
    cells::finish_statement::<K>(net, at, &body.judged, body.past)
}

/// Sweeps a `;`.
#[cycle(sweep_begun)]
fn begin_seq<K: SweepKind>(
    net: &mut Net,
    at: &StatementPlace,
    p: &Statement,
    q: &Statement,
    gate: Status,
    env: &Env,
) -> Swept
    requires fits { FitsMasks p.now × FitsMasks q.now }
    requires first_extents { HasExtents net.old.extents.items (at.now.number + 1)
        at.now.traps p.now }
    requires second_extents { HasExtents net.old.extents.items
        (at.now.number + 1 + statements p.now) at.now.traps q.now }
    requires within { at.now.cell + at.now.traps + 3 + sheet_size at.now.main p.now at.now.traps
        + sheet_size at.now.main q.now at.now.traps
        ≤ length net.old.cells.items }
    requires fresh { IsFresh K.first at.now.cell
        (at.now.cell + at.now.traps + 3 + sheet_size at.now.main p.now at.now.traps
        + sheet_size at.now.main q.now at.now.traps) net.old.cells.items }
    requires first_traps { at.now.traps + trap_depth (term_of p.now) ≤ 62 }
    requires second_traps { at.now.traps + trap_depth (term_of q.now) ≤ 62 }
    ensures swept { (a b : _)
        → IsBegun (Seq' a p.now b q.now) at.now gate env.now net.old.cells.items
        net.new.cells.items
        result }
    ensures kept { kept net.new ≡ kept net.old }
{
    let go = tell_cell::<K>(net, at.cell, gate);
    let place = StatementPlace {
        number: at.number + 1,
        main: at.main,
        direction: at.direction,
        cell: at.cell + at.traps + 3,
        traps: at.traps,
    };
    let first = sweep_begun::<K>(net, &place, p, go, env);
    let inside = must_can::with_emitted(env, first.judged.must.signals);
    let later = must_can::ends(&first.judged);
    let place = StatementPlace {
        number: number_after(net, &place, p),
        main: at.main,
        direction: at.direction,
        cell: first.past,
        traps: at.traps,
    };
    let second = sweep_begun::<K>(net, &place, q, later, &inside);
    let own = must_can::followed(&first.judged, &second.judged);
    cells::finish_statement::<K>(net, at, &own, second.past)
}

/// Sweeps a loop of the incarnation that can go on: its body, and then the cells of its restart.
#[cycle(sweep_begun)]
fn begin_loop<K: SweepKind>(
    net: &mut Net,
    at: &StatementPlace,
    p: &Statement,
    gate: Status,
    env: &Env,
) -> Swept
    requires main { at.now.main ≡ true }
    requires fits { FitsMasks p.now }
    requires extents { HasExtents net.old.extents.items (at.now.number + 1)
        at.now.traps p.now }
    requires within { at.now.cell + at.now.traps + 3 + sheet_size true p.now at.now.traps
        + sheet_size false p.now at.now.traps
        ≤ length net.old.cells.items }
    requires fresh { IsFresh K.first at.now.cell
        (at.now.cell + at.now.traps + 3 + sheet_size true p.now at.now.traps
        + sheet_size false p.now at.now.traps) net.old.cells.items }
    requires traps { at.now.traps + trap_depth (term_of p.now) ≤ 62 }
    ensures swept { (a : _)
        → IsBegun (Loop' a p.now) at.now gate env.now net.old.cells.items
        net.new.cells.items result }
    ensures kept { kept net.new ≡ kept net.old }
{
    let go = tell_cell::<K>(net, at.cell, gate);
    let place = StatementPlace {
        number: at.number + 1,
        main: at.main,
        direction: at.direction,
        cell: at.cell + at.traps + 3,
        traps: at.traps,
    };
    let first = sweep_begun::<K>(net, &place, p, go, env);
    let place = StatementPlace {
        number: at.number + 1,
        main: false,
        direction: at.direction,
        cell: first.past,
        traps: at.traps,
    };
    let again = sweep_begun::<K>(net, &place, p, Status::Absent, env);
    let own = must_can::emitting(&first.judged, &again.judged);
    cells::finish_statement::<K>(net, at, &own, again.past)
}

/// Sweeps a loop inside a restart, which has no cells for a restart of its own.
#[cycle(sweep_begun)]
fn begin_again<K: SweepKind>(
    net: &mut Net,
    at: &StatementPlace,
    p: &Statement,
    gate: Status,
    env: &Env,
) -> Swept
    requires main { at.now.main ≡ false }
    requires fits { FitsMasks p.now }
    requires extents { HasExtents net.old.extents.items (at.now.number + 1)
        at.now.traps p.now }
    requires within { at.now.cell + at.now.traps + 3 + sheet_size false p.now at.now.traps
        ≤ length net.old.cells.items }
    requires fresh { IsFresh K.first at.now.cell
        (at.now.cell + at.now.traps + 3 + sheet_size false p.now at.now.traps) net.old.cells.items }
    requires traps { at.now.traps + trap_depth (term_of p.now) ≤ 62 }
    ensures swept { (a : _)
        → IsBegun (Loop' a p.now) at.now gate env.now net.old.cells.items
        net.new.cells.items result }
    ensures kept { kept net.new ≡ kept net.old }
{
    let go = tell_cell::<K>(net, at.cell, gate);
    let place = StatementPlace {
        number: at.number + 1,
        main: at.main,
        direction: at.direction,
        cell: at.cell + at.traps + 3,
        traps: at.traps,
    };
    let body = sweep_begun::<K>(net, &place, p, go, env);
    cells::finish_statement::<K>(net, at, &body.judged, body.past)
}

/// Sweeps a side of a `||`. If all its cells are decided, they are only read.
#[cycle(sweep_begun)]
#[inline(always)]
fn sweep_side<K: SweepKind>(
    net: &mut Net,
    at: &StatementPlace,
    s: &Statement,
    gate: Status,
    env: &Env,
) -> Swept
    requires fits { FitsMasks s.now }
    requires extents { HasExtents net.old.extents.items at.now.number at.now.traps
        s.now }
    requires within { at.now.cell + sheet_size at.now.main s.now at.now.traps
        ≤ length net.old.cells.items }
    requires fresh { IsFresh K.first at.now.cell
        (at.now.cell + sheet_size at.now.main s.now at.now.traps)
        net.old.cells.items }
    requires traps { at.now.traps + trap_depth (term_of s.now) ≤ 62 }
    ensures swept { IsBegun s.now at.now gate env.now net.old.cells.items net.new.cells.items
        result }
    ensures kept { kept net.new ≡ kept net.old }
{
    if !K::is_first() && decided::is_decided(net, at, s) {
        decided::read(net, at, s)
    } else {
        sweep_begun::<K>(net, at, s, gate, env)
    }
}

/// Sweeps a `||`, the first side before the second.
#[cycle(sweep_begun)]
fn begin_par<K: SweepKind>(
    net: &mut Net,
    at: &StatementPlace,
    p: &Statement,
    q: &Statement,
    gate: Status,
    env: &Env,
) -> Swept
    requires direction { at.now.direction ≡ Forwards }
    requires fits { FitsMasks p.now × FitsMasks q.now }
    requires first_extents { HasExtents net.old.extents.items (at.now.number + 1)
        at.now.traps p.now }
    requires second_extents { HasExtents net.old.extents.items
        (at.now.number + 1 + statements p.now) at.now.traps q.now }
    requires within { at.now.cell + at.now.traps + 3 + sheet_size at.now.main p.now at.now.traps
        + sheet_size at.now.main q.now at.now.traps
        ≤ length net.old.cells.items }
    requires fresh { IsFresh K.first at.now.cell
        (at.now.cell + at.now.traps + 3 + sheet_size at.now.main p.now at.now.traps
        + sheet_size at.now.main q.now at.now.traps) net.old.cells.items }
    requires first_traps { at.now.traps + trap_depth (term_of p.now) ≤ 62 }
    requires second_traps { at.now.traps + trap_depth (term_of q.now) ≤ 62 }
    ensures swept { (a b : _)
        → IsBegun (Par' a p.now b q.now) at.now gate env.now net.old.cells.items
        net.new.cells.items
        result }
    ensures kept { kept net.new ≡ kept net.old }
{
    let go = tell_cell::<K>(net, at.cell, gate);
    let place = StatementPlace {
        number: at.number + 1,
        main: at.main,
        direction: at.direction,
        cell: at.cell + at.traps + 3,
        traps: at.traps,
    };
    let first = sweep_side::<K>(net, &place, p, go, env);
    let inside = must_can::with_emitted(env, first.judged.must.signals);
    let place = StatementPlace {
        number: number_after(net, &place, p),
        main: at.main,
        direction: at.direction,
        cell: first.past,
        traps: at.traps,
    };
    let second = sweep_side::<K>(net, &place, q, go, &inside);
    let own = must_can::beside(&first.judged, &second.judged);
    cells::finish_statement::<K>(net, at, &own, second.past)
}

/// Sweeps a `||`, the second side before the first.
#[cycle(sweep_begun)]
fn begin_par_back<K: SweepKind>(
    net: &mut Net,
    at: &StatementPlace,
    p: &Statement,
    q: &Statement,
    gate: Status,
    env: &Env,
) -> Swept
    requires direction { at.now.direction ≡ Backwards }
    requires fits { FitsMasks p.now × FitsMasks q.now }
    requires first_extents { HasExtents net.old.extents.items (at.now.number + 1)
        at.now.traps p.now }
    requires second_extents { HasExtents net.old.extents.items
        (at.now.number + 1 + statements p.now) at.now.traps q.now }
    requires within { at.now.cell + at.now.traps + 3 + sheet_size at.now.main p.now at.now.traps
        + sheet_size at.now.main q.now at.now.traps
        ≤ length net.old.cells.items }
    requires fresh { IsFresh K.first at.now.cell
        (at.now.cell + at.now.traps + 3 + sheet_size at.now.main p.now at.now.traps
        + sheet_size at.now.main q.now at.now.traps) net.old.cells.items }
    requires first_traps { at.now.traps + trap_depth (term_of p.now) ≤ 62 }
    requires second_traps { at.now.traps + trap_depth (term_of q.now) ≤ 62 }
    ensures swept { (a b : _)
        → IsBegun (Par' a p.now b q.now) at.now gate env.now net.old.cells.items
        net.new.cells.items
        result }
    ensures kept { kept net.new ≡ kept net.old }
{
    let go = tell_cell::<K>(net, at.cell, gate);
    let place = StatementPlace {
        number: at.number + 1,
        main: at.main,
        direction: at.direction,
        cell: at.cell + at.traps + 3,
        traps: at.traps,
    };
    let later = StatementPlace {
        number: number_after(net, &place, p),
        main: at.main,
        direction: at.direction,
        cell: past(net, &place, p),
        traps: at.traps,
    };
    let second = sweep_side::<K>(net, &later, q, go, env);
    let inside = must_can::with_emitted(env, second.judged.must.signals);
    let first = sweep_side::<K>(net, &place, p, go, &inside);
    let own = must_can::beside(&first.judged, &second.judged);
    cells::finish_statement::<K>(net, at, &own, second.past)
}

/// Sweeps a trap.
#[cycle(sweep_begun)]
fn begin_trap<K: SweepKind>(
    net: &mut Net,
    at: &StatementPlace,
    p: &Statement,
    gate: Status,
    env: &Env,
) -> Swept
    requires fits { FitsMasks p.now }
    requires extents { HasExtents net.old.extents.items (at.now.number + 1)
        (at.now.traps + 1) p.now }
    requires within { at.now.cell + at.now.traps + 3 + sheet_size at.now.main p.now
        (at.now.traps + 1) ≤ length net.old.cells.items }
    requires fresh { IsFresh K.first at.now.cell
        (at.now.cell + at.now.traps + 3 + sheet_size at.now.main p.now
        (at.now.traps + 1)) net.old.cells.items }
    requires traps { at.now.traps + 1 + trap_depth (term_of p.now) ≤ 62 }
    ensures swept { (a : _)
        → IsBegun (Trap' a p.now) at.now gate env.now net.old.cells.items
        net.new.cells.items result }
    ensures kept { kept net.new ≡ kept net.old }
{
    let go = tell_cell::<K>(net, at.cell, gate);
    let place = StatementPlace {
        number: at.number + 1,
        main: at.main,
        direction: at.direction,
        cell: at.cell + at.traps + 3,
        traps: at.traps + 1,
    };
    let body = sweep_begun::<K>(net, &place, p, go, env);
    let own = must_can::out_of_trap(&body.judged);
    cells::finish_statement::<K>(net, at, &own, body.past)
}

/// Sweeps a local signal's binder: its body, and then the cell of its status, by what the body
/// emits.
#[cycle(sweep_begun)]
fn begin_local<K: SweepKind>(
    net: &mut Net,
    at: &StatementPlace,
    s: LocalSignal,
    p: &Statement,
    gate: Status,
    env: &Env,
) -> Swept
    requires fits { (s.index < 64) × FitsMasks p.now }
    requires extents { HasExtents net.old.extents.items (at.now.number + 1)
        at.now.traps p.now }
    requires within { at.now.cell + at.now.traps + 4 + sheet_size at.now.main p.now at.now.traps
        ≤ length net.old.cells.items }
    requires fresh { IsFresh K.first at.now.cell
        (at.now.cell + at.now.traps + 4 + sheet_size at.now.main p.now at.now.traps)
        net.old.cells.items }
    requires traps { at.now.traps + trap_depth (term_of p.now) ≤ 62 }
    ensures swept { (a : _)
        → IsBegun (Binder' s a p.now) at.now gate env.now net.old.cells.items
        net.new.cells.items
        result }
    ensures kept { kept net.new ≡ kept net.old }
{
    let go = tell_cell::<K>(net, at.cell, gate);
    let cell = at.cell + at.traps + 3;
    let inside = signal_set::set_local(env, s, net.status(cell));
    let place = StatementPlace {
        number: at.number + 1,
        main: at.main,
        direction: at.direction,
        cell: cell + 1,
        traps: at.traps,
    };
    let body = sweep_begun::<K>(net, &place, p, go, &inside);
    tell_cell::<K>(net, cell, must_can::status_of(&body.judged, s));
    let own = must_can::hiding(&body.judged, s);
    cells::finish_statement::<K>(net, at, &own, body.past)
}

/// Sweeps the cells of a statement that is begun, if at all, by the gate, one after another.
#[cycle(sweep_begun)]
fn begin_each<K: SweepKind>(
    net: &mut Net,
    at: &StatementPlace,
    s: &Statement,
    gate: Status,
    env: &Env,
) -> Swept
    requires fits { FitsMasks s.now }
    requires extents { HasExtents net.old.extents.items at.now.number at.now.traps
        s.now }
    requires within { at.now.cell + sheet_size at.now.main s.now at.now.traps
        ≤ length net.old.cells.items }
    requires fresh { IsFresh K.first at.now.cell
        (at.now.cell + sheet_size at.now.main s.now at.now.traps)
        net.old.cells.items }
    requires traps { at.now.traps + trap_depth (term_of s.now) ≤ 62 }
    ensures swept { IsBegun s.now at.now gate env.now net.old.cells.items net.new.cells.items
        result }
    ensures kept { kept net.new ≡ kept net.old }
{
    match s {
        Statement::Nothing => begin_leaf::<K>(net, at, Completion::End, gate),
        Statement::Pause(_) => begin_leaf::<K>(net, at, Completion::Pause, gate),
        Statement::Exit(k) => begin_leaf::<K>(net, at, Completion::Exit(*k), gate),
        Statement::Emit(signal) => begin_emit::<K>(net, at, *signal, gate),
        Statement::Present(t, p, q) => {
            let asked = answer_to(env, t);
            begin_present::<K>(net, at, asked, p, q, gate, env)
        }
        Statement::Suspend(_, p) => begin_suspend::<K>(net, at, p, gate, env),
        Statement::Seq(p, q) => begin_seq::<K>(net, at, p, q, gate, env),
        Statement::Loop(p) => {
            if at.main {
                begin_loop::<K>(net, at, p, gate, env)
            } else {
                begin_again::<K>(net, at, p, gate, env)
            }
        }
        Statement::Par(p, q) => match at.direction {
            Direction::Forwards => begin_par::<K>(net, at, p, q, gate, env),
            Direction::Backwards => begin_par_back::<K>(net, at, p, q, gate, env),
        },
        Statement::Trap(p) => begin_trap::<K>(net, at, p, gate, env),
        Statement::Local(s, p) => begin_local::<K>(net, at, *s, p, gate, env),
    }
}

/// Whether a statement is a `||`.
fn is_parallel(s: &Statement) -> bool {
    match s {
        Statement::Par(_, _) => true,
        _ => false,
    }
}

/// Sweeps cells of which something may be known. Where the statement is not begun, and none of them
/// is true, all of them are false at once. Those of a `||` that are all decided are only read.
#[cycle(sweep_begun)]
fn begin_known<K: SweepKind>(
    net: &mut Net,
    at: &StatementPlace,
    s: &Statement,
    gate: Status,
    env: &Env,
) -> Swept
    requires fits { FitsMasks s.now }
    requires extents { HasExtents net.old.extents.items at.now.number at.now.traps
        s.now }
    requires within { at.now.cell + sheet_size at.now.main s.now at.now.traps
        ≤ length net.old.cells.items }
    requires fresh { IsFresh K.first at.now.cell
        (at.now.cell + sheet_size at.now.main s.now at.now.traps)
        net.old.cells.items }
    requires traps { at.now.traps + trap_depth (term_of s.now) ≤ 62 }
    ensures swept { IsBegun s.now at.now gate env.now net.old.cells.items net.new.cells.items
        result }
    ensures kept { kept net.new ≡ kept net.old }
{
    match past_idle(net, at, s, gate) {
        Some(past) => {
            fill_false(net, at.cell, past);
            cells::nothing(past)
        }
        None => {
            if is_parallel(s) && decided::is_decided(net, at, s) {
                return decided::read(net, at, s);
            }
            begin_each::<K>(net, at, s, gate, env)
        }
    }
}

/// Sweeps the cells of a statement that is begun, if at all, by the gate. Where it is not, all of
/// them are false at once in the first sweep of an instant.
#[cycle(sweep_begun)]
#[inline(always)]
pub fn sweep_begun<K: SweepKind>(
    net: &mut Net,
    at: &StatementPlace,
    s: &Statement,
    gate: Status,
    env: &Env,
) -> Swept
    requires fits { FitsMasks s.now }
    requires extents { HasExtents net.old.extents.items at.now.number at.now.traps
        s.now }
    requires within { at.now.cell + sheet_size at.now.main s.now at.now.traps
        ≤ length net.old.cells.items }
    requires fresh { IsFresh K.first at.now.cell
        (at.now.cell + sheet_size at.now.main s.now at.now.traps)
        net.old.cells.items }
    requires traps { at.now.traps + trap_depth (term_of s.now) ≤ 62 }
    ensures swept { IsBegun s.now at.now gate env.now net.old.cells.items net.new.cells.items
        result }
    ensures kept { kept net.new ≡ kept net.old }
{
    if !K::is_first() {
        return begin_known::<K>(net, at, s, gate, env);
    }
    match gate {
        Status::Absent => {
            let past = past(net, at, s);
            net.fill(at.cell, past);
            cells::nothing(past)
        }
        Status::Present | Status::Unknown => begin_each::<K>(net, at, s, gate, env),
    }
}
