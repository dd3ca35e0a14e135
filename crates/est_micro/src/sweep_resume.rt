//! A sweep through the cells of a statement that goes on from its pauses, if it is run.
//!
//! What calls itself here does so on a part of the statement that it was given, and goes as deep as
//! the statement is.

ghost use Rattle.std.specs.Prelude.{◌≡◌, ◌<◌, ◌≤◌, ◌+◌, ◌||◌, cond, true, false, length};
ghost use Rattle.est_kernel.specs.CodeViews.{codes_of};
ghost use Rattle.est_kernel.specs.Limits.{trap_depth};
ghost use Rattle.est_kernel.specs.Masks.{FitsMasks};
ghost use Rattle.est_kernel.specs.Pauses.{pauses_of};
ghost use Rattle.est_kernel.specs.View.{query_of, term_of};
ghost use Rattle.est_kernel.specs.declared.statement.Statement.TheVariants.{Pause, Present'};
ghost use Rattle.est_kernel.specs.declared.statement.Statement.TheVariants.{Suspend', Seq', Loop'};
ghost use Rattle.est_kernel.specs.declared.statement.Statement.TheVariants.{Par', Trap'};
ghost use Rattle.est_kernel.specs.declared.statement.Statement.TheVariants.{Local' as Binder'};
ghost use Rattle.est_meaning.specs.States.{is_live};
ghost use Rattle.est_meaning.specs.Environments.{status_of};
ghost use Rattle.est_meaning.specs.Views.{env_of, set_of};
ghost use Rattle.est_cells.specs.Gates.{sure_code, may_code};
ghost use Rattle.est_cells.specs.Tables.{sheet_size};
ghost use Rattle.est_net.specs.Extents.{HasExtents};
ghost use Rattle.est_net.specs.Kept.{kept};
ghost use Rattle.est_net.specs.Owners.{statements};
ghost use Rattle.est_micro.specs.Inner.Views.{IsChosen, IsFresh, IsJudged, IsResumed};
ghost use Rattle.est_micro.specs.declared.direction.Direction.TheVariants.{Forwards, Backwards};

use crate::cells::{self, StatementPlace, Swept};
use crate::direction::Direction;
use crate::extents::{is_live, number_after, past};
use crate::learning::tell_cell;
use crate::sweep_begin::sweep_begun;
use crate::sweep_kind::SweepKind;
use crate::{decided, must_can};
use est_kernel::completion::Completion;
use est_kernel::pause_set::PauseSet;
use est_kernel::statement::{LocalSignal, Statement};
use est_meaning::signal_set::{self, Env};
use est_meaning::status::Status;
use est_net::net::Net;
use est_rounds::acts::MustCan;
use est_rounds::answer::answer_to;

/// Sweeps a pause, which ends where it is run.
#[inline(always)]
fn resume_pause<K: SweepKind>(net: &mut Net, at: &StatementPlace, run: Status) -> Swept
    requires within { at.now.cell + at.now.traps + 3 ≤ length net.old.cells.items }
    requires fresh { IsFresh K.first at.now.cell
        (at.now.cell + at.now.traps + 3) net.old.cells.items }
    requires few { at.now.traps ≤ 62 }
    ensures swept { (e n pauses : _)
        → IsResumed (Pause n) at.now
        pauses run e net.old.cells.items net.new.cells.items result }
    ensures kept { kept net.new ≡ kept net.old }
{
    tell_cell::<K>(net, at.cell, Status::Absent);
    let own = must_can::leaf(run, Completion::End);
    cells::finish_statement::<K>(net, at, &own, at.cell + at.traps + 3)
}

/// Sweeps a part. If it is on (one of its pauses is set), it goes on where it is run; else the gate
/// tells whether it is begun.
#[cycle(sweep_resumed)]
fn sweep_part<K: SweepKind>(
    net: &mut Net,
    at: &StatementPlace,
    p: &Statement,
    pauses: &PauseSet,
    is_on: bool,
    gate: Status,
    run: Status,
    env: &Env,
) -> Swept
    requires main { at.now.main ≡ true }
    requires live { is_on ≡ true → is_live p.now (pauses_of pauses.now) ≡ true }
    requires fits { FitsMasks p.now }
    requires extents { HasExtents net.old.extents.items at.now.number at.now.traps
        p.now }
    requires within { at.now.cell + sheet_size true p.now at.now.traps
        ≤ length net.old.cells.items }
    requires fresh { IsFresh K.first at.now.cell (at.now.cell + sheet_size true p.now at.now.traps)
        net.old.cells.items }
    requires traps { at.now.traps + trap_depth (term_of p.now) ≤ 62 }
    ensures swept { IsChosen p.now at.now pauses.now is_on gate run env.now net.old.cells.items
        net.new.cells.items result }
    ensures kept { kept net.new ≡ kept net.old }
{
    if is_on {
        sweep_resumed::<K>(net, at, p, pauses, run, env)
    } else {
        sweep_begun::<K>(net, at, p, gate, env)
    }
}

/// Sweeps a `present` whose test has this status.
#[cycle(sweep_resumed)]
fn resume_present<K: SweepKind>(
    net: &mut Net,
    at: &StatementPlace,
    asked: Status,
    p: &Statement,
    q: &Statement,
    pauses: &PauseSet,
    run: Status,
    env: &Env,
) -> Swept
    requires main { at.now.main ≡ true }
    requires live { (is_live p.now (pauses_of pauses.now) || is_live q.now (pauses_of pauses.now))
        ≡ true }
    requires fits { FitsMasks p.now × FitsMasks q.now }
    requires first_extents { HasExtents net.old.extents.items (at.now.number + 1)
        at.now.traps p.now }
    requires second_extents { HasExtents net.old.extents.items
        (at.now.number + 1 + statements p.now) at.now.traps q.now }
    requires within { at.now.cell + at.now.traps + 3 + sheet_size true p.now at.now.traps
        + sheet_size true q.now at.now.traps
        ≤ length net.old.cells.items }
    requires fresh { IsFresh K.first at.now.cell
        (at.now.cell + at.now.traps + 3 + sheet_size true p.now at.now.traps
        + sheet_size true q.now at.now.traps) net.old.cells.items }
    requires first_traps { at.now.traps + trap_depth (term_of p.now) ≤ 62 }
    requires second_traps { at.now.traps + trap_depth (term_of q.now) ≤ 62 }
    ensures swept { (t a b : _) → asked ≡ status_of (env_of env.now) (query_of t)
        → IsResumed (Present' t a p.now b q.now) at.now pauses.now run env.now net.old.cells.items
        net.new.cells.items result }
    ensures kept { kept net.new ≡ kept net.old }
{
    let go = tell_cell::<K>(net, at.cell, Status::Absent);
    let place = StatementPlace {
        number: at.number + 1,
        main: at.main,
        direction: at.direction,
        cell: at.cell + at.traps + 3,
        traps: at.traps,
    };
    let is_on = is_live(net, place.number, at.traps, p, pauses);
    let first = sweep_part::<K>(net, &place, p, pauses, is_on, go.and(asked), run, env);
    let place = StatementPlace {
        number: number_after(net, &place, p),
        main: at.main,
        direction: at.direction,
        cell: first.past,
        traps: at.traps,
    };
    let second = sweep_part::<K>(
        net,
        &place,
        q,
        pauses,
        !is_on,
        go.and(asked.opposite()),
        run,
        env,
    );
    let own = must_can::either(&first.judged, &second.judged);
    cells::finish_statement::<K>(net, at, &own, second.past)
}

/// Sweeps a `suspend` whose test has this status.
#[cycle(sweep_resumed)]
fn resume_suspend<K: SweepKind>(
    net: &mut Net,
    at: &StatementPlace,
    asked: Status,
    p: &Statement,
    pauses: &PauseSet,
    run: Status,
    env: &Env,
) -> Swept
    requires main { at.now.main ≡ true }
    requires live { is_live p.now (pauses_of pauses.now) ≡ true }
    requires fits { FitsMasks p.now }
    requires extents { HasExtents net.old.extents.items (at.now.number + 1)
        at.now.traps p.now }
    requires within { at.now.cell + at.now.traps + 3 + sheet_size true p.now at.now.traps
        ≤ length net.old.cells.items }
    requires fresh { IsFresh K.first at.now.cell
        (at.now.cell + at.now.traps + 3 + sheet_size true p.now at.now.traps) net.old.cells.items }
    requires traps { at.now.traps + trap_depth (term_of p.now) ≤ 62 }
    ensures swept { (t a : _) → asked ≡ status_of (env_of env.now) (query_of t)
        → IsResumed (Suspend' t a p.now) at.now pauses.now run env.now net.old.cells.items
        net.new.cells.items result }
    ensures kept { kept net.new ≡ kept net.old }
{
    tell_cell::<K>(net, at.cell, Status::Absent);
    let place = StatementPlace {
        number: at.number + 1,
        main: at.main,
        direction: at.direction,
        cell: at.cell + at.traps + 3,
        traps: at.traps,
    };
    let body = sweep_resumed::<K>(net, &place, p, pauses, run.and(asked.opposite()), env);
    let held = must_can::leaf(run.and(asked), Completion::Pause);
    let own = must_can::with_codes(&body.judged, &held);
    cells::finish_statement::<K>(net, at, &own, body.past)
}

/// Sweeps a `;` whose first part is over, in the first sweep of an instant: the cells of that part
/// are false at once.
#[cycle(sweep_resumed)]
#[inline(always)]
fn resume_second<K: SweepKind>(
    net: &mut Net,
    at: &StatementPlace,
    p: &Statement,
    q: &Statement,
    pauses: &PauseSet,
    run: Status,
    env: &Env,
) -> Swept
    requires main { at.now.main ≡ true }
    requires first { K.first ≡ true }
    requires over { is_live p.now (pauses_of pauses.now) ≡ false }
    requires live { is_live q.now (pauses_of pauses.now) ≡ true }
    requires fits { FitsMasks p.now × FitsMasks q.now }
    requires first_extents { HasExtents net.old.extents.items (at.now.number + 1)
        at.now.traps p.now }
    requires second_extents { HasExtents net.old.extents.items
        (at.now.number + 1 + statements p.now) at.now.traps q.now }
    requires within { at.now.cell + at.now.traps + 3 + sheet_size true p.now at.now.traps
        + sheet_size true q.now at.now.traps
        ≤ length net.old.cells.items }
    requires fresh { IsFresh K.first at.now.cell
        (at.now.cell + at.now.traps + 3 + sheet_size true p.now at.now.traps
        + sheet_size true q.now at.now.traps) net.old.cells.items }
    requires first_traps { at.now.traps + trap_depth (term_of p.now) ≤ 62 }
    requires second_traps { at.now.traps + trap_depth (term_of q.now) ≤ 62 }
    ensures swept { (a b : _)
        → IsResumed (Seq' a p.now b q.now) at.now pauses.now run env.now net.old.cells.items
        net.new.cells.items result }
    ensures kept { kept net.new ≡ kept net.old }
{
    tell_cell::<K>(net, at.cell, Status::Absent);
    let place = StatementPlace {
        number: at.number + 1,
        main: at.main,
        direction: at.direction,
        cell: at.cell + at.traps + 3,
        traps: at.traps,
    };
    let later = past(net, &place, p);
    net.fill(place.cell, later);
    let first = cells::nothing(later);
    let inside = must_can::with_emitted(env, first.judged.must.signals);
    let place = StatementPlace {
        number: number_after(net, &place, p),
        main: at.main,
        direction: at.direction,
        cell: first.past,
        traps: at.traps,
    };
    let second = sweep_resumed::<K>(net, &place, q, pauses, run, &inside);
    let own = must_can::followed(&first.judged, &second.judged);
    cells::finish_statement::<K>(net, at, &own, second.past)
}

/// Sweeps a `;`.
#[cycle(sweep_resumed)]
fn resume_seq<K: SweepKind>(
    net: &mut Net,
    at: &StatementPlace,
    p: &Statement,
    q: &Statement,
    pauses: &PauseSet,
    run: Status,
    env: &Env,
) -> Swept
    requires main { at.now.main ≡ true }
    requires live { (is_live p.now (pauses_of pauses.now) || is_live q.now (pauses_of pauses.now))
        ≡ true }
    requires fits { FitsMasks p.now × FitsMasks q.now }
    requires first_extents { HasExtents net.old.extents.items (at.now.number + 1)
        at.now.traps p.now }
    requires second_extents { HasExtents net.old.extents.items
        (at.now.number + 1 + statements p.now) at.now.traps q.now }
    requires within { at.now.cell + at.now.traps + 3 + sheet_size true p.now at.now.traps
        + sheet_size true q.now at.now.traps
        ≤ length net.old.cells.items }
    requires fresh { IsFresh K.first at.now.cell
        (at.now.cell + at.now.traps + 3 + sheet_size true p.now at.now.traps
        + sheet_size true q.now at.now.traps) net.old.cells.items }
    requires first_traps { at.now.traps + trap_depth (term_of p.now) ≤ 62 }
    requires second_traps { at.now.traps + trap_depth (term_of q.now) ≤ 62 }
    ensures swept { (a b : _)
        → IsResumed (Seq' a p.now b q.now) at.now pauses.now run env.now net.old.cells.items
        net.new.cells.items result }
    ensures kept { kept net.new ≡ kept net.old }
{
    let is_on = is_live(net, at.number + 1, at.traps, p, pauses);
    if K::is_first() && !is_on {
        return resume_second::<K>(net, at, p, q, pauses, run, env);
    }
    let go = tell_cell::<K>(net, at.cell, Status::Absent);
    let place = StatementPlace {
        number: at.number + 1,
        main: at.main,
        direction: at.direction,
        cell: at.cell + at.traps + 3,
        traps: at.traps,
    };
    let first = sweep_part::<K>(net, &place, p, pauses, is_on, go, run, env);
    let inside = must_can::with_emitted(env, first.judged.must.signals);
    let later = must_can::ends(&first.judged);
    let place = StatementPlace {
        number: number_after(net, &place, p),
        main: at.main,
        direction: at.direction,
        cell: first.past,
        traps: at.traps,
    };
    let second = sweep_part::<K>(net, &place, q, pauses, !is_on, later, run, &inside);
    let own = must_can::followed(&first.judged, &second.judged);
    cells::finish_statement::<K>(net, at, &own, second.past)
}

/// Sweeps a loop.
#[cycle(sweep_resumed)]
fn resume_loop<K: SweepKind>(
    net: &mut Net,
    at: &StatementPlace,
    p: &Statement,
    pauses: &PauseSet,
    run: Status,
    env: &Env,
) -> Swept
    requires main { at.now.main ≡ true }
    requires live { is_live p.now (pauses_of pauses.now) ≡ true }
    requires fits { FitsMasks p.now }
    requires extents { HasExtents net.old.extents.items (at.now.number + 1)
        at.now.traps p.now }
    requires within { at.now.cell + at.now.traps + 3 + sheet_size true p.now at.now.traps
        + sheet_size false p.now at.now.traps
        ≤ length net.old.cells.items }
    requires fresh { IsFresh K.first at.now.cell
        (at.now.cell + at.now.traps + 3 + sheet_size true p.now at.now.traps
        + sheet_size false p.now at.now.traps) net.old.cells.items }
    requires traps { at.now.traps + trap_depth (term_of p.now) ≤ 62 }
    ensures swept { (a : _)
        → IsResumed (Loop' a p.now) at.now pauses.now run env.now net.old.cells.items
        net.new.cells.items result }
    ensures kept { kept net.new ≡ kept net.old }
{
    tell_cell::<K>(net, at.cell, Status::Absent);
    let place = StatementPlace {
        number: at.number + 1,
        main: at.main,
        direction: at.direction,
        cell: at.cell + at.traps + 3,
        traps: at.traps,
    };
    let first = sweep_resumed::<K>(net, &place, p, pauses, run, env);
    let inside = must_can::with_emitted(env, first.judged.must.signals);
    let later = must_can::ends(&first.judged);
    let place = StatementPlace {
        number: at.number + 1,
        main: false,
        direction: at.direction,
        cell: first.past,
        traps: at.traps,
    };
    let again = sweep_begun::<K>(net, &place, p, later, &inside);
    let own = must_can::followed(&first.judged, &again.judged);
    cells::finish_statement::<K>(net, at, &own, again.past)
}

/// What counts of a side of a `||`: one that has ended gives code 0 where the `||` is run.
fn judge_side(is_on: bool, swept: &Swept, run: Status) -> MustCan
    ensures { IsJudged (cond is_on (codes_of swept.now.judged.must.codes) (sure_code run 0))
        (cond is_on (codes_of swept.now.judged.can.codes) (may_code run 0))
        (set_of swept.now.judged.must.signals) (set_of swept.now.judged.can.signals) result }
{
    if is_on {
        swept.judged
    } else {
        let ended = must_can::leaf(run, Completion::End);
        must_can::giving(&ended, &swept.judged)
    }
}

/// Whether a pause of the second side of a `||` is set, where one side has a pause that is set. If
/// the first side has none, the second has one, and is not searched.
fn second_lives(
    net: &Net,
    number: usize,
    traps: usize,
    first_on: bool,
    q: &Statement,
    pauses: &PauseSet,
) -> bool
    requires extents { HasExtents net.now.extents.items number traps q.now }
    requires live { first_on ≡ false → is_live q.now (pauses_of pauses.now) ≡ true }
    ensures { result ≡ is_live q.now (pauses_of pauses.now) }
{
    !first_on || is_live(net, number, traps, q, pauses)
}

/// Sweeps a `||`, the first side before the second.
#[cycle(sweep_resumed)]
fn resume_par<K: SweepKind>(
    net: &mut Net,
    at: &StatementPlace,
    p: &Statement,
    q: &Statement,
    pauses: &PauseSet,
    run: Status,
    env: &Env,
) -> Swept
    requires main { at.now.main ≡ true }
    requires direction { at.now.direction ≡ Forwards }
    requires live { (is_live p.now (pauses_of pauses.now) || is_live q.now (pauses_of pauses.now))
        ≡ true }
    requires fits { FitsMasks p.now × FitsMasks q.now }
    requires first_extents { HasExtents net.old.extents.items (at.now.number + 1)
        at.now.traps p.now }
    requires second_extents { HasExtents net.old.extents.items
        (at.now.number + 1 + statements p.now) at.now.traps q.now }
    requires within { at.now.cell + at.now.traps + 3 + sheet_size true p.now at.now.traps
        + sheet_size true q.now at.now.traps
        ≤ length net.old.cells.items }
    requires fresh { IsFresh K.first at.now.cell
        (at.now.cell + at.now.traps + 3 + sheet_size true p.now at.now.traps
        + sheet_size true q.now at.now.traps) net.old.cells.items }
    requires first_traps { at.now.traps + trap_depth (term_of p.now) ≤ 62 }
    requires second_traps { at.now.traps + trap_depth (term_of q.now) ≤ 62 }
    ensures swept { (a b : _)
        → IsResumed (Par' a p.now b q.now) at.now pauses.now run env.now net.old.cells.items
        net.new.cells.items result }
    ensures kept { kept net.new ≡ kept net.old }
{
    let go = tell_cell::<K>(net, at.cell, Status::Absent);
    let place = StatementPlace {
        number: at.number + 1,
        main: at.main,
        direction: at.direction,
        cell: at.cell + at.traps + 3,
        traps: at.traps,
    };
    let number = number_after(net, &place, p);
    let first_on = is_live(net, place.number, at.traps, p, pauses);
    let second_on = second_lives(net, number, at.traps, first_on, q, pauses);
    let first = sweep_part::<K>(net, &place, p, pauses, first_on, go, run, env);
    let inside = must_can::with_emitted(env, first.judged.must.signals);
    let place = StatementPlace {
        number,
        main: at.main,
        direction: at.direction,
        cell: first.past,
        traps: at.traps,
    };
    let second = sweep_part::<K>(net, &place, q, pauses, second_on, go, run, &inside);
    let left = judge_side(first_on, &first, run);
    let right = judge_side(second_on, &second, run);
    let own = must_can::beside(&left, &right);
    cells::finish_statement::<K>(net, at, &own, second.past)
}

/// Sweeps a `||`, the second side before the first.
#[cycle(sweep_resumed)]
fn resume_par_back<K: SweepKind>(
    net: &mut Net,
    at: &StatementPlace,
    p: &Statement,
    q: &Statement,
    pauses: &PauseSet,
    run: Status,
    env: &Env,
) -> Swept
    requires main { at.now.main ≡ true }
    requires direction { at.now.direction ≡ Backwards }
    requires live { (is_live p.now (pauses_of pauses.now) || is_live q.now (pauses_of pauses.now))
        ≡ true }
    requires fits { FitsMasks p.now × FitsMasks q.now }
    requires first_extents { HasExtents net.old.extents.items (at.now.number + 1)
        at.now.traps p.now }
    requires second_extents { HasExtents net.old.extents.items
        (at.now.number + 1 + statements p.now) at.now.traps q.now }
    requires within { at.now.cell + at.now.traps + 3 + sheet_size true p.now at.now.traps
        + sheet_size true q.now at.now.traps
        ≤ length net.old.cells.items }
    requires fresh { IsFresh K.first at.now.cell
        (at.now.cell + at.now.traps + 3 + sheet_size true p.now at.now.traps
        + sheet_size true q.now at.now.traps) net.old.cells.items }
    requires first_traps { at.now.traps + trap_depth (term_of p.now) ≤ 62 }
    requires second_traps { at.now.traps + trap_depth (term_of q.now) ≤ 62 }
    ensures swept { (a b : _)
        → IsResumed (Par' a p.now b q.now) at.now pauses.now run env.now net.old.cells.items
        net.new.cells.items result }
    ensures kept { kept net.new ≡ kept net.old }
{
    let go = tell_cell::<K>(net, at.cell, Status::Absent);
    let place = StatementPlace {
        number: at.number + 1,
        main: at.main,
        direction: at.direction,
        cell: at.cell + at.traps + 3,
        traps: at.traps,
    };
    let number = number_after(net, &place, p);
    let first_on = is_live(net, place.number, at.traps, p, pauses);
    let second_on = second_lives(net, number, at.traps, first_on, q, pauses);
    let later = StatementPlace {
        number,
        main: at.main,
        direction: at.direction,
        cell: past(net, &place, p),
        traps: at.traps,
    };
    let second = sweep_part::<K>(net, &later, q, pauses, second_on, go, run, env);
    let inside = must_can::with_emitted(env, second.judged.must.signals);
    let first = sweep_part::<K>(net, &place, p, pauses, first_on, go, run, &inside);
    let left = judge_side(first_on, &first, run);
    let right = judge_side(second_on, &second, run);
    let own = must_can::beside(&left, &right);
    cells::finish_statement::<K>(net, at, &own, second.past)
}

/// Sweeps a trap.
#[cycle(sweep_resumed)]
fn resume_trap<K: SweepKind>(
    net: &mut Net,
    at: &StatementPlace,
    p: &Statement,
    pauses: &PauseSet,
    run: Status,
    env: &Env,
) -> Swept
    requires main { at.now.main ≡ true }
    requires live { is_live p.now (pauses_of pauses.now) ≡ true }
    requires fits { FitsMasks p.now }
    requires extents { HasExtents net.old.extents.items (at.now.number + 1)
        (at.now.traps + 1) p.now }
    requires within { at.now.cell + at.now.traps + 3 + sheet_size true p.now
        (at.now.traps + 1) ≤ length net.old.cells.items }
    requires fresh { IsFresh K.first at.now.cell
        (at.now.cell + at.now.traps + 3 + sheet_size true p.now
        (at.now.traps + 1)) net.old.cells.items }
    requires traps { at.now.traps + 1 + trap_depth (term_of p.now) ≤ 62 }
    ensures swept { (a : _)
        → IsResumed (Trap' a p.now) at.now pauses.now run env.now net.old.cells.items
        net.new.cells.items result }
    ensures kept { kept net.new ≡ kept net.old }
{
    tell_cell::<K>(net, at.cell, Status::Absent);
    let place = StatementPlace {
        number: at.number + 1,
        main: at.main,
        direction: at.direction,
        cell: at.cell + at.traps + 3,
        traps: at.traps + 1,
    };
    let body = sweep_resumed::<K>(net, &place, p, pauses, run, env);
    let own = must_can::out_of_trap(&body.judged);
    cells::finish_statement::<K>(net, at, &own, body.past)
}

/// Sweeps a local signal's binder: its body, and then the cell of its status, by what the body
/// emits.
#[cycle(sweep_resumed)]
fn resume_local<K: SweepKind>(
    net: &mut Net,
    at: &StatementPlace,
    s: LocalSignal,
    p: &Statement,
    pauses: &PauseSet,
    run: Status,
    env: &Env,
) -> Swept
    requires main { at.now.main ≡ true }
    requires live { is_live p.now (pauses_of pauses.now) ≡ true }
    requires fits { (s.index < 64) × FitsMasks p.now }
    requires extents { HasExtents net.old.extents.items (at.now.number + 1)
        at.now.traps p.now }
    requires within { at.now.cell + at.now.traps + 4 + sheet_size true p.now at.now.traps
        ≤ length net.old.cells.items }
    requires fresh { IsFresh K.first at.now.cell
        (at.now.cell + at.now.traps + 4 + sheet_size true p.now at.now.traps) net.old.cells.items }
    requires traps { at.now.traps + trap_depth (term_of p.now) ≤ 62 }
    ensures swept { (a : _)
        → IsResumed (Binder' s a p.now) at.now pauses.now run env.now net.old.cells.items
        net.new.cells.items result }
    ensures kept { kept net.new ≡ kept net.old }
{
    tell_cell::<K>(net, at.cell, Status::Absent);
    let cell = at.cell + at.traps + 3;
    let inside = signal_set::set_local(env, s, net.status(cell));
    let place = StatementPlace {
        number: at.number + 1,
        main: at.main,
        direction: at.direction,
        cell: cell + 1,
        traps: at.traps,
    };
    let body = sweep_resumed::<K>(net, &place, p, pauses, run, &inside);
    tell_cell::<K>(net, cell, must_can::status_of(&body.judged, s));
    let own = must_can::hiding(&body.judged, s);
    cells::finish_statement::<K>(net, at, &own, body.past)
}

/// Sweeps the cells of a statement that goes on from its pauses, if it is run, one after another.
#[cycle(sweep_resumed)]
fn resume_each<K: SweepKind>(
    net: &mut Net,
    at: &StatementPlace,
    s: &Statement,
    pauses: &PauseSet,
    run: Status,
    env: &Env,
) -> Swept
    requires main { at.now.main ≡ true }
    requires live { is_live s.now (pauses_of pauses.now) ≡ true }
    requires fits { FitsMasks s.now }
    requires extents { HasExtents net.old.extents.items at.now.number at.now.traps
        s.now }
    requires within { at.now.cell + sheet_size true s.now at.now.traps
        ≤ length net.old.cells.items }
    requires fresh { IsFresh K.first at.now.cell (at.now.cell + sheet_size true s.now at.now.traps)
        net.old.cells.items }
    requires traps { at.now.traps + trap_depth (term_of s.now) ≤ 62 }
    ensures swept { IsResumed s.now at.now pauses.now run env.now net.old.cells.items
        net.new.cells.items
        result }
    ensures kept { kept net.new ≡ kept net.old }
{
    match s {
        Statement::Present(t, p, q) => {
            let asked = answer_to(env, t);
            resume_present::<K>(net, at, asked, p, q, pauses, run, env)
        }
        Statement::Suspend(t, p) => {
            let asked = answer_to(env, t);
            resume_suspend::<K>(net, at, asked, p, pauses, run, env)
        }
        Statement::Seq(p, q) => resume_seq::<K>(net, at, p, q, pauses, run, env),
        Statement::Loop(p) => resume_loop::<K>(net, at, p, pauses, run, env),
        Statement::Par(p, q) => match at.direction {
            Direction::Forwards => resume_par::<K>(net, at, p, q, pauses, run, env),
            Direction::Backwards => resume_par_back::<K>(net, at, p, q, pauses, run, env),
        },
        Statement::Trap(p) => resume_trap::<K>(net, at, p, pauses, run, env),
        Statement::Local(s, p) => resume_local::<K>(net, at, *s, p, pauses, run, env),
        Statement::Pause(_) => resume_pause::<K>(net, at, run),
        // These have no pause.
        Statement::Nothing => resume_pause::<K>(net, at, run),
        Statement::Emit(_) => resume_pause::<K>(net, at, run),
        Statement::Exit(_) => resume_pause::<K>(net, at, run),
    }
}

/// Sweeps the cells of a statement that goes on from its pauses, if it is run. Where all
/// of them are decided, they are only read.
#[cycle(sweep_resumed)]
pub fn sweep_resumed<K: SweepKind>(
    net: &mut Net,
    at: &StatementPlace,
    s: &Statement,
    pauses: &PauseSet,
    run: Status,
    env: &Env,
) -> Swept
    requires main { at.now.main ≡ true }
    requires live { is_live s.now (pauses_of pauses.now) ≡ true }
    requires fits { FitsMasks s.now }
    requires extents { HasExtents net.old.extents.items at.now.number at.now.traps
        s.now }
    requires within { at.now.cell + sheet_size true s.now at.now.traps
        ≤ length net.old.cells.items }
    requires fresh { IsFresh K.first at.now.cell (at.now.cell + sheet_size true s.now at.now.traps)
        net.old.cells.items }
    requires traps { at.now.traps + trap_depth (term_of s.now) ≤ 62 }
    ensures swept { IsResumed s.now at.now pauses.now run env.now net.old.cells.items
        net.new.cells.items
        result }
    ensures kept { kept net.new ≡ kept net.old }
{
    if !K::is_first() && decided::is_decided(net, at, s) {
        decided::read(net, at, s)
    } else {
        resume_each::<K>(net, at, s, pauses, run, env)
    }
}
