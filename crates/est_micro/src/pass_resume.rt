//! A pass over what reads the signals that were just decided, in a statement that goes on from its
//! pauses, if it is run.
//!
//! What calls itself here does so on a part of the statement that it was given, and goes as deep as
//! the statement is.

ghost use Rattle.std.specs.Prelude.{◌≡◌, ◌<◌, ◌≤◌, ◌+◌, ◌||◌, true, false, length};
ghost use Rattle.est_kernel.specs.Limits.{trap_depth};
ghost use Rattle.est_kernel.specs.Masks.{FitsMasks};
ghost use Rattle.est_kernel.specs.Pauses.{pauses_of};
ghost use Rattle.est_kernel.specs.View.{term_of};
ghost use Rattle.est_kernel.specs.declared.statement.Statement.TheVariants.{Seq', Loop', Par'};
ghost use Rattle.est_meaning.specs.States.{is_live};
ghost use Rattle.est_meaning.specs.Views.{env_of};
ghost use Rattle.est_cells.specs.Tables.{sheet_size};
ghost use Rattle.est_net.specs.Extents.{HasExtents};
ghost use Rattle.est_net.specs.Kept.{kept};
ghost use Rattle.est_net.specs.Owners.{statements};
ghost use Rattle.est_micro.specs.Inner.Passes.{PassesOn, SidePasses};

use crate::cells::StatementPlace;
use crate::extents::{is_live, number_after, past};
use crate::pass_begin::{is_reader, pass_begun};
use crate::sweep_kind::LaterSweep;
use crate::sweep_resume::sweep_resumed;
use est_kernel::pause_set::PauseSet;
use est_kernel::statement::Statement;
use est_meaning::signal_set::Env;
use est_meaning::status::Status;
use est_net::net::Net;

/// Sweeps a statement, as a pass.
pub fn visit_resumed(
    net: &mut Net,
    at: &StatementPlace,
    s: &Statement,
    pauses: &PauseSet,
    run: Status,
    env: &Env,
)
    requires main { at.now.main ≡ true }
    requires fits { FitsMasks s.now }
    requires extents { HasExtents net.old.extents.items at.now.number at.now.traps
        s.now }
    requires within { at.now.cell + sheet_size true s.now at.now.traps
        ≤ length net.old.cells.items }
    requires traps { at.now.traps + trap_depth (term_of s.now) ≤ 62 }
    requires live { is_live s.now (pauses_of pauses.now) ≡ true }
    ensures passes { PassesOn s.now (pauses_of pauses.now) at.now.cell at.now.traps run
        (env_of env.now) net.old.cells.items net.new.cells.items }
    ensures kept { kept net.new ≡ kept net.old }
{
    sweep_resumed::<LaterSweep>(net, at, s, pauses, run, env);
}

/// Passes over a side of a `||`, if it goes on.
#[cycle(pass_resumed)]
fn pass_side(
    net: &mut Net,
    at: &StatementPlace,
    p: &Statement,
    pauses: &PauseSet,
    run: Status,
    env: &Env,
    just_decided: u64,
)
    requires main { at.now.main ≡ true }
    requires fits { FitsMasks p.now }
    requires extents { HasExtents net.old.extents.items at.now.number at.now.traps
        p.now }
    requires within { at.now.cell + sheet_size true p.now at.now.traps
        ≤ length net.old.cells.items }
    requires traps { at.now.traps + trap_depth (term_of p.now) ≤ 62 }
    ensures passes { SidePasses p.now (pauses_of pauses.now) at.now.cell at.now.traps run
        (env_of env.now) net.old.cells.items net.new.cells.items }
    ensures kept { kept net.new ≡ kept net.old }
{
    if is_live(net, at.number, at.traps, p, pauses) {
        pass_resumed(net, at, p, pauses, run, env, just_decided)
    }
}

/// Passes over the sides of a `||`.
#[cycle(pass_resumed)]
fn pass_resumed_par(
    net: &mut Net,
    at: &StatementPlace,
    p: &Statement,
    q: &Statement,
    pauses: &PauseSet,
    run: Status,
    env: &Env,
    just_decided: u64,
)
    requires main { at.now.main ≡ true }
    requires fits { FitsMasks p.now × FitsMasks q.now }
    requires first_extents { HasExtents net.old.extents.items (at.now.number + 1)
        at.now.traps p.now }
    requires second_extents { HasExtents net.old.extents.items
        (at.now.number + 1 + statements p.now) at.now.traps q.now }
    requires within { at.now.cell + at.now.traps + 3 + sheet_size true p.now at.now.traps
        + sheet_size true q.now at.now.traps
        ≤ length net.old.cells.items }
    requires first_traps { at.now.traps + trap_depth (term_of p.now) ≤ 62 }
    requires second_traps { at.now.traps + trap_depth (term_of q.now) ≤ 62 }
    ensures passes { (a b : _) → PassesOn (Par' a p.now b q.now)
        (pauses_of pauses.now) at.now.cell at.now.traps run
        (env_of env.now) net.old.cells.items net.new.cells.items }
    ensures kept { kept net.new ≡ kept net.old }
{
    let place = StatementPlace {
        number: at.number + 1,
        main: at.main,
        direction: at.direction,
        cell: at.cell + at.traps + 3,
        traps: at.traps,
    };
    let next = StatementPlace {
        number: number_after(net, &place, p),
        main: at.main,
        direction: at.direction,
        cell: past(net, &place, p),
        traps: at.traps,
    };
    pass_side(net, &place, p, pauses, run, env, just_decided);
    pass_side(net, &next, q, pauses, run, env, just_decided);
}

/// Passes over a `;` whose first part goes on.
#[cycle(pass_resumed)]
fn pass_resumed_first(
    net: &mut Net,
    at: &StatementPlace,
    p: &Statement,
    q: &Statement,
    pauses: &PauseSet,
    run: Status,
    env: &Env,
    just_decided: u64,
)
    requires main { at.now.main ≡ true }
    requires fits { FitsMasks p.now × FitsMasks q.now }
    requires first_extents { HasExtents net.old.extents.items (at.now.number + 1)
        at.now.traps p.now }
    requires second_extents { HasExtents net.old.extents.items
        (at.now.number + 1 + statements p.now) at.now.traps q.now }
    requires within { at.now.cell + at.now.traps + 3 + sheet_size true p.now at.now.traps
        + sheet_size true q.now at.now.traps
        ≤ length net.old.cells.items }
    requires first_traps { at.now.traps + trap_depth (term_of p.now) ≤ 62 }
    requires second_traps { at.now.traps + trap_depth (term_of q.now) ≤ 62 }
    requires live { is_live p.now (pauses_of pauses.now) ≡ true }
    ensures passes { (a b : _) → PassesOn (Seq' a p.now b q.now)
        (pauses_of pauses.now) at.now.cell at.now.traps run
        (env_of env.now) net.old.cells.items net.new.cells.items }
    ensures kept { kept net.new ≡ kept net.old }
{
    let place = StatementPlace {
        number: at.number + 1,
        main: at.main,
        direction: at.direction,
        cell: at.cell + at.traps + 3,
        traps: at.traps,
    };
    let next = StatementPlace {
        number: number_after(net, &place, p),
        main: at.main,
        direction: at.direction,
        cell: past(net, &place, p),
        traps: at.traps,
    };
    pass_resumed(net, &place, p, pauses, run, env, just_decided);
    let code = place.cell + 1;
    let ends = net.status(code);
    pass_begun(net, &next, q, ends, env, just_decided);
}

/// Passes over a `;`.
#[cycle(pass_resumed)]
fn pass_resumed_seq(
    net: &mut Net,
    at: &StatementPlace,
    p: &Statement,
    q: &Statement,
    pauses: &PauseSet,
    run: Status,
    env: &Env,
    just_decided: u64,
)
    requires main { at.now.main ≡ true }
    requires fits { FitsMasks p.now × FitsMasks q.now }
    requires first_extents { HasExtents net.old.extents.items (at.now.number + 1)
        at.now.traps p.now }
    requires second_extents { HasExtents net.old.extents.items
        (at.now.number + 1 + statements p.now) at.now.traps q.now }
    requires within { at.now.cell + at.now.traps + 3 + sheet_size true p.now at.now.traps
        + sheet_size true q.now at.now.traps
        ≤ length net.old.cells.items }
    requires first_traps { at.now.traps + trap_depth (term_of p.now) ≤ 62 }
    requires second_traps { at.now.traps + trap_depth (term_of q.now) ≤ 62 }
    requires live { (is_live p.now (pauses_of pauses.now) || is_live q.now (pauses_of pauses.now))
        ≡ true }
    ensures passes { (a b : _) → PassesOn (Seq' a p.now b q.now)
        (pauses_of pauses.now) at.now.cell at.now.traps run
        (env_of env.now) net.old.cells.items net.new.cells.items }
    ensures kept { kept net.new ≡ kept net.old }
{
    let place = StatementPlace {
        number: at.number + 1,
        main: at.main,
        direction: at.direction,
        cell: at.cell + at.traps + 3,
        traps: at.traps,
    };
    if is_live(net, place.number, at.traps, p, pauses) {
        pass_resumed_first(net, at, p, q, pauses, run, env, just_decided);
        return;
    }
    let next = StatementPlace {
        number: number_after(net, &place, p),
        main: at.main,
        direction: at.direction,
        cell: past(net, &place, p),
        traps: at.traps,
    };
    pass_resumed(net, &next, q, pauses, run, env, just_decided);
}

/// Passes over a loop: its body, and then its restart.
#[cycle(pass_resumed)]
fn pass_resumed_loop(
    net: &mut Net,
    at: &StatementPlace,
    p: &Statement,
    pauses: &PauseSet,
    run: Status,
    env: &Env,
    just_decided: u64,
)
    requires main { at.now.main ≡ true }
    requires live { is_live p.now (pauses_of pauses.now) ≡ true }
    requires fits { FitsMasks p.now }
    requires extents { HasExtents net.old.extents.items (at.now.number + 1)
        at.now.traps p.now }
    requires within { at.now.cell + at.now.traps + 3 + sheet_size true p.now at.now.traps
        + sheet_size false p.now at.now.traps
        ≤ length net.old.cells.items }
    requires traps { at.now.traps + trap_depth (term_of p.now) ≤ 62 }
    ensures passes { (a : _) → PassesOn (Loop' a p.now)
        (pauses_of pauses.now) at.now.cell at.now.traps run
        (env_of env.now) net.old.cells.items net.new.cells.items }
    ensures kept { kept net.new ≡ kept net.old }
{
    let place = StatementPlace {
        number: at.number + 1,
        main: at.main,
        direction: at.direction,
        cell: at.cell + at.traps + 3,
        traps: at.traps,
    };
    let again = StatementPlace {
        number: at.number + 1,
        main: false,
        direction: at.direction,
        cell: past(net, &place, p),
        traps: at.traps,
    };
    pass_resumed(net, &place, p, pauses, run, env, just_decided);
    let code = place.cell + 1;
    let ends = net.status(code);
    pass_begun(net, &again, p, ends, env, just_decided);
}

/// Passes over the parts of a statement.
#[cycle(pass_resumed)]
fn pass_resumed_parts(
    net: &mut Net,
    at: &StatementPlace,
    s: &Statement,
    pauses: &PauseSet,
    run: Status,
    env: &Env,
    just_decided: u64,
)
    requires main { at.now.main ≡ true }
    requires fits { FitsMasks s.now }
    requires extents { HasExtents net.old.extents.items at.now.number at.now.traps
        s.now }
    requires within { at.now.cell + sheet_size true s.now at.now.traps
        ≤ length net.old.cells.items }
    requires traps { at.now.traps + trap_depth (term_of s.now) ≤ 62 }
    requires live { is_live s.now (pauses_of pauses.now) ≡ true }
    ensures passes { PassesOn s.now (pauses_of pauses.now) at.now.cell at.now.traps run
        (env_of env.now) net.old.cells.items net.new.cells.items }
    ensures kept { kept net.new ≡ kept net.old }
{
    match s {
        Statement::Seq(p, q) => pass_resumed_seq(net, at, p, q, pauses, run, env, just_decided),
        Statement::Par(p, q) => pass_resumed_par(net, at, p, q, pauses, run, env, just_decided),
        Statement::Loop(p) => pass_resumed_loop(net, at, p, pauses, run, env, just_decided),
        Statement::Nothing => visit_resumed(net, at, s, pauses, run, env),
        Statement::Pause(_) => visit_resumed(net, at, s, pauses, run, env),
        Statement::Emit(_) => visit_resumed(net, at, s, pauses, run, env),
        Statement::Exit(_) => visit_resumed(net, at, s, pauses, run, env),
        Statement::Present(_, _, _) => visit_resumed(net, at, s, pauses, run, env),
        Statement::Suspend(_, _) => visit_resumed(net, at, s, pauses, run, env),
        Statement::Trap(_) => visit_resumed(net, at, s, pauses, run, env),
        Statement::Local(_, _) => visit_resumed(net, at, s, pauses, run, env),
    }
}

/// Passes over a statement that goes on from its pauses, if it is run.
#[cycle(pass_resumed)]
pub fn pass_resumed(
    net: &mut Net,
    at: &StatementPlace,
    s: &Statement,
    pauses: &PauseSet,
    run: Status,
    env: &Env,
    just_decided: u64,
)
    requires main { at.now.main ≡ true }
    requires fits { FitsMasks s.now }
    requires extents { HasExtents net.old.extents.items at.now.number at.now.traps
        s.now }
    requires within { at.now.cell + sheet_size true s.now at.now.traps
        ≤ length net.old.cells.items }
    requires traps { at.now.traps + trap_depth (term_of s.now) ≤ 62 }
    requires live { is_live s.now (pauses_of pauses.now) ≡ true }
    ensures passes { PassesOn s.now (pauses_of pauses.now) at.now.cell at.now.traps run
        (env_of env.now) net.old.cells.items net.new.cells.items }
    ensures kept { kept net.new ≡ kept net.old }
{
    if is_reader(net, at.number, just_decided) {
        pass_resumed_parts(net, at, s, pauses, run, env, just_decided)
    }
}
