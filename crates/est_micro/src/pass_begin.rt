//! A pass over what reads the signals that were just decided, in a statement that doesn't go on
//! from its pauses: the gate says whether it is begun.
//!
//! A pass goes down to what is newly begun, and sweeps that. It looks at no statement that reads
//! none of these signals. What it leaves out costs time alone: a run ends by a full sweep.
//!
//! What calls itself here does so on a part of the statement that it was given, and goes as deep as
//! the statement is.

ghost use Rattle.std.specs.Prelude.{◌≡◌, ◌<◌, ◌≤◌, ◌+◌, ℕ, length};
ghost use Rattle.est_kernel.specs.Limits.{trap_depth};
ghost use Rattle.est_kernel.specs.Masks.{FitsMasks};
ghost use Rattle.est_kernel.specs.View.{term_of};
ghost use Rattle.est_kernel.specs.declared.statement.Statement.TheVariants.{Suspend', Trap'};
ghost use Rattle.est_kernel.specs.declared.statement.Statement.TheVariants.{Seq', Loop', Par'};
ghost use Rattle.est_meaning.specs.Views.{env_of};
ghost use Rattle.est_cells.specs.Tables.{sheet_size};
ghost use Rattle.est_net.specs.Extents.{HasExtents};
ghost use Rattle.est_net.specs.Kept.{kept};
ghost use Rattle.est_net.specs.Owners.{statements};
ghost use Rattle.est_micro.specs.Inner.Passes.{Passes};

use crate::cells::StatementPlace;
use crate::extents::{number_after, past};
use crate::sweep_begin::sweep_begun;
use crate::sweep_kind::LaterSweep;
use est_kernel::mask;
use est_kernel::statement::Statement;
use est_meaning::signal_set::Env;
use est_meaning::status::Status;
use est_net::net::Net;

/// Whether a gate says more than the go cell.
#[inline(always)]
pub fn is_new(go: Status, gate: Status) -> bool {
    match (go, gate) {
        (Status::Unknown, Status::Present | Status::Absent) => true,
        _ => false,
    }
}

/// Whether tests in the statement of this number read one of these signals.
#[inline(always)]
pub fn is_reader(net: &Net, number: usize, just_decided: u64) -> bool
    requires { number < length net.now.extents.items }
{
    mask::intersection(net.extent(number).reads.interface, just_decided) != 0
}

/// Sweeps a statement, as a pass.
pub fn visit(net: &mut Net, at: &StatementPlace, s: &Statement, gate: Status, env: &Env)
    requires fits { FitsMasks s.now }
    requires extents { HasExtents net.old.extents.items at.now.number at.now.traps
        s.now }
    requires within { at.now.cell + sheet_size at.now.main s.now at.now.traps
        ≤ length net.old.cells.items }
    requires traps { at.now.traps + trap_depth (term_of s.now) ≤ 62 }
    ensures passes { Passes at.now.main s.now at.now.cell at.now.traps gate (env_of env.now)
        net.old.cells.items net.new.cells.items }
    ensures kept { kept net.new ≡ kept net.old }
{
    sweep_begun::<LaterSweep>(net, at, s, gate, env);
}

/// Passes over the sides of a `||`.
#[cycle(pass_begun)]
fn pass_par(
    net: &mut Net,
    at: &StatementPlace,
    p: &Statement,
    q: &Statement,
    env: &Env,
    just_decided: u64,
)
    requires fits { FitsMasks p.now × FitsMasks q.now }
    requires first_extents { HasExtents net.old.extents.items (at.now.number + 1)
        at.now.traps p.now }
    requires second_extents { HasExtents net.old.extents.items
        (at.now.number + 1 + statements p.now) at.now.traps q.now }
    requires within { at.now.cell + at.now.traps + 3 + sheet_size at.now.main p.now at.now.traps
        + sheet_size at.now.main q.now at.now.traps
        ≤ length net.old.cells.items }
    requires first_traps { at.now.traps + trap_depth (term_of p.now) ≤ 62 }
    requires second_traps { at.now.traps + trap_depth (term_of q.now) ≤ 62 }
    ensures passes { (g a b : _)
        → Passes at.now.main (Par' a p.now b q.now) at.now.cell at.now.traps g (env_of env.now)
        net.old.cells.items net.new.cells.items }
    ensures kept { kept net.new ≡ kept net.old }
{
    let place = StatementPlace {
        number: at.number + 1,
        main: at.main,
        direction: at.direction,
        cell: at.cell + at.traps + 3,
        traps: at.traps,
    };
    let next = StatementPlace {
        number: number_after(net, &place, p),
        main: at.main,
        direction: at.direction,
        cell: past(net, &place, p),
        traps: at.traps,
    };
    let go = net.status(at.cell);
    pass_begun(net, &place, p, go, env, just_decided);
    pass_begun(net, &next, q, go, env, just_decided);
}

/// Passes over the parts of a `;`.
#[cycle(pass_begun)]
fn pass_seq(
    net: &mut Net,
    at: &StatementPlace,
    p: &Statement,
    q: &Statement,
    env: &Env,
    just_decided: u64,
)
    requires fits { FitsMasks p.now × FitsMasks q.now }
    requires first_extents { HasExtents net.old.extents.items (at.now.number + 1)
        at.now.traps p.now }
    requires second_extents { HasExtents net.old.extents.items
        (at.now.number + 1 + statements p.now) at.now.traps q.now }
    requires within { at.now.cell + at.now.traps + 3 + sheet_size at.now.main p.now at.now.traps
        + sheet_size at.now.main q.now at.now.traps
        ≤ length net.old.cells.items }
    requires first_traps { at.now.traps + trap_depth (term_of p.now) ≤ 62 }
    requires second_traps { at.now.traps + trap_depth (term_of q.now) ≤ 62 }
    ensures passes { (g a b : _)
        → Passes at.now.main (Seq' a p.now b q.now) at.now.cell at.now.traps g (env_of env.now)
        net.old.cells.items net.new.cells.items }
    ensures kept { kept net.new ≡ kept net.old }
{
    let place = StatementPlace {
        number: at.number + 1,
        main: at.main,
        direction: at.direction,
        cell: at.cell + at.traps + 3,
        traps: at.traps,
    };
    let next = StatementPlace {
        number: number_after(net, &place, p),
        main: at.main,
        direction: at.direction,
        cell: past(net, &place, p),
        traps: at.traps,
    };
    let go = net.status(at.cell);
    pass_begun(net, &place, p, go, env, just_decided);
    let code = place.cell + 1;
    let ends = net.status(code);
    pass_begun(net, &next, q, ends, env, just_decided);
}

/// Passes over a body inside this many traps. That of a loop that can go on is not begun again in
/// the instant in which it is begun.
#[cycle(pass_begun)]
fn pass_body(
    net: &mut Net,
    at: &StatementPlace,
    p: &Statement,
    traps: usize,
    env: &Env,
    just_decided: u64,
)
    requires fits { FitsMasks p.now }
    requires extents { HasExtents net.old.extents.items (at.now.number + 1) traps p.now }
    requires within { at.now.cell + at.now.traps + 3 + sheet_size at.now.main p.now traps
        ≤ length net.old.cells.items }
    requires traps { traps + trap_depth (term_of p.now) ≤ 62 }
    ensures suspend { (g t a : _) → traps ≡ at.now.traps
        → Passes at.now.main (Suspend' t a p.now) at.now.cell at.now.traps g (env_of env.now)
        net.old.cells.items net.new.cells.items }
    ensures loops { (g a : _) → traps ≡ at.now.traps
        → Passes at.now.main (Loop' a p.now) at.now.cell at.now.traps g (env_of env.now)
        net.old.cells.items net.new.cells.items }
    ensures trap { (g a : _) → traps ≡ at.now.traps + 1
        → Passes at.now.main (Trap' a p.now) at.now.cell at.now.traps g (env_of env.now)
        net.old.cells.items net.new.cells.items }
    ensures kept { kept net.new ≡ kept net.old }
{
    let place = StatementPlace {
        number: at.number + 1,
        main: at.main,
        direction: at.direction,
        cell: at.cell + at.traps + 3,
        traps,
    };
    let go = net.status(at.cell);
    pass_begun(net, &place, p, go, env, just_decided)
}

/// Passes over the parts of a statement.
#[cycle(pass_begun)]
fn pass_parts(
    net: &mut Net,
    at: &StatementPlace,
    s: &Statement,
    gate: Status,
    env: &Env,
    just_decided: u64,
)
    requires fits { FitsMasks s.now }
    requires extents { HasExtents net.old.extents.items at.now.number at.now.traps
        s.now }
    requires within { at.now.cell + sheet_size at.now.main s.now at.now.traps
        ≤ length net.old.cells.items }
    requires traps { at.now.traps + trap_depth (term_of s.now) ≤ 62 }
    ensures passes { Passes at.now.main s.now at.now.cell at.now.traps gate (env_of env.now)
        net.old.cells.items net.new.cells.items }
    ensures kept { kept net.new ≡ kept net.old }
{
    match s {
        Statement::Nothing => visit(net, at, s, gate, env),
        Statement::Pause(_) => visit(net, at, s, gate, env),
        Statement::Emit(_) => visit(net, at, s, gate, env),
        Statement::Exit(_) => visit(net, at, s, gate, env),
        Statement::Present(_, _, _) => visit(net, at, s, gate, env),
        Statement::Suspend(_, p) => pass_body(net, at, p, at.traps, env, just_decided),
        Statement::Seq(p, q) => pass_seq(net, at, p, q, env, just_decided),
        Statement::Loop(p) => pass_body(net, at, p, at.traps, env, just_decided),
        Statement::Par(p, q) => pass_par(net, at, p, q, env, just_decided),
        Statement::Trap(p) => pass_body(net, at, p, at.traps + 1, env, just_decided),
        Statement::Local(_, _) => visit(net, at, s, gate, env),
    }
}

/// Passes over a statement that is begun, if at all, by the gate.
#[cycle(pass_begun)]
#[inline(always)]
pub fn pass_begun(
    net: &mut Net,
    at: &StatementPlace,
    s: &Statement,
    gate: Status,
    env: &Env,
    just_decided: u64,
)
    requires fits { FitsMasks s.now }
    requires extents { HasExtents net.old.extents.items at.now.number at.now.traps
        s.now }
    requires within { at.now.cell + sheet_size at.now.main s.now at.now.traps
        ≤ length net.old.cells.items }
    requires traps { at.now.traps + trap_depth (term_of s.now) ≤ 62 }
    ensures passes { Passes at.now.main s.now at.now.cell at.now.traps gate (env_of env.now)
        net.old.cells.items net.new.cells.items }
    ensures kept { kept net.new ≡ kept net.old }
{
    if is_new(net.status(at.cell), gate) {
        visit(net, at, s, gate, env);
    } else if is_reader(net, at.number, just_decided) {
        pass_parts(net, at, s, gate, env, just_decided)
    }
}
