//! A module on one engine alone.

ghost use Rattle.est_micro.specs.Engine.{IsNetOf};

use crate::cases::Case;
use anyhow::{Result, bail};
use est_kernel::state::State;
use est_micro::micro::Micro;
use est_net::net::Net;
use est_rounds::engine::Engine;
use est_rounds::rounds::Rounds;
use std::alloc::Global;

/// Runs the kernel, begun again once it has ended, and answers the sum of the outputs: each sum is
/// 31 times the one before, plus the outputs.
fn sum_of<E: Engine>(engine: &mut E, case: &Case, instants: u64) -> Result<u64>
    requires { E.is_for engine.old case.now.kernel }
{
    let mut state = State::Fresh;
    let mut sum: u64 = 0;
    for n in 0..instants {
        let Ok(outcome) = engine.react(&case.kernel, &state, &case.inputs(n)) else {
            bail!("instant {n} is stuck");
        };
        sum = sum.wrapping_mul(31).wrapping_add(outcome.outputs);
        state = match outcome.next {
            State::Paused(pauses) => State::Paused(pauses),
            State::Fresh | State::Done => State::Fresh,
        };
    }
    Ok(sum)
}

/// What a run comes to: how many cells the kernel has, how many of them the last instant decided,
/// and the sum of the outputs. The plain engine has no cells.
type Ran = (usize, usize, u64);

/// Runs a case on the plain engine.
fn run_plain(case: &Case, instants: u64) -> Result<Ran> {
    Ok((0, 0, sum_of(&mut Rounds::new(), case, instants)?))
}

/// Runs a case on a microstep engine for it.
fn run_engine(engine: &mut Micro, case: &Case, instants: u64) -> Result<Ran>
    requires { IsNetOf engine.old.net case.now.kernel }
{
    let sum = sum_of(&mut *engine, case, instants)?;
    Ok((engine.net().cells(), engine.steps(), sum))
}

/// Runs a case on the microstep engine.
fn run_microsteps(alloc: Global, case: &Case, instants: u64) -> Result<Ran> {
    let net = Net::build(alloc, &case.kernel)?;
    run_engine(&mut Micro::new(net), case, instants)
}

/// Runs a case on the engine of this name, and prints what that comes to.
pub fn run_alone(
    rt: &(impl Alloc<A = Global> + Print),
    name: &str,
    instants: u64,
    text: &str,
) -> Result<()> {
    let case = Case::read(rt.alloc(), text)?;
    let ran = if name == "plain" {
        run_plain(&case, instants)
    } else {
        run_microsteps(rt.alloc(), &case, instants)
    };
    let (cells, decided, sum) = ran?;
    println!(rt; "{cells} {decided} {sum:016x}")?;
    Ok(())
}
