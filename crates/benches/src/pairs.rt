//! Do two engines agree? A module on both, instant by instant.

ghost use Rattle.est_meaning.specs.States.{IsState};
ghost use Rattle.est_micro.specs.Engine.{IsNetOf};

use crate::cases::Case;
use anyhow::Result;
use est_kernel::state::{Outcome, State, Stuck};
use est_micro::micro::Micro;
use est_net::net::Net;
use est_rounds::engine::Engine;
use est_rounds::rounds::Rounds;
use std::alloc::Global;

/// How an engine's answer is told: what stands before a mask in hexadecimal, the mask, and what
/// stands after it. Of a reaction that is its outputs and how the kernel goes on; else `?` and the
/// undecided outputs.
fn told(answer: &Result<Outcome, Stuck>) -> (&'static str, u64, &'static str) {
    match answer {
        Ok(outcome) => match outcome.next {
            State::Paused(_) => ("", outcome.outputs, ""),
            State::Done => ("", outcome.outputs, "."),
            State::Fresh => ("", outcome.outputs, "!"),
        },
        Err(stuck) => ("?", stuck.undecided, ""),
    }
}

/// One instant on both engines. The state is then the plain engine's, or stays where it is stuck.
fn instant(
    rt: &impl Print,
    micro: &mut Micro,
    case: &Case,
    state: &mut State,
    number: u64,
) -> Result<()>
    requires net { IsNetOf micro.old.net case.now.kernel }
    requires state { IsState case.now.kernel.root state.old }
    ensures net { IsNetOf micro.new.net case.now.kernel }
    ensures state { IsState case.now.kernel.root state.new }
{
    let inputs = case.inputs(number);
    let mut plain = Rounds::new();
    let wanted = plain.react(&case.kernel, &*state, &inputs);
    let found = micro.react(&case.kernel, &*state, &inputs);
    let same = if wanted == found { "=" } else { "!" };
    let (before, left, after) = told(&wanted);
    print!(rt; " {before}{left:x}{after}{same}")?;
    let (before, right, after) = told(&found);
    print!(rt; "{before}{right:x}{after}/{}", micro.steps())?;
    if let Ok(outcome) = wanted {
        *state = outcome.next;
    }
    Ok(())
}

/// Runs a case on both engines, and prints its line: the number of cells, and for each instant what
/// the plain engine answers, what the microstep engine does, and how many cells this one decided.
fn compare(rt: &(impl Alloc<A = Global> + Print), instants: u64, case: &Case) -> Result<()> {
    let mut micro = Micro::new(Net::build(rt.alloc(), &case.kernel)?);
    print!(rt; "{}", micro.net().cells())?;
    let mut state = State::Fresh;
    for number in 0..instants {
        instant(rt, &mut micro, case, &mut state, number)?;
    }
    println!(rt)?;
    Ok(())
}

/// Reads a case, and compares both engines on it.
pub fn run_pair(rt: &(impl Alloc<A = Global> + Print), instants: u64, text: &str) -> Result<()> {
    let case = Case::read(rt.alloc(), text)?;
    compare(rt, instants, &case)
}
