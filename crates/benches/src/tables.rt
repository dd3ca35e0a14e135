//! What the microstep engine decides: the cells of a module's table, instant by instant.

ghost use Rattle.est_meaning.specs.States.{IsState};
ghost use Rattle.est_micro.specs.Engine.{IsNetOf};

use crate::cases::Case;
use anyhow::Result;
use est_kernel::state::State;
use est_micro::micro::Micro;
use est_net::net::Net;
use std::alloc::Global;

/// How a cell is printed: what it is decided to be, or `?`.
fn sign_of(value: Option<bool>) -> char {
    match value {
        Some(true) => '1',
        Some(false) => '0',
        None => '?',
    }
}

/// The cells of a table, in their order.
fn shown(alloc: Global, net: &Net) -> Result<String> {
    let mut text = String::new(alloc);
    for cell in 0..net.cells() {
        text.push(sign_of(net.value(cell)))?;
    }
    Ok(text)
}

/// One instant, and its table. Where it is stuck, the state stays.
fn instant(
    rt: &(impl Alloc<A = Global> + Print),
    engine: &mut Micro,
    case: &Case,
    state: &mut State,
    number: u64,
) -> Result<()>
    requires net { IsNetOf engine.old.net case.now.kernel }
    requires state { IsState case.now.kernel.root state.old }
    ensures net { IsNetOf engine.new.net case.now.kernel }
    ensures state { IsState case.now.kernel.root state.new }
{
    let answer = engine.run(&case.kernel, &*state, &case.inputs(number));
    print!(rt; " {}", shown(rt.alloc(), engine.net())?)?;
    if let Ok(outcome) = answer {
        *state = outcome.next;
    }
    Ok(())
}

/// Runs a case, and prints its line: how many cells there are, and for each instant what each of
/// them was decided to be.
fn show_tables(rt: &(impl Alloc<A = Global> + Print), instants: u64, case: &Case) -> Result<()> {
    let mut engine = Micro::new(Net::build(rt.alloc(), &case.kernel)?);
    print!(rt; "{}", engine.net().cells())?;
    let mut state = State::Fresh;
    for number in 0..instants {
        instant(rt, &mut engine, case, &mut state, number)?;
    }
    println!(rt)?;
    Ok(())
}

/// Reads a case, and shows its tables.
pub fn run_tables(rt: &(impl Alloc<A = Global> + Print), instants: u64, text: &str) -> Result<()> {
    let case = Case::read(rt.alloc(), text)?;
    show_tables(rt, instants, &case)
}
