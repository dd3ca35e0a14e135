//! The instants of a kernel: what the tests of whole programs share.

ghost use Rattle.est_meaning.specs.States.{IsState};
ghost use Rattle.est_micro.specs.Engine.{IsNetOf};
ghost use Rattle.est_rounds.specs.Contract.{AreInputs};

use crate::openers::{kernel_of, name};
use crate::told::expect_holds;
use est_kernel::interface::Interface;
use est_kernel::kernel::Kernel;
use est_kernel::mask::{intersection, with};
use est_kernel::state::{Inputs, Outcome, State, Stuck};
use est_micro::micro::Micro;
use est_net::net::Net;
use est_rounds::engine::Engine;
use est_rounds::rounds::Rounds;
use std::alloc::Global;
use std::process::Abort;

/// The outputs of an instant as a mask, or those that are undecided.
pub type Shown = Result<u64, u64>;

/// Those of the signals in the mask that are inputs.
pub fn offered(kernel: &Kernel, present: u64) -> Inputs
    ensures { AreInputs kernel.now result }
{
    Inputs {
        signals: intersection(present, kernel.interface().offerable()),
    }
}

/// One instant with these inputs. The state stays where it is undecided.
pub fn step(kernel: &Kernel, state: &mut State, present: u64) -> Shown
    requires { IsState kernel.now.root state.old }
    ensures { IsState kernel.now.root state.new }
{
    let mut engine = Rounds::new();
    match engine.react(kernel, &*state, &offered(kernel, present)) {
        Ok(outcome) => {
            *state = outcome.next;
            Ok(outcome.outputs)
        }
        Err(stuck) => Err(stuck.undecided),
    }
}

/// The microstep engine of a kernel.
pub fn engine_of(rt: &impl Abort, alloc: Global, kernel: &Kernel) -> Micro
    ensures { IsNetOf result.net kernel.now }
{
    Micro::new(Net::build(alloc, kernel).expect(rt, "room"))
}

/// Whether an engine's answer is what is shown, and its next state the one that is then left.
fn is_same(answer: &Result<Outcome, Stuck>, shown: Shown, left: &State) -> bool {
    match answer {
        Ok(outcome) => shown == Ok(outcome.outputs) && *left == outcome.next,
        Err(stuck) => shown == Err(stuck.undecided),
    }
}

/// One instant on the plain engine and on the microstep engine. Fails where they differ.
fn agreed_step(
    rt: &impl Abort,
    engine: &mut Micro,
    kernel: &Kernel,
    state: &mut State,
    present: u64,
) -> Shown
    requires net { IsNetOf engine.old.net kernel.now }
    requires state { IsState kernel.now.root state.old }
    ensures net { IsNetOf engine.new.net kernel.now }
    ensures state { IsState kernel.now.root state.new }
{
    let answer = engine.react(kernel, &*state, &offered(kernel, present));
    let shown = step(kernel, state, present);
    expect_holds(rt, is_same(&answer, shown, &*state), "the engines agree");
    shown
}

/// The signals of names with blanks between them, as a mask.
fn mask_of(rt: &impl Abort, interface: &Interface, names: &str) -> u64 {
    let mut mask = 0;
    for text in names.split_whitespace() {
        let signal = interface.find(&name(rt, text)).expect(rt, text);
        mask = with(mask, signal.index);
    }
    mask
}

/// What an instant shows, by the interface of the program.
fn shown_of(rt: &impl Abort, interface: &Interface, words: &str) -> Shown {
    match words.strip_prefix(" stuck") {
        Some(undecided) => Err(mask_of(rt, interface, undecided)),
        None => Ok(mask_of(rt, interface, words)),
    }
}

/// Makes an instant, as it is written: before `>` the inputs, after it the outputs, or `stuck` and
/// the outputs that are undecided. Tells whether it shows these.
fn shows(
    rt: &impl Abort,
    engine: &mut Micro,
    kernel: &Kernel,
    state: &mut State,
    instant: &str,
) -> bool
    requires net { IsNetOf engine.old.net kernel.now }
    requires state { IsState kernel.now.root state.old }
    ensures net { IsNetOf engine.new.net kernel.now }
    ensures state { IsState kernel.now.root state.new }
{
    let (inputs, words) = instant.split_once('>').expect(rt, instant);
    let present = mask_of(rt, kernel.interface(), inputs);
    let shown = agreed_step(rt, engine, kernel, state, present);
    shown == shown_of(rt, kernel.interface(), words)
}

/// Fails where the module M of a text shows something else in its instants.
pub fn expect_instants(rt: &impl Abort, alloc: Global, text: &str, instants: &str) {
    let kernel = kernel_of(rt, alloc, text);
    let mut engine = engine_of(rt, alloc, &kernel);
    let mut state = State::Fresh;
    for instant in instants.split("; ") {
        let holds = shows(rt, &mut engine, &kernel, &mut state, instant);
        assert!(rt; holds, "{instant} in {text}");
    }
}
