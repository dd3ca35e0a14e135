//! Reactions by a part of the inputs.

ghost use Rattle.est_kernel.specs.Bits.{bits};
ghost use Rattle.est_meaning.specs.States.{IsState};
ghost use Rattle.est_micro.specs.Engine.{IsNetOf};
ghost use Rattle.est_rounds.specs.Parts.{AreInputOutputsAsked};

use crate::literature::loads::{engine_of, offered, step};
use crate::openers::kernel_of;
use est_kernel::kernel::Kernel;
use est_kernel::mask::{union, with};
use est_kernel::state::State;
use est_micro::micro::Micro;
use est_rounds::part_engine::PartEngine;
use std::alloc::Global;
use std::process::Abort;

/// What a part of the inputs tells: the outputs, or which input an open test waits for.
type Told = Result<u64, Option<u8>>;

/// The inputs that are asked: these, and each signal that may be emitted.
fn asked_with(kernel: &Kernel, asked: u64) -> u64
    ensures { AreInputOutputsAsked kernel.now.interface (bits result) }
{
    union(kernel.interface().emittable(), asked)
}

/// What an engine tells by a part of the inputs.
fn told(engine: &mut Micro, kernel: &Kernel, state: &State, asked: u64, inputs: u64) -> Told
    requires net { IsNetOf engine.old.net kernel.now }
    requires state { IsState kernel.now.root state.now }
    ensures net { IsNetOf engine.new.net kernel.now }
{
    let inputs = offered(kernel, inputs);
    match engine.react_to_part(kernel, state, asked_with(kernel, asked), &inputs) {
        Ok(outcome) => Ok(outcome.outputs),
        Err(open) => Err(open.waits_for),
    }
}

/// Bodies that pause in a first instant without inputs, the inputs that are asked and offered in
/// the second, and what it tells: A is 1, B is 2, C is 4, O is 8 and P is 16.
const TOLD: [(&str, u64, u64, Told); 12] = [
    ("pause; present A then emit O end", 1, 1, Ok(8)),
    ("pause; present A then emit O end", 1, 0, Ok(0)),
    // an input that is not asked isn't absent, whether it is offered or not
    ("pause; present A then emit O end", 0, 0, Err(Some(0))),
    ("pause; present A then emit O end", 2, 3, Err(Some(0))),
    (
        "pause; present A then emit O end; pause",
        0,
        0,
        Err(Some(0)),
    ),
    // one that no test can change is not waited for
    ("pause; present [A and B] then emit O end", 1, 0, Ok(0)),
    (
        "pause; emit O; pause; present B then emit P end",
        0,
        0,
        Ok(8),
    ),
    // the test behind an open one comes later in the text
    (
        "pause; present B then present A then emit O end end",
        0,
        0,
        Err(Some(1)),
    ),
    // a test of an output waits for the input that it hangs on
    (
        "pause; [present P then emit O end || present C then emit P end]",
        3,
        0,
        Err(Some(2)),
    ),
    // a paradox waits for no input
    ("pause; present O then emit O end", 0, 0, Err(None)),
    // the test of a suspension that goes on, and one that doesn't
    ("suspend [pause; emit O] when B", 0, 0, Err(Some(1))),
    ("pause; suspend [emit O; pause] when B", 0, 0, Ok(8)),
];

/// What the second instant of a body tells.
fn told_of(rt: &impl Abort, alloc: Global, body: &str, asked: u64, inputs: u64) -> Told {
    let text = format!(in alloc; "module M: input A, B, C; output O, P; {body} end module").expect(
        rt, "room",
    );
    let kernel = kernel_of(rt, alloc, text.as_str());
    let mut engine = engine_of(rt, alloc, &kernel);
    let mut state = State::Fresh;
    step(&kernel, &mut state, 0).ok().expect(rt, body);
    told(&mut engine, &kernel, &state, asked, inputs)
}

#[test]
fn told_by_parts(rt: HostRuntime) {
    for (body, asked, inputs, wanted) in &TOLD {
        let told = told_of(&rt, rt.alloc(), body, *asked, *inputs);
        assert!(rt; told == *wanted, "{body}");
    }
}

/// Twenty inputs, of which the first instant looks at three.
const TWENTY: &str = "module M: input A, B, C, D, E, F, G, H, I, J, K, L, N, O, P, Q, R, S, T, U; \
    output X, Y; present C then emit X end; present H then emit Y end; present T then emit X end; \
    pause; present A then emit X end; present D then emit Y end end module";

/// How many parts tell all reactions: one that tells none is split at the input that it names, at
/// most so often.
fn parts(engine: &mut Micro, kernel: &Kernel, asked: u64, inputs: u64, most: u8) -> usize
    requires net { IsNetOf engine.old.net kernel.now }
    ensures net { IsNetOf engine.new.net kernel.now }
{
    match told(engine, kernel, &State::Fresh, asked, inputs) {
        Ok(_) => 1,
        Err(Some(place)) if most > 0 && place < 64 => {
            let more = with(asked, place);
            let without = parts(engine, kernel, more, inputs, most - 1);
            let with = parts(engine, kernel, more, with(inputs, place), most - 1);
            without.saturating_add(with)
        }
        Err(_) => 0,
    }
}

#[test]
fn three_of_twenty_inputs(rt: HostRuntime) {
    let kernel = kernel_of(&rt, rt.alloc(), TWENTY);
    let mut engine = engine_of(&rt, rt.alloc(), &kernel);
    assert_eq!(rt; parts(&mut engine, &kernel, 0, 0, 20), 8);
}
