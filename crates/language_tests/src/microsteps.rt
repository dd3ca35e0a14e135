//! How many cells a module has, how many of them an instant decides, and what may be emitted in it.

ghost use Rattle.est_meaning.specs.States.{IsState};
ghost use Rattle.est_micro.specs.Engine.{IsNetOf};

use crate::literature::loads::{engine_of, offered};
use crate::openers::kernel_of;
use crate::told::{add, expect_told};
use est_kernel::kernel::Kernel;
use est_kernel::state::State;
use est_micro::micro::Micro;
use est_net::net::Net;
use est_rounds::engine::Engine;
use std::alloc::Global;
use std::process::Abort;

/// Modules, and how many of their cells each of three instants without inputs decides. A statement
/// inside n traps has n + 3 cells, and one more if it declares a local signal; inside a loop it has
/// them twice. Each output has one.
const DECIDED: [(&str, [usize; 3], usize); 7] = [
    // five statements, and two outputs; it ends in the second instant
    ("output O, P; emit O; pause; emit P", [17, 17, 17], 17),
    // a loop around eight statements, of which one declares a signal
    (
        "output O, P; loop signal S in present S then emit O else emit P end; pause; \
            emit S end end",
        [55, 55, 55],
        55,
    ),
    // three statements, and seven in a trap
    (
        "output O, P, Q; trap T in [emit O; exit T || pause; emit P] end; emit Q",
        [40, 40, 40],
        40,
    ),
    // six statements, of which one declares a signal; it ends at once
    (
        "output O; signal S in [present S then emit O end || emit S] end",
        [20, 20, 20],
        20,
    ),
    // a body that stands still in the second instant
    (
        "output O, P; suspend sustain P when O || pause; emit O",
        [38, 38, 38],
        38,
    ),
    // the two paradoxes: the first statement is begun, and no statement pauses
    ("output O; present O then emit O end", [4, 4, 4], 10),
    ("output O; present O else emit O end", [4, 4, 4], 10),
];

/// What three instants without inputs tell.
#[derive(Clone, Copy)]
struct Told {
    /// Which outputs may be emitted, whatever the tests of the module say.
    reached: [u64; 3],
    /// How many cells are decided.
    decided: [usize; 3],
    /// How many writes the table counts in the instant.
    written: [u64; 3],
    /// Whether a cell has no value after the third instant.
    is_open: bool,
    /// How many cells there are.
    cells: usize,
}

/// Which outputs may be emitted in an instant without inputs, how many cells it decides, and how
/// many writes the table counts in it. The state stays where it is undecided.
fn instant(engine: &mut Micro, kernel: &Kernel, state: &mut State) -> (u64, usize, u64)
    requires net { IsNetOf engine.old.net kernel.now }
    requires state { IsState kernel.now.root state.old }
    ensures net { IsNetOf engine.new.net kernel.now }
    ensures state { IsState kernel.now.root state.new }
{
    let reached = engine.net().reach().from_state(&*state);
    let before = engine.net().writes();
    if let Ok(outcome) = engine.react(kernel, &*state, &offered(kernel, 0)) {
        *state = outcome.next;
    }
    let written = engine.net().writes().wrapping_sub(before);
    (reached, engine.steps(), written)
}

/// Whether a cell of the table has no value.
fn has_open_cell(net: &Net) -> bool {
    for cell in 0..net.cells() {
        if net.value(cell).is_none() {
            return true;
        }
    }
    false
}

/// What three instants of a kernel tell.
fn three_instants(rt: &impl Abort, alloc: Global, kernel: &Kernel) -> Told {
    let mut engine = engine_of(rt, alloc, kernel);
    let mut state = State::Fresh;
    let first = instant(&mut engine, kernel, &mut state);
    let second = instant(&mut engine, kernel, &mut state);
    let third = instant(&mut engine, kernel, &mut state);
    Told {
        reached: [first.0, second.0, third.0],
        decided: [first.1, second.1, third.1],
        written: [first.2, second.2, third.2],
        is_open: has_open_cell(engine.net()),
        cells: engine.net().cells(),
    }
}

/// What three instants of a module tell: what stands before its body, and that.
fn told_of(rt: &impl Abort, alloc: Global, outputs: &str, body: &str) -> Told {
    let text = format!(in alloc; "module M: {outputs}{body} end module").expect(rt, "room");
    let kernel = kernel_of(rt, alloc, text.as_str());
    three_instants(rt, alloc, &kernel)
}

#[test]
fn decided_cells(rt: HostRuntime) {
    for (body, decided, cells) in &DECIDED {
        let told = told_of(&rt, rt.alloc(), "", body);
        assert_eq!(rt; told.decided, *decided, "{body}");
        let [first, second, third] = *decided;
        let each = [first as u64, second as u64, third as u64];
        assert_eq!(rt; told.written, each, "{body}");
        assert_eq!(rt; told.is_open, third < *cells, "{body}");
        assert_eq!(rt; told.cells, *cells, "{body}");
    }
}

/// Modules whose outputs are A, B and C, and which of these may be emitted in each of three
/// instants without inputs, whatever their tests say: 1 stands for A, 2 for B, 4 for C.
const REACHED: [(&str, [u64; 3]); 6] = [
    ("emit A; pause; emit B; pause; emit C", [1, 2, 4]),
    // both branches count
    (
        "present A then emit B else emit C end; pause; emit A",
        [6, 1, 0],
    ),
    // what follows a trap may follow its exit
    ("trap T in emit A; pause; exit T end; emit B", [1, 2, 0]),
    // a loop begins its body again
    ("loop emit A; pause; emit B end", [1, 3, 3]),
    // what follows both sides may follow each
    ("[pause; emit A || pause; pause; emit B]; emit C", [0, 5, 6]),
    ("signal S in emit S; pause; emit A end", [0, 1, 0]),
];

#[test]
fn reached_outputs(rt: HostRuntime) {
    for (body, reached) in &REACHED {
        let told = told_of(&rt, rt.alloc(), "output A, B, C; ", body);
        assert_eq!(rt; told.reached, *reached, "{body}");
    }
}

/// Modules, what is offered in the first instant, as a mask, and what the cells of the signals that
/// may be emitted are then told, in the order of declaration: 1 for true, 0 for false, and `?`
/// while it is open.
const SIGNAL_CELLS: [(&str, u64, &str); 4] = [
    // what is offered is present, whether the module can emit it or not
    (
        "inputoutput B; output O; present B then emit O end",
        1,
        "11",
    ),
    (
        "inputoutput B; output O; present B then emit O end",
        0,
        "00",
    ),
    (
        "inputoutput B; output O; present B then emit O else emit B end",
        1,
        "11",
    ),
    (
        "inputoutput B; output O; present B then emit O else emit B end",
        0,
        "??",
    ),
];

/// The cells of the signals that may be emitted, as the table above has them.
fn signals_of(rt: &impl Abort, alloc: Global, net: &Net) -> String {
    let mut told = String::new(alloc);
    for cell in 0..net.cells() {
        if cell < net.output_count() {
            let word = match net.value(cell) {
                Some(true) => "1",
                Some(false) => "0",
                None => "?",
            };
            add(rt, &mut told, word);
        }
    }
    told
}

/// Fails where the signals' cells of a module are told otherwise in its first instant.
fn expect_signals(rt: &impl Abort, alloc: Global, body: &str, offers: u64, wanted: &str) {
    let text = format!(in alloc; "module M: {body} end module").expect(rt, "room");
    let kernel = kernel_of(rt, alloc, text.as_str());
    let mut engine = engine_of(rt, alloc, &kernel);
    let _answer = engine.react(&kernel, &State::Fresh, &offered(&kernel, offers));
    let told = signals_of(rt, alloc, engine.net());
    expect_told(rt, told.as_str(), wanted, body);
}

#[test]
fn cells_of_signals(rt: HostRuntime) {
    for (body, offers, wanted) in &SIGNAL_CELLS {
        expect_signals(&rt, rt.alloc(), body, *offers, wanted);
    }
}
