//! How often an audit asks its second engine.
use crate::audit::journals::{
    journals_of_one, load_of, policy_entries, policy_of, slot_entries, stamped, stepped,
};
use audit_report::audit::audit_journals_with;
use est_kernel::kernel::Kernel;
use est_kernel::state::{Inputs, Outcome, State, Stuck};
use est_rounds::engine::Engine;
use est_rounds::rounds::Rounds;
use reactor_core::entry::{Move, SlotEntry};
use std::alloc::Global;
use std::process::Abort;

/// The plain engine, and how often it was asked.
#[derive(Drop)]
struct Counting {
    plain: Rounds,
    asked: usize,
}

impl Engine for Counting {
    ghost is_for = { λ _ _. Unit {0} };

    fn react(&mut self, kernel: &Kernel, state: &State, inputs: &Inputs) -> Result<Outcome, Stuck> {
        self.asked = self.asked.saturating_add(1);
        self.plain.react(kernel, state, inputs)
    }
}

/// How often the audit of these entries asks the engine. It finds nothing.
fn asked_of(rt: &impl Abort, alloc: Global, entries: Vec<SlotEntry>) -> usize {
    let policy = policy_of(rt, alloc, policy_entries(rt, alloc).as_slice());
    let slots = journals_of_one(rt, alloc, entries);
    let mut engine = Counting {
        plain: Rounds::new(),
        asked: 0,
    };
    assert!(rt; audit_journals_with(alloc, &policy, &slots, &mut engine) == Ok(()));
    engine.asked
}

/// O inside six local signals.
const SIX: &str = "module M: output O; signal A in signal B in signal C in signal D in signal E in \
    signal F in emit O end end end end end end end module";

/// O inside seven.
const SEVEN: &str = "module M: output O; signal A in signal B in signal C in signal D in signal E \
    in signal F in signal G in emit O end end end end end end end end module";

/// A load of the text, and an instant with O, and one without it.
fn two_instants(rt: &impl Abort, alloc: Global, text: &str) -> Vec<SlotEntry> {
    let load = load_of(rt, alloc, text);
    let mut entries = Vec::new(alloc);
    for done in [Move::Load(load), stepped(0, 1), stepped(0, 0)] {
        entries.push(stamped(9, 1, done)).expect(rt, "room");
    }
    entries
}

/// Once a step, of a module whose local signals nest at most six deep.
#[test]
fn an_audit_asks_once_a_step(rt: HostRuntime) {
    let alloc = rt.alloc();
    assert_eq!(&rt; asked_of(&rt, alloc, slot_entries(&rt, alloc)), 3);
    assert_eq!(&rt; asked_of(&rt, alloc, two_instants(&rt, alloc, SIX)), 2);
    assert_eq!(&rt; asked_of(&rt, alloc, two_instants(&rt, alloc, SEVEN)), 0);
}
