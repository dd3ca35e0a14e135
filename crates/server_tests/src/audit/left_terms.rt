//! Which states of a module leave one term.
use crate::audit::journals::load_of;
use est_kernel::pause_set::PauseSet;
use est_kernel::state::State;
use est_kernel::statement::{PauseIndex, Statement};
use est_left::order::is_in_order;
use reactor_core::entry::Stamp;
use reactor_core::journal::Journal;
use reactor_core::reactor::Reactor;
use server_mistakes::terms::is_same_state;
use std::alloc::Global;
use std::process::Abort;

const STAMP: Stamp = Stamp {
    version: 9,
    session: 1,
};

/// A module with this body runs.
fn loaded(rt: &impl Abort, alloc: Global, body: &str) -> Reactor {
    let text = format!(in alloc; "module M: input I; output O; output P; {body} end module").expect(
        rt, "room",
    );
    let load = load_of(rt, alloc, text.as_str());
    match Reactor::load(alloc, Journal::new(alloc), STAMP, load) {
        Ok(reactor) => reactor,
        Err((_, _journal)) => None.expect(rt, "a module"),
    }
}

/// Paused at the first pause, at the second, or at both.
fn paused(first: bool, second: bool) -> State {
    let mut pauses = PauseSet::new();
    if first {
        pauses.insert(PauseIndex { index: 0 });
    }
    if second {
        pauses.insert(PauseIndex { index: 1 });
    }
    State::Paused(pauses)
}

/// Bodies with two pauses, and what is wanted of each.
const BODIES: [(&str, bool, bool, bool); 7] = [
    ("present I then pause else pause end", true, true, true),
    ("pause || pause", true, true, false),
    ("pause; pause", false, true, true),
    ("[pause; emit O] || [pause; emit P]", false, false, false),
    ("[pause; emit O] || [pause; emit O]", false, false, false),
    (
        "present I then [pause; emit O] else [pause; emit O] end",
        true,
        true,
        false,
    ),
    (
        "present I then [pause; emit O] else [pause; emit P] end",
        false,
        true,
        false,
    ),
];

/// Which states of this statement leave one term is as wanted: the first pause and the second; the
/// first and both; the second and the end.
fn compare(rt: &impl Abort, root: &Statement, apart: bool, joined: bool, ended: bool) {
    let one = paused(true, false);
    let other = paused(false, true);
    assert!(rt; is_in_order(root));
    assert!(rt; is_same_state(root, &one, &other) == apart);
    assert!(rt; is_same_state(root, &one, &paused(true, true)) == joined);
    assert!(rt; is_same_state(root, &other, &State::Done) == ended);
    assert!(rt; is_same_state(root, &State::Fresh, &State::Fresh));
    assert!(rt; !is_same_state(root, &State::Fresh, &one));
}

/// States that stand for one term are one, whichever pauses they have.
#[test]
fn states_are_compared_as_terms(rt: HostRuntime) {
    let alloc = rt.alloc();
    for (body, apart, joined, ended) in &BODIES {
        let reactor = loaded(&rt, alloc, body);
        compare(&rt, reactor.kernel().root(), *apart, *joined, *ended);
    }
}
