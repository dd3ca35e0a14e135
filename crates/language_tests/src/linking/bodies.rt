//! Libraries and the flat body of their main module.
use crate::openers::{library_of, name};
use est_checks::duplicates::first_duplicate;
use est_checks::missing_modules::first_missing;
use est_modules::collecting::collect_modules;
use est_modules::library_modules::LibraryModules;
use est_modules::module_order::order_library;
use est_reduce::body::{Body, BoundSignal, BoundTest};
use link_mistakes::bodies::linked_body;
use std::alloc::Global;
use std::process::Abort;

/// What the last statement of a body does.
#[derive(Clone, Copy, PartialEq, Eq, Debug)]
enum Act {
    Emits(BoundSignal),
    Leaves(u32),
    WaitsFor(BoundSignal),
    WaitsForTick,
    Another,
}

/// Libraries whose main module is M, and what the last statement of its body does.
const LAST_ACTS: [(&str, Act); 10] = [
    // a local signal that is nearer than the interface
    (
        "module M: output S; signal S in run P end end module module P: output S; \
        emit S end module",
        Act::Emits(BoundSignal::Inner(0)),
    ),
    (
        "module M: output S; signal A, B in signal T in run P end end; run P end module \
        module P: output S; emit S end module",
        Act::Emits(BoundSignal::Outer(0)),
    ),
    // a renaming, and a local signal of the module that is run
    (
        "module M: output A, B, S; run P [signal B/S] end module module P: output S; \
        emit S end module",
        Act::Emits(BoundSignal::Outer(1)),
    ),
    (
        "module M: signal A, B in run P [signal B/S] end end module module P: output S; \
        signal T in emit T end end module",
        Act::Emits(BoundSignal::Inner(2)),
    ),
    // runs in modules that are run
    (
        "module M: output A, B; run P [signal B/S] end module module P: output S; run Q end module \
         module Q: output S; run R [signal S/T] end module module R: output T; emit T end module",
        Act::Emits(BoundSignal::Outer(1)),
    ),
    (
        "module M: signal A in run P end end module module P: signal B in run Q end end module \
        module Q: signal T in emit T end end module",
        Act::Emits(BoundSignal::Inner(2)),
    ),
    (
        "module M: input A, B; run P [signal B/S] end module module P: input S; run Q end module \
        module Q: input R, S; await S end module",
        Act::WaitsFor(BoundSignal::Outer(1)),
    ),
    (
        "module M: input A; run P end module module P: input A; run Q [signal tick/S] end module \
        module Q: input S; await S end module",
        Act::WaitsForTick,
    ),
    // traps between an exit and its trap
    (
        "module M: trap T in trap U in signal A in exit T end end end end module",
        Act::Leaves(1),
    ),
    ("module M: output S; emit S; halt end module", Act::Another),
];

/// What the last statement of a body does.
fn last_act(body: &Body) -> Act {
    match body {
        Body::Emit(signal) => Act::Emits(*signal),
        Body::Exit(trap) => Act::Leaves(*trap),
        Body::Await(wait) => match &wait.test {
            BoundTest::Of(signal) => Act::WaitsFor(*signal),
            BoundTest::Tick => Act::WaitsForTick,
            _ => Act::Another,
        },
        Body::Signal(_, inner) | Body::Trap(inner) | Body::Seq(_, inner) => last_act(inner),
        _ => Act::Another,
    }
}

/// What the last statement of the flat body of M does.
fn last_act_of(rt: &impl Abort, alloc: Global, modules: &LibraryModules<'_>) -> Act {
    let main = name(rt, "M");
    assert!(rt;
        first_duplicate(alloc, &*modules)
            .expect(rt, "room")
            .is_none()
    );
    assert!(rt;
        first_missing(alloc, &*modules, &main)
            .expect(rt, "room")
            .is_none()
    );
    let order = order_library(alloc, &*modules).ok().expect(rt, "an order");
    let body = linked_body(alloc, &*modules, &order, &main).expect(rt, "room");
    last_act(&body)
}

/// Fails where the last statement of M does something else.
fn expect_act(rt: &impl Abort, alloc: Global, text: &str, act: Act) {
    let library = library_of(rt, alloc, text);
    let modules = collect_modules(alloc, &library).expect(rt, "room");
    assert_eq!(rt; last_act_of(rt, alloc, &modules), act, "{text}");
}

#[test]
fn names_are_bound(rt: HostRuntime) {
    for (text, act) in &LAST_ACTS {
        expect_act(&rt, rt.alloc(), text, *act);
    }
}
