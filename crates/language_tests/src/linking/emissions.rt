//! What modules emit that their callers see, and by which names.
use crate::openers::{library_of, name, order_of};
use crate::told::{add, expect_holds, expect_told};
use est_checks::duplicates::first_duplicate;
use est_modules::collecting::collect_modules;
use est_modules::library_modules::LibraryModules;
use est_syntax::tree::Renaming;
use link_mistakes::emitting::{callers_name, emits};
use link_mistakes::faults::first_unknown;
use std::alloc::Global;
use std::process::Abort;

/// By one run A, and by the other the O and the A that stand for A and P.
const TWO_RUNS: &str =
    "module N: output A, B, P; emit A; sustain P || present B then emit A end end module \
    module M: output A, B, O, P; signal P in run N end; run N [signal O/A, A/P] end module";

/// By a run after the end of the `signal` that hides it.
const LATER_RUN: &str = "module N: output A; emit A end module \
    module M: output A; signal A in run N end; run N end module";

/// Libraries, a module of each, and which of A, B, O and P it emits.
const EMITTED: [(&str, &str, &str); 4] = [
    (TWO_RUNS, "N", "A P "),
    (TWO_RUNS, "M", "A O "),
    (LATER_RUN, "N", "A "),
    (LATER_RUN, "M", "A "),
];

/// Which of A, B, O and P a module of a library without faults emits.
fn emitted_by(
    rt: &impl Abort,
    alloc: Global,
    modules: &LibraryModules<'_>,
    module: &str,
) -> String {
    assert!(rt;
        first_duplicate(alloc, &*modules)
            .expect(rt, "room")
            .is_none()
    );
    assert!(rt; first_unknown(alloc, &*modules).expect(rt, "room").is_none());
    let order = order_of(rt, alloc, &*modules);
    let module = name(rt, module);
    let mut told = String::new(alloc);
    for signal in "A ,B ,O ,P ".split(',') {
        let emitted = name(rt, signal.trim_end());
        if emits(alloc, &*modules, &order, &module, &emitted).expect(rt, "room") {
            add(rt, &mut told, signal);
        }
    }
    told
}

/// Fails where a module of a library emits others of these names.
fn expect_emitted(rt: &impl Abort, alloc: Global, text: &str, module: &str, signals: &str) {
    let library = library_of(rt, alloc, text);
    let modules = collect_modules(alloc, &library).expect(rt, "room");
    let told = emitted_by(rt, alloc, &modules, module);
    expect_told(rt, told.as_str(), signals, text);
}

#[test]
fn callers_see_what_is_emitted(rt: HostRuntime) {
    for (text, module, signals) in &EMITTED {
        expect_emitted(&rt, rt.alloc(), text, module, signals);
    }
}

/// In `[signal A/B, B/C]` the names of the caller stand on the left: A for B, and B for C.
#[test]
fn callers_names_stand_on_the_left(rt: HostRuntime) {
    let alloc = rt.alloc();
    let (a, b, c) = (name(&rt, "A"), name(&rt, "B"), name(&rt, "C"));
    let renamings = [
        Renaming { outer: a, inner: b },
        Renaming { outer: b, inner: c },
    ];
    for (inner, outer) in &[(a, a), (b, a), (c, b)] {
        let found = callers_name(alloc, &renamings, inner).expect(&rt, "room");
        expect_holds(&rt, found == *outer, inner.as_str());
    }
}
