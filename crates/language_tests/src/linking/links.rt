//! Libraries that are linked. Faults of linking are dialogues.
use crate::openers::{library_of, name, order_of};
use crate::told::{expect_holds, expect_told};
use est_checks::fault::LinkFault;
use est_modules::collecting::collect_modules;
use est_reduce::flat::Flat;
use link_mistakes::bodies::{count_statements, link};
use std::alloc::Global;
use std::process::Abort;

/// Libraries, the name of their main module, and the numbers of signals and of relations that it
/// has, or their first fault.
const LINKED: [(&str, &str, &str); 14] = [
    ("module M: nothing end module", "M", "0 and 0"),
    (
        "module N: input A; output O; await A; emit O end module \
         module M: input I, J; output O; relation I # J, I => J; run N [signal I/A] end module",
        "M",
        "3 and 2",
    ),
    // a module that main doesn't run is no part of it
    (
        "module M: input I; output O; await I; emit O end module module N: input A, B, C; \
        relation A => X; nothing end module",
        "M",
        "2 and 0",
    ),
    // `tick` is an ordinary name of modules and of traps, and a signal that each module sees
    (
        "module M: output O; run tick; trap tick in run N [signal tick/A, O/B] \
        || exit tick end end module \
         module tick: pause end module module N: input A; output B; await immediate A; \
         emit B end module",
        "M",
        "1 and 0",
    ),
    // an inputoutput may be emitted, be bound by a run, and stand in a relation
    (
        "module N: inputoutput A; emit A end module module M: input I; inputoutput B; \
        relation I # B, I => B; emit B; run N [signal B/A] end module",
        "M",
        "2 and 2",
    ),
    // a relation over one input, written twice
    (
        "module M: input I; relation I # I, I => I; await I end module",
        "M",
        "1 and 2",
    ),
    // no module has a name that is no identifier: that is asked after the names that stand twice,
    // and before all else
    (RUNS_NONE, "", "MisnamedMain"),
    (RUNS_NONE, "1", "MisnamedMain"),
    (RUNS_NONE, "M ", "MisnamedMain"),
    (RUNS_NONE, "M-N", "MisnamedMain"),
    (TWICE, "", "DuplicateName A"),
    (TWICE, "1", "DuplicateName A"),
    (TWICE, "M ", "DuplicateName A"),
    (TWICE, "M-N", "DuplicateName A"),
];

const RUNS_NONE: &str = "module M: run X end module";

const TWICE: &str = "module M: input A, A; nothing end module";

/// The numbers of signals and of relations.
fn sizes_of(rt: &impl Abort, alloc: Global, flat: &Flat) -> String {
    let signals = flat.interface.len();
    let relations = flat.relations.as_slice().len();
    format!(in alloc; "{signals} and {relations}").expect(rt, "room")
}

/// A fault as text.
fn told(rt: &impl Abort, alloc: Global, fault: LinkFault) -> String {
    let words = match fault {
        LinkFault::DuplicateName(name) => format!(in alloc; "DuplicateName {}", name.as_str()),
        other => format!(in alloc; "{other:?}"),
    };
    words.expect(rt, "room")
}

/// What the link of a text answers.
fn linked(rt: &impl Abort, alloc: Global, text: &str, main: &str) -> String {
    let library = library_of(rt, alloc, text);
    match link(alloc, &library, main) {
        Ok(flat) => sizes_of(rt, alloc, &flat),
        Err(fault) => told(rt, alloc, fault),
    }
}

/// Fails where the link of a text answers something else.
fn expect_linked(rt: &impl Abort, alloc: Global, text: &str, main: &str, wanted: &str) {
    let found = linked(rt, alloc, text, main);
    expect_told(rt, found.as_str(), wanted, text);
}

#[test]
fn libraries_are_linked(rt: HostRuntime) {
    for (text, main, wanted) in &LINKED {
        expect_linked(&rt, rt.alloc(), text, main, wanted);
    }
}

/// A statement is counted as it is written: of 1,024 `halt` with `;` between them there are 2,047,
/// though each `halt` is two statements of the kernel.
#[test]
fn derived_statements_are_counted_once(rt: HostRuntime) {
    let alloc = rt.alloc();
    let halts = "; halt".repeat(alloc, 1023).expect(&rt, "room");
    let text = format!(in alloc; "module M: halt{halts} end module").expect(&rt, "room");
    expect_linked(&rt, alloc, text.as_str(), "M", "0 and 0");
}

/// Modules, and their numbers of statements: each `not`, `and` and `or` of a test is one.
const COUNTED: [(&str, u16); 3] = [
    ("module M: input A; await A end module", 1),
    ("module M: input A, B; await [A or B] end module", 2),
    (
        "module M: input A, B; await not A or B and not B; run N end module \
        module N: pause end module",
        7,
    ),
];

#[test]
fn words_of_tests_are_counted(rt: HostRuntime) {
    let alloc = rt.alloc();
    for (text, wanted) in &COUNTED {
        let library = library_of(&rt, alloc, text);
        let modules = collect_modules(alloc, &library).expect(&rt, "room");
        let order = order_of(&rt, alloc, &modules);
        let count = count_statements(alloc, &modules, &order, &name(&rt, "M")).expect(&rt, "room");
        expect_holds(&rt, count == Some(*wanted), text);
    }
}
