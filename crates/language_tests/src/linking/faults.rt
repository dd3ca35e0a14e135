//! Libraries and the first fault of their checks, one for each mistake of `link_mistakes`. More of
//! them are dialogues.
use crate::openers::{library_of, name};
use crate::told::expect_holds;
use est_checks::emission::Emissions;
use est_checks::fault::LinkFault;
use est_modules::collecting::collect_modules;
use est_modules::library_modules::LibraryModules;
use est_modules::names::set::NameSet;
use est_text::identifier::Identifier;
use link_mistakes::faults::{fault_after_order, fault_before_order};
use std::alloc::Global;
use std::process::Abort;

/// The kind of a fault.
#[derive(Clone, Copy)]
enum Kind {
    Duplicate,
    Rename,
    Unknown,
    Emit,
}

/// Libraries, and the first fault of each. The main module is M, and N is said to emit A.
const FAULTS: [(&str, Kind, &str); 9] = [
    // the first that repeats one before it, and not the first of the two
    (
        "module M: input A, B; output B, A; nothing end module",
        Kind::Duplicate,
        "B",
    ),
    // of two renamings of one signal the first
    (
        "module M: output A, B; run N [signal A/Y, B/Z, A/Y] end module module N: input Y; \
        nothing end module",
        Kind::Rename,
        "Y",
    ),
    (
        "module M: output A, B; run N [signal A/X, B/Z, B/X] end module module N: output X, Y; \
        nothing end module",
        Kind::Rename,
        "X",
    ),
    // a trap of the caller isn't seen in a module that is run
    (
        "module M: trap T in run N end end module module N: exit T end module",
        Kind::Unknown,
        "T",
    ),
    // a run inside a `signal` that declares a name for it, and one after its end
    (
        "module M: output A; signal B in run N end; run N end module module N: output A, B; \
        nothing end module",
        Kind::Unknown,
        "B",
    ),
    (
        "module M: output A; signal B in trap T in signal C in run N end; run N end end end module \
         module N: input C, A, B; nothing end module",
        Kind::Unknown,
        "C",
    ),
    // an input that only a run emits, by its own name and by another
    (
        "module M: input A; output B; run N end module module N: output B, A; emit A end module",
        Kind::Emit,
        "A",
    ),
    (
        "module M: input I; output O; run N [signal O/B, I/A] end module module N: output B, A; \
        emit A end module",
        Kind::Emit,
        "I",
    ),
    (
        "module M: run N [signal tick/A] end module module N: output A; emit A end module",
        Kind::Emit,
        "tick",
    ),
];

/// An inputoutput, which may be emitted, and be bound to what a module emits.
const EMITTED: &str = "module M: inputoutput B; run N [signal B/A] end module \
    module N: inputoutput A; emit A end module";

/// The fault of a kind and a name.
fn fault(kind: Kind, name: Identifier) -> LinkFault {
    match kind {
        Kind::Duplicate => LinkFault::DuplicateName(name),
        Kind::Rename => LinkFault::BadRename(name),
        Kind::Unknown => LinkFault::UnknownName(name),
        Kind::Emit => LinkFault::EmitInput(name),
    }
}

/// The first fault of the checks before the order of the modules, or else of those after it.
fn first_fault(
    rt: &impl Abort,
    alloc: Global,
    modules: &LibraryModules<'_>,
    table: &Emissions<'_>,
) -> Option<LinkFault> {
    let before = fault_before_order(alloc, &*modules, "M").expect(rt, "room");
    let main = name(rt, "M");
    let after = fault_after_order(alloc, &*modules, &main, &*table).expect(rt, "room");
    before.or(after)
}

/// Fails where the first fault of a library is another, or there is none or should be none.
fn expect_fault(
    rt: &impl Abort,
    alloc: Global,
    table: &Emissions<'_>,
    text: &str,
    wanted: Option<LinkFault>,
) {
    let library = library_of(rt, alloc, text);
    let modules = collect_modules(alloc, &library).expect(rt, "room");
    let found = first_fault(rt, alloc, &modules, &*table);
    expect_holds(rt, found == wanted, text);
}

#[test]
fn first_faults_are_named(rt: HostRuntime) {
    let alloc = rt.alloc();
    let run = name(&rt, "N");
    let signal = name(&rt, "A");
    let mut signals = NameSet::new(alloc);
    signals.insert(&signal).expect(&rt, "room");
    let mut table = Emissions::new(alloc);
    table.add(&run, signals).expect(&rt, "room");
    for (text, kind, wanted) in &FAULTS {
        let wanted = Some(fault(*kind, name(&rt, wanted)));
        expect_fault(&rt, alloc, &table, text, wanted);
    }
    expect_fault(&rt, alloc, &table, EMITTED, None);
}
