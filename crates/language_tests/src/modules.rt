//! Modules that run each other: their order, and the number of statements of the linked module.
use crate::openers::library_of;
use crate::told::expect_told;
use est_checks::statement_count::count_statements;
use est_modules::collecting::collect_modules;
use est_modules::library_modules::LibraryModules;
use est_modules::module_order::order_library;
use std::alloc::Global;
use std::process::Abort;

/// Each module runs the next one twice, and the first runs the second 32 times.
const DOUBLING: &str = "module M: [run A; run A; run A; run A; run A; run A; run A; run A]; \
    [run A; run A; run A; run A; run A; run A; run A; run A]; \
    [run A; run A; run A; run A; run A; run A; run A; run A]; \
    [run A; run A; run A; run A; run A; run A; run A; run A] end module \
    module A: run B; run B end module module B: run C; run C end module \
    module C: run D; run D end module module D: run E; run E end module \
    module E: run F; run F end module module F: run G; run G end module \
    module G: run H; run H end module module H: run I; run I end module \
    module I: run J; run J end module module J: run K; run K end module \
    module K: run L; run L end module module L: pause end module";

/// The number of statements of the linked module at a place, which the limit may refuse, or why the
/// modules have no order.
fn counted(rt: &impl Abort, alloc: Global, modules: &LibraryModules<'_>, place: usize) -> String {
    let main = modules.as_slice().get(place).expect(rt, "a module");
    let words = match order_library(alloc, &*modules) {
        Ok(order) => {
            let count = count_statements(alloc, &*modules, &order, &main.name).expect(rt, "room");
            format!(in alloc; "{count:?}")
        }
        Err(fault) => format!(in alloc; "{fault:?}"),
    };
    words.expect(rt, "room")
}

/// Texts, the place of a module in each, and the number of statements of that module before
/// reduction; of the last a module runs itself.
const COUNTS: [(&str, usize, &str); 7] = [
    (
        "module M: nothing; pause; || emit S end module",
        0,
        "Some(5)",
    ),
    (
        "module M: present S then run N end; run N; run N end module \
         module N: weak abort pause || halt when S end module",
        0,
        "Some(15)",
    ),
    (DOUBLING, 3, "Some(1023)"),
    (DOUBLING, 2, "Some(2047)"),
    (DOUBLING, 1, "None"),
    (DOUBLING, 0, "None"),
    (
        "module M: run A end module module A: run C; run B end module \
         module B: run A end module module C: pause end module",
        0,
        "Recursive(1)",
    ),
];

/// Fails where a module of a text has another number of statements, or another fault.
fn expect_count(rt: &impl Abort, alloc: Global, text: &str, place: usize, count: &str) {
    let library = library_of(rt, alloc, text);
    let modules = collect_modules(alloc, &library).expect(rt, "room");
    let found = counted(rt, alloc, &modules, place);
    expect_told(rt, found.as_str(), count, text);
}

#[test]
fn statements_before_reduction(rt: HostRuntime) {
    for (text, place, count) in &COUNTS {
        expect_count(&rt, rt.alloc(), text, *place, count);
    }
}
