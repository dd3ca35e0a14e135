//! Texts and their trees.
use super::module_of;
use crate::openers::library_of;
use crate::told::{add, expect_holds, expect_told};
use est_syntax::tree::{Branches, Module, Renaming, Sequence, Unit, WeakEnd};
use est_text::identifier::Identifier;
use std::alloc::Global;
use std::process::Abort;

/// Units whose last words may be left out, and those words.
const CLOSINGS: [(&str, &str); 17] = [
    ("present S then pause end", " present"),
    ("present S else pause end", " present"),
    ("present S then pause else pause end", " present"),
    ("suspend pause when S", " end suspend"),
    ("suspend pause when immediate S", " end suspend"),
    ("abort pause when S", " end abort"),
    ("abort pause when immediate S", " end abort"),
    ("weak abort pause when S", " end abort"),
    ("weak abort pause when S", " end weak abort"),
    ("weak abort pause when immediate S", " end abort"),
    ("weak abort pause when immediate S", " end weak abort"),
    ("loop pause end", " loop"),
    ("every S do pause end", " every"),
    ("every immediate S do pause end", " every"),
    ("trap T in pause end", " trap"),
    ("signal A in pause end", " signal"),
    ("signal A, B in pause end", " signal"),
];

/// Whether the last words that may be left out are written.
fn is_closed(unit: &Unit) -> bool {
    match unit {
        Unit::Present(_, Branches::Then(_, again) | Branches::Else(_, again)) => *again,
        Unit::Present(_, Branches::Both(_, _, again)) => *again,
        Unit::Suspend(_, _, written) | Unit::Abort(_, _, written) => *written,
        Unit::WeakAbort(_, _, end) => *end != WeakEnd::LeftOut,
        Unit::Loop(_, again) | Unit::Every(_, _, again) => *again,
        Unit::Trap(_, _, again) | Unit::Signal(_, _, again) => *again,
        _ => false,
    }
}

/// Whether the last words of the first unit of a body are written.
fn is_body_closed(rt: &impl Abort, alloc: Global, body: &str) -> bool {
    let text = module_of(rt, alloc, body);
    let library = library_of(rt, alloc, text.as_str());
    is_closed(&library.first.body.first.first)
}

/// Fails where a tree tells the last words of a unit otherwise, left out or written.
fn expect_last_words(rt: &impl Abort, alloc: Global, unit: &str, last: &str) {
    let whole = format!(in alloc; "{unit}{last}").expect(rt, "room");
    let left_out = is_body_closed(rt, alloc, unit);
    let written = is_body_closed(rt, alloc, whole.as_str());
    expect_holds(rt, !left_out && written, unit);
}

#[test]
fn last_words_are_kept(rt: HostRuntime) {
    for (unit, last) in &CLOSINGS {
        expect_last_words(&rt, rt.alloc(), unit, last);
    }
}

/// Texts, and a sketch of their trees: of each module its name, how many declarations it has, and
/// its body, in which a unit is one word and a `;` before `||` or the end closes a sequence. Of a
/// run the module and its renamings are told.
const SKETCHES: [(&str, &str); 3] = [
    (
        "module M: input I, J; relation A # B # C; pause; halt; nothing; || nothing || pause; \
        nothing end module \
         module N: relation A # B; halt end module",
        "M with 2: pause; halt; nothing; || nothing || pause; nothing | N with 1: halt",
    ),
    (
        "module M: run P [signal A/B, C/D] end module",
        "M with 0: run P, outer A inner B, outer C inner D",
    ),
    (
        "module M: pause; halt; nothing end module",
        "M with 0: pause; halt; nothing",
    ),
];

/// Adds a renaming to a sketch, with its sides.
fn add_renaming(rt: &impl Abort, sketch: &mut String, renaming: &Renaming) {
    add(rt, sketch, ", outer ");
    add(rt, sketch, renaming.outer.as_str());
    add(rt, sketch, " inner ");
    add(rt, sketch, renaming.inner.as_str());
}

/// Adds a run to a sketch, each renaming with its sides.
fn add_run(rt: &impl Abort, sketch: &mut String, name: &Identifier, renamings: &[Renaming]) {
    add(rt, sketch, "run ");
    add(rt, sketch, name.as_str());
    for renaming in renamings {
        add_renaming(rt, sketch, renaming);
    }
}

/// Adds a unit to a sketch.
fn add_unit(rt: &impl Abort, sketch: &mut String, unit: &Unit) {
    match unit {
        Unit::Nothing => add(rt, sketch, "nothing"),
        Unit::Pause => add(rt, sketch, "pause"),
        Unit::Halt => add(rt, sketch, "halt"),
        Unit::Run(name, renamings) => add_run(rt, sketch, name, renamings),
        _ => add(rt, sketch, "another"),
    }
}

/// Adds the units of a sequence to a sketch.
fn add_sequence(rt: &impl Abort, sketch: &mut String, sequence: &Sequence) {
    add_unit(rt, sketch, &sequence.first);
    for unit in &sequence.later {
        add(rt, sketch, "; ");
        add_unit(rt, sketch, unit);
    }
    if sequence.closed {
        add(rt, sketch, ";");
    }
}

/// Adds a module to a sketch.
fn add_module(rt: &impl Abort, alloc: Global, sketch: &mut String, module: &Module) {
    let count = format!(in alloc; " with {}: ", module.declarations.len()).expect(rt, "room");
    add(rt, sketch, module.name.as_str());
    add(rt, sketch, count.as_str());
    add_sequence(rt, sketch, &module.body.first);
    for sequence in &module.body.later {
        add(rt, sketch, " || ");
        add_sequence(rt, sketch, sequence);
    }
}

/// The sketch of a text's tree.
fn sketch_of(rt: &impl Abort, alloc: Global, text: &str) -> String {
    let library = library_of(rt, alloc, text);
    let mut sketch = String::new(alloc);
    add_module(rt, alloc, &mut sketch, &library.first);
    for module in &library.later {
        add(rt, &mut sketch, " | ");
        add_module(rt, alloc, &mut sketch, module);
    }
    sketch
}

#[test]
fn trees_are_as_they_are_written(rt: HostRuntime) {
    for (text, sketch) in &SKETCHES {
        let found = sketch_of(&rt, rt.alloc(), text);
        expect_told(&rt, found.as_str(), sketch, text);
    }
}
