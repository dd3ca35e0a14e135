//! Relations that are over inputs, and relations that are not.
use crate::openers::flat_of;
use crate::told::expect_holds;
use est_reduce::flat::Flat;
use std::alloc::Global;
use std::process::Abort;

/// Relations of a module of the inputs A and B, which have to be over the inputs of another
/// interface, and whether they are.
const OVER_INPUTS: [(&str, &str, bool); 4] = [
    ("A # B", "input A, B;", true),
    ("A # B", "input A; inputoutput B;", true),
    ("A # B", "input A; output B;", false),
    ("A => B", "input A; output B;", false),
];

/// The flat module of these declarations.
fn declared(rt: &impl Abort, alloc: Global, declarations: &str) -> Flat {
    let text = format!(in alloc; "module M: {declarations} nothing end module");
    flat_of(rt, alloc, text.expect(rt, "room").as_str())
}

/// Whether relations of the inputs A and B are over the inputs that are declared here.
fn are_over_inputs(rt: &impl Abort, alloc: Global, written: &str, declarations: &str) -> bool {
    let related = format!(in alloc; "input A, B; relation {written};").expect(rt, "room");
    let related = declared(rt, alloc, related.as_str());
    let other = declared(rt, alloc, declarations);
    related.relations.are_over_inputs(&other.interface)
}

#[test]
fn relations_over_outputs(rt: HostRuntime) {
    for (written, declarations, holds) in &OVER_INPUTS {
        let found = are_over_inputs(&rt, rt.alloc(), written, declarations);
        expect_holds(&rt, found == *holds, declarations);
    }
}
