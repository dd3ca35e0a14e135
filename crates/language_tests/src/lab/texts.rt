//! Claims as texts, and what is answered to them.

use crate::lab::claims::{ALL, answer_told};
use crate::lab::lines::expect_member;
use crate::lab::modules::both;
use est_explore::claim::Claim;
use est_kernel::kernel::Kernel;
use est_relations::relations::Relations;
use lab_mistakes::claims::{explore_among, read_claim};
use lab_run::lab::limits;
use reactor_core::reading::read_module;
use reactor_core::refusal::{ModuleRefusal, ReactorRefusal};
use std::alloc::Global;
use std::process::Abort;

/// Claims of a module that emits O where A and B are present: the verdict on each, as the inputs
/// and outputs of a counterexample; or the number of its refusal, with the place in it.
const ANSWERS: [(&str, &str); 13] = [
    ("never O", " 3>4"),
    ("always not O", " 3>4"),
    ("always O", " 0>0"),
    ("never O and not (A and B)", " holds"),
    ("always O or not A or not B", " holds"),
    ("never A)", " 71 at 1:8"),
    ("never A) or (B", " 71 at 1:8"),
    (
        "always A ] then nothing end end module module N: present [tick",
        " 71 at 1:10",
    ),
    ("always X", " 74"),
    ("always A and", " 71 at 2:1"),
    ("always !", " 70 at 1:8"),
    ("always", " 71 at 1:1"),
    ("maybe A", " 71 at 1:1"),
];

/// How a refusal is told.
fn refusal_told(rt: &impl Abort, alloc: Global, refusal: &ReactorRefusal) -> String {
    let ReactorRefusal::Module(refusal) = refusal else {
        return String::from_str(alloc, " no room").expect(rt, "room");
    };
    let code = refusal.label().0;
    let told = match refusal {
        ModuleRefusal::Syntax(place) | ModuleRefusal::Lexical(place) => {
            let line = place.line;
            let column = place.column;
            format!(in alloc; " {code} at {line}:{column}")
        }
        _ => format!(in alloc; " {code}"),
    };
    told.expect(rt, "room")
}

/// What is answered to the text of a claim of a kernel.
fn text_answered(rt: &impl Abort, alloc: Global, kernel: &Kernel, text: &str) -> String {
    match read_claim(alloc, kernel.interface(), text) {
        Ok(test) => {
            let claim = Claim::Always(test.test());
            let free = Relations::new(alloc);
            answer_told(rt, alloc, kernel, &free, ALL, &claim, 9)
        }
        Err(refusal) => refusal_told(rt, alloc, &refusal),
    }
}

/// Each claim is read as the language reads its test, or refused.
#[test]
fn texts_of_claims(rt: HostRuntime) {
    let alloc = rt.alloc();
    let kernel = both(&rt, alloc);
    for (text, wanted) in ANSWERS {
        let told = text_answered(&rt, alloc, &kernel, text);
        assert_eq!(rt; told.as_str(), wanted);
    }
}

/// Each of several claims has its own verdict.
#[test]
fn verdicts_on_claims(rt: HostRuntime) {
    let alloc = rt.alloc();
    let text = "module M: input A; output O; present A then emit O end end module";
    let module = read_module(alloc, "M", text).ok().expect(&rt, "a module");
    let claims = ["never O", "never O and not A"];
    let told = explore_among(alloc, &module, claims.as_slice(), ALL, limits(9));
    let told = told.expect(&rt, "room");
    let wanted = "[{\"verdict\":\"fails\",\"word\":[{\"inputs\":[\"A\"],\"outputs\":[\"O\"]}]},\
        {\"verdict\":\"holds\"}]";
    expect_member(&rt, alloc, &told, "verdicts", wanted);
}
