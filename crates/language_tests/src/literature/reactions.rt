//! Kernel programs, each instant by instant. The interface is `input I; output O, P, Q`.

use crate::literature::loads::expect_instants;

/// Programs, and four instants of each: before `>` the inputs, after it the outputs, or `stuck`
/// and the outputs that are undecided.
const EXAMPLES: [(&str, &str); 18] = [
    ("emit O; pause; emit P", "> O; > P; >; >"),
    ("suspend [pause; emit O] when I", "I >; I >; I >; > O"),
    (
        "loop signal S in present S then emit O else emit P end; pause; emit S end end",
        "> P; > P; > P; > P",
    ),
    (
        "trap T in [emit O; exit T || pause; emit P] end; emit Q",
        "> O Q; >; >; >",
    ),
    (
        "trap T in [exit T || emit O; pause; emit P] end; emit P",
        "> O P; >; >; >",
    ),
    (
        "loop trap T in pause; exit T end; emit O end",
        ">; > O; > O; > O",
    ),
    (
        "trap T in [exit T || emit O; pause; emit P] end; pause; emit Q",
        "> O; > Q; >; >",
    ),
    (
        "trap T in [trap U in exit T end; emit O] end; emit P",
        "> P; >; >; >",
    ),
    (
        "signal S in [present S then emit O end || emit S] end",
        "> O; >; >; >",
    ),
    (
        "present O then emit O else emit O end",
        "> stuck O; > stuck O; > stuck O; > stuck O",
    ),
    (
        "present O then emit O end",
        "> stuck O; > stuck O; > stuck O; > stuck O",
    ),
    (
        "present O else emit O end",
        "> stuck O; > stuck O; > stuck O; > stuck O",
    ),
    (
        "present O then pause end; signal S in [emit S; present S else emit O end] end",
        "> stuck O; > stuck O; > stuck O; > stuck O",
    ),
    // a circle in the text that is in no instant: with I, and without
    (
        "present I then [emit O; present O then emit P end] else [emit P; \
        present P then emit O end] end",
        "I > O P; >; >; >",
    ),
    (
        "present I then [emit O; present O then emit P end] else [emit P; \
        present P then emit O end] end",
        "> O P; >; >; >",
    ),
    (
        "signal S in present S then emit S end end",
        "> stuck; > stuck; > stuck; > stuck",
    ),
    (
        "signal S in [present S then emit O end; emit S] end",
        "> stuck O; > stuck O; > stuck O; > stuck O",
    ),
    (
        "loop present tick then emit O; pause else pause end end",
        "> O; > O; > O; > O",
    ),
];

/// Runs the table's programs for four instants each.
#[test]
fn worked_examples(rt: HostRuntime) {
    for (body, instants) in &EXAMPLES {
        let text = format!(in rt.alloc(); "module M: input I; output O, P, Q; {body} end module");
        let text = text.expect(&rt, "room");
        expect_instants(&rt, rt.alloc(), text.as_str(), instants);
    }
}
