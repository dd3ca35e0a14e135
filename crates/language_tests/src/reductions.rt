//! Each derived statement against its kernel statement, written out. The interface is `input S;
//! output O`.

use crate::openers::flat_of;
use crate::told::{add, expect_told};
use est_kernel::interface::Interface;
use est_kernel::statement::{Connective, Operands, Signal, Statement, Test};
use est_reduce::body::Body;
use est_reduce::flat::Flat;
use est_reduce::reduce::reduce;
use est_relations::relations::Relations;
use std::alloc::Global;
use std::process::Abort;

fn signal_word(signal: Signal) -> &'static str {
    match signal {
        Signal::Interface(s) => if s.index == 0 { "S" } else { "O" },
        Signal::Local(s) => if s.index == 0 { "A" } else { "B" },
    }
}

/// A test as it is written; operands stand in parentheses.
#[cycle(tests)]
fn write_test(rt: &impl Abort, test: &Test, text: &mut String) {
    match test {
        Test::Tick => add(rt, text, "tick"),
        Test::Status(signal) => add(rt, text, signal_word(*signal)),
        Test::Not(inner) => {
            add(rt, text, "not ");
            write_test(rt, inner, text);
        }
        Test::Joined(connective, operands) => write_operands(rt, *connective, operands, text),
    }
}

/// Operands with their connective between them.
#[cycle(tests)]
fn write_operands(rt: &impl Abort, connective: Connective, operands: &Operands, text: &mut String) {
    let word = match connective {
        Connective::And => " and ",
        Connective::Or => " or ",
    };
    add(rt, text, "(");
    write_test(rt, &operands.first, text);
    add(rt, text, word);
    write_test(rt, &operands.second, text);
    for test in &operands.later {
        add(rt, text, word);
        write_test(rt, test, text);
    }
    add(rt, text, ")");
}

/// A statement as it is written; a trap's exits are told by how many traps lie between.
fn write(rt: &impl Abort, statement: &Statement, text: &mut String) {
    match statement {
        Statement::Nothing => add(rt, text, "nothing"),
        Statement::Pause(_) => add(rt, text, "pause"),
        Statement::Emit(signal) => {
            add(rt, text, "emit ");
            add(rt, text, signal_word(*signal));
        }
        Statement::Present(test, p, q) => {
            add(rt, text, "present ");
            write_test(rt, test, text);
            add(rt, text, " then ");
            write(rt, p, text);
            add(rt, text, " else ");
            write(rt, q, text);
            add(rt, text, " end");
        }
        Statement::Suspend(test, p) => {
            add(rt, text, "suspend ");
            write(rt, p, text);
            add(rt, text, " when ");
            write_test(rt, test, text);
        }
        Statement::Seq(p, q) => {
            add(rt, text, "[");
            write(rt, p, text);
            add(rt, text, "; ");
            write(rt, q, text);
            add(rt, text, "]");
        }
        Statement::Par(p, q) => {
            add(rt, text, "[");
            write(rt, p, text);
            add(rt, text, " || ");
            write(rt, q, text);
            add(rt, text, "]");
        }
        Statement::Loop(p) => {
            add(rt, text, "loop ");
            write(rt, p, text);
            add(rt, text, " end");
        }
        Statement::Trap(p) => {
            add(rt, text, "trap ");
            write(rt, p, text);
            add(rt, text, " end");
        }
        Statement::Exit(k) => add(rt, text, if k.index == 0 { "exit 0" } else { "exit 1" }),
        Statement::Local(s, p) => {
            let word = if s.index == 0 {
                "signal A in "
            } else {
                "signal B in "
            };
            add(rt, text, word);
            write(rt, p, text);
            add(rt, text, " end");
        }
    }
}

/// The kernel statement of a flat module, written out, or why it has none.
fn reduced(rt: &impl Abort, alloc: Global, flat: &Flat) -> String {
    match reduce(alloc, flat) {
        Ok(kernel) => {
            let mut text = String::new(alloc);
            write(rt, kernel.root(), &mut text);
            text
        }
        Err(fault) => format!(in alloc; "{fault:?}").expect(rt, "room"),
    }
}

/// Bodies, and the kernel statement of each, or why it has none.
const REDUCED: [(&str, &str); 25] = [
    // waits
    ("halt", "loop pause end"),
    ("sustain O", "loop [emit O; pause] end"),
    (
        "await S",
        "trap loop [pause; present S then exit 0 else nothing end] end end",
    ),
    (
        "await immediate S",
        "trap loop [present S then exit 0 else nothing end; pause] end end",
    ),
    ("suspend emit O when S", "suspend emit O when S"),
    (
        "suspend emit O when immediate S",
        "suspend [present S then pause else nothing end; emit O] when S",
    ),
    (
        "signal A, B in emit B end",
        "signal A in signal B in emit B end end",
    ),
    // aborts
    (
        "abort emit O when S",
        "trap [[suspend emit O when S; exit 0] || \
         loop [pause; present S then exit 0 else nothing end] end] end",
    ),
    (
        "abort emit O when immediate S",
        "present S then nothing else trap [[suspend emit O when S; exit 0] || \
         loop [pause; present S then exit 0 else nothing end] end] end end",
    ),
    (
        "weak abort emit O when S",
        "trap [[emit O; exit 0] || loop [pause; present S then exit 0 else nothing end] end] end",
    ),
    (
        "weak abort emit O when immediate S",
        "trap [[emit O; exit 0] || loop [present S then exit 0 else nothing end; pause] end] end",
    ),
    // tests of more than one signal, as often as the table of reductions has them; `not` binds
    // tighter than `and`, and that tighter than `or`
    (
        "await [not S or O and tick]",
        "trap loop [pause; present (not S or (O and tick)) then exit 0 else nothing end] end end",
    ),
    (
        "present S and O and not (S or O) then emit O end",
        "present (S and O and not (S or O)) then emit O else nothing end",
    ),
    (
        "suspend emit O when immediate not not S",
        "suspend [present not not S then pause else nothing end; emit O] when not not S",
    ),
    (
        "abort emit O when immediate S or O",
        "present (S or O) then nothing else trap [[suspend emit O when (S or O); exit 0] || \
         loop [pause; present (S or O) then exit 0 else nothing end] end] end end",
    ),
    (
        "weak abort emit O when (S) and O",
        "trap [[emit O; exit 0] || loop [pause; present (S and O) then exit 0 else nothing end] \
        end] end",
    ),
    (
        "every S or not O do emit O end",
        "[trap loop [pause; present (S or not O) then exit 0 else nothing end] end end; \
         loop trap [[suspend [emit O; loop pause end] when (S or not O); exit 0] || \
         loop [pause; present (S or not O) then exit 0 else nothing end] end] end end]",
    ),
    // an exit out of an abort, and one out of a trap inside it
    (
        "trap T in abort exit T when S end",
        "trap trap [[suspend exit 1 when S; exit 0] || \
         loop [pause; present S then exit 0 else nothing end] end] end end",
    ),
    (
        "weak abort trap T in exit T end when S",
        "trap [[trap exit 0 end; exit 0] || \
         loop [pause; present S then exit 0 else nothing end] end] end",
    ),
    // repetitions
    (
        "loop emit O each S",
        "loop trap [[suspend [emit O; loop pause end] when S; exit 0] || \
         loop [pause; present S then exit 0 else nothing end] end] end end",
    ),
    (
        "every S do emit O end",
        "[trap loop [pause; present S then exit 0 else nothing end] end end; \
         loop trap [[suspend [emit O; loop pause end] when S; exit 0] || \
         loop [pause; present S then exit 0 else nothing end] end] end end]",
    ),
    (
        "every immediate S do emit O end",
        "[trap loop [present S then exit 0 else nothing end; pause] end end; \
         loop trap [[suspend [emit O; loop pause end] when S; exit 0] || \
         loop [pause; present S then exit 0 else nothing end] end] end end]",
    ),
    // loops whose body takes no time, always and where S isn't there, and more local signals than
    // a kernel may have
    ("loop emit O end", "InstantLoop"),
    ("loop present S then pause end end", "InstantLoop"),
    (
        "signal S1, S2, S3, S4, S5, S6, S7, S8, S9, S10, S11, S12, S13, S14, S15, S16, S17, \
        S18, S19, S20, S21, S22, S23, S24, S25, S26, S27, S28, S29, S30, S31, S32, \
        S33 in pause end",
        "TooLarge(Locals)",
    ),
];

/// Fails where a body is reduced to something else.
fn expect_reduced(rt: &impl Abort, alloc: Global, body: &str, written: &str) {
    let text = format!(in alloc; "module M: input S; output O; {body} end module");
    let flat = flat_of(rt, alloc, text.expect(rt, "room").as_str());
    let found = reduced(rt, alloc, &flat);
    expect_told(rt, found.as_str(), written, body);
}

#[test]
fn derived_statements_are_reduced(rt: HostRuntime) {
    for (body, written) in &REDUCED {
        expect_reduced(&rt, rt.alloc(), body, written);
    }
}

/// A body of four thousand million names, which no text can have.
#[test]
fn four_billion_names_are_never_built(rt: HostRuntime) {
    let alloc = rt.alloc();
    let pause = Box::new(alloc, Body::Pause).expect(&rt, "room");
    let flat = Flat {
        interface: Interface::new(alloc),
        relations: Relations::new(alloc),
        body: Body::Signal(4_000_000_000, pause),
    };
    let found = reduced(&rt, alloc, &flat);
    let names = "four billion names";
    expect_told(&rt, found.as_str(), "TooLarge(Statements)", names);
}
