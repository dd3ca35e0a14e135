//! Machines, and what they answer to masks of inputs.

use est_host::answering::answer;
use est_host::loading::{HostFault, start};
use est_host::running::HostedMachine;
use std::alloc::Global;
use std::process::Abort;

/// The numbers of the questions, as the header for C has them.
const REACT: u64 = 0;

const GIVEN: u64 = 1;

const RESET: u64 = 2;

const INPUTS: u64 = 3;

const OUTPUTS: u64 = 4;

const LETTER: u64 = 5;

const END: u64 = 6;

const SAVED: u64 = 7;

const RESTORE: u64 = 8;

const PUT: u64 = 64;

/// An instant: its inputs, the status, and what is then given.
type Instant = (u64, u64, u64);

/// A text with the module M, and its instants.
const RUNS: [(&str, &[Instant]); 4] = [
    (
        "module M: input A, B, R; output O; loop [await A || await B]; emit O each R end module",
        &[
            (0, 0, 0),
            (1, 0, 0),
            (2, 0, 8),
            (3, 0, 0),
            (4, 0, 0),
            (3, 0, 8),
            (7, 0, 0),
        ],
    ),
    // a refusal leaves the machine as it was
    (
        "module M: input A, B; output O; relation A # B; pause; emit O; await A; emit O end module",
        &[
            (0, 0, 0),
            (3, 2, 1),
            (4, 3, 4),
            (8, 3, 8),
            (1, 0, 4),
            (2, 0, 0),
            (1, 0, 4),
        ],
    ),
    (
        "module M: input A, B; output O; relation A => B, B => A; emit O end module",
        &[(1, 2, 1), (2, 2, 2), (3, 0, 4), (3, 0, 0)],
    ),
    (
        "module M: input A; output O; pause; present A then present O else emit O end end; pause; \
         emit O end module",
        &[(0, 0, 0), (1, 1, 2), (0, 0, 0), (0, 0, 2)],
    ),
];

/// Texts that are refused, each with the number, the line and the column that are told.
const FAULTS: [(&str, u64, u64, u64); 6] = [
    ("module M: output O; emit O $ end module", 70, 1, 28),
    ("module M: output O;\nemit emit end module", 71, 2, 6),
    ("module N: nothing end module", 72, 0, 0),
    ("module M: output O; emit P end module", 74, 0, 0),
    ("module M: loop nothing end loop end module", 78, 0, 0),
    (
        "module M: input A; relation A # tick; pause end module",
        80,
        0,
        0,
    ),
];

const WAITS: &str = "module M: input A; output O; await A; emit O; pause; emit O end module";
/// Another text, that pauses at the same number.
const OTHER: &str = "module M: input A; output O; await A; pause; pause; emit O end module";

const PAUSES: &str = "module M: input A; output O; pause; pause; emit O end module";

const NAMES: &str = "module M: input A, BCD; output O; inputoutput X; emit O end module";

/// Questions that are asked of a machine of `PAUSES`, after the words of one that has not begun
/// were put: a kind that there is not, pauses of a state that has none, pauses that the module
/// cannot have, and not have together. Each is refused; the second pause alone is not.
const WORDS: [(u64, u64, u64); 22] = [
    (PUT + 32, 3, 0),
    (RESTORE, 0, 1),
    (PUT + 32, 0, 0),
    (PUT + 33, 1, 0),
    (RESTORE, 0, 1),
    (PUT + 32, 1, 0),
    (RESTORE, 0, 1),
    (PUT + 32, 2, 0),
    (PUT + 33, 0, 0),
    (RESTORE, 0, 1),
    (PUT + 33, 3, 0),
    (RESTORE, 0, 1),
    (PUT + 33, 4, 0),
    (RESTORE, 0, 1),
    (PUT + 33, 2, 0),
    (PUT + 64, 1, 0),
    (RESTORE, 0, 1),
    (PUT + 64, 0, 0),
    (RESTORE, 0, 0),
    (REACT, 0, 0),
    (GIVEN, 0, 2),
    (PUT + 65, 0, u64::MAX),
];

/// What a machine of `NAMES` tells, and that one which was ended tells nothing more.
const TOLD: [(u64, u64, u64); 13] = [
    (INPUTS, 0, 11),
    (OUTPUTS, 0, 12),
    (LETTER, 0, 65),
    (LETTER, 1, 0),
    (LETTER, 64, 66),
    (LETTER, 66, 68),
    (LETTER, 67, 0),
    (LETTER, 256, 0),
    (SAVED, 32, 0),
    (SAVED, 65, u64::MAX),
    (9, 0, u64::MAX),
    (END, 0, 0),
    (REACT, 0, u64::MAX),
];

/// A machine of a text that is not refused.
fn begun(rt: &impl Abort, alloc: Global, text: &str) -> Box<HostedMachine> {
    match start(alloc, b"M", text.as_bytes()) {
        Ok(running) => running,
        Err(_) => panic!(rt; "refused"),
    }
}

/// Fails where a question is answered otherwise.
fn ask(rt: &impl Abort, running: &mut HostedMachine, questions: &[(u64, u64, u64)]) {
    for (question, argument, wanted) in questions.iter() {
        assert_eq!(rt; answer(running, *question, *argument), *wanted);
    }
}

/// Fails where an instant is answered otherwise.
fn run(rt: &impl Abort, running: &mut HostedMachine, instants: &[Instant]) {
    for (inputs, status, given) in instants.iter() {
        assert_eq!(rt; answer(running, REACT, *inputs), *status);
        assert_eq!(rt; answer(running, GIVEN, 0), *given);
    }
}

/// Fails where something else is answered, or after a reset something else than before.
fn expect_run(rt: &impl Abort, alloc: Global, text: &str, instants: &[Instant]) {
    let mut running = begun(rt, alloc, text);
    run(rt, &mut running, instants);
    ask(rt, &mut running, &[(RESET, 0, 0)]);
    run(rt, &mut running, instants);
}

#[test]
fn machines_react(rt: HostRuntime) {
    for (text, instants) in RUNS.iter() {
        expect_run(&rt, rt.alloc(), text, instants);
    }
}

/// The fault of a text that is refused.
fn fault_of(rt: &impl Abort, alloc: Global, text: &str) -> HostFault {
    match start(alloc, b"M", text.as_bytes()) {
        Ok(_) => panic!(rt; "not refused"),
        Err(fault) => fault,
    }
}

#[test]
fn texts_are_refused(rt: HostRuntime) {
    for (text, code, line, column) in FAULTS.iter() {
        let fault = fault_of(&rt, rt.alloc(), text);
        assert_eq!(&rt;
            (fault.code, fault.line, fault.column),
            (*code, *line, *column)
        );
    }
}

/// Puts the words that keep where one machine stands into another.
fn hand_over(from: &mut HostedMachine, to: &mut HostedMachine) {
    for place in 0..65 {
        let word = answer(from, SAVED, place);
        answer(to, PUT + place, word);
    }
}

/// Restores a machine of a text where one of `WAITS` stands after two instants, and asks it then.
fn expect_restored(rt: &impl Abort, alloc: Global, text: &str, questions: &[(u64, u64, u64)]) {
    let mut first = begun(rt, alloc, WAITS);
    run(rt, &mut first, &[(0, 0, 0), (1, 0, 2)]);
    let mut second = begun(rt, alloc, text);
    hand_over(&mut first, &mut second);
    ask(rt, &mut second, questions);
}

/// A state is restored in a machine of the text that it was saved of, and in none of another text,
/// though that pauses at the same number.
#[test]
fn states_are_restored(rt: HostRuntime) {
    expect_restored(
        &rt,
        rt.alloc(),
        WAITS,
        &[(RESTORE, 0, 0), (REACT, 0, 0), (GIVEN, 0, 2)],
    );
    expect_restored(
        &rt,
        rt.alloc(),
        OTHER,
        &[(RESTORE, 0, 1), (REACT, 0, 0), (GIVEN, 0, 0)],
    );
}

/// Words that no machine saved are refused.
#[test]
fn other_words_are_refused(rt: HostRuntime) {
    let mut first = begun(&rt, rt.alloc(), PAUSES);
    let mut second = begun(&rt, rt.alloc(), PAUSES);
    hand_over(&mut first, &mut second);
    ask(&rt, &mut second, &WORDS);
}

/// The interface is told, and a machine that was ended answers nothing more.
#[test]
fn machines_tell_and_end(rt: HostRuntime) {
    let mut machine = begun(&rt, rt.alloc(), NAMES);
    ask(&rt, &mut machine, &TOLD);
}
