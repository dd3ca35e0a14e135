//! Words and numbers that no command line comes to, and lines that wrong bodies answer wrongly.
//! Other command lines are shown by `tests/socket` and `tests/faults`.
use program_words::fault::WordFault;
use program_words::invocation::{Invocation, WorkerCount};
use server_mistakes::words::from_words;
use std::alloc::Global;
use std::process::Abort;

/// What these words come to: a fault of this kind, or a script with or without a log and a report.
fn told_of(rt: &impl Abort, alloc: Global, words: &[&str]) -> String {
    let told = match from_words(alloc, words) {
        Err(WordFault::Words(error)) => format!(in alloc; "{:?}", error.kind()),
        Ok(Invocation::Script { log, report }) => format!(in alloc; "script {log} {report}"),
        _ => format!(in alloc; "another invocation"),
    };
    told.expect(rt, "room")
}

/// Words, and what they come to.
const LINES: &[(&[&str], &str)] = &[
    (&[], "MissingSubcommand"),
    (&["estserve", "serve"], "MissingRequiredArgument"),
    (&["estserve", "script", "--report"], "script false true"),
];

#[test]
fn what_words_come_to(rt: HostRuntime) {
    for (words, wanted) in LINES {
        assert_eq!(&rt; told_of(&rt, rt.alloc(), words).as_str(), *wanted);
    }
}

#[test]
fn a_number_of_workers_is_from_one_to_sixteen(rt: HostRuntime) {
    for (count, wanted) in [(0, None), (1, Some(1)), (16, Some(16)), (17, None)] {
        let made = WorkerCount::new(count).map(|workers| workers.count());
        assert!(rt; made == wanted, "{count}");
    }
    assert!(rt; WorkerCount::default().count() == 4);
}
