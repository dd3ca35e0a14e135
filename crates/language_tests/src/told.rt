//! The one comparison of what is told with what is wanted: it costs a proof once, and not in each
//! test.
use std::process::Abort;

/// Fails where something else is told of a row.
pub fn expect_told(rt: &impl Abort, told: &str, wanted: &str, row: &str) {
    assert_eq!(rt; told, wanted, "{row}");
}

/// Fails where this does not hold of a row.
pub fn expect_holds(rt: &impl Abort, holds: bool, row: &str) {
    assert!(rt; holds, "{row}");
}

/// Adds words to a text.
pub fn add(rt: &impl Abort, text: &mut String, words: &str) {
    text.push_str(words).expect(rt, "room");
}
