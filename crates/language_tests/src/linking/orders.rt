//! Orders of a few modules, of as many as one line holds, and of many more.

use crate::told::expect_told;
use est_order::place_order::order_modules;
use std::alloc::Global;
use std::process::Abort;

/// The places of the modules that each module runs, and the order that is found, or why there is
/// none.
const ORDERS: [(&[&[usize]], &str); 7] = [
    (&[], "[]"),
    (&[&[1], &[2], &[]], "[2, 1, 0]"),
    (&[&[1, 2], &[3], &[3, 3], &[]], "[3, 1, 2, 0]"),
    (&[&[7], &[0]], "[0, 1]"),
    // the first module that leads back to itself
    (&[&[], &[1]], "Recursive(1)"),
    (&[&[1], &[2], &[0]], "Recursive(0)"),
    // the first module leads to a ring, and is in none
    (&[&[4], &[], &[3], &[2], &[5], &[4]], "Recursive(2)"),
];

/// What is answered to these rows.
fn told(rt: &impl Abort, alloc: Global, rows: &[Vec<usize>]) -> String {
    let words = match order_modules(alloc, rows) {
        Ok(order) => format!(in alloc; "{:?}", order.places()),
        Err(fault) => format!(in alloc; "{fault:?}"),
    };
    words.expect(rt, "room")
}

/// Rows that have these places.
fn rows_of(rt: &impl Abort, alloc: Global, runs: &[&[usize]]) -> Vec<Vec<usize>> {
    let mut rows = Vec::new(alloc);
    for row in runs {
        let row = Vec::from_slice(alloc, row).expect(rt, "room");
        rows.push(row).expect(rt, "room");
    }
    rows
}

#[test]
fn few_modules_in_order(rt: HostRuntime) {
    for (runs, wanted) in &ORDERS {
        let rows = rows_of(&rt, rt.alloc(), runs);
        let found = told(&rt, rt.alloc(), rows.as_slice());
        expect_told(&rt, found.as_str(), wanted, wanted);
    }
}

/// As many modules as one line holds, if their names aren't the shortest.
const MANY: usize = 1600;

/// So many that a search for each of them would not end in a test's time.
const MOST: usize = 200_000;

/// Each of so many modules runs the next, and the last one the module at this place, if there is
/// one.
fn long_chain(rt: &impl Abort, alloc: Global, count: usize, last: usize) -> Vec<Vec<usize>> {
    let mut rows = Vec::new(alloc);
    for place in 1..=count {
        let next = if place == count { last } else { place };
        let row = Vec::from_slice(alloc, &[next]).expect(rt, "room");
        rows.push(row).expect(rt, "room");
    }
    rows
}

/// Fails where the answer to a long chain begins otherwise.
fn expect_begin(rt: &impl Abort, alloc: Global, count: usize, last: usize, begin: &str) {
    let rows = long_chain(rt, alloc, count, last);
    let found = told(rt, alloc, rows.as_slice());
    let found = found.as_str().get(..begin.len()).expect(rt, "an answer");
    expect_told(rt, found, begin, begin);
}

/// A chain without an end in it, a ring, and a chain whose last module runs itself.
#[test]
fn as_many_as_one_line_holds(rt: HostRuntime) {
    let alloc = rt.alloc();
    expect_begin(&rt, alloc, MANY, MANY, "[1599, ");
    expect_begin(&rt, alloc, MANY, 0, "Recursive(0)");
    expect_begin(&rt, alloc, MANY, MANY - 1, "Recursive(1599)");
}

/// One search serves all modules, also where the last one is recursive.
#[test]
fn one_search_serves_all(rt: HostRuntime) {
    expect_begin(&rt, rt.alloc(), MOST, MOST - 1, "Recursive(199999)");
}
