//! The signals that a test reads. What looks again at what reads a signal is led by them; if a bit
//! were missing, that would look at less.

use est_kernel::statement::{Operands, Test};
use est_meaning::signal_set::{self, SignalSet};

/// The signals that a test reads. Recursion is as deep as the test is.
#[cycle(read)]
pub fn read_by(test: &Test) -> SignalSet {
    match test {
        Test::Tick => signal_set::no_signal(),
        Test::Status(s) => signal_set::only_with_bit(*s),
        Test::Not(t) => read_by(t),
        Test::Joined(_, operands) => read_by_joint(operands),
    }
}

/// The signals that operands read.
#[cycle(read)]
fn read_by_joint(operands: &Operands) -> SignalSet {
    let mut found = signal_set::union_of(read_by(&operands.first), read_by(&operands.second));
    for test in &operands.later {
        found = signal_set::union_of(found, read_by(test));
    }
    found
}
