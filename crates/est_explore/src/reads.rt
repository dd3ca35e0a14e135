//! Which signals tell a test.
//!
//! Recursion is as deep as the expressions of the test are nested.
ghost use Rattle.std.specs.Prelude.{◌≡◌};
ghost use Rattle.est_kernel.specs.Bits.{bits};
ghost use Rattle.est_kernel.specs.Term.{of};
ghost use Rattle.est_kernel.specs.View.{joint_of, name_of, query_of};
ghost use Rattle.est_explore.specs.Claims.{IsToldBy};
ghost use Rattle.est_explore.specs.Inner.Reads.{IsReadBy, IsJointReadBy};

use est_kernel::mask;
use est_kernel::statement::{Operands, Signal, Test};

/// The signals of the interface that tell the test.
pub fn signals_of(test: &Test) -> u64
    ensures { IsToldBy test.now (bits result) }
{
    read_by(test)
}

/// The signal, if it is one of the interface.
fn read_of(signal: Signal) -> u64
    ensures { IsReadBy (of (name_of signal)) (bits result) }
{
    match signal {
        Signal::Interface(signal) => mask::single(signal.index),
        Signal::Local(_) => 0,
    }
}

/// The signals of the interface that a test reads.
#[cycle(read)]
fn read_by(test: &Test) -> u64
    ensures { IsReadBy (query_of test.now) (bits result) }
{
    match test {
        Test::Tick => 0,
        Test::Status(signal) => read_of(*signal),
        Test::Not(test) => read_by(test),
        Test::Joined(_, operands) => read_by_joint(operands),
    }
}

/// The signals of the interface that operands read.
#[cycle(read)]
fn read_by_joint(operands: &Operands) -> u64
    ensures { IsJointReadBy (joint_of operands.now) (bits result) }
{
    let mut signals = mask::union(read_by(&operands.first), read_by(&operands.second));
    for test in &operands.later {
        signals = mask::union(signals, read_by(test));
    }
    signals
}
