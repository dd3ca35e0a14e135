//! Interfaces and kernels at the edges of their limits.

use crate::literature::loads::step;
use crate::openers::{kernel_of, name};
use crate::told::{add, expect_holds, expect_told};
use est_kernel::closed::is_closed;
use est_kernel::interface::{Declaration, Interface, Kind};
use est_kernel::kernel::{Kernel, LoadFault};
use est_kernel::limits::Limit;
use est_kernel::state::State;
use est_kernel::statement::{InterfaceSignal, LocalSignal, Signal, Statement};
use std::alloc::Global;
use std::process::Abort;

/// Pauses before a statement, each of two nodes more.
fn after_pauses(rt: &impl Abort, alloc: Global, last: Statement, count: u16) -> Statement {
    let mut whole = last;
    for _ in 0..count {
        whole = Statement::seq(alloc, Statement::pause(), whole).expect(rt, "room");
    }
    whole
}

/// Pauses after a statement.
fn before_pauses(rt: &impl Abort, alloc: Global, first: Statement, count: u16) -> Statement {
    let mut whole = first;
    for _ in 0..count {
        whole = Statement::seq(alloc, whole, Statement::pause()).expect(rt, "room");
    }
    whole
}

/// Local signals in one another, around a statement.
fn locals(rt: &impl Abort, alloc: Global, inside: Statement, depth: u16) -> Statement {
    let mut whole = inside;
    for around in (0..depth).rev() {
        whole = Statement::local(alloc, around, whole).expect(rt, "room");
    }
    whole
}

/// What a statement over an empty interface makes.
fn built(rt: &impl Abort, alloc: Global, root: Statement) -> Result<Kernel, LoadFault> {
    let interface = Interface::new(alloc);
    assert!(rt; is_closed(&interface, &root));
    Kernel::build(interface, root)
}

/// A loop of a pause after 1,023 pauses has 2,048 statements, and a pause after 1,024 has 2,049.
#[test]
fn limits(rt: HostRuntime) {
    let alloc = rt.alloc();
    let last = Statement::repeat(alloc, Statement::pause()).expect(&rt, "room");
    let whole = after_pauses(&rt, alloc, last, 1023);
    let fault = built(&rt, alloc, whole).err();
    assert_eq!(rt; fault, None);
    let whole = after_pauses(&rt, alloc, Statement::pause(), 1024);
    let fault = built(&rt, alloc, whole).err();
    assert_eq!(rt; fault, Some(LoadFault::TooLarge(Limit::Statements)));
}

/// Runs four instants of 1,002 pauses, nested to the left and to the right, under six local
/// signals.
#[test]
fn long_sequences(rt: HostRuntime) {
    let alloc = rt.alloc();
    let first = before_pauses(&rt, alloc, Statement::pause(), 500);
    let last = after_pauses(&rt, alloc, Statement::pause(), 500);
    let both = Statement::seq(alloc, first, last).expect(&rt, "room");
    let root = locals(&rt, alloc, both, 6);
    let kernel = built(&rt, alloc, root).ok().expect(&rt, "a kernel");
    let mut state = State::Fresh;
    for _ in 0..4 {
        assert_eq!(rt; step(&kernel, &mut state, 0), Ok(0));
    }
}

/// Fails where a statement over an empty interface is closed and shouldn't be, or isn't and should
/// be.
fn expect_closed(rt: &impl Abort, alloc: Global, root: Statement, closed: bool) {
    let interface = Interface::new(alloc);
    assert!(rt; is_closed(&interface, &root) == closed);
}

/// Exits with their trap and without it; signals with their binder and without it; and a local
/// signal that has another number than its place.
#[test]
fn binders(rt: HostRuntime) {
    let alloc = rt.alloc();
    let local = Signal::Local(LocalSignal { index: 0 });
    let output = Signal::Interface(InterfaceSignal { index: 0 });
    expect_closed(&rt, alloc, Statement::exit(0), false);
    let trap = Statement::trap(alloc, Statement::exit(0)).expect(&rt, "room");
    expect_closed(&rt, alloc, trap, true);
    expect_closed(&rt, alloc, Statement::Emit(local), false);
    expect_closed(&rt, alloc, Statement::Emit(output), false);
    let bound = Statement::local(alloc, 0, Statement::Emit(local)).expect(&rt, "room");
    expect_closed(&rt, alloc, bound, true);
    let second = Statement::local(alloc, 1, Statement::pause()).expect(&rt, "room");
    expect_closed(&rt, alloc, second, false);
}

/// Fails unless the interface is `input I; output O`.
fn expect_two_signals(rt: &impl Abort, interface: &Interface) {
    let output = Declaration {
        name: name(rt, "O"),
        kind: Kind::Output,
    };
    expect_holds(rt, !interface.is_empty(), "not empty");
    expect_holds(rt, interface.len() == 2, "two signals");
    expect_holds(rt, interface.offerable() == 0b01, "I is the input");
    expect_holds(rt, interface.emittable() == 0b10, "O is the output");
    let found = interface.find(&output.name).expect(rt, "O is declared");
    expect_holds(rt, found.index == 1, "O is the second");
    expect_holds(rt, interface.get(found) == output, "O as it was declared");
    let absent = interface.find(&name(rt, "P")).is_none();
    expect_holds(rt, absent, "P is not declared");
}

#[test]
fn interfaces(rt: HostRuntime) {
    let text = "module M: input I; output O; nothing end module";
    let kernel = kernel_of(&rt, rt.alloc(), text);
    expect_two_signals(&rt, kernel.interface());
}

/// Adds the numbers of pauses and of local signals to a text, in the order of a statement of
/// sequences and local signals.
fn add_numbers(rt: &impl Abort, alloc: Global, statement: &Statement, text: &mut String) {
    match statement {
        Statement::Pause(n) => {
            let words = format!(in alloc; " pause {}", n.index).expect(rt, "room");
            add(rt, text, words.as_str());
        }
        Statement::Seq(p, q) => {
            add_numbers(rt, alloc, p, text);
            add_numbers(rt, alloc, q, text);
        }
        Statement::Local(s, p) => {
            let words = format!(in alloc; " signal {}", s.index).expect(rt, "room");
            add(rt, text, words.as_str());
            add_numbers(rt, alloc, p, text);
        }
        _ => {}
    }
}

/// Each pause gets a number of its own, and each binder keeps its own.
#[test]
fn numbers(rt: HostRuntime) {
    let text = "module M: signal S in signal T in pause; pause end end end module";
    let kernel = kernel_of(&rt, rt.alloc(), text);
    expect_holds(&rt, kernel.interface().is_empty(), "no signals");
    let mut told = String::new(rt.alloc());
    add_numbers(&rt, rt.alloc(), kernel.root(), &mut told);
    expect_told(
        &rt,
        told.as_str(),
        " signal 0 signal 1 pause 0 pause 1",
        text,
    );
}
