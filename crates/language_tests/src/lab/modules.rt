//! The modules of the worked examples, and tests over their signals.

use est_kernel::closed::is_closed;
use est_kernel::interface::{Declaration, Interface, Kind, MOST_SIGNALS};
use est_kernel::kernel::Kernel;
use est_kernel::statement::{InterfaceSignal, Signal, Statement, Test};
use est_text::identifier::Identifier;
use std::alloc::Global;
use std::process::Abort;

/// The inputs A and B, and the output O.
pub const A: InterfaceSignal = InterfaceSignal { index: 0 };

pub const B: InterfaceSignal = InterfaceSignal { index: 1 };

pub const O: InterfaceSignal = InterfaceSignal { index: 2 };

/// Whether the signal is present.
pub fn is_present(signal: InterfaceSignal) -> Test {
    Test::Status(Signal::Interface(signal))
}

/// `not S`
pub fn is_absent(rt: &impl Abort, alloc: Global, signal: InterfaceSignal) -> Test {
    Test::negated(alloc, is_present(signal)).expect(rt, "room")
}

/// Adds a declaration.
fn declare(rt: &impl Abort, interface: &mut Interface, name: &str, kind: Kind) {
    let name = Identifier::from_text(name).expect(rt, "a name");
    assert!(rt; interface.len() < MOST_SIGNALS);
    assert!(rt; !interface.has(&name));
    interface
        .declare(Declaration { name, kind })
        .expect(rt, "room");
}

/// `input A, B; output O;`
fn interface(rt: &impl Abort, alloc: Global) -> Interface {
    let mut interface = Interface::new(alloc);
    declare(rt, &mut interface, "A", Kind::Input);
    declare(rt, &mut interface, "B", Kind::Input);
    declare(rt, &mut interface, "O", Kind::Output);
    interface
}

/// The kernel of a body over these signals.
fn kernel(rt: &impl Abort, alloc: Global, body: Statement) -> Kernel {
    let interface = interface(rt, alloc);
    assert!(rt; is_closed(&interface, &body));
    Kernel::build(interface, body).ok().expect(rt, "a kernel")
}

/// `emit O`
fn emit_o() -> Statement {
    Statement::Emit(Signal::Interface(O))
}

/// `loop present A then present B then emit O end end; pause end`
pub fn both(rt: &impl Abort, alloc: Global) -> Kernel {
    let inner = Statement::present(alloc, is_present(B), emit_o(), Statement::Nothing);
    let inner = inner.expect(rt, "room");
    let outer = Statement::present(alloc, is_present(A), inner, Statement::Nothing);
    let outer = outer.expect(rt, "room");
    let once = Statement::seq(alloc, outer, Statement::pause()).expect(rt, "room");
    let body = Statement::repeat(alloc, once).expect(rt, "room");
    kernel(rt, alloc, body)
}

/// `pause; present A then present O else emit O end end`
pub fn paradox(rt: &impl Abort, alloc: Global) -> Kernel {
    let inner = Statement::present(alloc, is_present(O), Statement::Nothing, emit_o());
    let inner = inner.expect(rt, "room");
    let outer = Statement::present(alloc, is_present(A), inner, Statement::Nothing);
    let outer = outer.expect(rt, "room");
    let body = Statement::seq(alloc, Statement::pause(), outer).expect(rt, "room");
    kernel(rt, alloc, body)
}

/// `pause; pause; emit O`
pub fn late(rt: &impl Abort, alloc: Global) -> Kernel {
    let last = Statement::seq(alloc, Statement::pause(), emit_o()).expect(rt, "room");
    let body = Statement::seq(alloc, Statement::pause(), last).expect(rt, "room");
    kernel(rt, alloc, body)
}
