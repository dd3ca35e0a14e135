//! Whose each cell is.

use crate::openers::kernel_of;
use crate::told::{add, expect_told};
use est_kernel::kernel::Kernel;
use est_net::net::Net;
use est_net::owners::{CellKind, Owner, owner_of};
use std::alloc::Global;
use std::process::Abort;

/// Modules, and their cells in order: those of signals by their places, and those of each statement
/// and incarnation by the codes that they are of, with an `s` for the status of a local signal.
/// Statements are numbered from 0, each before its parts.
const OWNED: [(&str, &str); 5] = [
    (
        "output O, P; emit O; pause; emit P",
        " #0 #1 0.0:01 1.0:01 2.0:01 3.0:01 4.0:01",
    ),
    // statement 1 is the signal, and each statement in the loop has an incarnation for the restart
    (
        "output O, P; loop signal S in present S then emit O else emit P end; pause; \
            emit S end end",
        " #0 #1 0.0:01 1.0:01s 2.0:01 3.0:01 4.0:01 5.0:01 6.0:01 7.0:01 8.0:01 \
            1.1:01s 2.1:01 3.1:01 4.1:01 5.1:01 6.1:01 7.1:01 8.1:01",
    ),
    // what lies in the trap has code 2 too
    (
        "output O, P, Q; trap T in [emit O; exit T || pause; emit P] end; emit Q",
        " #0 #1 #2 0.0:01 1.0:01 2.0:012 3.0:012 4.0:012 5.0:012 6.0:012 7.0:012 8.0:012 9.0:01",
    ),
    // what lies in both loops has incarnation 1 for the restart of the inner one, and 2 for that of
    // the outer one; for the inner loop itself the outer one is the first around it
    (
        "output O; loop loop emit O; pause end end",
        " #0 0.0:01 1.0:01 2.0:01 3.0:01 4.0:01 2.1:01 3.1:01 4.1:01 1.1:01 2.2:01 3.2:01 4.2:01",
    ),
    // a signal inside two loops and a trap: three incarnations of five cells each
    (
        "output O; loop trap T in loop signal S in emit O; pause; exit T end end end end",
        " #0 0.0:01 1.0:01 2.0:012 \
            3.0:012s 4.0:012 5.0:012 6.0:012 7.0:012 8.0:012 \
            3.1:012s 4.1:012 5.1:012 6.1:012 7.1:012 8.1:012 \
            1.1:01 2.1:012 3.2:012s 4.2:012 5.2:012 6.2:012 7.2:012 8.2:012",
    ),
];

/// How a cell of this owner is told: the first of an owner after a blank.
fn word_of(rt: &impl Abort, alloc: Global, owner: Owner) -> String {
    let word = match owner {
        Owner::Signal(place) => format!(in alloc; " #{place}"),
        Owner::Statement(of) => match of.kind {
            CellKind::Go => format!(in alloc; " {}.{}:", of.statement, of.incarnation),
            CellKind::Code(code) => format!(in alloc; "{code}"),
            CellKind::Status => format!(in alloc; "s"),
        },
    };
    word.expect(rt, "room")
}

/// The cells of a kernel, as the table above has them.
fn owned(rt: &impl Abort, alloc: Global, kernel: &Kernel) -> String {
    let net = Net::build(alloc, kernel).expect(rt, "room");
    let mut told = String::new(alloc);
    for cell in 0..net.cells() {
        let word = word_of(rt, alloc, owner_of(kernel, cell));
        add(rt, &mut told, word.as_str());
    }
    told
}

/// Fails where the cells of a module are told otherwise.
fn expect_owned(rt: &impl Abort, alloc: Global, body: &str, wanted: &str) {
    let text = format!(in alloc; "module M: {body} end module").expect(rt, "room");
    let kernel = kernel_of(rt, alloc, text.as_str());
    let told = owned(rt, alloc, &kernel);
    expect_told(rt, told.as_str(), wanted, body);
}

#[test]
fn owners_of_cells(rt: HostRuntime) {
    for (body, wanted) in &OWNED {
        expect_owned(&rt, rt.alloc(), body, wanted);
    }
}
