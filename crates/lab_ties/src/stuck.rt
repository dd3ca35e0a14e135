//! What is tied to the signals that are not decided.

ghost use Rattle.std.specs.Prelude.{◌≡◌, ◌<◌, ◌++◌, length, IfOk};
ghost use Rattle.est_net.specs.Layout.{cell_count, output_count};
ghost use Rattle.lab_instant.specs.Instants.{IsFor};
ghost use Rattle.lab_ties.specs.Stuck.{instant_ties, open_ties, signal_ties, ties_if};
ghost use Rattle.lab_ties.specs.Stuck.{ties_of_signal};

use crate::local_ties::tie_locals;
use crate::place::IncarnationPlace;
use crate::tie::{OpenSignal, Tie};
use crate::ties::{Wanted, add_ties};
use est_kernel::kernel::Kernel;
use est_kernel::mask;
use est_kernel::statement::{InterfaceSignal, Signal};
use est_net::net::Net;
use lab_instant::instant::InstantReader;
use lab_instant::seen::{Incarnation, Instant};
use std::alloc::{AllocError, Global};

/// Adds what is tied to a signal of the interface.
fn tie_signal(
    net: &Net,
    kernel: &Kernel,
    place: usize,
    found: &mut Vec<Tie>,
) -> Result<(), AllocError>
    requires place { place < 64 }
    requires outputs { net.now.output_count ≡ output_count kernel.now.interface }
    requires size { length net.now.cells.items ≡ cell_count kernel.now }
    ensures { IfOk result (λ _. found.new.items ≡ found.old.items
        ++ ties_of_signal kernel.now net.now.cells.items place) }
{
    let wanted = Wanted {
        name: Signal::Interface(InterfaceSignal { index: place as u8 }),
        signal: OpenSignal::Interface(place),
    };
    let root = IncarnationPlace {
        at: Incarnation {
            statement: 0,
            number: 0,
        },
        cell: net.output_count(),
        main: true,
        traps: 0,
    };
    add_ties(net, wanted, root, kernel.root(), found)?;
    Ok(())
}

/// Adds what is tied to a signal of the interface, if it is in the set.
fn add_signal_ties(
    net: &Net,
    kernel: &Kernel,
    undecided: u64,
    place: usize,
    found: &mut Vec<Tie>,
) -> Result<(), AllocError>
    requires place { place < 64 }
    requires outputs { net.now.output_count ≡ output_count kernel.now.interface }
    requires size { length net.now.cells.items ≡ cell_count kernel.now }
    ensures { IfOk result (λ _. found.new.items ≡ found.old.items
        ++ ties_if kernel.now undecided net.now.cells.items place) }
{
    if mask::has(undecided, place as u8) {
        tie_signal(net, kernel, place, found)?;
    }
    Ok(())
}

/// Adds what is tied to the signals of the interface that are in the set.
fn add_all_signal_ties(
    net: &Net,
    kernel: &Kernel,
    undecided: u64,
    found: &mut Vec<Tie>,
) -> Result<(), AllocError>
    requires outputs { net.now.output_count ≡ output_count kernel.now.interface }
    requires size { length net.now.cells.items ≡ cell_count kernel.now }
    ensures { IfOk result (λ _. found.new.items ≡ found.old.items
        ++ signal_ties kernel.now undecided net.now.cells.items
        (length kernel.now.interface)) }
{
    for place in 0..kernel.interface().len() {
        add_signal_ties(net, kernel, undecided, place, found)?;
    }
    Ok(())
}

/// What waits for the signals that are not decided, and what may still emit them, or memory was
/// refused: those of the interface that are in the set, and the local ones. The table of cells is
/// that of the kernel, as an instant without a reaction leaves it.
pub fn ties_of(
    alloc: Global,
    net: &Net,
    kernel: &Kernel,
    undecided: u64,
) -> Result<Vec<Tie>, AllocError>
    requires outputs { net.now.output_count ≡ output_count kernel.now.interface }
    requires size { length net.now.cells.items ≡ cell_count kernel.now }
    ensures { IfOk result (λ found. found.items
        ≡ open_ties kernel.now undecided net.now.cells.items) }
{
    let mut found = Vec::new(alloc);
    add_all_signal_ties(net, kernel, undecided, &mut found)?;
    let root = IncarnationPlace {
        at: Incarnation {
            statement: 0,
            number: 0,
        },
        cell: net.output_count(),
        main: true,
        traps: 0,
    };
    tie_locals(net, root, kernel.root(), &mut found)?;
    Ok(found)
}

/// The ties of the instant that was looked at last, or memory was refused: of one with a reaction
/// there are none.
pub fn ties_after(
    alloc: Global,
    inside: &InstantReader,
    kernel: &Kernel,
    instant: &Instant,
) -> Result<Vec<Tie>, AllocError>
    requires { IsFor inside.now kernel.now }
    ensures { IfOk result (λ found. found.items
        ≡ instant_ties kernel.now inside.now.engine.net.cells.items instant.now) }
{
    match instant {
        Instant::Reaction { .. } => Ok(Vec::new(alloc)),
        Instant::Stuck { stuck, .. } => ties_of(alloc, inside.net(), kernel, stuck.undecided),
    }
}
