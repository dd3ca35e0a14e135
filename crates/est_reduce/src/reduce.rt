//! The kernel of a flat module.
ghost use Rattle.std.specs.Prelude.{◌≡◌, ◌≤◌, length, IfOk};
ghost use Rattle.est_kernel.specs.declared.interface.TheConstants.{MOST_SIGNALS};
ghost use Rattle.est_reduce.specs.Reducing.{Reduces};
ghost use Rattle.est_reduce.specs.Views.{body_of};

use crate::builder::{Exits, ReduceContext, statement};
use crate::fault::ReduceFault;
use crate::flat::Flat;
use crate::size::room_after;
use est_kernel::interface::Interface;
use est_kernel::kernel::Kernel;
use est_kernel::limits::{Limit, MOST_STATEMENTS};
use std::alloc::{AllocError, Global};

/// Another interface of the same signals.
fn copied(alloc: Global, interface: &Interface) -> Result<Interface, AllocError>
    ensures same { IfOk result (λ copy. copy ≡ interface.now) }
    ensures bound { length interface.now ≤ MOST_SIGNALS }
{
    let mut copy = Interface::new(alloc);
    for declaration in interface.declarations().iter() {
        copy.declare(*declaration)?;
    }
    Ok(copy)
}

/// The kernel of a flat module: its interface, and the kernel term of its body by the table of
/// reductions.
///
/// A term past a limit is `TooLarge`, with the first limit that it passes, statements before the
/// others. Else a term with a loop that takes no time is `InstantLoop`. The kernel statements are
/// counted before any is built, so no term over the limit is ever built, and recursion over the
/// body and the term is at most 2,050 levels deep.
pub fn reduce(alloc: Global, flat: &Flat) -> Result<Kernel, ReduceFault>
    ensures { Reduces flat.now.interface (body_of flat.now.body) result }
{
    if room_after(&flat.body, MOST_STATEMENTS as u32 + 1) == 0 {
        return Err(ReduceFault::TooLarge(Limit::Statements));
    }
    let interface = copied(alloc, &flat.interface)?;
    let outermost = ReduceContext {
        alloc,
        exits: &Exits::Outermost,
        locals: 0,
    };
    let root = statement(&outermost, &flat.body)?;
    match Kernel::build(interface, root) {
        Ok(kernel) => Ok(kernel),
        Err(fault) => Err(ReduceFault::from(fault)),
    }
}
