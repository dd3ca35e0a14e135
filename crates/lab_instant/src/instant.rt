//! An instant, seen from inside.

ghost use Rattle.std.specs.Prelude.{◌≡◌, ◌≤◌, ◌+◌, length, IfOk};
ghost use Rattle.est_kernel.specs.declared.kernel.Kernel.{Kernel as KernelValue};
ghost use Rattle.est_meaning.specs.States.{IsState};
ghost use Rattle.est_net.specs.Layout.{output_count};
ghost use Rattle.lab_instant.specs.Instants.{IsFor, IsInstant, IsSeen, statement_cells};
ghost use Rattle.lab_instant.specs.OwnCells.{signal_places};

use crate::owners::{owners_of, signals_among};
use crate::reading::all_seen;
use crate::seen::{Instant, Seen};
use est_kernel::kernel::Kernel;
use est_kernel::state::{Inputs, State};
use est_micro::micro::Micro;
use est_net::net::Net;
use est_net::owners::StatementCell;
use std::alloc::{AllocError, Global};

/// What took part, or memory was refused.
fn seen_in(
    alloc: Global,
    net: &Net,
    cells: &[StatementCell],
    signals: &[usize],
) -> Result<Seen, AllocError>
    requires table { net.now.output_count + length cells.now ≤ length net.now.cells.items }
    requires signals { signals.now ≡ signal_places cells.now }
    ensures { IfOk result (λ seen. (k : KernelValue) → cells.now ≡ statement_cells k
        → net.now.output_count ≡ output_count k.interface → IsSeen k net.now.cells.items seen) }
{
    all_seen(alloc, net, cells, signals, net.output_count())
}

/// What reads the instants of a kernel from inside.
#[derive(Drop)]
pub struct InstantReader {
    engine: Micro,
    cells: Vec<StatementCell>,
    signals: Vec<usize>,
}

impl InstantReader {
    /// What reads the instants of this kernel, or memory was refused.
    pub fn new(alloc: Global, kernel: &Kernel) -> Result<InstantReader, AllocError>
        ensures { IfOk result (λ inside. IsFor inside kernel.now) }
    {
        let cells = owners_of(alloc, kernel)?;
        Ok(InstantReader {
            engine: Micro::new(Net::build(alloc, kernel)?),
            signals: signals_among(alloc, cells.as_slice())?,
            cells,
        })
    }

    /// The table of cells, as the last look left it.
    pub fn net(&self) -> &Net
        ensures { result.now ≡ self.now.engine.net }
    {
        self.engine.net()
    }

    /// The instant of the kernel in this state with these inputs, seen from inside, or memory was
    /// refused.
    pub fn look(
        &mut self,
        alloc: Global,
        kernel: &Kernel,
        state: &State,
        inputs: &Inputs,
    ) -> Result<Instant, AllocError>
        requires is_for { IsFor self.old kernel.now }
        requires state { IsState kernel.now.root state.now }
        ensures is_for { IsFor self.new kernel.now }
        ensures seen { IfOk result (IsInstant kernel.now state.now inputs.now
            self.new.engine.net.cells.items) }
    {
        let reaction = self.engine.run(kernel, state, inputs);
        let net = self.engine.net();
        let seen = seen_in(alloc, net, self.cells.as_slice(), self.signals.as_slice())?;
        match reaction {
            Ok(outcome) => Ok(Instant::Reaction { outcome, seen }),
            Err(stuck) => Ok(Instant::Stuck { stuck, seen }),
        }
    }
}
