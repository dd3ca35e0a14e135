//! Where the signals of the interface are emitted.

ghost use Rattle.std.specs.Prelude.{◌≡◌, ◌≤◌, ◌+◌, ◌++◌, ◌&&◌, ◌||◌, ℕ, true, nat_eq, not, IfOk};
ghost use Rattle.est_kernel.specs.Bits.{bits};
ghost use Rattle.est_cells.specs.Tables.{is_possible, is_sure, sheet_size};
ghost use Rattle.est_net.specs.Emissions.{emission_of, emissions};

use est_kernel::mask;
use est_kernel::statement::{InterfaceSignal, Signal, Statement};
use est_meaning::status::Status;
use std::alloc::{AllocError, Global};

/// An emission of a signal of the interface, in one incarnation.
#[derive(Clone, Copy)]
pub struct Emission {
    /// The signal.
    pub signal: InterfaceSignal,
    /// The cell for whether it is begun.
    pub go: usize,
}

/// What the go cells of emissions say: a bit for each signal of the interface.
#[derive(Clone, Copy)]
pub struct Emitted {
    /// The signals that are surely emitted.
    pub sure: u64,
    /// Those that may be.
    pub possible: u64,
}

/// The signal, if it is to be in the set.
fn single_if(is_in: bool, signal: InterfaceSignal) -> u64
    ensures { (n : ℕ) → bits result n ≡ (nat_eq signal.index n && is_in) }
{
    if is_in { mask::single(signal.index) } else { 0 }
}

/// Whether a cell is true.
fn is_true(status: Status) -> bool
    ensures { result ≡ is_sure status }
{
    match status {
        Status::Present => true,
        Status::Absent | Status::Unknown => false,
    }
}

/// Whether a cell isn't false.
fn may_be_true(status: Status) -> bool
    ensures { result ≡ is_possible status }
{
    match status {
        Status::Absent => false,
        Status::Present | Status::Unknown => true,
    }
}

impl Emitted {
    /// What no emission says.
    pub fn nothing() -> Emitted
        ensures sure { result.sure ≡ 0 }
        ensures possible { result.possible ≡ 0 }
    {
        Emitted {
            sure: 0,
            possible: 0,
        }
    }

    /// What an emission of this signal says too, whose go cell knows this.
    #[inline(always)]
    pub fn beside(self, signal: InterfaceSignal, go: Status) -> Emitted
        ensures sure { (n : ℕ) → bits result.sure n
            ≡ (bits self.sure n || (nat_eq signal.index n && is_sure go)) }
        ensures possible { (n : ℕ) → bits result.possible n
            ≡ (bits self.possible n || (nat_eq signal.index n && is_possible go)) }
    {
        Emitted {
            sure: mask::union(self.sure, single_if(is_true(go), signal)),
            possible: mask::union(self.possible, single_if(may_be_true(go), signal)),
        }
    }
}

/// The signals, without that of an emission whose go cell knows this, if it may be emitted.
#[inline(always)]
pub fn without_emitted(signals: u64, signal: InterfaceSignal, go: Status) -> u64
    ensures { (n : ℕ) → bits result n
        ≡ (bits signals n && not (nat_eq signal.index n && is_possible go)) }
{
    mask::difference(signals, single_if(may_be_true(go), signal))
}

/// Adds the emission of a signal, if that is one of the interface, or memory was refused.
fn add_emission(list: &mut Vec<Emission>, signal: Signal, go: usize) -> Result<(), AllocError>
    ensures { IfOk result (λ _. list.new.items ≡ list.old.items ++ emission_of signal go) }
{
    match signal {
        Signal::Interface(signal) => {
            list.push(Emission { signal, go })?;
            Ok(())
        }
        Signal::Local(_) => Ok(()),
    }
}

/// Adds the emissions of two parts, the second after the first, or memory was refused. Answers the
/// first place after their cells.
#[cycle(add_emissions)]
fn add_emissions_of_two(
    list: &mut Vec<Emission>,
    main: bool,
    p: &Statement,
    q: &Statement,
    cell: usize,
    traps: usize,
) -> Result<usize, AllocError>
    requires { cell + sheet_size main p.now traps + sheet_size main q.now traps
        ≤ 18446744073709551615 }
    ensures past { IfOk result (λ past.
        past ≡ cell + sheet_size main p.now traps + sheet_size main q.now traps) }
    ensures added { IfOk result (λ _. list.new.items ≡ list.old.items
        ++ (emissions main p.now cell traps
        ++ emissions main q.now (cell + sheet_size main p.now traps) traps)) }
{
    let next = add_emissions(list, main, p, cell, traps)?;
    add_emissions(list, main, q, next, traps)
}

/// Adds the emissions of a statement whose cells begin at `cell`, in their order, or memory was
/// refused. Answers the first place after its cells. Recursion is as deep as the statement is.
#[cycle(add_emissions)]
fn add_emissions(
    list: &mut Vec<Emission>,
    main: bool,
    s: &Statement,
    cell: usize,
    traps: usize,
) -> Result<usize, AllocError>
    requires { cell + sheet_size main s.now traps ≤ 18446744073709551615 }
    ensures past { IfOk result (λ past. past ≡ cell + sheet_size main s.now traps) }
    ensures added { IfOk result (λ _.
        list.new.items ≡ list.old.items ++ emissions main s.now cell traps) }
{
    match s {
        Statement::Nothing => Ok(cell + traps + 3),
        Statement::Pause(_) => Ok(cell + traps + 3),
        Statement::Exit(_) => Ok(cell + traps + 3),
        Statement::Emit(signal) => {
            add_emission(list, *signal, cell)?;
            Ok(cell + traps + 3)
        }
        Statement::Present(_, p, q) => add_emissions_of_two(
            list,
            main,
            p,
            q,
            cell + traps + 3,
            traps,
        ),
        Statement::Seq(p, q) => add_emissions_of_two(list, main, p, q, cell + traps + 3, traps),
        Statement::Par(p, q) => add_emissions_of_two(list, main, p, q, cell + traps + 3, traps),
        Statement::Suspend(_, p) => add_emissions(list, main, p, cell + traps + 3, traps),
        Statement::Loop(p) => {
            let next = add_emissions(list, main, p, cell + traps + 3, traps)?;
            if main {
                add_emissions(list, false, p, next, traps)
            } else {
                Ok(next)
            }
        }
        Statement::Trap(p) => add_emissions(list, main, p, cell + traps + 3, traps + 1),
        Statement::Local(_, p) => add_emissions(list, main, p, cell + traps + 4, traps),
    }
}

/// The emissions of signals of the interface in a statement whose cells begin at `cell`, in the
/// order of the cells, or memory was refused.
pub fn emissions_of(alloc: Global, s: &Statement, cell: usize) -> Result<Vec<Emission>, AllocError>
    requires { cell + sheet_size true s.now 0 ≤ 18446744073709551615 }
    ensures { IfOk result (λ list. list.items ≡ emissions true s.now cell 0) }
{
    let mut list = Vec::new(alloc);
    add_emissions(&mut list, true, s, cell, 0)?;
    Ok(list)
}
