//! What a cell belongs to.

ghost use Rattle.std.specs.Prelude.{◌≡◌, ◌<◌, ◌≤◌, ◌+◌, IfOk, IfErr, Some, slice_get};
ghost use Rattle.est_kernel.specs.Bits.{bits};
ghost use Rattle.est_kernel.specs.Limits.{trap_depth};
ghost use Rattle.est_kernel.specs.View.{term_of};
ghost use Rattle.est_net.specs.Layout.{cell_count, output_count};
ghost use Rattle.est_net.specs.Owners.{inside_loop, kind_at, own_cells, owners, signal_places};
ghost use Rattle.est_net.specs.Inner.Finding.{Finds};

use est_kernel::interface::Interface;
use est_kernel::kernel::Kernel;
use est_kernel::mask;
use est_kernel::statement::Statement;

/// What a cell tells of its statement.
#[derive(Clone, Copy, PartialEq, Eq)]
pub enum CellKind {
    /// Whether it is begun.
    Go,
    /// Whether it gives this code: 0 if it ends, 1 if it pauses, and k + 2 if it exits the trap
    /// that lies k traps further out.
    Code(usize),
    /// Whether its local signal is present.
    Status,
}

/// A cell of a statement.
#[derive(Clone, Copy, PartialEq, Eq)]
pub struct StatementCell {
    /// The statement's number: statements are counted from 0, each before its parts, in the order
    /// of the text.
    pub statement: usize,
    /// 0 where the statement goes on or is begun without a restart, and i where it is begun by the
    /// restart of the i-th loop around it, counted from the innermost outwards.
    pub incarnation: usize,
    /// What the cell tells.
    pub kind: CellKind,
}

/// What a cell belongs to.
#[derive(Clone, Copy, PartialEq, Eq)]
pub enum Owner {
    /// The signal at this place of the interface: whether it is present.
    Signal(usize),
    /// A statement, in one of its incarnations.
    Statement(StatementCell),
}

/// Where the cells of a statement begin, and its number.
#[derive(Clone, Copy)]
struct Spot {
    statement: usize,
    cell: usize,
}

/// What comes of looking for a cell among those of a statement.
enum Search {
    Found(StatementCell),
    /// It lies after them: where they end.
    After(Spot),
}

/// What the cell at this place among those of a statement tells, which is inside this many traps.
pub fn kind_at(traps: usize, offset: usize) -> CellKind
    requires { traps < 65536 }
    ensures { result ≡ kind_at traps offset }
{
    if offset == 0 {
        CellKind::Go
    } else if offset - 1 < traps + 2 {
        CellKind::Code(offset - 1)
    } else {
        CellKind::Status
    }
}

/// How many cells a statement has of its own.
fn own_cells(s: &Statement, traps: usize) -> usize
    requires { traps < 65536 }
    ensures same { result ≡ own_cells s.now traps }
    ensures some { 3 ≤ result }
{
    match s {
        Statement::Local(_, _) => traps + 4,
        _ => traps + 3,
    }
}

/// The incarnation of a loop's body, where the loop is of this incarnation (`main`: it can go on
/// from its pauses).
fn inside_loop(main: bool, incarnation: usize) -> usize
    requires { incarnation < 18446744073709551615 }
    ensures { result ≡ inside_loop main incarnation }
{
    if main { incarnation } else { incarnation + 1 }
}

/// Looks for a cell among those of a statement. `main` says whether these are the cells of the
/// incarnation that can go on from its pauses. It goes as deep as the statement is.
fn find(
    main: bool,
    s: &Statement,
    incarnation: usize,
    at: Spot,
    traps: usize,
    cell: usize,
) -> Search
    requires depth { traps + trap_depth (term_of s.now) < 65536 }
    requires from { at.cell ≤ cell }
    requires numbers { at.statement ≤ at.cell }
    requires incarnations { incarnation ≤ at.cell }
    ensures { Finds main s.now incarnation at traps cell result }
{
    let own = own_cells(s, traps);
    let offset = cell - at.cell;
    if offset < own {
        return Search::Found(StatementCell {
            statement: at.statement,
            incarnation,
            kind: kind_at(traps, offset),
        });
    }
    let inside = Spot {
        statement: at.statement + 1,
        cell: at.cell + own,
    };
    match s {
        Statement::Nothing | Statement::Pause(_) | Statement::Emit(_) | Statement::Exit(_) => {
            Search::After(inside)
        }
        Statement::Present(_, p, q) | Statement::Seq(p, q) | Statement::Par(p, q) => {
            match find(main, p, incarnation, inside, traps, cell) {
                Search::Found(owner) => Search::Found(owner),
                Search::After(next) => find(main, q, incarnation, next, traps, cell),
            }
        }
        Statement::Suspend(_, p) | Statement::Local(_, p) => {
            find(main, p, incarnation, inside, traps, cell)
        }
        Statement::Loop(p) => {
            let body = inside_loop(main, incarnation);
            match find(main, p, body, inside, traps, cell) {
                Search::After(next) if main => {
                    let again = Spot {
                        statement: inside.statement,
                        cell: next.cell,
                    };
                    find(false, p, 1, again, traps, cell)
                }
                Search::After(next) => Search::After(next),
                Search::Found(owner) => Search::Found(owner),
            }
        }
        Statement::Trap(p) => find(main, p, incarnation, inside, traps + 1, cell),
    }
}

/// The signal of the interface whose cell this is, or which of the cells after those of signals it
/// is.
fn find_signal(interface: &Interface, cell: usize) -> Result<usize, usize>
    ensures found { IfOk result (λ n. slice_get (signal_places interface.now) cell ≡ Some n) }
    ensures after { IfErr result (λ left. output_count interface.now + left ≡ cell) }
{
    let signals = interface.emittable();
    let mut left = cell;
    for n in 0..interface.len() {
        if mask::has(signals, n as u8) {
            if left == 0 {
                return Ok(n);
            }
            left -= 1;
        }
    }
    Err(left)
}

/// What a cell of the kernel's table belongs to: the owner at this place of the list of owners. It
/// takes no memory.
pub fn owner_of(kernel: &Kernel, cell: usize) -> Owner
    requires { cell < cell_count kernel.now }
    ensures { slice_get (owners kernel.now) cell ≡ Some result }
{
    match find_signal(kernel.interface(), cell) {
        Ok(place) => Owner::Signal(place),
        Err(left) => {
            let at = Spot {
                statement: 0,
                cell: cell - left,
            };
            match find(true, kernel.root(), 0, at, 0, cell) {
                Search::Found(owner) => Owner::Statement(owner),
                Search::After(_) => unreachable!(),
            }
        }
    }
}
