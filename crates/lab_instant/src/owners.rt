//! Whose the cells of a statement are.

ghost use Rattle.std.specs.Prelude.{◌≡◌, ◌<◌, ◌≤◌, ◌+◌, true, length, Some, IfOk};
ghost use Rattle.est_kernel.specs.Limits.{trap_depth};
ghost use Rattle.est_kernel.specs.View.{term_of};
ghost use Rattle.est_net.specs.Owners.{cell_of, inside_loop, kind_at, owners_in};
ghost use Rattle.lab_instant.specs.Inner.Adding.{AddsOwn, AddsOwners};
ghost use Rattle.lab_instant.specs.OwnCells.{own_count, signal_at, signal_places};

use crate::list::push_if;
use est_kernel::kernel::Kernel;
use est_kernel::statement::Statement;
use est_net::owners::{CellKind, StatementCell, kind_at};
use std::alloc::{AllocError, Global};

/// How many cells a statement inside so many traps has of its own, one after another: whether it is
/// begun, whether it gives each code from 0 on, and the status of the signal that it declares.
fn own_count(traps: usize, declares: bool) -> usize
    requires { own_count traps declares < 18446744073709551616 }
    ensures { result ≡ own_count traps declares }
{
    if declares { traps + 4 } else { traps + 3 }
}

/// What the cell at an offset from the statement's first one tells.
fn own_cell(statement: usize, incarnation: usize, traps: usize, offset: usize) -> StatementCell
    requires { traps < 65536 }
    ensures { result ≡ cell_of incarnation statement (kind_at traps offset) }
{
    StatementCell {
        statement,
        incarnation,
        kind: kind_at(traps, offset),
    }
}

/// Adds a statement's own cells.
fn add_own(
    cells: &mut Vec<StatementCell>,
    statement: usize,
    incarnation: usize,
    traps: usize,
    declares: bool,
) -> Result<(), AllocError>
    requires { traps < 65536 }
    ensures { IfOk result (λ _. AddsOwn incarnation statement traps declares cells.old.items
        cells.new.items) }
{
    for offset in 0..own_count(traps, declares) {
        cells.push(own_cell(statement, incarnation, traps, offset))?;
    }
    Ok(())
}

/// The incarnation of a loop's body, by that of the loop.
fn inside_loop(main: bool, incarnation: usize) -> usize
    requires { incarnation < 18446744073709551615 }
    ensures { result ≡ inside_loop main incarnation }
{
    if main { incarnation } else { incarnation + 1 }
}

/// Adds the cells of a statement. Answers the number of the statement after it. It goes as deep as
/// the statement is.
fn add(
    cells: &mut Vec<StatementCell>,
    main: bool,
    s: &Statement,
    incarnation: usize,
    number: usize,
    traps: usize,
) -> Result<usize, AllocError>
    requires depth { traps + trap_depth (term_of s.now) < 65536 }
    requires numbers { number ≤ length cells.old.items }
    requires incarnations { incarnation ≤ length cells.old.items }
    ensures { IfOk result (AddsOwners main s.now incarnation number traps cells.old.items
        cells.new.items) }
{
    match s {
        Statement::Nothing | Statement::Pause(_) | Statement::Emit(_) | Statement::Exit(_) => {
            add_own(cells, number, incarnation, traps, false)?;
            Ok(number + 1)
        }
        Statement::Present(_, p, q) | Statement::Seq(p, q) | Statement::Par(p, q) => {
            add_own(cells, number, incarnation, traps, false)?;
            let next = add(cells, main, p, incarnation, number + 1, traps)?;
            add(cells, main, q, incarnation, next, traps)
        }
        Statement::Suspend(_, p) => {
            add_own(cells, number, incarnation, traps, false)?;
            add(cells, main, p, incarnation, number + 1, traps)
        }
        Statement::Loop(p) => {
            add_own(cells, number, incarnation, traps, false)?;
            let inside = inside_loop(main, incarnation);
            let next = add(cells, main, p, inside, number + 1, traps)?;
            if main {
                add(cells, false, p, 1, number + 1, traps)?;
            }
            Ok(next)
        }
        Statement::Trap(p) => {
            add_own(cells, number, incarnation, traps, false)?;
            add(cells, main, p, incarnation, number + 1, traps + 1)
        }
        Statement::Local(_, p) => {
            add_own(cells, number, incarnation, traps, true)?;
            add(cells, main, p, incarnation, number + 1, traps)
        }
    }
}

/// Whose the cells of a kernel's statement are, in their order, or memory was refused.
pub fn owners_of(alloc: Global, kernel: &Kernel) -> Result<Vec<StatementCell>, AllocError>
    ensures { IfOk result (λ cells. cells.items ≡ owners_in true kernel.now.root 0 0 0) }
{
    let mut cells = Vec::new(alloc);
    add(&mut cells, true, kernel.root(), 0, 0, 0)?;
    Ok(cells)
}

/// The place, if the cell there tells the status of a local signal.
fn signal_place(cell: StatementCell, place: usize) -> Option<usize>
    ensures { result ≡ signal_at (Some cell) place }
{
    match cell.kind {
        CellKind::Status => Some(place),
        CellKind::Go | CellKind::Code(_) => None,
    }
}

/// The places of the cells that tell the statuses of local signals, or memory was refused.
pub fn signals_among(alloc: Global, cells: &[StatementCell]) -> Result<Vec<usize>, AllocError>
    ensures { IfOk result (λ signals. signals.items ≡ signal_places cells.now) }
{
    let mut signals = Vec::new(alloc);
    for place in 0..cells.len() {
        push_if(&mut signals, signal_place(cells[place], place))?;
    }
    Ok(signals)
}
