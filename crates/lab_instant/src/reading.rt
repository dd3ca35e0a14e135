//! What took part in an instant, read off the cells.
//!
//! Most cells of an instant are false. So only those that are true are looked at, which the table
//! knows. The local signals are told whatever their cells are.

ghost use Rattle.std.specs.Prelude.{◌≡◌, ◌<◌, ◌≤◌, ◌+◌, ◌++◌, ℕ, length, slice_get, Some, IfOk};
ghost use Rattle.est_meaning.specs.declared.status.Status.TheVariants.{Present};
ghost use Rattle.est_net.specs.Cells.{cell_at};
ghost use Rattle.est_net.specs.declared.owners.CellKind.TheVariants.{Code};
ghost use Rattle.lab_instant.specs.OwnCells.{signal_places};
ghost use Rattle.lab_instant.specs.Inner.Reading.{AreAll, AreReadTo};
ghost use Rattle.lab_instant.specs.Seen.{all_locals, begun_at, go_place, incarnation_of, listed};
ghost use Rattle.lab_instant.specs.Seen.{local_at, local_by_kind, resumed_at, resumed_by_kind};

use crate::list::push_if;
use crate::seen::{Incarnation, Local, Seen};
use est_meaning::status::Status;
use est_net::net::Net;
use est_net::owners::{CellKind, StatementCell};
use std::alloc::{AllocError, Global};

/// How many cells a statement has at least. So there is room for all, however many take part.
const FEWEST_CELLS: usize = 3;

/// The statement that a cell belongs to, in its incarnation.
fn incarnation_of(cell: StatementCell) -> Incarnation
    ensures { result ≡ incarnation_of cell }
{
    Incarnation {
        statement: cell.statement,
        number: cell.incarnation,
    }
}

/// The place of the go cell of the statement of a cell at this place.
fn go_place(cell: StatementCell, place: usize) -> usize
    ensures place { result ≡ go_place cell.kind place }
    ensures within { result ≤ place }
{
    match cell.kind {
        CellKind::Code(code) => place.saturating_sub(code).saturating_sub(1),
        CellKind::Go | CellKind::Status => place,
    }
}

/// The local signal with its status, if the cell tells that.
fn local(cell: StatementCell, status: Status) -> Option<Local>
    ensures { result ≡ local_by_kind cell.kind status (incarnation_of cell) }
{
    match cell.kind {
        CellKind::Status => Some(Local {
            declared: incarnation_of(cell),
            status,
        }),
        CellKind::Go | CellKind::Code(_) => None,
    }
}

/// The local signal of which the cell at this place tells, if there is one.
fn local_at(net: &Net, cells: &[StatementCell], first: usize, place: usize) -> Option<Local>
    requires { first + length cells.now ≤ length net.now.cells.items }
    ensures { result ≡ local_at (slice_get cells.now place)
        (cell_at net.now.cells.items (first + place)) }
{
    match cells.get(place) {
        Some(cell) => local(*cell, net.status(first + place)),
        None => None,
    }
}

/// Adds the statement, if its go cell, at this place of the table, tells that it did not begin.
fn add_resumed(
    went_on: &mut Vec<Incarnation>,
    net: &Net,
    at: Incarnation,
    go: usize,
) -> Result<(), AllocError>
    requires { go < length net.now.cells.items }
    ensures { IfOk result (λ _. (code : ℕ) → went_on.new.items ≡ went_on.old.items
        ++ listed (resumed_by_kind (Code code) (cell_at net.now.cells.items go) Present at)) }
{
    match net.status(go) {
        Status::Absent => went_on.push(at)?,
        Status::Present | Status::Unknown => {}
    }
    Ok(())
}

/// Adds what a true cell at this place of the table tells of its statement.
fn add_true(
    began: &mut Vec<Incarnation>,
    went_on: &mut Vec<Incarnation>,
    net: &Net,
    cell: StatementCell,
    place: usize,
) -> Result<(), AllocError>
    requires within { place < length net.now.cells.items }
    requires is_true { cell_at net.now.cells.items place ≡ Present }
    ensures began { IfOk result (λ _. began.new.items ≡ began.old.items
        ++ listed (begun_at (Some cell) (cell_at net.now.cells.items place))) }
    ensures went_on { IfOk result (λ _. went_on.new.items ≡ went_on.old.items
        ++ listed (resumed_at (Some cell) (cell_at net.now.cells.items) place)) }
{
    match cell.kind {
        CellKind::Go => began.push(incarnation_of(cell))?,
        CellKind::Code(_) => {
            add_resumed(went_on, net, incarnation_of(cell), go_place(cell, place))?;
        }
        CellKind::Status => {}
    }
    Ok(())
}

/// Adds what all cells tell, one true cell after another.
fn add_all(
    began: &mut Vec<Incarnation>,
    went_on: &mut Vec<Incarnation>,
    net: &Net,
    cells: &[StatementCell],
    first: usize,
) -> Result<(), AllocError>
    requires table { first + length cells.now ≤ length net.now.cells.items }
    requires before { AreReadTo cells.now (cell_at net.now.cells.items) first 0 began.old.items
        went_on.old.items }
    ensures { IfOk result (λ _. AreReadTo cells.now (cell_at net.now.cells.items) first
        (length cells.now) began.new.items went_on.new.items) }
{
    let past = first + cells.len();
    let mut at = first;
    while let Some(place) = net.first_true(at, past) {
        add_true(began, went_on, net, cells[place - first], place)?;
        at = place + 1;
    }
    Ok(())
}

/// The local signals, whose cells are at these places.
fn locals_of(
    alloc: Global,
    net: &Net,
    cells: &[StatementCell],
    signals: &[usize],
    first: usize,
) -> Result<Vec<Local>, AllocError>
    requires table { first + length cells.now ≤ length net.now.cells.items }
    requires signals { signals.now ≡ signal_places cells.now }
    ensures { IfOk result (λ locals. locals.items
        ≡ all_locals cells.now (cell_at net.now.cells.items) first) }
{
    let mut locals = Vec::with_capacity(alloc, signals.len())?;
    for place in signals {
        push_if(&mut locals, local_at(net, cells, first, *place))?;
    }
    Ok(locals)
}

/// What took part. The cells of these owners begin at place `first`; those at the places `signals`
/// tell the statuses of local signals.
pub fn all_seen(
    alloc: Global,
    net: &Net,
    cells: &[StatementCell],
    signals: &[usize],
    first: usize,
) -> Result<Seen, AllocError>
    requires table { first + length cells.now ≤ length net.now.cells.items }
    requires signals { signals.now ≡ signal_places cells.now }
    ensures { IfOk result (AreAll cells.now (cell_at net.now.cells.items) first) }
{
    let mut began = Vec::with_capacity(alloc, cells.len() / FEWEST_CELLS)?;
    let mut went_on = Vec::with_capacity(alloc, cells.len() / FEWEST_CELLS)?;
    add_all(&mut began, &mut went_on, net, cells, first)?;
    Ok(Seen {
        began,
        went_on,
        locals: locals_of(alloc, net, cells, signals, first)?,
    })
}
