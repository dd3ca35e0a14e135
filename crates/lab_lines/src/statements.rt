//! The statements of a kernel, numbered in text order.

ghost use Rattle.std.specs.Prelude.{◌≡◌, ◌<◌, ◌++◌, IfOk, OnOk, length, map, slice_set};
ghost use Rattle.serde_json.specs.View.{view};
ghost use Rattle.lab_lines.specs.Statements.{IsKernelTold, around_json, both_json, emit_json};
ghost use Rattle.lab_lines.specs.Statements.{number_after, pause_json, plain_json};
ghost use Rattle.lab_lines.specs.Statements.{statements_json, statements_of_both_json};

use est_kernel::interface::Interface;
use est_kernel::kernel::Kernel;
use est_kernel::statement::{PauseIndex, Signal, Statement};
use serde_json::{Value, json};
use std::alloc::{AllocError, Global};

/// A statement without parts.
fn plain_json(alloc: Global, kind: &str) -> Result<Value, AllocError>
    ensures { IfOk result (λ v. view v ≡ plain_json kind.now) }
{
    json!(in alloc; {"kind": kind})
}

/// A statement with one part.
fn around_json(alloc: Global, kind: &str, part: usize) -> Result<Value, AllocError>
    ensures { IfOk result (λ v. view v ≡ around_json kind.now part) }
{
    json!(in alloc; {"kind": kind, "parts": [part]})
}

/// A statement with two parts.
fn both_json(alloc: Global, kind: &str, first: usize, second: usize) -> Result<Value, AllocError>
    ensures { IfOk result (λ v. view v ≡ both_json kind.now first second) }
{
    json!(in alloc; {"kind": kind, "parts": [first, second]})
}

/// A pause.
fn pause_json(alloc: Global, pause: PauseIndex) -> Result<Value, AllocError>
    ensures { IfOk result (λ v. view v ≡ pause_json pause.index) }
{
    json!(in alloc; {"kind": "pause", "pause": pause.index})
}

/// An `emit`.
fn emit_json(alloc: Global, interface: &Interface, signal: &Signal) -> Result<Value, AllocError>
    ensures { IfOk result (λ v. view v ≡ emit_json interface.now signal.now) }
{
    match signal {
        Signal::Interface(place) if (place.index as usize) < interface.len() => {
            let name = interface.get(*place).name;
            json!(in alloc; {"kind": "emit", "signal": name.as_str()})
        }
        _ => plain_json(alloc, "emit"),
    }
}

/// Puts a statement at its place.
fn put_statement(statements: &mut Vec<Value>, at: usize, statement: Value)
    requires { at < length statements.old.items }
    ensures { map view statements.new.items
        ≡ slice_set (map view statements.old.items) at (view statement) }
{
    statements[at] = statement;
}

/// Adds the part of a statement of this kind, and answers the statement.
#[cycle(listing)]
fn add_one_part(
    alloc: Global,
    interface: &Interface,
    statements: &mut Vec<Value>,
    kind: &str,
    part: &Statement,
) -> Result<Value, AllocError>
    ensures told { IfOk result (λ v. view v
        ≡ around_json kind.now (length statements.old.items)) }
    ensures added { OnOk result (map view statements.new.items ≡ map view statements.old.items
        ++ statements_json interface.now (length statements.old.items) part.now) }
{
    let part = add_statement(alloc, interface, statements, part)?;
    around_json(alloc, kind, part)
}

/// Adds the two parts of a statement of this kind, and answers the statement.
#[cycle(listing)]
fn add_parts(
    alloc: Global,
    interface: &Interface,
    statements: &mut Vec<Value>,
    kind: &str,
    first: &Statement,
    second: &Statement,
) -> Result<Value, AllocError>
    ensures told { IfOk result (λ v. view v ≡ both_json kind.now (length statements.old.items)
        (number_after interface.now (length statements.old.items) first.now)) }
    ensures added { OnOk result (map view statements.new.items ≡ map view statements.old.items
        ++ statements_of_both_json interface.now (length statements.old.items) first.now
        second.now) }
{
    let first = add_statement(alloc, interface, statements, first)?;
    let second = add_statement(alloc, interface, statements, second)?;
    both_json(alloc, kind, first, second)
}

/// Adds a statement and then its parts, and answers its number. Recursion is as deep as the
/// statement.
#[cycle(listing)]
fn add_statement(
    alloc: Global,
    interface: &Interface,
    statements: &mut Vec<Value>,
    statement: &Statement,
) -> Result<usize, AllocError>
    ensures number { IfOk result (λ at. at ≡ length statements.old.items) }
    ensures added { OnOk result (map view statements.new.items ≡ map view statements.old.items
        ++ statements_json interface.now (length statements.old.items) statement.now) }
{
    let at = statements.len();
    statements.push(Value::Null)?;
    let told = match statement {
        Statement::Nothing => plain_json(alloc, "nothing")?,
        Statement::Pause(index) => pause_json(alloc, *index)?,
        Statement::Emit(signal) => emit_json(alloc, interface, signal)?,
        Statement::Present(_, p, q) => add_parts(alloc, interface, statements, "present", p, q)?,
        Statement::Suspend(_, p) => add_one_part(alloc, interface, statements, "suspend", p)?,
        Statement::Seq(p, q) => add_parts(alloc, interface, statements, "seq", p, q)?,
        Statement::Loop(p) => add_one_part(alloc, interface, statements, "loop", p)?,
        Statement::Par(p, q) => add_parts(alloc, interface, statements, "par", p, q)?,
        Statement::Trap(p) => add_one_part(alloc, interface, statements, "trap", p)?,
        Statement::Exit(_) => plain_json(alloc, "exit")?,
        Statement::Local(_, p) => add_one_part(alloc, interface, statements, "signal", p)?,
    };
    put_statement(statements, at, told);
    Ok(at)
}

/// The statements of a kernel.
pub fn kernel_json(alloc: Global, kernel: &Kernel) -> Result<Value, AllocError>
    ensures { IfOk result (λ v. IsKernelTold kernel.now (view v)) }
{
    let mut statements = Vec::new(alloc);
    add_statement(alloc, kernel.interface(), &mut statements, kernel.root())?;
    let inputs = kernel.interface().offerable().count_ones();
    json!(in alloc; {
        "inputs": inputs,
        "ok": "kernel",
        "statements": statements
    })
}
