//! What is known of each statement before any instant.

ghost use Rattle.std.specs.Prelude.{◌≡◌, ◌<◌, ◌+◌, ◌||◌, ℕ, Bool, true, false, Some, IfErr, IfOk};
ghost use Rattle.std.specs.Prelude.{IfSome};
ghost use Rattle.est_cells.specs.Tables.{sheet_size};
ghost use Rattle.est_kernel.specs.Limits.{trap_depth};
ghost use Rattle.est_kernel.specs.View.{term_of};
ghost use Rattle.est_kernel.specs.declared.statement.Statement.TheVariants.{Present', Seq', Par'};
ghost use Rattle.est_net.specs.Extents.{HasExtents, IsExtent, IsRunOf};
ghost use Rattle.est_net.specs.Inner.Extending.{ArePartsAdded, IsExtended};

use crate::pause_run::PauseRun;
use crate::reading::read_by;
use est_kernel::statement::{PauseIndex, Signal, Statement, Test};
use est_meaning::signal_set::{self, SignalSet};
use std::alloc::{AllocError, Global};

/// What is known of a statement before any instant.
#[derive(Clone, Copy)]
pub struct Extent {
    /// How many cells it has in the incarnation that can go on from its pauses.
    pub main: usize,
    /// How many cells it has in a restart.
    pub again: usize,
    /// How many statements there are in it, itself counted.
    pub statements: usize,
    /// Its pauses, where their numbers are a run.
    pub pauses: Option<PauseRun>,
    /// The signals that tests in it read.
    pub reads: SignalSet,
    /// Those that are emitted in it.
    pub emits: SignalSet,
    /// Whether a `||` in it reads what it emits itself.
    pub tells: bool,
}

impl Extent {
    /// How many cells the statement has in one incarnation: `main` if it can go on from its pauses.
    #[inline(always)]
    pub fn cells(&self, main: bool) -> usize
        ensures { (s : _) (t : _) → IsExtent self.now s t → result ≡ sheet_size main s t }
    {
        if main { self.main } else { self.again }
    }
}

/// The pauses of two parts, where their numbers are a run.
fn joined(p: Option<PauseRun>, q: Option<PauseRun>) -> Option<PauseRun>
    ensures { (f g : (ℕ → Bool) → Bool) → IfSome p (IsRunOf f) → IfSome q (IsRunOf g)
        → IfSome result (IsRunOf (λ set. f set || g set)) }
{
    let p = p?;
    let q = q?;
    if p.count == 0 {
        return Some(q);
    }
    if q.count == 0 {
        return Some(p);
    }
    if p.first + p.count == q.first {
        Some(PauseRun {
            first: p.first,
            count: p.count + q.count,
        })
    } else {
        None
    }
}

/// The pause with this number alone.
fn one_pause(pause: PauseIndex) -> PauseRun
    ensures { IsRunOf (λ set. set pause.index) result }
{
    PauseRun {
        first: pause.index,
        count: 1,
    }
}

/// No pause.
fn no_pause() -> PauseRun
    ensures { IsRunOf (λ set. false) result }
{
    PauseRun { first: 0, count: 0 }
}

/// What is known of a statement without parts that has these cells.
fn leaf(cells: usize, pauses: PauseRun) -> Extent
    ensures main { result.main ≡ cells }
    ensures again { result.again ≡ cells }
    ensures statements { result.statements ≡ 1 }
    ensures pauses { result.pauses ≡ Some pauses }
{
    Extent {
        main: cells,
        again: cells,
        statements: 1,
        pauses: Some(pauses),
        reads: signal_set::no_signal(),
        emits: signal_set::no_signal(),
        tells: false,
    }
}

/// What is known of a statement that emits this signal, and of which the rest is known.
fn with_emission(rest: Extent, signal: Signal) -> Extent
    ensures main { result.main ≡ rest.main }
    ensures again { result.again ≡ rest.again }
    ensures statements { result.statements ≡ rest.statements }
    ensures pauses { result.pauses ≡ rest.pauses }
{
    Extent {
        emits: signal_set::only_with_bit(signal),
        ..rest
    }
}

/// What is known of a statement whose own test is this one, and of which the rest is known.
fn with_test(rest: Extent, test: &Test) -> Extent
    ensures main { result.main ≡ rest.main }
    ensures again { result.again ≡ rest.again }
    ensures statements { result.statements ≡ rest.statements }
    ensures pauses { result.pauses ≡ rest.pauses }
{
    Extent {
        reads: signal_set::union_of(rest.reads, read_by(test)),
        ..rest
    }
}

/// The sum of two counts. Where no `usize` has it, so many cells or statements can't be kept, and
/// memory is refused.
fn add(a: usize, b: usize) -> Result<usize, AllocError>
    ensures ok { IfOk result (λ sum. sum ≡ a + b) }
    ensures err { IfErr result (λ _. 18446744073709551615 < a + b) }
{
    match a.checked_add(b) {
        Some(sum) => Ok(sum),
        None => Err(AllocError),
    }
}

/// What is known of a statement that has these cells of its own and this part.
fn with_part(own: usize, p: &Extent) -> Result<Extent, AllocError>
    ensures main { IfOk result (λ x. x.main ≡ own + p.now.main) }
    ensures again { IfOk result (λ x. x.again ≡ own + p.now.again) }
    ensures statements { IfOk result (λ x. x.statements ≡ 1 + p.now.statements) }
    ensures pauses { IfOk result (λ x. x.pauses ≡ p.now.pauses) }
{
    Ok(Extent {
        main: add(own, p.main)?,
        again: add(own, p.again)?,
        statements: add(1, p.statements)?,
        pauses: p.pauses,
        reads: p.reads,
        emits: p.emits,
        tells: p.tells,
    })
}

/// What is known of a loop that has these cells of its own and this body.
fn with_body(own: usize, p: &Extent) -> Result<Extent, AllocError>
    ensures main { IfOk result (λ x. x.main ≡ own + p.now.main + p.now.again) }
    ensures again { IfOk result (λ x. x.again ≡ own + p.now.again) }
    ensures statements { IfOk result (λ x. x.statements ≡ 1 + p.now.statements) }
    ensures pauses { IfOk result (λ x. x.pauses ≡ p.now.pauses) }
{
    let once = with_part(own, p)?;
    Ok(Extent {
        main: add(once.main, p.again)?,
        ..once
    })
}

/// What is known of a statement that has these cells of its own and these two parts, and whose own
/// test, if it has one, reads these signals. `are_sides`: it is a `||`.
fn with_parts(
    own: usize,
    p: &Extent,
    q: &Extent,
    reads: SignalSet,
    are_sides: bool,
) -> Result<Extent, AllocError>
    ensures main { IfOk result (λ x. x.main ≡ own + p.now.main + q.now.main) }
    ensures again { IfOk result (λ x. x.again ≡ own + p.now.again + q.now.again) }
    ensures statements { IfOk result
        (λ x. x.statements ≡ 1 + p.now.statements + q.now.statements) }
    ensures pauses { IfOk result (λ x. (f g : (ℕ → Bool) → Bool) → IfSome p.now.pauses (IsRunOf f)
        → IfSome q.now.pauses (IsRunOf g)
        → IfSome x.pauses (IsRunOf (λ set. f set || g set))) }
{
    let first = with_part(own, p)?;
    let reads_inside = signal_set::union_of(p.reads, q.reads);
    let emits = signal_set::union_of(p.emits, q.emits);
    Ok(Extent {
        main: add(first.main, q.main)?,
        again: add(first.again, q.again)?,
        statements: add(first.statements, q.statements)?,
        pauses: joined(p.pauses, q.pauses),
        reads: signal_set::union_of(reads, reads_inside),
        emits,
        tells: p.tells || q.tells || are_sides && signal_set::meets(reads_inside, emits),
    })
}

/// Adds the entries of the parts of a statement, or memory was refused. Answers what is known of
/// the statement.
#[cycle(add_extents)]
fn add_parts(extents: &mut Vec<Extent>, s: &Statement, traps: usize) -> Result<Extent, AllocError>
    requires { traps + trap_depth (term_of s.now) < 65536 }
    ensures { IfOk result (ArePartsAdded s.now traps extents.old.items extents.new.items) }
{
    let none = signal_set::no_signal();
    match s {
        Statement::Nothing => Ok(leaf(traps + 3, no_pause())),
        Statement::Emit(signal) => Ok(with_emission(leaf(traps + 3, no_pause()), *signal)),
        Statement::Exit(_) => Ok(leaf(traps + 3, no_pause())),
        Statement::Pause(pause) => Ok(leaf(traps + 3, one_pause(*pause))),
        Statement::Present(test, p, q) => add_extents_of_two(
            extents,
            p,
            q,
            traps,
            read_by(test),
            false,
        ),
        Statement::Seq(p, q) => add_extents_of_two(extents, p, q, traps, none, false),
        Statement::Par(p, q) => add_extents_of_two(extents, p, q, traps, none, true),
        Statement::Suspend(test, p) => {
            let body = add_extents(extents, p, traps)?;
            Ok(with_test(with_part(traps + 3, &body)?, test))
        }
        Statement::Loop(p) => {
            let body = add_extents(extents, p, traps)?;
            with_body(traps + 3, &body)
        }
        Statement::Trap(p) => {
            let body = add_extents(extents, p, traps + 1)?;
            with_part(traps + 3, &body)
        }
        Statement::Local(_, p) => {
            let body = add_extents(extents, p, traps)?;
            with_part(traps + 4, &body)
        }
    }
}

/// Adds the entries of two parts, or memory was refused. Answers what is known of the statement
/// that has these parts, and whose own test, if it has one, reads these signals. `are_sides`: it is
/// a `||`.
#[cycle(add_extents)]
fn add_extents_of_two(
    extents: &mut Vec<Extent>,
    p: &Statement,
    q: &Statement,
    traps: usize,
    reads: SignalSet,
    are_sides: bool,
) -> Result<Extent, AllocError>
    requires first { traps + trap_depth (term_of p.now) < 65536 }
    requires second { traps + trap_depth (term_of q.now) < 65536 }
    ensures present { IfOk result (λ x. (t a b : _)
        → ArePartsAdded (Present' t a p.now b q.now) traps extents.old.items extents.new.items x) }
    ensures seq { IfOk result (λ x. (a b : _)
        → ArePartsAdded (Seq' a p.now b q.now) traps extents.old.items extents.new.items x) }
    ensures par { IfOk result (λ x. (a b : _)
        → ArePartsAdded (Par' a p.now b q.now) traps extents.old.items extents.new.items x) }
{
    let first = add_extents(extents, p, traps)?;
    let second = add_extents(extents, q, traps)?;
    let both = with_parts(traps + 3, &first, &second, reads, are_sides)?;
    Ok(both)
}

/// Adds the entries of a statement and of its parts, or memory was refused. Answers its own.
/// Recursion is as deep as the statement is.
#[cycle(add_extents)]
fn add_extents(extents: &mut Vec<Extent>, s: &Statement, traps: usize) -> Result<Extent, AllocError>
    requires { traps + trap_depth (term_of s.now) < 65536 }
    ensures { IfOk result (IsExtended s.now traps extents.old.items extents.new.items) }
{
    let number = extents.len();
    extents.push(leaf(0, no_pause()))?;
    let extent = add_parts(extents, s, traps)?;
    extents[number] = extent;
    Ok(extent)
}

/// What is known of a statement and of its parts, in the order of the text, or memory was refused.
pub fn extents_of(alloc: Global, s: &Statement) -> Result<Vec<Extent>, AllocError>
    requires { trap_depth (term_of s.now) < 65536 }
    ensures { IfOk result (λ xs. HasExtents xs.items 0 0 s.now) }
{
    let mut extents = Vec::new(alloc);
    add_extents(&mut extents, s, 0)?;
    Ok(extents)
}
