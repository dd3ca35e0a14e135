//! Names that a module declares and may emit.
ghost use Rattle.std.specs.Prelude.{◌≡◌, ℕ, List, ◌&&◌, ◌||◌, not, filter, map, IfOk};
ghost use Rattle.est_modules.specs.Modules.{is_declared, is_input, program_of};
ghost use Rattle.est_modules.specs.NamedNumbers.{Tells};
ghost use Rattle.est_modules.specs.NameSets.{has};
ghost use Rattle.est_modules.specs.NameTables.{IsTable};
ghost use Rattle.est_modules.specs.Visible.{is_tick};

use est_modules::interface::Declared;
use est_modules::library_modules::LibraryModule;
use est_modules::names::set::{NameSet, NumberSet, numbers_among};
use est_modules::names::table::NameTable;
use est_modules::relations::is_input_kind;
use est_modules::visibility::is_tick;
use est_text::identifier::Identifier;
use std::alloc::{AllocError, Global};

/// The names of the inputs of an interface.
///
/// # Errors
///
/// `AllocError` where memory is refused.
#[tactic(auto, unfolding(est_modules::specs::Modules::is_input))]
pub fn inputs_of<'a>(alloc: Global, interface: &'a [Declared]) -> Result<NameSet<'a>, AllocError>
    ensures { IfOk result (λ names. (s : List ℕ) → has names s ≡ is_input interface.now s) }
{
    let mut names = NameSet::new(alloc);
    for declared in interface {
        if is_input_kind(declared.kind) {
            names.insert(&declared.name)?;
        }
    }
    Ok(names)
}

/// Whether a name is neither one of these inputs nor `tick`.
fn is_other(inputs: &NameSet<'_>, name: &Identifier) -> bool
    ensures { result ≡ not (has inputs.now name.now || is_tick name.now) }
{
    !(inputs.contains(name) || is_tick(name))
}

/// The names of an interface that are neither inputs nor `tick`.
fn other_names(
    alloc: Global,
    inputs: &NameSet<'_>,
    interface: &[Declared],
) -> Result<Vec<Identifier>, AllocError>
    ensures { IfOk result (λ others. others.items ≡ filter (λ n. not (has inputs.now n || is_tick
        n)) (map (λ d. d.name) interface.now)) }
{
    let mut others = Vec::new(alloc);
    for declared in interface {
        if is_other(inputs, &declared.name) {
            others.push(declared.name)?;
        }
    }
    Ok(others)
}

/// The names that a module declares and may emit: they are neither inputs nor `tick`.
///
/// # Errors
///
/// `AllocError` where memory is refused for names.
pub fn allowed_names(
    alloc: Global,
    table: &NameTable<'_>,
    inputs: &NameSet<'_>,
    home: &LibraryModule<'_>,
) -> Result<NumberSet, AllocError>
    requires inputs { (s : List ℕ) → has inputs.now s ≡ is_input (program_of home.now).interface s }
    requires table { IsTable table.now }
    ensures { IfOk result (λ allowed. Tells table.now (λ s. not (is_input (program_of
        home.now).interface s || is_tick s) && is_declared (program_of home.now).interface s)
        allowed) }
{
    let others = other_names(alloc, inputs, home.interface.signals())?;
    numbers_among(alloc, table, &others)
}
