//! Relations of the main module with a member that is neither an input nor an inputoutput.
ghost use Rattle.std.specs.Prelude.{◌≡◌, ℕ, List, option_map, ◌+◌, not, IfOk};
ghost use Rattle.std.specs.List.{list_any, position};
ghost use Rattle.est_syntax.specs.Views.{relation_view};
ghost use Rattle.est_modules.specs.Modules.{is_offerable, program_of};
ghost use Rattle.est_modules.specs.NameSets.{has};
ghost use Rattle.est_checks.specs.Inner.Offers.{is_over_outputs};
ghost use Rattle.est_checks.specs.LawlessRelations.{first_over_outputs};

use est_modules::interface::Declared;
use est_modules::library_modules::LibraryModule;
use est_modules::names::set::NameSet;
use est_modules::relations::{is_offered_kind, relations_of};
use est_syntax::tree::Relation;
use est_text::identifier::Identifier;
use std::alloc::{AllocError, Global};

/// The names of the signals of an interface that may be offered.
#[tactic(auto, unfolding(est_modules::specs::Modules::is_offerable))]
fn offered_of<'a>(alloc: Global, interface: &'a [Declared]) -> Result<NameSet<'a>, AllocError>
    ensures { IfOk result (λ names. (s : List ℕ) → has names s ≡ is_offerable interface.now s) }
{
    let mut names = NameSet::new(alloc);
    for declared in interface {
        if is_offered_kind(declared.kind) {
            names.insert(&declared.name)?;
        }
    }
    Ok(names)
}

fn are_over_outputs(offered: &NameSet<'_>, names: &[Identifier]) -> bool
    ensures { result ≡ list_any (λ n. not (has offered.now n)) names.now }
{
    for name in names {
        if !offered.contains(name) {
            return true;
        }
    }
    false
}

/// Whether a member of a relation is not among the names that may be offered.
fn is_over_outputs(offered: &NameSet<'_>, relation: &Relation) -> bool
    ensures { result ≡ is_over_outputs (has offered.now) (relation_view relation.now) }
{
    match relation {
        Relation::Excludes(first, second, later) => {
            !offered.contains(first)
                || !offered.contains(second)
                || are_over_outputs(offered, later)
        }
        Relation::Implies(first, second) => !offered.contains(first) || !offered.contains(second),
    }
}

/// The number, from 1, of the first of these relations with a member that is not among the names
/// that may be offered.
fn number_over_outputs(offered: &NameSet<'_>, relations: &[&Relation]) -> Option<usize>
    ensures { result ≡ option_map (λ i. i + 1)
        (position (λ r. is_over_outputs (has offered.now) (relation_view r.now)) relations.now) }
{
    for place in 0..relations.len() {
        if is_over_outputs(offered, relations[place]) {
            return Some(place + 1);
        }
    }
    None
}

/// The number, from 1 in the order of the text, of the first relation of a module with a member
/// that is neither an input nor an inputoutput of it.
///
/// # Errors
///
/// `AllocError` where memory is refused for its relations or the names that may be offered.
pub fn first_over_outputs(
    alloc: Global,
    home: &LibraryModule<'_>,
) -> Result<Option<usize>, AllocError>
    ensures { IfOk result (λ number. number ≡ first_over_outputs (program_of home.now)) }
{
    let relations = relations_of(alloc, home.declarations)?;
    let offered = offered_of(alloc, home.interface.signals())?;
    Ok(number_over_outputs(&offered, &relations))
}
