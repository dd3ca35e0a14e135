//! Renamings that name no interface signal of the module that is run, or one twice.
ghost use Rattle.std.specs.Prelude.{◌≡◌, ℕ, List, map, option_map, IfOk};
ghost use Rattle.std.specs.List.{find};
ghost use Rattle.est_syntax.specs.Views.{renaming_view};
ghost use Rattle.est_modules.specs.Modules.{program_of};
ghost use Rattle.est_modules.specs.NameSets.{has};
ghost use Rattle.est_checks.specs.BadRenamings.{is_renamed_twice, is_misnamed, bad_in_run};

use crate::place_check::PlaceCheck;
use est_modules::library_modules::{LibraryModule, LibraryModules};
use est_modules::names::open::OpenNames;
use est_modules::names::set::NameSet;
use est_modules::scope::{Act, Scope};
use est_syntax::tree::Renaming;
use est_text::identifier::Identifier;
use std::alloc::{AllocError, Global};

/// The names that more than one renaming has on the right.
fn renamed_twice<'a>(alloc: Global, renamings: &'a [Renaming]) -> Result<NameSet<'a>, AllocError>
    ensures { IfOk result (λ names. (s : List ℕ) → has names s
        ≡ is_renamed_twice (map renaming_view renamings.now) s) }
{
    let mut once = NameSet::new(alloc);
    let mut twice = NameSet::new(alloc);
    for renaming in renamings {
        if !once.insert(&renaming.inner)? {
            twice.insert(&renaming.inner)?;
        }
    }
    Ok(twice)
}

#[tactic(auto, unfolding(crate::specs::BadRenamings::is_misnamed))]
fn is_misnamed(
    run: &LibraryModule<'_>,
    twice: &NameSet<'_>,
    renamings: &[Renaming],
    signal: &Identifier,
) -> bool
    requires { (s : List ℕ) → has twice.now s
        ≡ is_renamed_twice (map renaming_view renamings.now) s }
    ensures { result ≡ is_misnamed (program_of run.now) (map renaming_view renamings.now)
        signal.now }
{
    !run.interface.declares(signal) || twice.contains(signal)
}

/// The right name of the first of these renamings that is bad.
fn misnamed(
    run: &LibraryModule<'_>,
    twice: &NameSet<'_>,
    renamings: &[Renaming],
) -> Option<Identifier>
    requires { (s : List ℕ) → has twice.now s
        ≡ is_renamed_twice (map renaming_view renamings.now) s }
    ensures { result ≡ option_map (λ r. r.inner) (find (λ r. is_misnamed (program_of run.now)
        (map renaming_view renamings.now) r.inner) renamings.now) }
{
    for renaming in renamings {
        if is_misnamed(run, twice, renamings, &renaming.inner) {
            return Some(renaming.inner);
        }
    }
    None
}

fn bad_in_run(
    alloc: Global,
    renamings: &[Renaming],
    run: Option<&LibraryModule<'_>>,
) -> Result<Option<Identifier>, AllocError>
    ensures { IfOk result (λ name. name ≡ bad_in_run (map renaming_view renamings.now)
        (option_map (λ h. program_of h.now) run.entry)) }
{
    let Some(run) = run else {
        return Ok(None);
    };
    let twice = renamed_twice(alloc, renamings)?;
    Ok(misnamed(run, &twice, renamings))
}

/// The check for renamings whose right name is no interface signal of the module that is run, or
/// stands on the right twice.
#[derive(Clone, Copy)]
pub struct BadRename<'a, 'b> {
    /// Where memory for names is taken.
    pub alloc: Global,
    /// The modules of the library.
    pub modules: &'a LibraryModules<'b>,
}

impl PlaceCheck for BadRename<'_, '_> {
    ghost use Rattle.std.specs.Prelude.{⊤, map};
    ghost use Rattle.est_modules.specs.Modules.{program_of};
    ghost use Rattle.est_checks.specs.BadRenamings.{bad_renaming_at};

    ghost fits = { λ c t ks. ⊤ };

    ghost fault = { λ c. bad_renaming_at (map program_of c.modules.now) };

    fn fault(
        &self,
        _home: &LibraryModule<'_>,
        _kept: &OpenNames<'_, '_, '_>,
        act: &Act<'_>,
        _scope: &Scope<'_>,
    ) -> Result<Option<Identifier>, AllocError> {
        match act {
            Act::Emits(_) | Act::Tests(_) | Act::Exits(_) | Act::Binds(_) => Ok(None),
            Act::Runs(name, renamings) => {
                bad_in_run(self.alloc, renamings, self.modules.named(name))
            }
        }
    }
}
