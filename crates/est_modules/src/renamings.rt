//! Renamings of a run.
ghost use Rattle.std.specs.Prelude.{◌≡◌, map, option_map, IfOk};
ghost use Rattle.std.specs.List.{find, list_any};
ghost use Rattle.std.specs.Str.{bytes_eq};
ghost use Rattle.est_syntax.specs.Views.{renaming_view};
ghost use Rattle.est_modules.specs.FirstPlaces.{AreFirstPlaces};
ghost use Rattle.est_modules.specs.Renamings.{renamed, is_renamed};

use crate::names::table::FirstPlaces;
use est_syntax::tree::Renaming;
use est_text::identifier::Identifier;
use std::alloc::{AllocError, Global};
use std::marker::Model;

/// The renamings of a run. A look-up by the name on the right takes as many steps as their count
/// has digits in binary. A contract sees the list of the renamings.
#[derive(Drop)]
pub struct RunRenamings<'a> {
    renamings: &'a [Renaming],
    places: FirstPlaces<'a>,
}

impl<'a> Model for RunRenamings<'a> {
    ghost use Rattle.std.specs.Prelude.{List, map};
    ghost use Rattle.est_modules.specs.FirstPlaces.{AreFirstPlaces};
    ghost use Rattle.est_syntax.specs.declared.tree.Renaming.{Renaming};

    ghost Value = { List Renaming };

    ghost view = { λ t. t.renamings.now };

    ghost invariant = { λ t. AreFirstPlaces t.places (map (λ r. r.inner) t.renamings.now) };
}

impl<'a> RunRenamings<'a> {
    /// The renamings of this list.
    ///
    /// # Errors
    ///
    /// `AllocError` where memory is refused.
    pub fn of(alloc: Global, renamings: &'a [Renaming]) -> Result<RunRenamings<'a>, AllocError>
        ensures { IfOk result (λ t. t ≡ renamings.now) }
    {
        let mut places = FirstPlaces::new(alloc);
        for index in 0..renamings.len() {
            places.add(&renamings[index].inner, index)?;
        }
        Ok(RunRenamings { renamings, places })
    }

    /// The renaming that names this signal of the module that is run.
    fn named(&self, signal: &Identifier) -> Option<&Renaming>
        ensures { option_map (λ r. r.now) result ≡ find (λ r. bytes_eq r.inner signal.now)
            self.now }
    {
        match self.places.find(signal) {
            Some(place) => self.renamings.get(place),
            None => None,
        }
    }

    /// Whether a renaming names this signal of the module that is run.
    pub fn is_renamed(&self, signal: &Identifier) -> bool
        ensures { result ≡ is_renamed (map renaming_view self.now) signal.now }
    {
        self.named(signal).is_some()
    }

    /// The caller's name for a signal of the module that is run.
    #[tactic(auto, using(crate::proofs::Lists::renamed_is))]
    pub fn callers_name(&self, signal: &Identifier) -> Identifier
        ensures { result ≡ renamed (map renaming_view self.now) signal.now }
    {
        match self.named(signal) {
            Some(renaming) => renaming.outer,
            None => *signal,
        }
    }
}
