//! The kept names of modules at a place, and which names the `signal`s around the place hide.
ghost use Rattle.std.specs.Prelude.{◌≡◌, ℕ, Bool, List, [], ◌∷◌, ◌||◌, true, IfOk, IsTrue, OnOk};
ghost use Rattle.std.specs.Prelude.{option_map, map};
ghost use Rattle.std.specs.List.{find};
ghost use Rattle.std.specs.Str.{bytes_eq};
ghost use Rattle.est_syntax.specs.Views.{names_view, renaming_view};
ghost use Rattle.est_modules.specs.NamedNumbers.{Adds, AreNumbers, Tells};
ghost use Rattle.est_modules.specs.NameTables.{number_in, IsTable};
ghost use Rattle.est_modules.specs.NumberSets.{numbers_of};
ghost use Rattle.est_modules.specs.Occurrences.{Binder, signals};
ghost use Rattle.est_modules.specs.OpenNames.{IsSame};
ghost use Rattle.est_modules.specs.Renamings.{is_renamed};
ghost use Rattle.est_modules.specs.Scopes.{binders_of};
ghost use Rattle.est_modules.specs.Visible.{is_among, is_local, stands_in};

use crate::names::kept::{Kept, KeptNames};
use crate::names::set::{NumberSet, put_name, put_names, put_renamed};
use crate::names::table::NameTable;
use crate::scope::Scope;
use crate::visibility::{has_signals, is_local};
use est_syntax::tree::{Names, Renaming};
use est_text::identifier::Identifier;
use std::alloc::{AllocError, Global};

/// The kept names at a place, and the numbers of the names that are hidden there: those that a
/// `signal` around it declares. For each `signal` the set is copied once, and each name that the
/// `signal` declares is looked up once.
#[derive(Drop)]
pub struct OpenNames<'a, 'b, 'c> {
    alloc: Global,
    table: &'a NameTable<'b>,
    modules: &'a KeptNames<'c>,
    hidden: NumberSet,
}

/// Hides the names that a `signal` declares.
fn hide_declared(
    hidden: &mut NumberSet,
    table: &NameTable<'_>,
    names: &Names,
) -> Result<(), AllocError>
    requires { IsTable table.now }
    ensures { OnOk result (Adds table.now (is_among (names_view names.now)) hidden.old
        hidden.new) }
{
    put_name(hidden, table, &names.first)?;
    put_names(hidden, table, &names.later)
}

impl<'a, 'b, 'c> OpenNames<'a, 'b, 'c> {
    /// Outermost in a module no name is hidden.
    pub fn outermost(
        alloc: Global,
        table: &'a NameTable<'b>,
        modules: &'a KeptNames<'c>,
    ) -> OpenNames<'a, 'b, 'c>
        ensures same { IsSame result table.now modules.now }
        ensures hidden { Tells table.now (is_local []) result.hidden }
    {
        OpenNames {
            alloc,
            table,
            modules,
            hidden: NumberSet::new(alloc),
        }
    }

    /// Those inside a `signal`.
    ///
    /// # Errors
    ///
    /// `AllocError` where memory is refused.
    pub fn inside(&self, names: &Names) -> Result<OpenNames<'a, 'b, 'c>, AllocError>
        requires { IsTable self.now.table.now }
        ensures same { IfOk result (λ inner. IsSame inner self.now.table.now self.now.modules.now) }
        ensures hidden { IfOk result (λ inner. (bs : List Binder) → Tells self.now.table.now
            (is_local bs) self.now.hidden → Tells self.now.table.now
            (is_local (signals (names_view names.now) ∷ bs)) inner.hidden) }
    {
        let mut hidden = self.hidden.try_clone(self.alloc)?;
        hide_declared(&mut hidden, self.table, names)?;
        Ok(OpenNames {
            alloc: self.alloc,
            table: self.table,
            modules: self.modules,
            hidden,
        })
    }

    /// The number of a name.
    pub fn number(&self, name: &Identifier) -> Option<usize>
        ensures { result ≡ number_in self.now.table.now name.now }
    {
        self.table.number(name)
    }

    /// Whether a number is that of a hidden name.
    pub fn is_hidden(&self, number: usize) -> bool
        ensures { result ≡ numbers_of self.now.hidden number }
    {
        self.hidden.has(number)
    }

    /// Whether a `signal` around the place declares a name. Where there is none, the name isn't
    /// looked up. A name without a number is looked for in each `signal`.
    #[tactic(auto, using(crate::proofs::Opening::none_local))]
    pub fn is_local(&self, scope: &Scope<'_>, name: &Identifier) -> bool
        requires table { IsTable self.now.table.now }
        requires hidden { Tells self.now.table.now (is_local (binders_of scope.now))
            self.now.hidden }
        ensures { result ≡ is_local (binders_of scope.now) name.now }
    {
        if !has_signals(scope) {
            return false;
        }
        match self.number(name) {
            Some(number) => self.is_hidden(number),
            None => is_local(scope, name),
        }
    }

    /// The kept names of the module of a name, if it has some.
    pub fn named(&self, name: &Identifier) -> Option<&Kept>
        ensures { option_map (λ k. k.now) result ≡ find (λ k. bytes_eq k.module_name name.now)
            self.now.modules.now }
    {
        self.modules.named(name)
    }

    /// The numbers of the names that are hidden, or that a run renames.
    ///
    /// # Errors
    ///
    /// `AllocError` where memory is refused.
    pub fn hidden_or_renamed(&self, renamings: &[Renaming]) -> Result<NumberSet, AllocError>
        requires { IsTable self.now.table.now }
        ensures { IfOk result (λ numbers. (f : List ℕ → Bool) → Tells self.now.table.now f
            self.now.hidden → Tells self.now.table.now (λ s. f s || is_renamed
            (map renaming_view renamings.now) s) numbers) }
    {
        let mut numbers = self.hidden.try_clone(self.alloc)?;
        put_renamed(&mut numbers, self.table, renamings)?;
        Ok(numbers)
    }

    /// Whether each kept name of a module is hidden, or renamed by a run, or among others.
    ///
    /// # Errors
    ///
    /// `AllocError` where memory is refused.
    pub fn are_bound(
        &self,
        kept: &Kept,
        renamings: &[Renaming],
        others: &NumberSet,
    ) -> Result<bool, AllocError>
        requires { IsTable self.now.table.now }
        ensures { IfOk result (λ bound. IsTrue bound → (names : List (List ℕ))
            (f g : List ℕ → Bool) → AreNumbers self.now.table.now names kept.now.numbers
            → Tells self.now.table.now f self.now.hidden → Tells self.now.table.now g others.now
            → (s : List ℕ) → stands_in names s ≡ true
            → ((f s || is_renamed (map renaming_view renamings.now) s) || g s) ≡ true) }
    {
        let passed = self.hidden_or_renamed(renamings)?;
        Ok(kept.numbers.is_covered(&passed, others))
    }
}
