//! What is done at one place after another.
ghost use Rattle.std.specs.Prelude.{◌≡◌, List, OnOk};

use crate::names::open::OpenNames;
use crate::scope::{Act, Scope};
use std::alloc::AllocError;

/// What is to be learned from the places in the body of a module.
pub trait Visitor {
    ghost use Rattle.est_modules.specs.Occurrences.{Occurrence};
    ghost use Rattle.est_modules.specs.OpenNames.{IsOpen};
    ghost use Rattle.est_modules.specs.declared.names.table.NameTable.{NameTable};
    ghost use Rattle.est_modules.specs.declared.names.kept.Kept.{Kept};
    ghost use Rattle.est_modules.specs.Scopes.{act_of, binders_of};

    /// What has been learned so far.
    type Seen;

    /// What contracts know of it.
    ghost State: { Type 0 };

    /// What is known of what has been learned.
    ghost state: { Self.Seen → State };

    /// What is known after an occurrence, from what was known before it.
    ghost after: { Self → State → Occurrence → State };

    /// What is known of the kept names, which the walk has at each place.
    ghost fits: { Self → NameTable → List Kept → Type 0 };

    /// Learns from an occurrence.
    ///
    /// # Errors
    ///
    /// `AllocError` where memory is refused for what is learned.
    fn visit(
        &self,
        seen: &mut Self::Seen,
        kept: &OpenNames<'_, '_, '_>,
        act: &Act<'_>,
        scope: &Scope<'_>,
    ) -> Result<(), AllocError>
        requires { IsOpen (fits self.now) (binders_of scope.now) kept.now }
        ensures { OnOk result (state seen.new ≡ after self.now (state seen.old) (record
            { act = act_of act.now; around = binders_of scope.now })) };
}
