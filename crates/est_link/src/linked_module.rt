//! The flat body of the main module, its runs replaced.
ghost use Rattle.std.specs.Prelude.{◌≡◌, ℕ, Bool, List, None, Some, IfOk, map};
ghost use Rattle.est_link.specs.Bodies.{HasSoundNames};
ghost use Rattle.est_link.specs.Linking.{IsLinked};
ghost use Rattle.est_checks.specs.Duplicates.{first_duplicate};
ghost use Rattle.est_link.specs.MainModule.{declarations_of};
ghost use Rattle.est_modules.specs.Modules.{Program, program_of, program_named};
ghost use Rattle.est_modules.specs.ModuleOrders.{IsOrderOf};
ghost use Rattle.est_checks.specs.MissingModules.{first_missing};
ghost use Rattle.est_reduce.specs.Bound.{IsBound};
ghost use Rattle.est_reduce.specs.Views.{body_of};

use crate::body_table::bodies_along;
use crate::needed::needed_places;
use est_modules::library_modules::LibraryModules;
use est_order::place_order::Order;
use est_reduce::body::Body;
use est_text::identifier::Identifier;
use std::alloc::{AllocError, Global};

/// The flat body of main, from those of the modules that it runs; no other module is made flat.
///
/// # Errors
///
/// `AllocError` where memory is refused.
pub fn linked_body(
    alloc: Global,
    modules: &LibraryModules<'_>,
    order: &Order,
    main: &Identifier,
) -> Result<Body, AllocError>
    requires order { IsOrderOf (map program_of modules.now) order.now }
    requires distinct { first_duplicate (map program_of modules.now) ≡ None }
    requires there { first_missing (map program_of modules.now) main.now ≡ None }
    ensures linked { IfOk result (λ b. IsLinked (map program_of modules.now) main.now (body_of b)) }
    ensures bound { IfOk result (λ b. (emitted : List ℕ → List ℕ → Bool) (p : Program)
        → HasSoundNames (map program_of modules.now) emitted
        → program_named (map program_of modules.now) main.now ≡ Some p
        → IsBound (declarations_of p) 0 0 (body_of b)) }
{
    match modules.place(main) {
        Some(place) => {
            let needed = needed_places(alloc, &*modules, order.places(), place)?;
            let bodies = bodies_along(alloc, modules, order.places(), &needed)?;
            bodies.close(alloc, main)
        }
        None => Ok(Body::Nothing),
    }
}
