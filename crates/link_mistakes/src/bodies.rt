//! Linked modules, their sizes and their flat bodies.
ghost use Rattle.std.specs.Prelude.{◌≡◌, ℕ, Bool, List, None, Some, IfOk, map};
ghost use Rattle.est_link.specs.Bodies.{HasSoundNames};
ghost use Rattle.est_link.specs.Linking.{IsLinked};
ghost use Rattle.est_checks.specs.Counting.{IsCountOf};
ghost use Rattle.est_checks.specs.Duplicates.{first_duplicate};
ghost use Rattle.est_link.specs.FlatModules.{IsLinkOf};
ghost use Rattle.est_link.specs.MainModule.{declarations_of};
ghost use Rattle.est_modules.specs.Modules.{Program, program_of, program_named};
ghost use Rattle.est_modules.specs.ModuleOrders.{IsOrderOf};
ghost use Rattle.est_checks.specs.MissingModules.{first_missing};
ghost use Rattle.est_reduce.specs.Bound.{IsBound};
ghost use Rattle.est_reduce.specs.Views.{body_of};
ghost use Rattle.est_syntax.specs.Views.{library_view};

use est_checks::fault::LinkFault;
use est_checks::statement_count;
use est_link::{link, linked_module};
use est_modules::library_modules::LibraryModules;
use est_order::place_order::Order;
use est_reduce::body::Body;
use est_reduce::flat::Flat;
use est_syntax::tree::Library;
use est_text::identifier::Identifier;
use std::alloc::{AllocError, Global};

/// The flat body of main, from those of the modules that it runs.
///
/// # Errors
///
/// `AllocError` where memory is refused.
pub fn linked_body(
    alloc: Global,
    modules: &LibraryModules<'_>,
    order: &Order,
    main: &Identifier,
) -> Result<Body, AllocError>
    requires order { IsOrderOf (map program_of modules.now) order.now }
    requires distinct { first_duplicate (map program_of modules.now) ≡ None }
    requires there { first_missing (map program_of modules.now) main.now ≡ None }
    ensures linked { IfOk result (λ b. IsLinked (map program_of modules.now) main.now (body_of b)) }
    ensures bound { IfOk result (λ b. (emitted : List ℕ → List ℕ → Bool) (p : Program)
        → HasSoundNames (map program_of modules.now) emitted
        → program_named (map program_of modules.now) main.now ≡ Some p
        → IsBound (declarations_of p) 0 0 (body_of b)) }
{
    linked_module::linked_body(alloc, modules, order, main)
}

/// The number of statements that the linked module `main` has before reduction, or `None` if it
/// has more than the limit.
///
/// # Errors
///
/// `AllocError` where memory is refused.
pub fn count_statements(
    alloc: Global,
    modules: &LibraryModules<'_>,
    order: &Order,
    main: &Identifier,
) -> Result<Option<u16>, AllocError>
    requires { IsOrderOf (map program_of modules.now) order.now }
    ensures { IfOk result (λ answer. IsCountOf (map program_of modules.now) main.now answer) }
{
    statement_count::count_statements(alloc, modules, order, main)
}

/// Links a library: its flat main module, or the first fault of its checks.
///
/// # Errors
///
/// The first fault of the checks in their order; or `Memory`.
pub fn link(alloc: Global, library: &Library, main: &str) -> Result<Flat, LinkFault>
    ensures { IsLinkOf (library_view library.now) main.now result }
{
    link::link(alloc, library, main)
}
