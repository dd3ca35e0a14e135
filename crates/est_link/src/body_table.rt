//! The bodies of main and of the modules that it runs, worked out bottom-up.
ghost use Rattle.std.specs.Prelude.{◌≡◌, ◌<◌, [], Some, None, IfOk, OnOk, length, map};
ghost use Rattle.std.specs.List.{slice_get};
ghost use Rattle.est_checks.specs.Duplicates.{first_duplicate};
ghost use Rattle.est_checks.specs.MissingModules.{missing_at};
ghost use Rattle.est_link.specs.Linking.{linked};
ghost use Rattle.est_link.specs.Inner.Needs.{IsComplete};
ghost use Rattle.est_link.specs.Inner.OpenBodies.{closed_of};
ghost use Rattle.est_link.specs.Inner.Tables.{AreBodiesOf, HasBodies, IsGrown, bodies_of};
ghost use Rattle.est_link.specs.Inner.Tables.{module_body_of};
ghost use Rattle.est_modules.specs.Modules.{Program, program_of, first_in_bodies};
ghost use Rattle.est_modules.specs.ModuleOrders.{IsOrderOf};

use crate::flatten::{LinkContext, Linker, flat_statement};
use crate::module_bodies::{ModuleBodies, ModuleBody};
use crate::needed::is_in;
use crate::open_body::OpenBody;
use crate::scope::NamedScope;
use est_modules::library_modules::{LibraryModule, LibraryModules};
use std::alloc::{AllocError, Global};

/// The open body of the module of a linker.
fn whole_body(linker: &Linker<'_, '_, '_>) -> Result<OpenBody, AllocError>
    ensures { IfOk result (λ b. closed_of b ≡ linked (map program_of linker.now.modules.now)
        (bodies_of linker.now.bodies.now) (program_of linker.now.home.now) []
        (program_of linker.now.home.now).body) }
{
    let whole = LinkContext {
        linker: &*linker,
        scope: &NamedScope::Module,
    };
    flat_statement(&whole, linker.home.body)
}

/// The body of a module, by those of the modules that it runs.
fn body_by<'a, 'b>(
    alloc: Global,
    modules: &'a LibraryModules<'b>,
    bodies: &'a ModuleBodies<'_>,
    home: &'a LibraryModule<'b>,
) -> Result<ModuleBody, AllocError>
    ensures { IfOk result (λ b. module_body_of b ≡ linked (map program_of modules.now)
        (bodies_of bodies.now) (program_of home.now) [] (program_of home.now).body) }
{
    let body = whole_body(&Linker {
        alloc,
        modules,
        bodies,
        home,
    })?;
    ModuleBody::of(alloc, body)
}

/// Adds the body of the module at a place.
fn add_body<'a>(
    alloc: Global,
    modules: &'a LibraryModules<'_>,
    bodies: &mut ModuleBodies<'a>,
    place: usize,
) -> Result<(), AllocError>
    requires { place < length modules.now }
    ensures { OnOk result ((p : Program) → slice_get (map program_of modules.now) place ≡ Some p
        → IsGrown (map program_of modules.now) bodies.old p bodies.new) }
{
    let home = &modules.as_slice()[place];
    let body = body_by(alloc, &*modules, &*bodies, &*home)?;
    bodies.add(&home.name, body)
}

/// The bodies of the modules of a set, each made after those of the modules that it runs.
pub fn bodies_along<'a>(
    alloc: Global,
    modules: &'a LibraryModules<'_>,
    order: &[usize],
    needed: &[bool],
) -> Result<ModuleBodies<'a>, AllocError>
    requires order { IsOrderOf (map program_of modules.now) order.now }
    requires size { length needed.now ≡ length modules.now }
    requires complete { IsComplete (map program_of modules.now) needed.now }
    requires distinct { first_duplicate (map program_of modules.now) ≡ None }
    requires there { first_in_bodies (missing_at (map program_of modules.now))
        (map program_of modules.now) ≡ None }
    ensures right { IfOk result (λ t. AreBodiesOf (map program_of modules.now) t) }
    ensures each { IfOk result (λ t. HasBodies (map program_of modules.now) needed.now t) }
{
    let mut bodies = ModuleBodies::new(alloc);
    for place in order {
        if is_in(needed, *place) {
            add_body(alloc, &*modules, &mut bodies, *place)?;
        }
    }
    Ok(bodies)
}
