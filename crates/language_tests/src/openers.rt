//! What many tests begin with: the name, the library, the flat module and the kernel of a text.
ghost use Rattle.std.specs.Prelude.{map};
ghost use Rattle.est_modules.specs.ModuleOrders.{IsOrderOf};
ghost use Rattle.est_modules.specs.Modules.{program_of};

use est_kernel::kernel::Kernel;
use est_link::link::link;
use est_modules::library_modules::LibraryModules;
use est_modules::module_order::order_library;
use est_order::place_order::Order;
use est_reduce::flat::Flat;
use est_reduce::reduce::reduce;
use est_syntax::parse::parse;
use est_syntax::tree::Library;
use est_text::identifier::Identifier;
use est_text::lex::lex;
use std::alloc::Global;
use std::process::Abort;

/// The name that a text is.
pub fn name(rt: &impl Abort, text: &str) -> Identifier {
    Identifier::from_text(text).expect(rt, "a name")
}

/// The library of a text.
pub fn library_of(rt: &impl Abort, alloc: Global, text: &str) -> Library {
    let tokens = lex(alloc, text).expect(rt, text);
    parse(alloc, &tokens).expect(rt, text)
}

/// The order of the modules of a library, which has one.
pub fn order_of(rt: &impl Abort, alloc: Global, modules: &LibraryModules<'_>) -> Order
    ensures { IsOrderOf (map program_of modules.now) result }
{
    match order_library(alloc, &*modules) {
        Ok(order) => order,
        Err(_) => None.expect(rt, "an order"),
    }
}

/// The flat module M of a text.
pub fn flat_of(rt: &impl Abort, alloc: Global, text: &str) -> Flat {
    let library = library_of(rt, alloc, text);
    link(alloc, &library, "M").ok().expect(rt, text)
}

/// The kernel of the module M of a text.
pub fn kernel_of(rt: &impl Abort, alloc: Global, text: &str) -> Kernel {
    let flat = flat_of(rt, alloc, text);
    reduce(alloc, &flat).ok().expect(rt, text)
}
