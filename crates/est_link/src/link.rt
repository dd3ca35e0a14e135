//! Linking: a library of modules and the name of its main module give one flat module, or their
//! first fault.
ghost use Rattle.std.specs.Prelude.{None, IfOk, map};
ghost use Rattle.est_checks.specs.FirstFaults.{Finds, IsFirstFault};
ghost use Rattle.est_link.specs.FlatModules.{IsFlatOf, IsLinkOf, flat_of};
ghost use Rattle.est_modules.specs.Modules.{program_of};
ghost use Rattle.est_modules.specs.ModuleOrders.{IsOrderOf};
ghost use Rattle.est_syntax.specs.Views.{library_view};

use crate::linked_module::linked_body;
use crate::main_module::main_module;
use est_checks::fault::LinkFault;
use est_checks::library_check::check_library;
use est_modules::collecting::collect_modules;
use est_modules::library_modules::LibraryModules;
use est_order::place_order::Order;
use est_reduce::flat::Flat;
use est_syntax::tree::Library;
use est_text::identifier::Identifier;
use std::alloc::{AllocError, Global};

/// The flat main module of modules of which no check has a fault, by an order of them.
fn flat_module(
    alloc: Global,
    modules: &LibraryModules<'_>,
    order: &Order,
    main: &Identifier,
) -> Result<Flat, AllocError>
    requires order { IsOrderOf (map program_of modules.now) order.now }
    requires checked { IsFirstFault (map program_of modules.now) main.now None }
    ensures { IfOk result (λ f. IsFlatOf (map program_of modules.now) main.now (flat_of f)) }
{
    let body = linked_body(alloc, &*modules, order, main)?;
    let Some(home) = modules.named(main) else {
        unreachable!();
    };
    main_module(alloc, home, body)
}

/// The flat main module of modules, or their first fault.
fn link_modules(alloc: Global, modules: &LibraryModules<'_>, main: &str) -> Result<Flat, LinkFault>
    ensures first { Finds (IsFirstFault (map program_of modules.now) main.now) result }
    ensures flat { IfOk result (λ f. IsFlatOf (map program_of modules.now) main.now (flat_of f)) }
{
    let (main, order) = check_library(alloc, &*modules, main)?;
    Ok(flat_module(alloc, &*modules, &order, &main)?)
}

/// Links a library: its main module, each `run` replaced by the body of the module that it runs,
/// and each name bound. Every check is asked before anything is built, so a library whose modules
/// run each other without end, or one whose runs double at each step, costs no more than its text.
///
/// # Errors
///
/// The first fault of the checks in their order: names declared twice, a name of the main module
/// that is no identifier, modules that aren't there, recursive runs, renamings, names that aren't
/// visible, emissions of inputs, relations of the main module, its limits; or `Memory`.
pub fn link(alloc: Global, library: &Library, main: &str) -> Result<Flat, LinkFault>
    ensures { IsLinkOf (library_view library.now) main.now result }
{
    let modules = collect_modules(alloc, library)?;
    link_modules(alloc, &modules, main)
}
