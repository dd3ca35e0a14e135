//! The limits of a main module, asked before any run is replaced.
ghost use Rattle.std.specs.Prelude.{◌≡◌, ℕ, IfOk, map, option_map};
ghost use Rattle.est_checks.specs.Counting.{IsWithinLimit};
ghost use Rattle.est_checks.specs.FirstFaults.{Finds, module_limit_passed, module_limit_passed_by};
ghost use Rattle.est_checks.specs.Inner.Stages.{IsLimitFault};
ghost use Rattle.est_modules.specs.Modules.{program_of};
ghost use Rattle.est_modules.specs.ModuleOrders.{IsOrderOf};

use crate::fault::{LinkFault, ModuleLimit};
use crate::statement_count::count_statements;
use est_kernel::interface::MOST_SIGNALS;
use est_modules::library_modules::{LibraryModule, LibraryModules};
use est_modules::relations::relations_of;
use est_order::place_order::Order;
use est_relations::relations::MOST_RELATIONS;
use est_text::identifier::Identifier;
use std::alloc::{AllocError, Global};

/// The first limit that a main module with these numbers of signals, relations and statements
/// passes; it has too many statements where there is no number of them.
fn module_limit_passed(
    signals: usize,
    relations: usize,
    statements: Option<u16>,
) -> Option<ModuleLimit>
    ensures { (whole : ℕ) → IsWithinLimit whole statements
        → result ≡ module_limit_passed signals relations whole }
{
    if signals > MOST_SIGNALS {
        return Some(ModuleLimit::Signals);
    }
    if relations > MOST_RELATIONS {
        return Some(ModuleLimit::Relations);
    }
    match statements {
        Some(_) => None,
        None => Some(ModuleLimit::Statements),
    }
}

/// The first limit that the main module passes, if it is there.
fn module_limit_passed_by(
    alloc: Global,
    main: Option<&LibraryModule<'_>>,
    statements: Option<u16>,
) -> Result<Option<ModuleLimit>, AllocError>
    ensures { IfOk result (λ limit. (whole : ℕ) → IsWithinLimit whole statements
        → limit ≡ module_limit_passed_by (option_map (λ h. program_of h.now) main.entry) whole) }
{
    match main {
        Some(home) => {
            let relations = relations_of(alloc, home.declarations)?;
            Ok(module_limit_passed(home.interface.signals().len(), relations.len(), statements))
        }
        None => Ok(None),
    }
}

/// Fails where the main module passes a limit.
///
/// # Errors
///
/// `TooLarge` with the first limit that it passes; `Memory`.
pub fn check_limits(
    alloc: Global,
    modules: &LibraryModules<'_>,
    order: &Order,
    main: &Identifier,
) -> Result<(), LinkFault>
    requires { IsOrderOf (map program_of modules.now) order.now }
    ensures { Finds (IsLimitFault (map program_of modules.now) main.now) result }
{
    let statements = count_statements(alloc, modules, order, main)?;
    match module_limit_passed_by(alloc, modules.named(main), statements)? {
        Some(limit) => Err(LinkFault::TooLarge(limit)),
        None => Ok(()),
    }
}
