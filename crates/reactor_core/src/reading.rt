//! From a text and the name of its main module to the module that they give.
ghost use Rattle.std.specs.Prelude.{IfOk, IfErr};
ghost use Rattle.reactor_core.specs.Loading.{Gives, IsLoadFault};
ghost use Rattle.reactor_core.specs.Standing.{given_by};

use crate::kernel_module::Module;
use crate::refusal::ReactorRefusal;
use est_link::link::link;
use est_reduce::reduce::reduce;
use est_syntax::parse::parse;
use est_text::lex::lex;
use std::alloc::Global;

/// The main module of a text: it is cut, read by the grammar, linked and reduced. Each stage ends
/// before the next begins, so a fault of an earlier one is answered before any of a later one.
pub fn read_module(alloc: Global, main: &str, text: &str) -> Result<Module, ReactorRefusal>
    ensures given { IfOk result (λ m. Gives main.now text.now (given_by m)) }
    ensures fault { IfErr result (IsLoadFault main.now text.now) }
{
    let tokens = lex(alloc, text)?;
    let library = parse(alloc, &tokens)?;
    let flat = link(alloc, &library, main)?;
    let kernel = reduce(alloc, &flat)?;
    Ok(Module {
        kernel,
        relations: flat.relations,
    })
}
