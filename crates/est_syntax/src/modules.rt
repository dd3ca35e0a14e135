//! From tokens to the tree of a library.
ghost use Rattle.std.specs.Prelude.{◌≡◌, ◌∷◌, [], List, length, IfOk, IfErr, map};
ghost use Rattle.est_syntax.specs.Views.{module_view, library_view};
ghost use Rattle.est_syntax.specs.Inner.Machine.{module_wants, modules as modules_want};
ghost use Rattle.est_syntax.specs.Inner.Machine.{library as library_want};
ghost use Rattle.est_syntax.specs.Inner.Modules.{Stops, IsModule, AreAllModules, IsLibrary};

use crate::cursor::Cursor;
use crate::declarations::declarations;
use crate::fault::ParserStop;
use crate::parse::MOST_OPEN_UNITS;
use crate::statements::statement;
use crate::tree::{Library, Module};
use est_text::keyword::Keyword;
use est_text::token::Symbol;
use std::alloc::Global;

/// A module, after its first word.
fn module(alloc: Global, cursor: &mut Cursor) -> Result<Module, ParserStop>
    ensures ok { IfOk result (λ p. IsModule (module_view p) cursor.old cursor.new) }
    ensures err { IfErr result (λ e. Stops (module_wants []) cursor.old e) }
{
    let name = cursor.expect_name()?;
    cursor.expect_symbol(Symbol::Colon)?;
    let declarations = declarations(alloc, cursor)?;
    let body = statement(alloc, cursor, MOST_OPEN_UNITS, true)?;
    cursor.expect_keyword(Keyword::End)?;
    cursor.expect_keyword(Keyword::Module)?;
    Ok(Module {
        name,
        declarations,
        body,
    })
}

/// The further modules.
fn later_modules(alloc: Global, cursor: &mut Cursor) -> Result<Vec<Module>, ParserStop>
    ensures ok { IfOk result
        (λ ps. AreAllModules (map module_view ps.items) cursor.old cursor.new) }
    ensures err { IfErr result (λ e. Stops (modules_want ∷ []) cursor.old e) }
{
    let mut modules = Vec::new(alloc);
    'modules: while cursor.take_keyword(Keyword::Module) {
        let next = module(alloc, cursor)?;
        modules.push(next)?;
    }
    Ok(modules)
}

/// A library, which takes all tokens.
pub fn library(alloc: Global, cursor: &mut Cursor) -> Result<Library, ParserStop>
    ensures ok { IfOk result (λ l. IsLibrary (library_view l) cursor.old) }
    ensures err { IfErr result (λ e. Stops (library_want ∷ []) cursor.old e) }
{
    cursor.expect_keyword(Keyword::Module)?;
    let first = module(alloc, cursor)?;
    let later = later_modules(alloc, cursor)?;
    let left = cursor.count();
    if left != 0 {
        return Err(ParserStop::Syntax(left));
    }
    Ok(Library { first, later })
}
