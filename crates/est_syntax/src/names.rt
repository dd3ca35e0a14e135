//! Lists of names, and renamings.
ghost use Rattle.std.specs.Prelude.{◌≡◌, ◌∷◌, [], IfOk, IfErr, map};
ghost use Rattle.est_syntax.specs.Grammar.{later_names_onto, names_onto, renaming_onto};
ghost use Rattle.est_syntax.specs.Grammar.{renamings_onto};
ghost use Rattle.est_syntax.specs.Views.{names_view, renaming_view};
ghost use Rattle.est_syntax.specs.Inner.Machine.{name as name_want};
ghost use Rattle.est_syntax.specs.Inner.Machine.{later_names as later_names_want};
ghost use Rattle.est_syntax.specs.Inner.Machine.{renamings as renamings_want};
ghost use Rattle.est_syntax.specs.Inner.Parsing.{Fails, Reads, NotMemory};
ghost use Rattle.est_syntax.specs.Inner.Parts.{renaming_wants};

use crate::cursor::Cursor;
use crate::fault::ParserStop;
use crate::tree::{Names, Renaming};
use est_text::identifier::Identifier;
use est_text::keyword::Keyword;
use est_text::token::Symbol;
use std::alloc::Global;

/// The further names, each after a comma.
fn later_names(alloc: Global, cursor: &mut Cursor) -> Result<Vec<Identifier>, ParserStop>
    ensures spelt { IfOk result (λ ns. cursor.old ≡ later_names_onto ns.items cursor.new) }
    ensures reads { IfOk result (λ _. Reads (later_names_want ∷ []) cursor.old cursor.new) }
    ensures err { IfErr result (λ e. Fails (later_names_want ∷ []) cursor.old e) }
{
    let mut names = Vec::new(alloc);
    'names: while cursor.take_symbol(Symbol::Comma) {
        let name = cursor.expect_name()?;
        names.push(name)?;
    }
    Ok(names)
}

/// One name or more.
pub fn names(alloc: Global, cursor: &mut Cursor) -> Result<Names, ParserStop>
    ensures spelt { IfOk result (λ ns. cursor.old ≡ names_onto (names_view ns) cursor.new) }
    ensures reads { IfOk result
        (λ _. Reads (name_want ∷ later_names_want ∷ []) cursor.old cursor.new) }
    ensures err { IfErr result (λ e. Fails (name_want ∷ later_names_want ∷ []) cursor.old e) }
{
    let first = cursor.expect_name()?;
    let later = later_names(alloc, cursor)?;
    Ok(Names { first, later })
}

/// One renaming.
fn renaming(cursor: &mut Cursor) -> Result<Renaming, ParserStop>
    ensures spelt { IfOk result (λ r. cursor.old ≡ renaming_onto (renaming_view r) cursor.new) }
    ensures reads { IfOk result (λ _. Reads renaming_wants cursor.old cursor.new) }
    ensures err { IfErr result (λ e. Fails renaming_wants cursor.old e) }
    ensures memory { IfErr result NotMemory }
{
    let outer = cursor.expect_name()?;
    cursor.expect_symbol(Symbol::Slash)?;
    let inner = cursor.expect_name()?;
    Ok(Renaming { outer, inner })
}

/// The renamings of a module that is run, if there are any.
pub fn renamings(alloc: Global, cursor: &mut Cursor) -> Result<Vec<Renaming>, ParserStop>
    ensures spelt { IfOk result
        (λ rs. cursor.old ≡ renamings_onto (map renaming_view rs.items) cursor.new) }
    ensures reads { IfOk result (λ _. Reads (renamings_want ∷ []) cursor.old cursor.new) }
    ensures err { IfErr result (λ e. Fails (renamings_want ∷ []) cursor.old e) }
{
    if !cursor.take_symbol(Symbol::OpenBracket) {
        return Ok(Vec::new(alloc));
    }
    cursor.expect_keyword(Keyword::Signal)?;
    let mut renamings = Vec::new(alloc);
    let first = renaming(cursor)?;
    renamings.push(first)?;
    'renamings: while cursor.take_symbol(Symbol::Comma) {
        let next = renaming(cursor)?;
        renamings.push(next)?;
    }
    cursor.expect_symbol(Symbol::CloseBracket)?;
    Ok(renamings)
}
