//! Declarations at the head of a module.
ghost use Rattle.std.specs.Prelude.{◌≡◌, ◌≤◌, ◌<◌, ◌∷◌, [], List, length, IfOk, IfErr, MatchOption};
ghost use Rattle.std.specs.Prelude.{map};
ghost use Rattle.est_syntax.specs.Grammar.{later_members_onto, relation_onto, later_relations_onto};
ghost use Rattle.est_syntax.specs.Grammar.{declaration_onto, declarations_onto};
ghost use Rattle.est_syntax.specs.Views.{relation_view, declaration_view};
ghost use Rattle.est_syntax.specs.Inner.Machine.{later_members as later_members_want};
ghost use Rattle.est_syntax.specs.Inner.Machine.{relation as relation_want};
ghost use Rattle.est_syntax.specs.Inner.Machine.{later_relations as later_relations_want};
ghost use Rattle.est_syntax.specs.Inner.Machine.{declarations as declarations_want};
ghost use Rattle.est_syntax.specs.Inner.Parsing.{Fails, Reads, IsDeclared};

use crate::cursor::Cursor;
use crate::fault::ParserStop;
use crate::names::names;
use crate::tree::{Declaration, Relation};
use est_text::identifier::Identifier;
use est_text::keyword::Keyword;
use est_text::token::Symbol;
use std::alloc::Global;

/// The further members of a relation, each after a `#`.
fn later_members(alloc: Global, cursor: &mut Cursor) -> Result<Vec<Identifier>, ParserStop>
    ensures spelt { IfOk result (λ ns. cursor.old ≡ later_members_onto ns.items cursor.new) }
    ensures reads { IfOk result (λ _. Reads (later_members_want ∷ []) cursor.old cursor.new) }
    ensures err { IfErr result (λ e. Fails (later_members_want ∷ []) cursor.old e) }
{
    let mut members = Vec::new(alloc);
    'members: while cursor.take_symbol(Symbol::Hash) {
        let name = cursor.expect_name()?;
        members.push(name)?;
    }
    Ok(members)
}

/// One relation.
fn relation(alloc: Global, cursor: &mut Cursor) -> Result<Relation, ParserStop>
    ensures spelt { IfOk result (λ r. cursor.old ≡ relation_onto (relation_view r) cursor.new) }
    ensures reads { IfOk result (λ _. Reads (relation_want ∷ []) cursor.old cursor.new) }
    ensures err { IfErr result (λ e. Fails (relation_want ∷ []) cursor.old e) }
{
    let first = cursor.expect_name()?;
    if cursor.take_symbol(Symbol::Implies) {
        let second = cursor.expect_name()?;
        return Ok(Relation::Implies(first, second));
    }
    cursor.expect_symbol(Symbol::Hash)?;
    let second = cursor.expect_name()?;
    let later = later_members(alloc, cursor)?;
    Ok(Relation::Excludes(first, second, later))
}

/// The further relations, each after a comma.
fn later_relations(alloc: Global, cursor: &mut Cursor) -> Result<Vec<Relation>, ParserStop>
    ensures spelt { IfOk result
        (λ rs. cursor.old ≡ later_relations_onto (map relation_view rs.items) cursor.new) }
    ensures reads { IfOk result (λ _. Reads (later_relations_want ∷ []) cursor.old cursor.new) }
    ensures err { IfErr result (λ e. Fails (later_relations_want ∷ []) cursor.old e) }
{
    let mut relations = Vec::new(alloc);
    'relations: while cursor.take_symbol(Symbol::Comma) {
        let next = relation(alloc, cursor)?;
        relations.push(next)?;
    }
    Ok(relations)
}

/// One declaration, if one begins there.
fn declaration(alloc: Global, cursor: &mut Cursor) -> Result<Option<Declaration>, ParserStop>
    ensures ok { IfOk result (λ d. IsDeclared d cursor.old cursor.new) }
    ensures err { IfErr result (λ e. Fails (declarations_want ∷ []) cursor.old e) }
{
    if cursor.take_keyword(Keyword::Input) {
        let names = names(alloc, cursor)?;
        cursor.expect_symbol(Symbol::Semicolon)?;
        return Ok(Some(Declaration::Input(names)));
    }
    if cursor.take_keyword(Keyword::Output) {
        let names = names(alloc, cursor)?;
        cursor.expect_symbol(Symbol::Semicolon)?;
        return Ok(Some(Declaration::Output(names)));
    }
    if cursor.take_keyword(Keyword::Inputoutput) {
        let names = names(alloc, cursor)?;
        cursor.expect_symbol(Symbol::Semicolon)?;
        return Ok(Some(Declaration::InputOutput(names)));
    }
    if cursor.take_keyword(Keyword::Relation) {
        let first = relation(alloc, cursor)?;
        let later = later_relations(alloc, cursor)?;
        cursor.expect_symbol(Symbol::Semicolon)?;
        return Ok(Some(Declaration::Relations(first, later)));
    }
    Ok(None)
}

/// The declarations of a module, in the order of the text.
pub fn declarations(alloc: Global, cursor: &mut Cursor) -> Result<Vec<Declaration>, ParserStop>
    ensures spelt { IfOk result
        (λ ds. cursor.old ≡ declarations_onto (map declaration_view ds.items) cursor.new) }
    ensures reads { IfOk result (λ _. Reads (declarations_want ∷ []) cursor.old cursor.new) }
    ensures err { IfErr result (λ e. Fails (declarations_want ∷ []) cursor.old e) }
{
    let mut declarations = Vec::new(alloc);
    'declarations: while let Some(next) = declaration(alloc, cursor)? {
        declarations.push(next)?;
    }
    Ok(declarations)
}
