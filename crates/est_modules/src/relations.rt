//! The signals of a module that may be offered, and its relations.
ghost use Rattle.std.specs.Prelude.{◌≡◌, ◌∷◌, ◌++◌, map, ◌+◌, OnOk, IfOk};
ghost use Rattle.est_syntax.specs.Views.{relation_view, declaration_view};
ghost use Rattle.est_modules.specs.Modules.{is_input_kind, is_offered_kind, related_by};
ghost use Rattle.est_modules.specs.Modules.{relations_of};

use crate::interface::Kind;
use est_syntax::tree::{Declaration, Relation};
use std::alloc::{AllocError, Global};

/// Whether it is that of an input alone, which may not be emitted.
pub fn is_input_kind(kind: Kind) -> bool
    ensures { result ≡ is_input_kind kind }
{
    match kind {
        Kind::Input => true,
        Kind::Output | Kind::InputOutput => false,
    }
}

/// Whether it is that of a signal that may be offered.
pub fn is_offered_kind(kind: Kind) -> bool
    ensures { result ≡ is_offered_kind kind }
{
    match kind {
        Kind::Input | Kind::InputOutput => true,
        Kind::Output => false,
    }
}

/// Adds the relations of a list.
fn add_listed<'a>(
    relations: &mut Vec<&'a Relation>,
    first: &'a Relation,
    later: &'a [Relation],
) -> Result<(), AllocError>
    ensures { OnOk result (map (λ r. relation_view r.now) relations.new.items
        ≡ map (λ r. relation_view r.now) relations.old.items ++ relation_view first.now ∷ map
        relation_view later.now) }
{
    relations.push(&*first)?;
    for relation in later {
        relations.push(&*relation)?;
    }
    Ok(())
}

/// Adds the relations of a declaration.
fn add_relations<'a>(
    relations: &mut Vec<&'a Relation>,
    declaration: &'a Declaration,
) -> Result<(), AllocError>
    ensures { OnOk result (map (λ r. relation_view r.now) relations.new.items
        ≡ map (λ r. relation_view r.now) relations.old.items ++ related_by
        (declaration_view declaration.now)) }
{
    match declaration {
        Declaration::Input(_) | Declaration::Output(_) | Declaration::InputOutput(_) => Ok(()),
        Declaration::Relations(first, later) => add_listed(relations, &*first, &**later),
    }
}

/// The relations of declarations, in the order of the text.
pub fn relations_of<'a>(
    alloc: Global,
    declarations: &'a [Declaration],
) -> Result<Vec<&'a Relation>, AllocError>
    ensures { IfOk result (λ relations. map (λ r. relation_view r.now) relations.items
        ≡ relations_of (map declaration_view declarations.now)) }
{
    let mut relations = Vec::new(alloc);
    for declaration in declarations {
        add_relations(&mut relations, &*declaration)?;
    }
    Ok(relations)
}
