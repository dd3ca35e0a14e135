//! The main module as a flat module: its interface and its relations, as the kernel has them, and
//! its body.
ghost use Rattle.std.specs.Prelude.{◌≡◌, ◌≤◌, ◌∷◌, [], None, IfOk, length, map};
ghost use Rattle.est_reduce.specs.Bound.{IsBound};
ghost use Rattle.est_reduce.specs.Views.{body_of};
ghost use Rattle.est_syntax.specs.Views.{relation_view};
ghost use Rattle.est_kernel.specs.declared.interface.TheConstants.{MOST_SIGNALS};
ghost use Rattle.est_relations.specs.declared.relations.TheConstants.{MOST_RELATIONS};
ghost use Rattle.est_link.specs.MainModule.{kernel_kind, declaration_of, declarations_of};
ghost use Rattle.est_link.specs.MainModule.{IsRelation, AreRelations, member_place};
ghost use Rattle.est_checks.specs.LawlessRelations.{first_over_outputs};
ghost use Rattle.est_modules.specs.Modules.{program_of};
ghost use Rattle.est_checks.specs.Duplicates.{redeclared};

use crate::signal_table::SignalTable;
use est_kernel::interface::{Declaration, Interface, Kind as KernelKind};
use est_modules::interface::{Declared, Kind};
use est_modules::library_modules::LibraryModule;
use est_modules::relations::relations_of;
use est_reduce::body::Body;
use est_reduce::flat::Flat;
use est_relations::relations::{Members, Relation, Relations};
use est_syntax::tree;
use est_text::identifier::Identifier;
use std::alloc::{AllocError, Global};

/// Input, output or both.
fn kernel_kind(kind: Kind) -> KernelKind
    ensures { result ≡ kernel_kind kind }
{
    match kind {
        Kind::Input => KernelKind::Input,
        Kind::Output => KernelKind::Output,
        Kind::InputOutput => KernelKind::InputOutput,
    }
}

/// A signal of an interface, as the kernel has it.
fn declaration_of(signal: &Declared) -> Declaration
    ensures { result ≡ declaration_of signal.now }
{
    Declaration {
        name: signal.name,
        kind: kernel_kind(signal.kind),
    }
}

/// The interface of the signals that a module declares, of which no two are of one name.
pub fn kernel_interface(alloc: Global, declared: &[Declared]) -> Result<Interface, AllocError>
    requires room { length declared.now ≤ MOST_SIGNALS }
    requires distinct { redeclared [] (map (λ d. d.name) declared.now) ≡ None }
    ensures { IfOk result (λ i. i ≡ map declaration_of declared.now) }
{
    let mut interface = Interface::new(alloc);
    for signal in declared {
        interface.declare(declaration_of(signal))?;
    }
    Ok(interface)
}

/// The members of an exclusion.
fn members(
    alloc: Global,
    signals: &SignalTable<'_>,
    first: &Identifier,
    second: &Identifier,
    later: &[Identifier],
) -> Result<Members, AllocError>
    ensures { IfOk result (λ m. m ≡ map (member_place signals.now) (first.now ∷ second.now ∷
        later.now)) }
{
    let mut members = Members::new(alloc);
    members.push(signals.find(first))?;
    members.push(signals.find(second))?;
    for name in later {
        members.push(signals.find(name))?;
    }
    Ok(members)
}

/// A relation, its members by their places in the interface.
fn kernel_relation(
    alloc: Global,
    signals: &SignalTable<'_>,
    relation: &tree::Relation,
) -> Result<Relation, AllocError>
    ensures { IfOk result (λ r. IsRelation signals.now (relation_view relation.now) r) }
{
    match relation {
        tree::Relation::Excludes(first, second, later) => {
            Ok(Relation::Exclusion(members(alloc, signals, first, second, later)?))
        }
        tree::Relation::Implies(first, second) => {
            Ok(Relation::Implication(signals.find(first), signals.find(second)))
        }
    }
}

/// The relations that are written, over a table of signals.
fn relations_over(
    alloc: Global,
    signals: &SignalTable<'_>,
    relations: &[&tree::Relation],
) -> Result<Relations, AllocError>
    requires { length relations.now ≤ MOST_RELATIONS }
    ensures { IfOk result (λ rs. AreRelations signals.now (map (λ r. relation_view r.now)
        relations.now) rs) }
{
    let mut made = Relations::new(alloc);
    for relation in relations {
        made.push(kernel_relation(alloc, signals, relation)?)?;
    }
    Ok(made)
}

/// The relations that are written, over the signals of an interface.
fn kernel_relations(
    alloc: Global,
    interface: &Interface,
    relations: &[&tree::Relation],
) -> Result<Relations, AllocError>
    requires { length relations.now ≤ MOST_RELATIONS }
    ensures { IfOk result (λ rs. AreRelations interface.now (map (λ r. relation_view r.now)
        relations.now) rs) }
{
    let signals = SignalTable::of_interface(alloc, interface)?;
    relations_over(alloc, &signals, relations)
}

/// The interface and the relations of a module, as the kernel has them.
fn kernel_declarations(
    alloc: Global,
    home: &LibraryModule<'_>,
) -> Result<(Interface, Relations), AllocError>
    requires signals { length (program_of home.now).interface ≤ MOST_SIGNALS }
    requires relations { length (program_of home.now).relations ≤ MOST_RELATIONS }
    requires distinct { redeclared [] (map (λ d. d.name) (program_of home.now).interface) ≡ None }
    ensures interface { IfOk result (λ d. d.0 ≡ declarations_of (program_of home.now)) }
    ensures relations { IfOk result (λ d. AreRelations (declarations_of (program_of home.now))
        (program_of home.now).relations d.1) }
{
    let interface = kernel_interface(alloc, home.interface.signals())?;
    let listed = relations_of(alloc, home.declarations)?;
    let relations = kernel_relations(alloc, &interface, &listed)?;
    Ok((interface, relations))
}

/// The flat module of a module whose body is flat, which passes no limit and is not at fault.
///
/// # Errors
///
/// `AllocError` where memory is refused.
pub fn main_module(alloc: Global, home: &LibraryModule<'_>, body: Body) -> Result<Flat, AllocError>
    requires signals { length (program_of home.now).interface ≤ MOST_SIGNALS }
    requires relations { length (program_of home.now).relations ≤ MOST_RELATIONS }
    requires distinct { redeclared [] (map (λ d. d.name) (program_of home.now).interface) ≡ None }
    requires lawful { first_over_outputs (program_of home.now) ≡ None }
    requires bound { IsBound (declarations_of (program_of home.now)) 0 0 (body_of body) }
    ensures interface { IfOk result (λ f. f.interface ≡ declarations_of (program_of home.now)) }
    ensures relations { IfOk result (λ f. AreRelations (declarations_of (program_of home.now))
        (program_of home.now).relations f.relations) }
    ensures body { IfOk result (λ f. body_of f.body ≡ body_of body) }
{
    match kernel_declarations(alloc, home) {
        Ok((interface, relations)) => Ok(Flat {
            interface,
            relations,
            body,
        }),
        Err(error) => {
            // Dropped by a call: at the end of the scope the prover would write out here what is
            // dropped in each case of a body (docs/GATE.md, "What costs").
            drop(body);
            Err(error)
        }
    }
}
