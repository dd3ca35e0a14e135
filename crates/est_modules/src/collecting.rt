//! The modules of a library with their interfaces at hand.
ghost use Rattle.std.specs.Prelude.{◌≡◌, ◌∷◌, [], ◌++◌, OnOk, IfOk, map};
ghost use Rattle.est_syntax.specs.Views.{names_view, declaration_view, module_view, library_view};
ghost use Rattle.est_modules.specs.FirstPlaces.{AreFirstPlaces};
ghost use Rattle.est_modules.specs.Modules.{with_kind, declared_by, interface_of, program_of};
ghost use Rattle.est_modules.specs.Modules.{module_program, programs_of};

use crate::interface::{Declared, Interface, Kind};
use crate::library_modules::{LibraryModule, LibraryModules};
use crate::names::table::FirstPlaces;
use est_syntax::tree::{Declaration, Library, Module, Names};
use est_text::identifier::Identifier;
use std::alloc::{AllocError, Global};

/// Adds a signal.
fn add_signal<'a>(
    declared: &mut Vec<Declared>,
    places: &mut FirstPlaces<'a>,
    kind: Kind,
    name: &'a Identifier,
) -> Result<(), AllocError>
    requires { AreFirstPlaces places.old (map (λ d. d.name) declared.old.items) }
    ensures places { OnOk result (AreFirstPlaces places.new (map (λ d. d.name)
        declared.new.items)) }
    ensures declared { OnOk result (declared.new.items ≡ declared.old.items
        ++ record { name = name.now; kind = kind } ∷ []) }
{
    places.add(name, declared.len())?;
    declared.push(Declared { name: *name, kind })?;
    Ok(())
}

/// Adds the names of one declaration, all of one kind.
fn add_names<'a>(
    declared: &mut Vec<Declared>,
    places: &mut FirstPlaces<'a>,
    kind: Kind,
    names: &'a Names,
) -> Result<(), AllocError>
    requires { AreFirstPlaces places.old (map (λ d. d.name) declared.old.items) }
    ensures places { OnOk result (AreFirstPlaces places.new (map (λ d. d.name)
        declared.new.items)) }
    ensures declared { OnOk result (declared.new.items ≡ declared.old.items ++ with_kind kind
        (names_view names.now)) }
{
    add_signal(declared, places, kind, &names.first)?;
    for name in &names.later {
        add_signal(declared, places, kind, name)?;
    }
    Ok(())
}

/// Adds the signals that a declaration declares.
fn add_signals<'a>(
    declared: &mut Vec<Declared>,
    places: &mut FirstPlaces<'a>,
    declaration: &'a Declaration,
) -> Result<(), AllocError>
    requires { AreFirstPlaces places.old (map (λ d. d.name) declared.old.items) }
    ensures places { OnOk result (AreFirstPlaces places.new (map (λ d. d.name)
        declared.new.items)) }
    ensures declared { OnOk result (declared.new.items ≡ declared.old.items ++ declared_by
        (declaration_view declaration.now)) }
{
    match declaration {
        Declaration::Input(names) => add_names(declared, places, Kind::Input, names),
        Declaration::Output(names) => add_names(declared, places, Kind::Output, names),
        Declaration::InputOutput(names) => add_names(declared, places, Kind::InputOutput, names),
        Declaration::Relations(_, _) => Ok(()),
    }
}

/// The interface signals of declarations, in the order of the text.
fn interface_of<'a>(
    alloc: Global,
    declarations: &'a [Declaration],
) -> Result<Interface<'a>, AllocError>
    ensures { IfOk result (λ interface. interface ≡ interface_of (map declaration_view
        declarations.now)) }
{
    let mut declared = Vec::new(alloc);
    let mut places = FirstPlaces::new(alloc);
    for declaration in declarations {
        add_signals(&mut declared, &mut places, declaration)?;
    }
    Ok(Interface::of(declared, places))
}

/// A module with its interface at hand.
fn library_module<'a>(alloc: Global, declared: &'a Module) -> Result<LibraryModule<'a>, AllocError>
    ensures { IfOk result (λ made. program_of made ≡ module_program (module_view declared.now)) }
{
    Ok(LibraryModule {
        name: declared.name,
        interface: interface_of(alloc, &declared.declarations)?,
        declarations: &declared.declarations,
        body: &declared.body,
    })
}

/// Adds a module.
fn add_module<'a>(
    modules: &mut Vec<LibraryModule<'a>>,
    places: &mut FirstPlaces<'a>,
    alloc: Global,
    declared: &'a Module,
) -> Result<(), AllocError>
    requires { AreFirstPlaces places.old (map (λ h. h.name) modules.old.items) }
    ensures places { OnOk result (AreFirstPlaces places.new (map (λ h. h.name) modules.new.items)) }
    ensures modules { OnOk result (map program_of modules.new.items
        ≡ map program_of modules.old.items ++ module_program (module_view declared.now) ∷ []) }
{
    places.add(&declared.name, modules.len())?;
    modules.push(library_module(alloc, declared)?)?;
    Ok(())
}

/// The modules of a library, in the order of the text.
///
/// # Errors
///
/// `AllocError` where memory is refused.
pub fn collect_modules<'a>(
    alloc: Global,
    library: &'a Library,
) -> Result<LibraryModules<'a>, AllocError>
    ensures { IfOk result (λ modules. map program_of modules ≡ programs_of (library_view
        library.now)) }
{
    let mut modules = Vec::new(alloc);
    let mut places = FirstPlaces::new(alloc);
    add_module(&mut modules, &mut places, alloc, &library.first)?;
    for later in &library.later {
        add_module(&mut modules, &mut places, alloc, &*later)?;
    }
    Ok(LibraryModules::of(modules, places))
}
