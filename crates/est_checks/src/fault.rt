//! Why a library can't be loaded, by its checks, all of which come before any run is replaced.
use est_text::identifier::Identifier;
use std::alloc::AllocError;

/// What a main module has too many of.
#[derive(Clone, Copy, PartialEq, Eq, Debug)]
pub enum ModuleLimit {
    /// Interface signals, over 64.
    Signals,
    /// Relations, over 32.
    Relations,
    /// Statements once its runs are replaced, over `MOST_STATEMENTS`.
    Statements,
}

/// The first fault of a library. A name is that of the signal, trap or module that is at fault.
#[derive(Clone, Copy, PartialEq, Eq, Debug)]
pub enum LinkFault {
    /// A module of a name that another has before it; a signal that is declared a second time, or
    /// is `tick`.
    DuplicateName(Identifier),
    /// The name of the main module is no identifier, so no module has it.
    MisnamedMain,
    /// The main module, or one that is run, isn't there.
    UnknownModule(Identifier),
    /// A chain of runs leads from this module back to it.
    RecursiveRun(Identifier),
    /// A renaming names no interface signal of the module that is run, or one that another of its
    /// list names too.
    BadRename(Identifier),
    /// No signal, or no trap, of this name is visible.
    UnknownName(Identifier),
    /// An input, or `tick`, is emitted, by a statement or by a module that is run.
    EmitInput(Identifier),
    /// The relation of this number, from 1 in the order of the text, has a member that is neither
    /// an input nor an inputoutput of the main module.
    Semantics(usize),
    /// The main module passes this limit, the first of those that it passes.
    TooLarge(ModuleLimit),
    /// Memory was refused.
    Memory,
}

impl From<AllocError> for LinkFault {
    ghost use Rattle.std.specs.Prelude.{◌≡◌};
    ghost use Rattle.est_checks.specs.declared.fault.LinkFault.TheVariants.{Memory};

    ghost from_gives = { λ _ fault. fault ≡ Memory };

    fn from(_error: AllocError) -> LinkFault {
        LinkFault::Memory
    }
}
