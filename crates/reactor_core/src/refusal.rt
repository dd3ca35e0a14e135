//! What a reactor refuses, with the number and the name of each refusal of a module.
ghost use Rattle.std.specs.Prelude.{◌≡◌};
ghost use Rattle.reactor_core.specs.Refusals.{code_of, name_of, limit_text};

use est_checks::fault::{LinkFault, ModuleLimit};
use est_kernel::limits::Limit as KernelLimit;
use est_reduce::fault::ReduceFault;
use est_relations::refusal::PendingRefusal;
use est_syntax::parse::ParseFault;
use est_text::identifier::Identifier;
use est_text::lex::LexFault;
use est_text::place::Place;
use std::alloc::AllocError;

/// A limit of a module's size.
#[derive(Clone, Copy, PartialEq, Eq)]
pub enum LoadLimit {
    /// Open units around a unit of the text.
    Nesting,
    /// Signals of the interface.
    Signals,
    /// Relations of the main module.
    Relations,
    /// Statements of the module once its runs are replaced, or of its kernel.
    Statements,
    /// Nested loops of the kernel.
    Loops,
    /// Nested traps of the kernel.
    Traps,
    /// Nested local signals of the kernel.
    Locals,
}

impl From<KernelLimit> for LoadLimit {
    ghost use Rattle.std.specs.Prelude.{◌≡◌};
    ghost use Rattle.reactor_core.specs.Faults.{limit_of_kernel};

    ghost from_gives = { λ limit r. r ≡ limit_of_kernel limit };

    fn from(limit: KernelLimit) -> LoadLimit {
        match limit {
            KernelLimit::Statements => LoadLimit::Statements,
            KernelLimit::Loops => LoadLimit::Loops,
            KernelLimit::Traps => LoadLimit::Traps,
            KernelLimit::Locals => LoadLimit::Locals,
        }
    }
}

impl From<ModuleLimit> for LoadLimit {
    ghost use Rattle.std.specs.Prelude.{◌≡◌};
    ghost use Rattle.reactor_core.specs.Faults.{limit_of_link};

    ghost from_gives = { λ limit r. r ≡ limit_of_link limit };

    fn from(limit: ModuleLimit) -> LoadLimit {
        match limit {
            ModuleLimit::Signals => LoadLimit::Signals,
            ModuleLimit::Relations => LoadLimit::Relations,
            ModuleLimit::Statements => LoadLimit::Statements,
        }
    }
}

/// The word that a refusal uses for a limit.
pub fn limit_text(limit: &LoadLimit) -> &'static str
    ensures { result.now ≡ limit_text limit.now }
{
    match limit {
        LoadLimit::Nesting => "nesting",
        LoadLimit::Signals => "signals",
        LoadLimit::Relations => "relations",
        LoadLimit::Statements => "statements",
        LoadLimit::Loops => "loops",
        LoadLimit::Traps => "traps",
        LoadLimit::Locals => "locals",
    }
}

/// Why a module refuses a command. Relations are numbered from 1, in the order of the text.
#[derive(Clone, Copy, PartialEq, Eq)]
pub enum ModuleRefusal {
    /// The pending inputs don't take the input, or the next instant doesn't take them.
    Pending(PendingRefusal),
    /// There is no instant of this number.
    NoInstant,
    /// The first place where no blank, comment or token can stand.
    Lexical(Place),
    /// The first token with which the tokens so far begin no library.
    Syntax(Place),
    /// The name of the main module is no identifier, so no module has it.
    MisnamedMain,
    /// The main module, or one that is run, isn't there.
    UnknownModule(Identifier),
    /// A chain of runs leads from this module back to it.
    RecursiveRun(Identifier),
    /// No signal, or no trap, of this name is visible.
    UnknownName(Identifier),
    /// The name is declared twice.
    DuplicateName(Identifier),
    /// An input, or `tick`, is emitted.
    EmitInput(Identifier),
    /// A renaming names no interface signal of the module that is run, or one that another of its
    /// list names too.
    BadRename(Identifier),
    /// The body of a loop can end in the instant in which it begins.
    InstantLoop,
    /// The text is beyond this limit.
    TooLarge(LoadLimit),
    /// The main module's relation of this number has a member that is neither an input nor an
    /// inputoutput.
    Semantics(usize),
}

impl ModuleRefusal {
    /// Its number and its name.
    pub fn label(&self) -> (u8, &'static str)
        ensures code { result.0 ≡ code_of self.now }
        ensures name { result.1.now ≡ name_of self.now }
    {
        match self {
            ModuleRefusal::Pending(refusal) => refusal.label(),
            ModuleRefusal::NoInstant => (66, "NoInstant"),
            ModuleRefusal::Lexical(_) => (70, "Lexical"),
            ModuleRefusal::Syntax(_) => (71, "Syntax"),
            ModuleRefusal::MisnamedMain => (72, "UnknownModule"),
            ModuleRefusal::UnknownModule(_) => (72, "UnknownModule"),
            ModuleRefusal::RecursiveRun(_) => (73, "RecursiveRun"),
            ModuleRefusal::UnknownName(_) => (74, "UnknownName"),
            ModuleRefusal::DuplicateName(_) => (75, "DuplicateName"),
            ModuleRefusal::EmitInput(_) => (76, "EmitInput"),
            ModuleRefusal::BadRename(_) => (77, "BadRename"),
            ModuleRefusal::InstantLoop => (78, "InstantLoop"),
            ModuleRefusal::TooLarge(_) => (79, "TooLarge"),
            ModuleRefusal::Semantics(_) => (80, "Semantics"),
        }
    }
}

/// Why a command on a module was refused.
#[derive(Clone, Copy, PartialEq, Eq)]
pub enum ReactorRefusal {
    /// The module refuses it.
    Module(ModuleRefusal),
    /// The journal has as many entries as it may have.
    JournalFull,
    /// Memory was refused.
    Memory,
}

impl From<AllocError> for ReactorRefusal {
    ghost use Rattle.std.specs.Prelude.{◌≡◌};
    ghost use Rattle.reactor_core.specs.declared.refusal.ReactorRefusal.TheVariants.{Memory};

    ghost from_gives = { λ _ r. r ≡ Memory };

    fn from(_error: AllocError) -> ReactorRefusal {
        ReactorRefusal::Memory
    }
}

impl From<LexFault> for ReactorRefusal {
    ghost use Rattle.std.specs.Prelude.{◌≡◌};
    ghost use Rattle.reactor_core.specs.Faults.{refusal_of_lex};

    ghost from_gives = { λ fault r. r ≡ refusal_of_lex fault };

    fn from(fault: LexFault) -> ReactorRefusal {
        match fault {
            LexFault::Lexical(place) => ReactorRefusal::Module(ModuleRefusal::Lexical(place)),
            LexFault::Memory => ReactorRefusal::Memory,
        }
    }
}

impl From<ParseFault> for ReactorRefusal {
    ghost use Rattle.std.specs.Prelude.{◌≡◌};
    ghost use Rattle.reactor_core.specs.Faults.{refusal_of_parse};

    ghost from_gives = { λ fault r. r ≡ refusal_of_parse fault };

    fn from(fault: ParseFault) -> ReactorRefusal {
        match fault {
            ParseFault::Syntax(place) => ReactorRefusal::Module(ModuleRefusal::Syntax(place)),
            ParseFault::TooLarge(_) => ReactorRefusal::Module(ModuleRefusal::TooLarge(
                LoadLimit::Nesting,
            )),
            ParseFault::Memory => ReactorRefusal::Memory,
        }
    }
}

impl From<LinkFault> for ReactorRefusal {
    ghost use Rattle.std.specs.Prelude.{◌≡◌};
    ghost use Rattle.reactor_core.specs.Faults.{refusal_of_link};

    ghost from_gives = { λ fault r. r ≡ refusal_of_link fault };

    fn from(fault: LinkFault) -> ReactorRefusal {
        match fault {
            LinkFault::DuplicateName(name) => ReactorRefusal::Module(ModuleRefusal::DuplicateName(
                name,
            )),
            LinkFault::MisnamedMain => ReactorRefusal::Module(ModuleRefusal::MisnamedMain),
            LinkFault::UnknownModule(name) => ReactorRefusal::Module(ModuleRefusal::UnknownModule(
                name,
            )),
            LinkFault::RecursiveRun(name) => ReactorRefusal::Module(ModuleRefusal::RecursiveRun(
                name,
            )),
            LinkFault::BadRename(name) => ReactorRefusal::Module(ModuleRefusal::BadRename(name)),
            LinkFault::UnknownName(name) => ReactorRefusal::Module(ModuleRefusal::UnknownName(
                name,
            )),
            LinkFault::EmitInput(name) => ReactorRefusal::Module(ModuleRefusal::EmitInput(name)),
            LinkFault::Semantics(relation) => ReactorRefusal::Module(ModuleRefusal::Semantics(
                relation,
            )),
            LinkFault::TooLarge(limit) => ReactorRefusal::Module(ModuleRefusal::TooLarge(
                LoadLimit::from(limit),
            )),
            LinkFault::Memory => ReactorRefusal::Memory,
        }
    }
}

impl From<ReduceFault> for ReactorRefusal {
    ghost use Rattle.std.specs.Prelude.{◌≡◌};
    ghost use Rattle.reactor_core.specs.Faults.{refusal_of_reduce};

    ghost from_gives = { λ fault r. r ≡ refusal_of_reduce fault };

    fn from(fault: ReduceFault) -> ReactorRefusal {
        match fault {
            ReduceFault::TooLarge(limit) => ReactorRefusal::Module(ModuleRefusal::TooLarge(
                LoadLimit::from(limit),
            )),
            ReduceFault::InstantLoop => ReactorRefusal::Module(ModuleRefusal::InstantLoop),
            ReduceFault::Memory => ReactorRefusal::Memory,
        }
    }
}

impl From<PendingRefusal> for ReactorRefusal {
    ghost use Rattle.std.specs.Prelude.{◌≡◌};
    ghost use Rattle.reactor_core.specs.Faults.{refusal_of_pending};

    ghost from_gives = { λ refusal r. r ≡ refusal_of_pending refusal };

    fn from(refusal: PendingRefusal) -> ReactorRefusal {
        ReactorRefusal::Module(ModuleRefusal::Pending(refusal))
    }
}
