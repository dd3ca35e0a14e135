//! Why a function of the parser stops.
use std::alloc::{AllocError, AllocFailed};

/// Why tokens are not a library.
#[derive(Clone, Copy, PartialEq, Eq)]
pub enum ParserStop {
    /// How many tokens are left from the first one that cannot stand there.
    Syntax(usize),
    /// How many tokens are left from the one that opens a unit too many.
    TooDeep(usize),
    /// Memory was refused.
    Memory,
}

impl From<AllocError> for ParserStop {
    ghost use Rattle.std.specs.Prelude.{◌≡◌};
    ghost use Rattle.est_syntax.specs.declared.fault.ParserStop.TheVariants.{Memory};

    ghost from_gives = { λ _ e. e ≡ Memory };

    fn from(_e: AllocError) -> ParserStop {
        ParserStop::Memory
    }
}

impl<T: Drop> From<AllocFailed<T>> for ParserStop {
    ghost use Rattle.std.specs.Prelude.{◌≡◌};
    ghost use Rattle.est_syntax.specs.declared.fault.ParserStop.TheVariants.{Memory};

    ghost from_gives = { λ _ e. e ≡ Memory };

    fn from(_e: AllocFailed<T>) -> ParserStop {
        ParserStop::Memory
    }
}
