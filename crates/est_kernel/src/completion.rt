//! How a statement completes in an instant.

ghost use Rattle.std.specs.Prelude.{◌≡◌, max, nat_eq};
ghost use Rattle.est_kernel.specs.Codes.{code_out_of_trap};
ghost use Rattle.est_kernel.specs.CodeViews.{code_of};

use crate::statement::TrapIndex;

/// How a statement completes in an instant. A contract sees its code.
#[derive(Clone, Copy, PartialEq, Eq)]
pub enum Completion {
    /// It ends: code 0.
    End,
    /// It pauses: code 1.
    Pause,
    /// It exits the trap that lies k traps further out: code k + 2.
    Exit(TrapIndex),
}

impl Completion {
    /// Whether it is an end.
    pub fn is_end(self) -> bool
        ensures { result ≡ nat_eq (code_of self) 0 }
    {
        match self {
            Completion::End => true,
            Completion::Pause | Completion::Exit(_) => false,
        }
    }

    /// Whether it is a pause.
    pub fn is_pause(self) -> bool
        ensures { result ≡ nat_eq (code_of self) 1 }
    {
        match self {
            Completion::Pause => true,
            Completion::End | Completion::Exit(_) => false,
        }
    }

    /// The one with the greater code.
    pub fn greater(self, other: Completion) -> Completion
        ensures { code_of result ≡ max (code_of self) (code_of other) }
    {
        match self {
            Completion::End => other,
            Completion::Pause => match other {
                Completion::End | Completion::Pause => Completion::Pause,
                Completion::Exit(right) => Completion::Exit(right),
            },
            Completion::Exit(left) => match other {
                Completion::End | Completion::Pause => Completion::Exit(left),
                Completion::Exit(right) => Completion::Exit(TrapIndex {
                    index: left.index.max(right.index),
                }),
            },
        }
    }

    /// The same as it is seen outside a trap: the trap's own exit ends it, the exit of an outer
    /// trap is one trap nearer.
    pub fn out_of_trap(self) -> Completion
        ensures { code_of result ≡ code_out_of_trap (code_of self) }
    {
        match self {
            Completion::End => Completion::End,
            Completion::Pause => Completion::Pause,
            Completion::Exit(trap) => {
                if trap.index == 0 {
                    Completion::End
                } else {
                    Completion::Exit(TrapIndex {
                        index: trap.index - 1,
                    })
                }
            }
        }
    }
}
