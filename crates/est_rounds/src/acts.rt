//! What a statement must do and what it can do, as sets of signals and of completion codes.

ghost use Rattle.std.specs.Prelude.{◌≡◌, ◌<◌, IsTrue, false};
ghost use Rattle.est_kernel.specs.CodeViews.{code_of, codes_of};
ghost use Rattle.est_kernel.specs.Term.{inner};
ghost use Rattle.est_meaning.specs.MustCan.{just_code, no_acts, either, together, acts_out_of_trap};
ghost use Rattle.est_meaning.specs.MustCan.{hide, local_status, may_stay, must_then, can_then};
ghost use Rattle.est_meaning.specs.MustCan.{sure};
ghost use Rattle.est_meaning.specs.Environments.{verdict};
ghost use Rattle.est_meaning.specs.Views.{set_of};
ghost use Rattle.est_rounds.specs.Views.{acts_of};

use est_kernel::code_set::CodeSet;
use est_kernel::completion::Completion;
use est_kernel::statement::LocalSignal;
use est_meaning::signal_set::{self, SignalSet};
use est_meaning::status::Status;

/// Signals that are emitted, and completion codes that are given.
#[derive(Clone, Copy)]
pub struct Acts {
    /// The signals.
    pub signals: SignalSet,
    /// The codes.
    pub codes: CodeSet,
}

impl Acts {
    /// This code alone, and no signal.
    pub fn just_code(completion: Completion) -> Acts
        requires { code_of completion < 64 }
        ensures { acts_of result ≡ just_code (code_of completion) }
    {
        Acts {
            signals: signal_set::no_signal(),
            codes: CodeSet::single(completion),
        }
    }

    /// No signal and no code.
    pub fn none() -> Acts
        ensures { acts_of result ≡ no_acts }
    {
        Acts {
            signals: signal_set::no_signal(),
            codes: CodeSet::empty(),
        }
    }

    /// The acts of either.
    pub fn or(self, other: Acts) -> Acts
        ensures { acts_of result ≡ either (acts_of self) (acts_of other) }
    {
        Acts {
            signals: signal_set::union_of(self.signals, other.signals),
            codes: self.codes.union(other.codes),
        }
    }

    /// The acts of both, side by side.
    pub fn beside(self, other: Acts) -> Acts
        ensures { acts_of result ≡ together (acts_of self) (acts_of other) }
    {
        Acts {
            signals: signal_set::union_of(self.signals, other.signals),
            codes: self.codes.greater_of_pairs(other.codes),
        }
    }

    /// The acts as they are seen outside a trap.
    pub fn out_of_trap(self) -> Acts
        ensures { acts_of result ≡ acts_out_of_trap (acts_of self) }
    {
        Acts {
            signals: self.signals,
            codes: self.codes.out_of_trap(),
        }
    }

    /// The acts as they are seen outside the binder of this local signal.
    pub fn hiding(self, s: LocalSignal) -> Acts
        requires { s.index < 64 }
        ensures { acts_of result ≡ hide s.index (acts_of self) }
    {
        Acts {
            signals: signal_set::all_but(s, self.signals),
            codes: self.codes,
        }
    }

    /// The same acts, or a pause.
    pub fn or_stays(self) -> Acts
        ensures { acts_of result ≡ may_stay (acts_of self) }
    {
        Acts {
            signals: self.signals,
            codes: self.codes.union(CodeSet::single(Completion::Pause)),
        }
    }

    /// A local signal's status, from what its body can do while nothing is known of the signal,
    /// where it is in doubt whether the body is reached.
    pub fn status_in_doubt(self, s: LocalSignal) -> Status
        requires { s.index < 64 }
        ensures { result ≡ verdict false (set_of self.signals (inner s.index)) }
    {
        signal_set::decide(false, signal_set::has_local(self.signals, s))
    }

    /// Whether code 0 is among the codes.
    pub fn has_end(self) -> bool
        ensures { result ≡ codes_of self.codes 0 }
    {
        self.codes.has(Completion::End)
    }

    /// What can be done in sequence, where the first part can end.
    pub fn can_then(self, next: Acts) -> Acts
        requires { IsTrue (codes_of self.codes 0) }
        ensures { acts_of result ≡ can_then (acts_of self) (acts_of next) }
    {
        Acts {
            signals: signal_set::union_of(self.signals, next.signals),
            codes: self.codes.without_zero().union(next.codes),
        }
    }

    /// What must be done in sequence, where the first part must end.
    pub fn must_then(self, next: Acts) -> Acts
        requires { IsTrue (codes_of self.codes 0) }
        ensures { acts_of result ≡ must_then (acts_of self) (acts_of next) }
    {
        Acts {
            signals: signal_set::union_of(self.signals, next.signals),
            codes: next.codes,
        }
    }
}

/// What must be done and what can be done.
#[derive(Clone, Copy)]
pub struct MustCan {
    /// What must be done.
    pub must: Acts,
    /// What can be done.
    pub can: Acts,
}

impl MustCan {
    /// What is done for sure.
    pub fn exactly(acts: Acts) -> MustCan
        ensures must { result.must ≡ acts }
        ensures can { result.can ≡ acts }
    {
        MustCan {
            must: acts,
            can: acts,
        }
    }

    /// What is judged of both, side by side.
    pub fn beside(self, other: MustCan) -> MustCan
        ensures must { acts_of result.must ≡ together (acts_of self.must) (acts_of other.must) }
        ensures can { acts_of result.can ≡ together (acts_of self.can) (acts_of other.can) }
    {
        MustCan {
            must: self.must.beside(other.must),
            can: self.can.beside(other.can),
        }
    }

    /// What is judged outside a trap.
    pub fn out_of_trap(self) -> MustCan
        ensures must { acts_of result.must ≡ acts_out_of_trap (acts_of self.must) }
        ensures can { acts_of result.can ≡ acts_out_of_trap (acts_of self.can) }
    {
        MustCan {
            must: self.must.out_of_trap(),
            can: self.can.out_of_trap(),
        }
    }

    /// A local signal's status, from what is judged of its body while nothing is known of the
    /// signal.
    pub fn status_of(self, s: LocalSignal) -> Status
        requires { s.index < 64 }
        ensures { result ≡ local_status sure s.index (acts_of self.must) (acts_of self.can) }
    {
        let must_be = signal_set::has_local(self.must.signals, s);
        signal_set::decide(must_be, signal_set::has_local(self.can.signals, s))
    }

    /// What is judged outside the binder of this local signal.
    pub fn hiding(self, s: LocalSignal) -> MustCan
        requires { s.index < 64 }
        ensures must { acts_of result.must ≡ hide s.index (acts_of self.must) }
        ensures can { acts_of result.can ≡ hide s.index (acts_of self.can) }
    {
        MustCan {
            must: self.must.hiding(s),
            can: self.can.hiding(s),
        }
    }
}
