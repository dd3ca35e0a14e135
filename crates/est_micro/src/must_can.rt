//! What is judged of a statement, put together from what is judged of its parts.
ghost use Rattle.std.specs.Prelude.{◌≡◌, ◌<◌, ◌||◌, ◌&&◌, ℕ};
ghost use Rattle.est_kernel.specs.Bits.{bits};
ghost use Rattle.est_kernel.specs.CodeViews.{code_of, codes_of};
ghost use Rattle.est_kernel.specs.Masks.{HasSignalBit};
ghost use Rattle.est_kernel.specs.View.{name_of};
ghost use Rattle.est_kernel.specs.Codes.{either_code, max_codes, codes_out_of_trap};
ghost use Rattle.est_kernel.specs.Term.{inner};
ghost use Rattle.est_meaning.specs.Signals.{no_signals, union, without};
ghost use Rattle.est_meaning.specs.Environments.{verdict};
ghost use Rattle.est_meaning.specs.Views.{env_of, set_of};
ghost use Rattle.est_cells.specs.Gates.{sure_code, may_code, then_codes};
ghost use Rattle.est_cells.specs.Tables.{if_run, is_sure, is_possible};
ghost use Rattle.est_micro.specs.Sweeps.{told};
ghost use Rattle.est_micro.specs.Inner.Views.{IsJudged, IsPaired};

use crate::cells::{is_true, may_be_true};
use est_kernel::code_set::CodeSet;
use est_kernel::completion::Completion;
use est_kernel::mask;
use est_kernel::statement::{LocalSignal, Signal};
use est_meaning::signal_set::{self, Env, SignalSet};
use est_meaning::status::Status;
use est_rounds::acts::{Acts, MustCan};

/// This code alone, where the statement is run.
fn sure_of(run: Status, completion: Completion) -> CodeSet
    requires { code_of completion < 64 }
    ensures { codes_of result ≡ sure_code run (code_of completion) }
{
    match run {
        Status::Present => CodeSet::single(completion),
        Status::Absent | Status::Unknown => CodeSet::empty(),
    }
}

/// This code alone, where the statement is possibly run.
fn possible_of(run: Status, completion: Completion) -> CodeSet
    requires { code_of completion < 64 }
    ensures { codes_of result ≡ may_code run (code_of completion) }
{
    match run {
        Status::Absent => CodeSet::empty(),
        Status::Present | Status::Unknown => CodeSet::single(completion),
    }
}

/// What is judged of a statement that gives this code where it is run.
pub fn leaf(run: Status, completion: Completion) -> MustCan
    requires { code_of completion < 64 }
    ensures { IsJudged (sure_code run (code_of completion))
        (may_code run (code_of completion)) no_signals no_signals result }
{
    MustCan {
        must: Acts {
            signals: signal_set::no_signal(),
            codes: sure_of(run, completion),
        },
        can: Acts {
            signals: signal_set::no_signal(),
            codes: possible_of(run, completion),
        },
    }
}

/// The signal, if it is to be emitted.
pub fn signal_if(is_in: bool, signal: Signal) -> SignalSet
    requires { HasSignalBit signal }
    ensures { set_of result ≡ if_run is_in (name_of signal) }
{
    if is_in {
        signal_set::only_signal(signal)
    } else {
        signal_set::no_signal()
    }
}

/// What is judged of an emission.
pub fn emission(go: Status, signal: Signal) -> MustCan
    requires { HasSignalBit signal }
    ensures { IsJudged (sure_code go 0) (may_code go 0) (if_run (is_sure go) (name_of signal))
        (if_run (is_possible go) (name_of signal)) result }
{
    MustCan {
        must: Acts {
            signals: signal_if(is_true(go), signal),
            codes: sure_of(go, Completion::End),
        },
        can: Acts {
            signals: signal_if(may_be_true(go), signal),
            codes: possible_of(go, Completion::End),
        },
    }
}

/// The acts of a first part and of the one that follows it.
fn acts_then(first: Acts, second: Acts) -> Acts
    ensures signals { set_of result.signals ≡ union (set_of first.signals) (set_of second.signals) }
    ensures codes { codes_of result.codes
        ≡ then_codes (codes_of first.codes) (codes_of second.codes) }
{
    Acts {
        signals: signal_set::union_of(first.signals, second.signals),
        codes: first.codes.without_zero().union(second.codes),
    }
}

/// What is judged of a first part and of the one that follows it.
pub fn followed(first: &MustCan, second: &MustCan) -> MustCan
    ensures { IsPaired then_codes first.now second.now result }
{
    MustCan {
        must: acts_then(first.must, second.must),
        can: acts_then(first.can, second.can),
    }
}

/// The acts of either part.
fn acts_or(first: Acts, second: Acts) -> Acts
    ensures signals { set_of result.signals ≡ union (set_of first.signals) (set_of second.signals) }
    ensures codes { codes_of result.codes
        ≡ either_code (codes_of first.codes) (codes_of second.codes) }
{
    Acts {
        signals: signal_set::union_of(first.signals, second.signals),
        codes: first.codes.union(second.codes),
    }
}

/// What is judged of either part.
pub fn either(first: &MustCan, second: &MustCan) -> MustCan
    ensures { IsPaired either_code first.now second.now result }
{
    MustCan {
        must: acts_or(first.must, second.must),
        can: acts_or(first.can, second.can),
    }
}

/// The acts of both parts, side by side.
fn acts_beside(first: Acts, second: Acts) -> Acts
    ensures signals { set_of result.signals ≡ union (set_of first.signals) (set_of second.signals) }
    ensures codes { codes_of result.codes
        ≡ max_codes (codes_of first.codes) (codes_of second.codes) }
{
    Acts {
        signals: signal_set::union_of(first.signals, second.signals),
        codes: first.codes.greater_of_pairs(second.codes),
    }
}

/// What is judged of both parts, side by side.
pub fn beside(first: &MustCan, second: &MustCan) -> MustCan
    ensures { IsPaired max_codes first.now second.now result }
{
    MustCan {
        must: acts_beside(first.must, second.must),
        can: acts_beside(first.can, second.can),
    }
}

/// What is judged of a part that gives the codes, and of one that only emits.
pub fn emitting(first: &MustCan, second: &MustCan) -> MustCan
    ensures { IsJudged (codes_of first.now.must.codes) (codes_of first.now.can.codes)
        (union (set_of first.now.must.signals) (set_of second.now.must.signals))
        (union (set_of first.now.can.signals) (set_of second.now.can.signals)) result }
{
    MustCan {
        must: Acts {
            signals: signal_set::union_of(first.must.signals, second.must.signals),
            codes: first.must.codes,
        },
        can: Acts {
            signals: signal_set::union_of(first.can.signals, second.can.signals),
            codes: first.can.codes,
        },
    }
}

/// The codes of the first, and the signals of the second.
pub fn giving(first: &MustCan, second: &MustCan) -> MustCan
    ensures { IsJudged (codes_of first.now.must.codes) (codes_of first.now.can.codes)
        (set_of second.now.must.signals) (set_of second.now.can.signals) result }
{
    MustCan {
        must: Acts {
            signals: second.must.signals,
            codes: first.must.codes,
        },
        can: Acts {
            signals: second.can.signals,
            codes: first.can.codes,
        },
    }
}

/// What is judged of a body, with these codes of its own.
pub fn with_codes(body: &MustCan, more: &MustCan) -> MustCan
    ensures { IsJudged (either_code (codes_of body.now.must.codes) (codes_of more.now.must.codes))
        (either_code (codes_of body.now.can.codes) (codes_of more.now.can.codes))
        (set_of body.now.must.signals) (set_of body.now.can.signals) result }
{
    MustCan {
        must: Acts {
            signals: body.must.signals,
            codes: body.must.codes.union(more.must.codes),
        },
        can: Acts {
            signals: body.can.signals,
            codes: body.can.codes.union(more.can.codes),
        },
    }
}

/// What is judged outside a trap.
pub fn out_of_trap(body: &MustCan) -> MustCan
    ensures { IsJudged (codes_out_of_trap (codes_of body.now.must.codes))
        (codes_out_of_trap (codes_of body.now.can.codes))
        (set_of body.now.must.signals) (set_of body.now.can.signals) result }
{
    MustCan {
        must: Acts {
            signals: body.must.signals,
            codes: body.must.codes.out_of_trap(),
        },
        can: Acts {
            signals: body.can.signals,
            codes: body.can.codes.out_of_trap(),
        },
    }
}

/// What is judged outside the binder of this local signal.
pub fn hiding(body: &MustCan, s: LocalSignal) -> MustCan
    requires { s.index < 64 }
    ensures { IsJudged (codes_of body.now.must.codes) (codes_of body.now.can.codes)
        (without s.index (set_of body.now.must.signals))
        (without s.index (set_of body.now.can.signals)) result }
{
    MustCan {
        must: Acts {
            signals: signal_set::all_but(s, body.must.signals),
            codes: body.must.codes,
        },
        can: Acts {
            signals: signal_set::all_but(s, body.can.signals),
            codes: body.can.codes,
        },
    }
}

/// The status of a local signal, by what is judged of its body.
pub fn status_of(body: &MustCan, s: LocalSignal) -> Status
    requires { s.index < 64 }
    ensures { result ≡ verdict (set_of body.now.must.signals (inner s.index))
        (set_of body.now.can.signals (inner s.index)) }
{
    signal_set::decide(
        signal_set::has_local(body.must.signals, s),
        signal_set::has_local(body.can.signals, s),
    )
}

/// Whether a part ends, by what is judged of it.
pub fn ends(judged: &MustCan) -> Status
    ensures { result ≡ verdict (codes_of judged.now.must.codes 0)
        (codes_of judged.now.can.codes 0) }
{
    signal_set::decide(
        judged.must.codes.has(Completion::End),
        judged.can.codes.has(Completion::End),
    )
}

/// What is known of the signals where those of a set are surely emitted: one that was in doubt is
/// present.
pub fn with_emitted(env: &Env, signals: SignalSet) -> Env
    ensures { env_of result ≡ told (env_of env.now) (set_of signals) }
{
    Env {
        present: SignalSet {
            interface: with_possible(
                env.present.interface,
                signals.interface,
                env.possible.interface,
            ),
            local: with_possible(env.present.local, signals.local, env.possible.local),
        },
        possible: env.possible,
    }
}

/// The numbers of a mask, and those of another that are possible.
fn with_possible(present: u64, more: u64, possible: u64) -> u64
    ensures { (n : ℕ) → bits result n ≡ (bits present n || (bits more n && bits possible n)) }
{
    mask::union(present, mask::intersection(more, possible))
}
