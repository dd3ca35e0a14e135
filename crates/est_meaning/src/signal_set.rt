//! Sets of signals as masks, and what is known of each signal.

ghost use Rattle.std.specs.Prelude.{◌≡◌, ◌<◌, Decides};
ghost use Rattle.est_kernel.specs.Bits.{bits};
ghost use Rattle.est_kernel.specs.Masks.{HasNameBit, HasSignalBit};
ghost use Rattle.est_kernel.specs.Term.{Name, inner};
ghost use Rattle.est_kernel.specs.View.{name_of};
ghost use Rattle.est_meaning.specs.Signals.{no_signals, only, union, without, Meet};
ghost use Rattle.est_meaning.specs.Environments.{verdict, with_local};
ghost use Rattle.est_meaning.specs.Views.{set_of, env_of, with_member};

use crate::status::Status;
use est_kernel::mask;
use est_kernel::statement::{LocalSignal, Signal};

/// A set of signals.
#[derive(Clone, Copy, PartialEq, Eq)]
pub struct SignalSet {
    /// Signals of the interface, a bit for each, in declaration order.
    pub interface: u64,
    /// Local signals, a bit for the number of each.
    pub local: u64,
}

/// The empty set.
pub fn no_signal() -> SignalSet
    ensures { set_of result ≡ no_signals }
{
    SignalSet {
        interface: 0,
        local: 0,
    }
}

/// The set of this signal alone.
pub fn only_signal(s: Signal) -> SignalSet
    requires { HasSignalBit s }
    ensures { set_of result ≡ only (name_of s) }
{
    match s {
        Signal::Interface(s) => SignalSet {
            interface: mask::single(s.index),
            local: 0,
        },
        Signal::Local(s) => SignalSet {
            interface: 0,
            local: mask::single(s.index as u8),
        },
    }
}

/// The set of this signal alone, or the empty set where it is a local signal whose number has no
/// bit.
pub fn only_with_bit(s: Signal) -> SignalSet
    ensures { (t : Name) → HasNameBit t → set_of result t ≡ only (name_of s) t }
{
    match s {
        Signal::Interface(_) => only_signal(s),
        Signal::Local(local) => if local.index < 64 {
            only_signal(s)
        } else {
            no_signal()
        },
    }
}

/// The members of either set.
pub fn union_of(a: SignalSet, b: SignalSet) -> SignalSet
    ensures { set_of result ≡ union (set_of a) (set_of b) }
{
    SignalSet {
        interface: mask::union(a.interface, b.interface),
        local: mask::union(a.local, b.local),
    }
}

/// The members without this local signal.
pub fn all_but(s: LocalSignal, a: SignalSet) -> SignalSet
    requires { s.index < 64 }
    ensures { set_of result ≡ without s.index (set_of a) }
{
    SignalSet {
        interface: a.interface,
        local: mask::without(a.local, s.index as u8),
    }
}

/// Whether the local signal is a member.
pub fn has_local(a: SignalSet, s: LocalSignal) -> bool
    requires { s.index < 64 }
    ensures { result ≡ set_of a (inner s.index) }
{
    mask::has(a.local, s.index as u8)
}

/// Whether the sets have a common member.
pub fn meets(a: SignalSet, b: SignalSet) -> bool
    ensures { Decides result (Meet (set_of a) (set_of b)) }
{
    mask::intersection(a.interface, b.interface) != 0 || mask::intersection(a.local, b.local) != 0
}

/// What is known of each signal: those that are present, and those that may be.
#[derive(Clone, Copy, PartialEq, Eq)]
pub struct Env {
    /// Those that are present.
    pub present: SignalSet,
    /// Those that may be.
    pub possible: SignalSet,
}

/// The verdict on a local signal by two masks, from its number. One without a bit is absent.
fn decide_local(present: u64, possible: u64, n: u16) -> Status
    ensures { result ≡ verdict (bits present n) (bits possible n) }
{
    if n < 64 {
        decide(mask::has(present, n as u8), mask::has(possible, n as u8))
    } else {
        Status::Absent
    }
}

/// What is known of a signal.
pub fn status_of_signal(env: &Env, s: Signal) -> Status
    ensures { result ≡ env_of env.now (name_of s) }
{
    match s {
        Signal::Interface(s) => decide(
            mask::has(env.present.interface, s.index),
            mask::has(env.possible.interface, s.index),
        ),
        Signal::Local(s) => decide_local(env.present.local, env.possible.local, s.index),
    }
}

/// The verdict on a signal, from whether it must be emitted and whether it can be.
pub fn decide(must_be: bool, can_be: bool) -> Status
    ensures { result ≡ verdict must_be can_be }
{
    if must_be {
        Status::Present
    } else if can_be {
        Status::Unknown
    } else {
        Status::Absent
    }
}

/// The environment in which the local signal has this status.
pub fn set_local(env: &Env, s: LocalSignal, status: Status) -> Env
    requires { s.index < 64 }
    ensures { env_of result ≡ with_local (env_of env.now) s.index status }
{
    match status {
        Status::Present => put(env, s, true, true),
        Status::Absent => put(env, s, false, false),
        Status::Unknown => put(env, s, false, true),
    }
}

/// The environment in which the local signal is present or not, and may be or not.
fn put(env: &Env, s: LocalSignal, present: bool, possible: bool) -> Env
    requires { s.index < 64 }
    ensures { env_of result ≡ with_local (env_of env.now) s.index (verdict present possible) }
{
    Env {
        present: put_local(env.present, s, present),
        possible: put_local(env.possible, s, possible),
    }
}

/// The set with this local signal in it, or not.
fn put_local(a: SignalSet, s: LocalSignal, is_in: bool) -> SignalSet
    requires { s.index < 64 }
    ensures { set_of result ≡ with_member (set_of a) s.index is_in }
{
    SignalSet {
        interface: a.interface,
        local: if is_in {
            mask::with(a.local, s.index as u8)
        } else {
            mask::without(a.local, s.index as u8)
        },
    }
}
