//! Every refusal with which a line can be answered, with its number and its name.
ghost use Rattle.std.specs.Prelude.{◌≡◌};
ghost use Rattle.access_core.specs.Refusals.{code_of, name_of};

use crate::reply::SignalNames;
use rbac_admin::refusal::PolicyRefusal;
use reactor_core::refusal::{ModuleRefusal, ReactorRefusal};

/// Why a line was refused. A refusal leaves policy, slots, journals and pending signals as they
/// were.
#[derive(Drop)]
pub enum Refusal {
    /// The line is longer than 65,536 bytes.
    TooLong,
    /// The line is no JSON value.
    NotJson,
    /// The line is a JSON value, but no request.
    NotARequest,
    /// There is a login on this connection already.
    AlreadyLoggedIn,
    /// The policy refuses the command. NoSession is also the answer where there is no login on this
    /// connection.
    Policy(PolicyRefusal),
    /// The module refuses the command.
    Module(ModuleRefusal),
    /// The inputs have no constructive reaction. It names those undecided outputs and inputoutputs
    /// that the session may observe.
    Stuck { undecided: SignalNames },
    /// There is no slot of this number.
    NoSlot,
    /// The slot holds a module.
    Occupied,
    /// The slot holds no module.
    Empty,
    /// The journal has as many entries as it may have.
    JournalFull,
    /// The policy that was read is older than one seen before (`found` and `seen` are their
    /// lengths). In the laws of runs also: the version that an event names is older than that of
    /// the slot's last entry, or newer than the policy list.
    Behind { found: u64, seen: u64 },
    /// Memory was refused.
    Memory,
}

impl Refusal {
    /// Its number and its name.
    pub fn label(&self) -> (u8, &'static str)
        ensures code { result.0 ≡ code_of self.now }
        ensures name { result.1.now ≡ name_of self.now }
    {
        match self {
            Refusal::TooLong => (1, "TooLong"),
            Refusal::NotJson => (2, "NotJson"),
            Refusal::NotARequest => (3, "NotARequest"),
            Refusal::AlreadyLoggedIn => (5, "AlreadyLoggedIn"),
            Refusal::Policy(refusal) => refusal.label(),
            Refusal::Module(refusal) => refusal.label(),
            Refusal::Stuck { .. } => (50, "Stuck"),
            Refusal::NoSlot => (60, "NoSlot"),
            Refusal::Occupied => (61, "Occupied"),
            Refusal::Empty => (62, "Empty"),
            Refusal::JournalFull => (67, "JournalFull"),
            Refusal::Behind { .. } => (68, "Behind"),
            Refusal::Memory => (90, "Memory"),
        }
    }

    /// Its number.
    pub fn code(&self) -> u8
        ensures { result ≡ code_of self.now }
    {
        self.label().0
    }
}

impl From<ReactorRefusal> for Refusal {
    ghost use Rattle.std.specs.Prelude.{◌≡◌};
    ghost use Rattle.access_core.specs.Refusals.{of_reactor};

    ghost from_gives = { λ given refusal. refusal ≡ of_reactor given };

    fn from(refusal: ReactorRefusal) -> Refusal {
        match refusal {
            ReactorRefusal::Module(refusal) => Refusal::Module(refusal),
            ReactorRefusal::JournalFull => Refusal::JournalFull,
            ReactorRefusal::Memory => Refusal::Memory,
        }
    }
}
