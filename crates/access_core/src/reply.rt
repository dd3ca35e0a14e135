//! Replies, and the lists of signals that they and refusals carry.
ghost use Rattle.std.specs.Prelude.{◌≡◌, ◌++◌, ◌∷◌, [], IfOk, OnErr};
ghost use Rattle.access_core.specs.Replies.{word_text};

use crate::refusal::Refusal;
use est_text::identifier::Identifier;
use rbac_policy::commands::SessionId;
use reactor_core::entry::SlotWord;
use std::alloc::{AllocError, Global};
use std::marker::Model;

/// Names of signals, in declaration order. A contract sees the list of them.
#[derive(Drop)]
pub struct SignalNames {
    names: Vec<Identifier>,
}

impl Model for SignalNames {
    ghost use Rattle.std.specs.Prelude.{List, ℕ};

    ghost Value = { List (List ℕ) };

    ghost view = { λ s. s.names.items };
}

impl SignalNames {
    /// No signals. It takes no memory.
    pub fn new(alloc: Global) -> SignalNames
        ensures { result ≡ [] }
    {
        SignalNames {
            names: Vec::new(alloc),
        }
    }

    /// Adds a signal at the end. An error, where memory was refused, leaves the list as it was.
    pub fn push(&mut self, name: Identifier) -> Result<(), AllocError>
        ensures ok { IfOk result (λ _. self.new ≡ self.old ++ name ∷ []) }
        ensures err { OnErr result (self.new ≡ self.old) }
    {
        self.names.push(name)?;
        Ok(())
    }

    /// The names, in their order.
    pub fn as_slice(&self) -> &[Identifier]
        ensures { result.now ≡ self.now }
    {
        self.names.as_slice()
    }
}

/// A signal that is shown, and whether it is present.
#[derive(Clone, Copy, PartialEq, Eq)]
pub struct ShownSignal {
    pub name: Identifier,
    pub present: bool,
}

/// The signals that are shown of an instant, in declaration order. A contract sees the list of
/// them.
#[derive(Drop)]
pub struct ShownSignals {
    signals: Vec<ShownSignal>,
}

impl Model for ShownSignals {
    ghost use Rattle.std.specs.Prelude.{List};
    ghost use Rattle.access_core.specs.declared.reply.ShownSignal.{ShownSignal};

    ghost Value = { List ShownSignal };

    ghost view = { λ s. s.signals.items };
}

impl ShownSignals {
    /// No signals. It takes no memory.
    pub fn new(alloc: Global) -> ShownSignals
        ensures { result ≡ [] }
    {
        ShownSignals {
            signals: Vec::new(alloc),
        }
    }

    /// Adds a signal at the end. An error, where memory was refused, leaves the list as it was.
    pub fn push(&mut self, signal: ShownSignal) -> Result<(), AllocError>
        ensures ok { IfOk result (λ _. self.new ≡ self.old ++ signal ∷ []) }
        ensures err { OnErr result (self.new ≡ self.old) }
    {
        self.signals.push(signal)?;
        Ok(())
    }

    /// The signals, in their order.
    pub fn as_slice(&self) -> &[ShownSignal]
        ensures { result.now ≡ self.now }
    {
        self.signals.as_slice()
    }
}

/// The policy commands that are answered by the new version alone: all but the login.
#[derive(Clone, Copy, PartialEq, Eq)]
pub enum PolicyWord {
    AddUser,
    DeleteUser,
    AddRole,
    DeleteRole,
    AssignUser,
    DeassignUser,
    GrantPermission,
    RevokePermission,
    AddInheritance,
    DeleteInheritance,
    CreateDsdSet,
    DeleteDsdSet,
    DeleteSession,
    AddActiveRole,
    DropActiveRole,
}

impl PolicyWord {
    /// The word by which a line asks for the command, and by which its reply names it.
    pub fn text(&self) -> &'static str
        ensures { result.now ≡ word_text self.now }
    {
        match self {
            PolicyWord::AddUser => "adduser",
            PolicyWord::DeleteUser => "deluser",
            PolicyWord::AddRole => "addrole",
            PolicyWord::DeleteRole => "delrole",
            PolicyWord::AssignUser => "assign",
            PolicyWord::DeassignUser => "deassign",
            PolicyWord::GrantPermission => "grant",
            PolicyWord::RevokePermission => "revoke",
            PolicyWord::AddInheritance => "inherit",
            PolicyWord::DeleteInheritance => "disinherit",
            PolicyWord::CreateDsdSet => "dsd",
            PolicyWord::DeleteDsdSet => "undsd",
            PolicyWord::DeleteSession => "logout",
            PolicyWord::AddActiveRole => "activate",
            PolicyWord::DropActiveRole => "drop",
        }
    }
}

/// What is told of the entry that a command on a slot added to the slot's journal.
#[derive(Clone, Copy)]
pub struct Added {
    /// The command's word.
    pub word: SlotWord,
    /// The place of the entry.
    pub place: u64,
    /// The version at which the command was judged.
    pub version: u64,
    /// How many instants there were since the load; a step's own is the last of them.
    pub instants: u64,
}

/// The answer to a request. Versions are lengths of the policy list; places in a journal and
/// instants are counted from 1.
#[derive(Drop)]
pub enum Reply {
    /// The command was refused, and nothing is changed.
    Refused(Refusal),
    /// A session was made. The version is the one with its entry.
    Login {
        session: SessionId,
        version: u64,
    },
    /// The policy was changed. The version is the one with the new entry.
    Changed {
        change: PolicyWord,
        version: u64,
    },
    /// A command on a slot added its entry.
    Added(Added),
    /// What may be seen of this instant, judged at this version.
    Look {
        instant: u64,
        signals: ShownSignals,
        version: u64,
    },
    /// How many entries the slot's journal has, and how many instants there were since the load
    /// (none where no module runs); judged at this version.
    Audit {
        entries: u64,
        instants: u64,
        version: u64,
    },
    /// Whether the session may do what was asked.
    Check {
        allowed: bool,
    },
}
