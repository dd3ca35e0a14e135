//! Commands on slots.
ghost use Rattle.std.specs.Prelude.{◌≡◌, IfOk, MatchResult};
ghost use Rattle.access_core.specs.Journals.{signal_asked};

use est_text::identifier::Identifier;
use reactor_core::entry::{Load, Move};
use std::alloc::{AllocError, Global};

/// What a slot command asks for.
#[derive(Drop)]
pub enum SlotCommand {
    /// A move, which adds its entry.
    Move(Move<()>),
    /// Shows the signals of an instant, which is numbered from 1 since the load.
    Look { instant: u64 },
    /// Tells how many entries the journal has, and how many instants there were since the load.
    Audit,
}

impl SlotCommand {
    /// The signal that it offers.
    pub fn signal(&self) -> Option<Identifier>
        ensures { result ≡ signal_asked self.now }
    {
        match self {
            SlotCommand::Move(asked) => asked.signal(),
            SlotCommand::Look { .. } | SlotCommand::Audit => None,
        }
    }

    /// The load that it asks for, or else the command.
    pub fn into_load(self) -> Result<Load, SlotCommand>
        ensures { MatchResult result (λ load. self ≡ SlotCommand.Move (Move.Load load))
            (λ other. other ≡ self) }
    {
        match self {
            SlotCommand::Move(asked) => {
                if let Move::Load(load) = asked {
                    return Ok(load);
                }
                Err(SlotCommand::Move(asked))
            }
            SlotCommand::Look { instant } => Err(SlotCommand::Look { instant }),
            SlotCommand::Audit => Err(SlotCommand::Audit),
        }
    }

    /// A copy of the command, or the error where memory was refused.
    pub fn try_clone(&self, alloc: Global) -> Result<SlotCommand, AllocError>
        ensures { IfOk result (λ copy. copy ≡ self.now) }
    {
        match self {
            SlotCommand::Move(asked) => Ok(SlotCommand::Move(asked.try_clone(alloc)?)),
            SlotCommand::Look { instant } => Ok(SlotCommand::Look { instant: *instant }),
            SlotCommand::Audit => Ok(SlotCommand::Audit),
        }
    }
}
