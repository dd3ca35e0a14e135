//! The entries of a slot's journal.
ghost use Rattle.std.specs.Prelude.{◌≡◌, IfOk};
ghost use Rattle.reactor_core.specs.Meaning.{word_of, word_text, is_step, signal_of, instant_of};
ghost use Rattle.reactor_core.specs.Meaning.{asked};

use crate::text::Text;
use est_text::identifier::Identifier;
use std::alloc::{AllocError, Global};

/// The policy version at which a command was judged, and the number of the session that gave it.
#[derive(Clone, Copy, PartialEq, Eq)]
pub struct Stamp {
    pub version: u64,
    pub session: u16,
}

/// An instant that has passed: its present inputs and outputs, as masks over the interface in the
/// order of declaration.
#[derive(Clone, Copy, PartialEq, Eq)]
pub struct PastInstant {
    pub inputs: u64,
    pub outputs: u64,
}

/// A load: the name of the main module, and the text. What runs is the module that the two give.
#[derive(Drop)]
pub struct Load {
    pub main: Identifier,
    pub text: Text,
}

impl Load {
    /// A copy, or the error where memory was refused.
    pub fn try_clone(&self, alloc: Global) -> Result<Load, AllocError>
        ensures { IfOk result (λ copy. copy ≡ self.now) }
    {
        Ok(Load {
            main: self.main,
            text: Text::copied(alloc, self.text.as_str())?,
        })
    }
}

/// The word by which a line asks for a move, and by which its reply names it.
#[derive(Clone, Copy, PartialEq, Eq)]
pub enum SlotWord {
    Load,
    Offer,
    Discard,
    Step,
    Unload,
}

impl SlotWord {
    /// As it stands in a line.
    pub fn text(&self) -> &'static str
        ensures { result.now ≡ word_text self.now }
    {
        match self {
            SlotWord::Load => "load",
            SlotWord::Offer => "offer",
            SlotWord::Discard => "discard",
            SlotWord::Step => "step",
            SlotWord::Unload => "unload",
        }
    }

    /// Whether it is that of a step.
    pub fn is_step(&self) -> bool
        ensures { result ≡ is_step self.now }
    {
        matches!(self, SlotWord::Step)
    }
}

/// What a command does to a slot. `I` is what is known of a step's instant: nothing where the move
/// is asked for, its inputs and outputs where it was done.
#[derive(Drop)]
pub enum Move<I> {
    /// Reads a text, and makes a module of it the running one.
    Load(Load),
    /// Makes an input present in the next instant.
    Offer(Identifier),
    /// Takes the pending inputs away.
    Discard,
    /// Runs the next instant.
    Step(I),
    /// Takes the module out of the slot, with its pending inputs and its instants. The slot keeps
    /// its journal.
    Unload,
}

impl<I> Move<I> {
    /// The word that asks for it.
    pub fn word(&self) -> SlotWord
        ensures { result ≡ word_of self.now }
    {
        match self {
            Move::Load(_) => SlotWord::Load,
            Move::Offer(_) => SlotWord::Offer,
            Move::Discard => SlotWord::Discard,
            Move::Step(_) => SlotWord::Step,
            Move::Unload => SlotWord::Unload,
        }
    }

    /// The signal of an offer.
    pub fn signal(&self) -> Option<Identifier>
        ensures { result ≡ signal_of self.now }
    {
        match self {
            Move::Offer(signal) => Some(*signal),
            Move::Load(_) | Move::Discard | Move::Step(_) | Move::Unload => None,
        }
    }
}

impl Move<()> {
    /// A copy, or the error where memory was refused.
    pub fn try_clone(&self, alloc: Global) -> Result<Move<()>, AllocError>
        ensures { IfOk result (λ copy. copy ≡ self.now) }
    {
        match self {
            Move::Load(load) => Ok(Move::Load(load.try_clone(alloc)?)),
            Move::Offer(signal) => Ok(Move::Offer(*signal)),
            Move::Discard => Ok(Move::Discard),
            Move::Step(()) => Ok(Move::Step(())),
            Move::Unload => Ok(Move::Unload),
        }
    }
}

impl Move<PastInstant> {
    /// The instant of a step.
    pub fn instant(&self) -> Option<PastInstant>
        ensures { result ≡ instant_of self.now }
    {
        match self {
            Move::Step(instant) => Some(*instant),
            Move::Load(_) | Move::Offer(_) | Move::Discard | Move::Unload => None,
        }
    }

    /// The move that was asked for, or the error where memory was refused.
    pub fn asked(&self, alloc: Global) -> Result<Move<()>, AllocError>
        ensures { IfOk result (λ wanted. wanted ≡ asked self.now) }
    {
        match self {
            Move::Load(load) => Ok(Move::Load(load.try_clone(alloc)?)),
            Move::Offer(signal) => Ok(Move::Offer(*signal)),
            Move::Discard => Ok(Move::Discard),
            Move::Step(_) => Ok(Move::Step(())),
            Move::Unload => Ok(Move::Unload),
        }
    }
}

/// One entry of a journal.
#[derive(Drop)]
pub struct SlotEntry {
    pub stamp: Stamp,
    pub done: Move<PastInstant>,
}
