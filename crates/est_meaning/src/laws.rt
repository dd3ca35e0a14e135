//! The laws of the meaning. Each function does nothing: its contract is the law.
//!
//! They are stated in `specs/Laws` over the definitions that a reaction engine's contract names,
//! and ask nothing of a caller.

ghost use Rattle.est_meaning.specs.Growing.{ReactionsStay};
ghost use Rattle.est_meaning.specs.Laws.{DecidedByMust, OneReactionAtMost, KnowledgeIsMonotone};
ghost use Rattle.est_meaning.specs.Laws.{RoundsComeToRest, EmittedIsPresent, PausesAreEnough};

/// Whether an instant is Stuck, and what it shows, depends on nothing but what must be emitted: no
/// guess is ever tried.
///
/// Where loops' bodies take time, the rules have a reaction exactly when Must has a code; its
/// signals and code are Must's.
pub fn decided_by_must()
    ensures { DecidedByMust }
{}

/// The same program with the same inputs shows the same outputs, in this instant and in all that
/// follow.
///
/// A term reacts in one way at most, and the loops of what is left of it take time again: what is
/// checked once, when a kernel is built, holds in every instant.
pub fn one_reaction_at_most()
    ensures { OneReactionAtMost }
{}

/// What an engine has found out stays true, in whatever order it looks: nothing that it shows has
/// to be taken back.
///
/// With more known, more must and less can be done; what must be done can be done.
pub fn knowledge_is_monotone()
    ensures { KnowledgeIsMonotone }
{}

/// An instant takes a bounded number of rounds, and an undecided output is one that no further
/// round would decide.
///
/// Rounds only learn. After as many rounds as there are judged signals, nothing changes.
pub fn rounds_come_to_rest()
    ensures { RoundsComeToRest }
{}

/// What a program finds out about a signal is what happens in that very instant.
///
/// A reaction's judged signals, and the local signals of its binders, are all decided: present
/// exactly when they are emitted. Other signals are present exactly when they were offered.
pub fn emitted_is_present()
    ensures { EmittedIsPresent }
{}

/// What a running module has left to do is kept in one bit for each of its pauses, however long it
/// runs.
///
/// After each step of a state's term some state that the program can hold stands for what is left.
pub fn pauses_are_enough()
    ensures { PausesAreEnough }
{}

/// What a program does while some signals are still unknown is what it does whatever they are.
///
/// Where the rules react, they react in the same way wherever more is known.
pub fn reactions_stay()
    ensures { ReactionsStay }
{}
