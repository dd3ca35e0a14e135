//! The laws of journals. Each function does nothing but call the laws that it follows from: its
//! contract is the law.
ghost use Rattle.std.specs.Prelude.{◌≡◌, ◌⊎◌, ◌↔◌, ℕ, true, List};
ghost use Rattle.est_kernel.specs.Bits.{bits};
ghost use Rattle.est_kernel.specs.Term.{Term};
ghost use Rattle.reactor_core.specs.declared.entry.Load.{Load as LoadEntry};
ghost use Rattle.reactor_core.specs.declared.entry.SlotEntry.{SlotEntry};
ghost use Rattle.reactor_core.specs.declared.entry.Stamp.{Stamp};
ghost use Rattle.reactor_core.specs.declared.refusal.ModuleRefusal.{ModuleRefusal};
ghost use Rattle.reactor_core.specs.declared.refusal.ReactorRefusal.{ReactorRefusal};
ghost use Rattle.reactor_core.specs.declared.refusal.ReactorRefusal.TheVariants.{Memory};
ghost use Rattle.reactor_core.specs.Loading.{GivenModule, Gives, IsLoadFault};
ghost use Rattle.reactor_core.specs.Meaning.{ModuleOf, Running, RunsAfter, Leaves};
ghost use Rattle.reactor_core.specs.Instants.{IsOutcome, HasNoOutcome, AddsInstant, LacksImplied};
ghost use Rattle.reactor_core.specs.Instants.{KeepsRelations};
ghost use Rattle.reactor_core.specs.Offers.{IsOfferedAt, TakesOffers};
ghost use Rattle.reactor_core.specs.Refusals.{row_of};
ghost use Rattle.refusal_rules.specs.Rows.{TellsApart};

use est_link::laws::one_flat;
use est_text::laws::{one_cut, one_fault};

/// A load entry is of one module at most: one interface, one list of relations, and one term.
pub fn one_module()
    ensures { (load : LoadEntry) (m n : GivenModule) → ModuleOf load m → ModuleOf load n → m ≡ n }
{
    one_cut();
    one_flat();
}

/// A text and the name of its main module give one module, or have one first fault, and never both.
/// Want of memory, which no definition foresees, can come at any time.
pub fn one_load()
    ensures given { (main text : List ℕ) (m n : GivenModule)
        → Gives main text m → Gives main text n → m ≡ n }
    ensures fault { (main text : List ℕ) (a b : ReactorRefusal)
        → IsLoadFault main text a → IsLoadFault main text b
        → (a ≡ b) ⊎ (a ≡ Memory) ⊎ (b ≡ Memory) }
    ensures never_both { (main text : List ℕ) (m : GivenModule) (a : ReactorRefusal)
        → Gives main text m → IsLoadFault main text a → a ≡ Memory }
{
    one_cut();
    one_fault();
    one_flat();
}

/// After a journal one module runs at most, with one mask of pending inputs and one list of
/// instants.
pub fn one_running()
    ensures { (journal : List SlotEntry) (r s : Running) → RunsAfter journal r → RunsAfter journal s
        → r ≡ s }
{
    one_module();
}

/// A journal leaves one term at most: what is left to run does not depend on how it was found.
pub fn one_term_is_left()
    ensures { (journal : List SlotEntry) (t u : Term)
        → Leaves journal t → Leaves journal u → t ≡ u }
{
    one_module();
}

/// A journal's next instant has one outcome at most: one set of outputs, and one term that it
/// leaves.
pub fn one_outcome()
    ensures { (journal : List SlotEntry) (a b : ℕ) (t u : Term)
        → IsOutcome journal a t → IsOutcome journal b u
        → ((n : ℕ) → bits a n ≡ bits b n) × (t ≡ u) }
{
    one_module();
}

/// A journal's next instant doesn't both have an outcome and have none: a step is Stuck exactly
/// when there is no reaction.
pub fn an_outcome_or_none()
    ensures { (journal : List SlotEntry) (outputs : ℕ) (next : Term) (undecided : ℕ)
        → IsOutcome journal outputs next → HasNoOutcome journal undecided → ⊥ }
{
    one_module();
}

/// A journal's pending inputs don't both keep each relation and lack an implied one: a step is
/// Implied exactly when a relation does not hold.
pub fn ready_or_lacking()
    ensures { (journal : List SlotEntry) (number : ℕ) (missing : List ℕ)
        → LacksImplied journal number missing → KeepsRelations journal → ⊥ }
{
    one_module();
}

/// A signal is pending exactly when an offer of it was accepted and no load, discard, step or
/// unload since; and those are the inputs of the next step.
pub fn inputs_are_offered()
    ensures pending { (journal : List SlotEntry) (r : Running) (place : ℕ) → RunsAfter journal r
        → (bits r.pending place ≡ true) ↔ IsOfferedAt journal r.interface place }
    ensures taken { (before : List SlotEntry) (outputs : ℕ) (next : Term) (stamp : Stamp)
        (after : List SlotEntry)
        → AddsInstant before outputs next stamp after → TakesOffers before stamp outputs after }
{}

/// Equal numbers and equal fields are of equal refusals of a module.
pub fn refusals_are_told_apart()
    ensures { (one other : ModuleRefusal) → TellsApart row_of one other }
{}
