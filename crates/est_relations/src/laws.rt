//! What the definitions mean. Each function does nothing: its contract is the law.
ghost use Rattle.std.specs.Prelude.{◌≡◌, ◌↔◌, ℕ, Bool, true, List, Ok, nat_eq};
ghost use Rattle.std.specs.List.{list_any};
ghost use Rattle.est_relations.specs.Keeping.{has_one_at_most};
ghost use Rattle.est_relations.specs.Offers.{PendingInputs, KeepsExclusions, OfferAnswer};

/// An exclusion holds exactly when any two members that are offered are one, however often each is
/// written.
pub fn exclusions_are_of_sets()
    ensures { (present : ℕ → Bool) (members : List ℕ) → (has_one_at_most present members ≡ true)
        ↔ ((a b : ℕ) → list_any (nat_eq a) members ≡ true → list_any (nat_eq b) members ≡ true
        → present a ≡ true → present b ≡ true → a ≡ b) }
{}

/// An accepted offer keeps each exclusion, so any number of offers does.
pub fn offers_keep_exclusions()
    ensures { (before after : PendingInputs) (name : List ℕ)
        → KeepsExclusions before.interface before.relations before.inputs
        → OfferAnswer before name (Ok (record {})) after
        → KeepsExclusions after.interface after.relations after.inputs }
{}
