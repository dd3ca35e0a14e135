//! Laws of the policy step, for callers that reason about lists of entries. Nothing here runs.
ghost use Rattle.std.specs.Prelude.{◌≡◌, ◌↔◌, ℕ, ◌<◌, List, [], ◌∷◌, ◌++◌, length, Option, Result};
ghost use Rattle.std.specs.Prelude.{Ok, Err, IsTrue};
ghost use Rattle.refusal_rules.specs.Rules.{FirstRefuses, AllPass, PassBefore, RefusesAt};
ghost use Rattle.rbac_policy.specs.declared.commands.AdminCommand.{AdminCommand};
ghost use Rattle.rbac_policy.specs.declared.commands.Entry.{Entry};
ghost use Rattle.rbac_policy.specs.declared.policy.Policy.{Policy};
ghost use Rattle.rbac_policy.specs.Change.{absorbed};
ghost use Rattle.rbac_policy.specs.Leaving.{LeavesRoom};
ghost use Rattle.rbac_policy.specs.Opening.{opening_entries};
ghost use Rattle.rbac_policy.specs.StandsFor.{StandsFor};
ghost use Rattle.rbac_policy.specs.Entries.{is_administrative};
ghost use Rattle.rbac_policy.specs.declared.sizes.TheConstants.{LAST_VERSION};
ghost use Rattle.rbac_admin.specs.declared.refusal.PolicyRefusal.{PolicyRefusal};
ghost use Rattle.rbac_admin.specs.Conditions.{Administers};
ghost use Rattle.rbac_admin.specs.PolicyStep.{PolicyStep, policy_rules, entry_of};
ghost use Rattle.rbac_admin.specs.PolicyLists.{IsAccepted, IsPolicyList};
ghost use Rattle.rbac_admin.specs.Refusals.{row_of, NamesObjects};
ghost use Rattle.rbac_admin.specs.Room.{most_entries};
ghost use Rattle.refusal_rules.specs.Rows.{TellsApart};

/// The policy step gives one answer at most.
pub fn one_answer()
    ensures { (entries : List Entry) (session : Option ℕ) (command : AdminCommand)
        (a b : Result Entry PolicyRefusal)
        → PolicyStep entries session command a → PolicyStep entries session command b → a ≡ b }
{}

/// An accepted entry is the command, with the session that gave it; a login has none.
pub fn accepted_entry()
    ensures { (entries : List Entry) (session : Option ℕ) (command : AdminCommand) (entry : Entry)
        → PolicyStep entries session command (Ok entry) → entry ≡ entry_of session command }
{}

/// An accepted entry is accepted again from the entry alone.
pub fn accepted_again()
    ensures { (entries : List Entry) (session : Option ℕ) (command : AdminCommand) (entry : Entry)
        → PolicyStep entries session command (Ok entry)
        → PolicyStep entries entry.session entry.command (Ok entry) }
{}

/// An administrative command is accepted only from a session that may administer the policy.
pub fn accepted_administers()
    ensures { (entries : List Entry) (session : Option ℕ) (command : AdminCommand) (entry : Entry)
        → IsTrue (is_administrative command) → PolicyStep entries session command (Ok entry)
        → Administers entries session }
{}

/// The answer is a refusal exactly when a rule of the command gives it, and all rules before that
/// one let pass. It is the command's entry exactly when all rules let pass.
pub fn first_refusal()
    ensures refused { (entries : List Entry) (session : Option ℕ) (command : AdminCommand)
        (refusal : PolicyRefusal)
        → (PolicyStep entries session command (Err refusal) ↔ FirstRefuses (policy_rules entries
        session command) refusal) }
    ensures accepted { (entries : List Entry) (session : Option ℕ) (command : AdminCommand)
        → (PolicyStep entries session command (Ok (entry_of session command))
        ↔ AllPass (policy_rules entries session command)) }
    ensures silent { (entries : List Entry) (session : Option ℕ) (command : AdminCommand)
        (place earlier : ℕ) (refusal : PolicyRefusal)
        → PassBefore (policy_rules entries session command) place → earlier < place
        → RefusesAt (policy_rules entries session command) earlier refusal → ⊥ }
{}

/// A policy that stands for a list, and then takes in an accepted entry, stands for the longer
/// list.
pub fn accepted_stands()
    ensures { (policy : Policy) (entries : List Entry) (session : Option ℕ) (command : AdminCommand)
        (entry : Entry)
        → StandsFor policy entries → length entries < LAST_VERSION
        → PolicyStep entries session command (Ok entry)
        → StandsFor (absorbed policy entry) (entries ++ entry ∷ []) }
{}

/// The opening entries are a policy list; and so is a policy list with an accepted entry added at
/// its end.
pub fn policy_lists_grow()
    ensures opening { IsPolicyList opening_entries }
    ensures grows { (entries : List Entry) (entry : Entry) → IsPolicyList entries
        → IsAccepted entries entry
        → IsPolicyList (entries ++ entry ∷ []) }
{}

/// If each living session has room for its logout, there is room for an accepted entry, and after
/// it each living session still has room for its logout.
pub fn accepted_leaves_room()
    ensures few { (entries : List Entry) (entry : Entry) → LeavesRoom most_entries entries
        → IsAccepted entries entry
        → length entries < most_entries }
    ensures left { (policy : Policy) (entries : List Entry) (entry : Entry)
        → LeavesRoom most_entries entries
        → StandsFor policy (entries ++ entry ∷ []) → IsAccepted entries entry
        → LeavesRoom most_entries (entries ++ entry ∷ []) }
{}

/// Refusals with equal numbers and equal fields are equal, if the objects that they name are
/// objects.
pub fn refusals_are_told_apart()
    ensures { (one other : PolicyRefusal) → NamesObjects one → NamesObjects other
        → TellsApart row_of one other }
{}
