//! Laws of the policy, for callers that reason about lists of entries. Each function does nothing:
//! its contract is the law.
ghost use Rattle.std.specs.Prelude.{ℕ, ◌≡◌, ◌+◌, ◌<◌, ◌≤◌, ◌++◌, ◌∷◌, [], List, Some, length, take};
ghost use Rattle.rbac_policy.specs.declared.commands.AdminCommand.TheVariants.{DeleteSession};
ghost use Rattle.rbac_policy.specs.declared.commands.Entry.{Entry};
ghost use Rattle.rbac_policy.specs.declared.objects.Object.{Object};
ghost use Rattle.rbac_policy.specs.declared.objects.Operation.{Operation};
ghost use Rattle.rbac_policy.specs.declared.policy.Policy.{Policy};
ghost use Rattle.rbac_policy.specs.Change.{policy_of};
ghost use Rattle.rbac_policy.specs.Decided.{Decided};
ghost use Rattle.rbac_policy.specs.Entries.{logins};
ghost use Rattle.rbac_policy.specs.Facts.{IsLive, May};
ghost use Rattle.rbac_policy.specs.declared.sizes.TheConstants.{SESSIONS};
ghost use Rattle.rbac_policy.specs.Fits.{AllFit};
ghost use Rattle.rbac_policy.specs.Leaving.{LeavesRoom};
ghost use Rattle.rbac_policy.specs.StandsFor.{StandsFor};

/// If some policy stands for a list, then by the list each session lives or doesn't, and may do an
/// operation on an object or may not.
pub fn facts_are_decided()
    ensures lives { (policy : Policy) (entries : List Entry) → StandsFor policy entries
        → (session : ℕ) → Decided (IsLive entries session) }
    ensures may { (policy : Policy) (entries : List Entry) → StandsFor policy entries
        → (session : ℕ) (operation : Operation) (object : Object)
        → Decided (May entries session operation object) }
{}

/// If each entry of a list fits those before it, the policy that took them in stands for the list;
/// and so for each beginning of it.
pub fn policies_stand()
    ensures whole { (entries : List Entry) → AllFit entries
        → StandsFor (policy_of entries) entries }
    ensures front { (entries : List Entry) → AllFit entries → (n : ℕ)
        → StandsFor (policy_of (take n entries)) (take n entries) }
{}

/// If each entry of a list fits those before it, the same is decided over each beginning of it.
pub fn fronts_are_decided()
    ensures lives { (entries : List Entry) → AllFit entries → (n session : ℕ)
        → Decided (IsLive (take n entries) session) }
    ensures may { (entries : List Entry) → AllFit entries
        → (n session : ℕ) (operation : Operation) (object : Object)
        → Decided (May (take n entries) session operation object) }
{}

/// If the list has room for as many entries as sessions may live, each living session has room for
/// its logout. A logout leaves room for those of the others.
pub fn logouts_have_room()
    ensures room { (policy : Policy) (entries : List Entry) → StandsFor policy entries
        → (most : ℕ) → length entries + SESSIONS ≤ most → LeavesRoom most entries }
    ensures left { (entries : List Entry) (entry : Entry) (session most : ℕ)
        → LeavesRoom most entries
        → entry.command ≡ DeleteSession → entry.session ≡ Some session → IsLive entries session
        → LeavesRoom most (entries ++ entry ∷ []) }
    ensures taken { (entries : List Entry) (session most : ℕ) → LeavesRoom most entries
        → IsLive entries session
        → length entries < most }
{}

/// A session that has ended does not live again, whatever comes after: no number is given twice.
pub fn ended_sessions_stay_ended()
    ensures { (entries more : List Entry) (session : ℕ) → session ≤ logins entries
        → ¬ (IsLive entries session) → ¬ (IsLive (entries ++ more) session) }
{}
