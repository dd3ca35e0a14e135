//! Laws of the checks, over every library. The function does nothing: its contract is the law.
ghost use Rattle.std.specs.Prelude.{◌≡◌, ℕ, List, Option};
ghost use Rattle.est_modules.specs.Modules.{Program};
ghost use Rattle.est_checks.specs.FirstFaults.{IsFirstFault};
ghost use Rattle.est_checks.specs.declared.fault.LinkFault.{LinkFault};

/// A library has one first fault, or none.
pub fn first_faults_are_one()
    ensures { (ps : List Program) (main : List ℕ) (a b : Option LinkFault) → IsFirstFault ps main a
        → IsFirstFault ps main b → a ≡ b }
{}
