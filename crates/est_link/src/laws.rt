//! Laws of linking, over every library.
ghost use Rattle.std.specs.Prelude.{◌≡◌, ◌⊎◌, ℕ, List, Ok, Err};
ghost use Rattle.est_modules.specs.Modules.{Program};
ghost use Rattle.est_link.specs.FlatModules.{FlatModule, IsFlatOf, IsLinkOf, flat_of};
ghost use Rattle.est_checks.specs.declared.fault.LinkFault.{LinkFault};
ghost use Rattle.est_checks.specs.declared.fault.LinkFault.TheVariants.{Memory};
ghost use Rattle.est_reduce.specs.declared.flat.Flat.{Flat};
ghost use Rattle.est_syntax.specs.Tree.{LibraryTree};

/// A library has one flat main module at most.
pub fn one_flat()
    ensures { (ps : List Program) (main : List ℕ) (a b : FlatModule)
        → IsFlatOf ps main a → IsFlatOf ps main b → a ≡ b }
{}

/// Linking has one answer: one flat module or one fault, and never both. Want of memory, which no
/// definition foresees, can come at any time.
pub fn one_link()
    ensures flat { (library : LibraryTree) (main : List ℕ) (a b : Flat)
        → IsLinkOf library main (Ok a) → IsLinkOf library main (Ok b)
        → flat_of a ≡ flat_of b }
    ensures fault { (library : LibraryTree) (main : List ℕ) (a b : LinkFault)
        → IsLinkOf library main (Err a) → IsLinkOf library main (Err b)
        → (a ≡ b) ⊎ (a ≡ Memory) ⊎ (b ≡ Memory) }
    ensures never_both { (library : LibraryTree) (main : List ℕ) (a : Flat) (b : LinkFault)
        → IsLinkOf library main (Ok a) → IsLinkOf library main (Err b) → b ≡ Memory }
{}
