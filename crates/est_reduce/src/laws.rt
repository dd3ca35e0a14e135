//! Laws of reduction: the table of reductions in its plain form, and that a module has one answer.
//! The functions do nothing: their contracts are the laws.
ghost use Rattle.std.specs.Prelude.{◌≡◌, ◌⊎◌, ℕ, Bool, List, Ok, Err};
ghost use Rattle.est_kernel.specs.View.{term_of};
ghost use Rattle.est_kernel.specs.declared.interface.Declaration.{Declaration};
ghost use Rattle.est_kernel.specs.declared.kernel.Kernel.{Kernel};
ghost use Rattle.est_kernel.specs.Term.{Query};
ghost use Rattle.est_reduce.specs.Bodies.{Body, abort, weak_abort, repeat_each, every};
ghost use Rattle.est_reduce.specs.Lifting.{lifted};
ghost use Rattle.est_reduce.specs.Reducing.{Reduces};
ghost use Rattle.est_reduce.specs.Reductions.{reduced, aborting, weakly_aborting, looping_each};
ghost use Rattle.est_reduce.specs.Reductions.{doing_every};
ghost use Rattle.est_reduce.specs.declared.fault.ReduceFault.{ReduceFault};
ghost use Rattle.est_reduce.specs.declared.fault.ReduceFault.TheVariants.{Memory};

/// In a row with a fresh trap T, the term of its part is put into T: an exit that leaves the part
/// passes T.
pub fn fresh_traps_shift_exits()
    ensures abort { (leads : ℕ → ℕ) (l : ℕ) (now : Bool) (s : Query) (p : Body)
        → reduced leads l (abort now s p) ≡ aborting now s (lifted 0 (reduced leads l p)) }
    ensures weak_abort { (leads : ℕ → ℕ) (l : ℕ) (now : Bool) (s : Query) (p : Body)
        → reduced leads l (weak_abort now s p)
        ≡ weakly_aborting now s (lifted 0 (reduced leads l p)) }
    ensures each { (leads : ℕ → ℕ) (l : ℕ) (s : Query) (p : Body)
        → reduced leads l (repeat_each s p) ≡ looping_each s (lifted 0 (reduced leads l p)) }
    ensures every { (leads : ℕ → ℕ) (l : ℕ) (now : Bool) (s : Query) (p : Body)
        → reduced leads l (every now s p) ≡ doing_every now s (lifted 0 (reduced leads l p)) }
{}

/// Reduction has one answer: a kernel of one interface and one term, or one fault, and never both.
/// Refused memory, which no definition foresees, can come at any time.
pub fn one_reduction()
    ensures kernel { (interface : List Declaration) (p : Body) (a b : Kernel)
        → Reduces interface p (Ok a) → Reduces interface p (Ok b)
        → (a.interface ≡ b.interface) × (term_of a.root ≡ term_of b.root) }
    ensures fault { (interface : List Declaration) (p : Body) (a b : ReduceFault)
        → Reduces interface p (Err a) → Reduces interface p (Err b)
        → (a ≡ b) ⊎ (a ≡ Memory) ⊎ (b ≡ Memory) }
    ensures never_both { (interface : List Declaration) (p : Body) (a : Kernel) (b : ReduceFault)
        → Reduces interface p (Ok a) → Reduces interface p (Err b) → b ≡ Memory }
{}
