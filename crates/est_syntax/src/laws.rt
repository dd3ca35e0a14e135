//! Laws of the grammar, for those who build on it. A law is a public function that does nothing:
//! its contract is what it says. (`machine` is none: it is private.)
ghost use Rattle.std.specs.Prelude.{◌≡◌, ◌≤◌, ◌+◌, ◌∷◌, [], ℕ, List, length};
ghost use Rattle.est_text.specs.declared.token.Token.{Token};
ghost use Rattle.est_syntax.specs.Faults.{IsSyntaxFault, IsTooDeep};
ghost use Rattle.est_syntax.specs.Inner.Machine.{run, library, right, wrong, deep};
ghost use Rattle.est_syntax.specs.Grammar.{spelling, library_depth};
ghost use Rattle.est_syntax.specs.Tree.{LibraryTree};

/// The grammar is unambiguous: tokens are spelt from one library alone.
pub fn one_library()
    ensures { (k l : LibraryTree) → spelling k ≡ spelling l → k ≡ l }
{}

/// Tokens have one first fault at most, of one kind, and none where they are spelt from a library
/// that fits.
///
/// So a place that is answered is the only one that could be.
pub fn one_fault()
    ensures syntax { (limit : ℕ) (tokens : List Token) (at other : ℕ)
        → IsSyntaxFault limit tokens at → IsSyntaxFault limit tokens other → at ≡ other }
    ensures too_deep { (limit : ℕ) (tokens : List Token) (at other : ℕ)
        → IsTooDeep limit tokens at → IsTooDeep limit tokens other → at ≡ other }
    ensures one_kind { (limit : ℕ) (tokens : List Token) (at other : ℕ)
        → IsSyntaxFault limit tokens at → ¬ (IsTooDeep limit tokens other) }
    ensures no_fault { (limit : ℕ) (l : LibraryTree) (at : ℕ)
        → ¬ (IsSyntaxFault limit (spelling l) at) }
    ensures fits { (limit : ℕ) (l : LibraryTree) (at : ℕ)
        → library_depth l ≤ limit → ¬ (IsTooDeep limit (spelling l) at) }
{}

// The machine that the parser follows takes each library that fits, and stops at the first fault.
fn machine()
    ensures takes { (limit : ℕ) (l : LibraryTree) → library_depth l ≤ limit
        → run limit (library ∷ []) (spelling l) ≡ right }
    ensures wrong { (limit : ℕ) (tokens rest : List Token) (at : ℕ)
        → at + length rest ≡ length tokens → run limit (library ∷ []) tokens ≡ wrong rest
        → IsSyntaxFault limit tokens at }
    ensures deep { (limit : ℕ) (tokens rest : List Token) (at : ℕ)
        → at + length rest ≡ length tokens → run limit (library ∷ []) tokens ≡ deep rest
        → IsTooDeep limit tokens at }
{}
