//! What holds of every text: it can be cut in one way.
ghost use Rattle.std.specs.Prelude.{◌≡◌, ◌++◌, ℕ, List, []};
ghost use Rattle.est_text.specs.Lexing.{IsFirstFault};
ghost use Rattle.est_text.specs.Pieces.{Cut, ArePieces, AreTokens, IsPiece};
ghost use Rattle.est_text.specs.declared.piece.Piece.{Piece};
ghost use Rattle.est_text.specs.declared.token.Located.{Located};

/// At the front of a text stands one piece at most: the longest match is the only one.
pub fn one_piece_stands_first()
    ensures { (p q : Piece) (bytes rest others more : List ℕ) → IsPiece p bytes rest
        → IsPiece q others more → bytes ++ rest ≡ others ++ more → (p ≡ q) × (bytes ≡ others) }
{}

/// A text can be cut in one way, so it has one list of tokens at most.
pub fn one_cut()
    ensures pieces { (text : List ℕ) (cs ds : List Cut) → ArePieces text cs []
        → ArePieces text ds [] → cs ≡ ds }
    ensures tokens { (text : List ℕ) (tokens others : List Located) → AreTokens text tokens
        → AreTokens text others → tokens ≡ others }
{}

/// A text has one first fault at most, and only where it has no tokens.
pub fn one_fault()
    ensures same { (text : List ℕ) (at other : ℕ) → IsFirstFault text at
        → IsFirstFault text other → at ≡ other }
    ensures no_tokens { (text : List ℕ) (tokens : List Located) (at : ℕ)
        → AreTokens text tokens → ¬ (IsFirstFault text at) }
{}
