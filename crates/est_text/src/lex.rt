//! From a text to its tokens.
ghost use Rattle.std.specs.Prelude.{◌≡◌, ◌++◌, IfOk, IfErr, OnOk, ◌<◌, ◌+◌, ◌^◌, List};
ghost use Rattle.std.specs.Result.{MatchResult};
ghost use Rattle.est_text.specs.declared.token.Located.{Located as LocatedValue};
ghost use Rattle.est_text.specs.declared.lex.LexFault.TheVariants.{Memory};
ghost use Rattle.est_text.specs.Pieces.{AreTokens, located};
ghost use Rattle.est_text.specs.Lexing.{IsLexFault};

use crate::piece::{Piece, first_piece};
use crate::place::{Place, Span, place_after};
use crate::token::Located;
use crate::token_list::{Tokens, front};
use std::alloc::{AllocError, Global};

/// Why a text has no tokens.
#[derive(Clone, Copy, PartialEq, Eq, Debug)]
pub enum LexFault {
    /// The first place where no blank, no comment and no token can stand.
    Lexical(Place),
    /// Memory was refused; or the text has 2^64 - 1 bytes, so that the place after its end has no
    /// number. No memory holds such a text.
    Memory,
}

impl From<AllocError> for LexFault {
    ghost use Rattle.std.specs.Prelude.{◌≡◌};
    ghost use Rattle.est_text.specs.declared.lex.LexFault.TheVariants.{Memory};

    ghost from_gives = { λ _ e. e ≡ Memory };

    fn from(_e: AllocError) -> LexFault {
        LexFault::Memory
    }
}

/// Adds the token that a piece of `count` bytes is, if it is one.
fn add(
    tokens: &mut Vec<Located>,
    piece: Piece,
    start: usize,
    count: usize,
) -> Result<(), AllocError>
    requires { start + count < 2 ^ 64 }
    ensures { OnOk result (tokens.new.items ≡ tokens.old.items ++ located piece start count) }
{
    if let Piece::Token(token) = piece {
        let end = start + count;
        tokens.push(Located {
            token,
            span: Span { start, end },
        })?;
    }
    Ok(())
}

/// The tokens of a text, or the first place where no token, no blank and no comment can stand.
pub fn lex(alloc: Global, text: &str) -> Result<Tokens<'_>, LexFault>
    ensures source { IfOk result (λ tokens. tokens.source ≡ text.now) }
    ensures tokens { IfOk result (λ tokens. AreTokens text.now tokens.located) }
    ensures takes { (all : List LocatedValue) → AreTokens text.now all
        → MatchResult result (λ tokens. tokens.located ≡ all) (λ fault. fault ≡ Memory) }
    ensures fault { IfErr result (λ fault. IsLexFault text.now fault) }
{
    // The place after the end of a text of 2^64 - 1 bytes has no number. No memory holds such a
    // text.
    if text.len() == usize::MAX {
        return Err(LexFault::Memory);
    }
    let mut tokens = Vec::new(alloc);
    let mut start = 0;
    let mut rest = text.as_bytes();
    while !rest.is_empty() {
        let Some((piece, count)) = first_piece(rest) else {
            let place = place_after(front(text.as_bytes(), start));
            return Err(LexFault::Lexical(place));
        };
        add(&mut tokens, piece, start, count)?;
        start += count;
        rest = rest.split_at(count).1;
    }
    Ok(Tokens::new(text, tokens))
}
