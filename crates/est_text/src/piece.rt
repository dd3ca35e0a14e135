//! The piece of a text that stands first: a blank, a comment or a token.
ghost use Rattle.std.specs.Prelude.{◌≡◌, ◌≢◌, ◌<◌, length, IfSome, IfNone, IsTrue, slice_index};
ghost use Rattle.std.specs.Prelude.{false, ◌↔◌};
ghost use Rattle.std.specs.Char.{is_ascii_alphabetic};
ghost use Rattle.est_text.specs.Bytes.{percent, open_brace};
ghost use Rattle.est_text.specs.Pieces.{is_blank, IsPieceOf, IsFault};
ghost use Rattle.est_text.specs.declared.piece.Piece.TheVariants.{Token as TokenPiece};
ghost use Rattle.est_text.specs.declared.token.Token.TheVariants.{Symbol as SymbolToken};

use crate::identifier::Identifier;
use crate::keyword::keyword_of;
use crate::scan::{close_at, is_blank, line_len, word_len};
use crate::token::{Symbol, Token};

/// What a text is cut into.
#[derive(Clone, Copy, PartialEq, Eq)]
pub enum Piece {
    Blank,
    LineComment,
    BlockComment,
    Token(Token),
}

/// The symbol that stands first, and how many bytes it has.
fn symbol(rest: &[u8]) -> Option<(Symbol, usize)>
    requires some { 0 < length rest.now }
    requires blank { is_blank (slice_index rest.now 0) ≡ false }
    requires percent { slice_index rest.now 0 ≢ percent }
    requires letter { is_ascii_alphabetic (slice_index rest.now 0) ≡ false }
    ensures found { IfSome result (λ p. IsPieceOf (TokenPiece (SymbolToken p.0)) p.1 rest.now) }
    ensures none { IfNone result (IsFault rest.now) }
{
    match rest {
        [b':', ..] => Some((Symbol::Colon, 1)),
        [b';', ..] => Some((Symbol::Semicolon, 1)),
        [b',', ..] => Some((Symbol::Comma, 1)),
        [b'/', ..] => Some((Symbol::Slash, 1)),
        [b'[', ..] => Some((Symbol::OpenBracket, 1)),
        [b']', ..] => Some((Symbol::CloseBracket, 1)),
        [b'(', ..] => Some((Symbol::OpenParenthesis, 1)),
        [b')', ..] => Some((Symbol::CloseParenthesis, 1)),
        [b'#', ..] => Some((Symbol::Hash, 1)),
        [b'|', b'|', ..] => Some((Symbol::Parallel, 2)),
        [b'=', b'>', ..] => Some((Symbol::Implies, 2)),
        _ => None,
    }
}

/// The keyword or the identifier that stands first. There is none where the word is longer than an
/// identifier may be.
fn word(rest: &[u8]) -> Option<(Token, usize)>
    requires some { 0 < length rest.now }
    requires letter { IsTrue (is_ascii_alphabetic (slice_index rest.now 0)) }
    ensures found { IfSome result (λ p. IsPieceOf (TokenPiece p.0) p.1 rest.now) }
    ensures none { IfNone result (IsFault rest.now) }
{
    let count = word_len(rest);
    let Some(name) = Identifier::from_bytes(rest.split_at(count).0) else {
        return None;
    };
    match keyword_of(name.as_str()) {
        Some(keyword) => Some((Token::Keyword(keyword), count)),
        None => Some((Token::Identifier(name), count)),
    }
}

fn is_block(rest: &[u8]) -> bool
    ensures { IsTrue result ↔ ((1 < length rest.now) × (slice_index rest.now 1 ≡ open_brace)) }
{
    rest.len() > 1 && rest[1] == b'{'
}

/// The comment up to `}%` that stands first. There is none where it is not closed.
fn block(rest: &[u8]) -> Option<(Piece, usize)>
    requires some { 1 < length rest.now }
    requires percent { slice_index rest.now 0 ≡ percent }
    requires brace { slice_index rest.now 1 ≡ open_brace }
    ensures found { IfSome result (λ p. IsPieceOf p.0 p.1 rest.now) }
    ensures none { IfNone result (IsFault rest.now) }
{
    let (_, inside) = rest.split_at(2);
    match close_at(inside) {
        Some(at) => Some((Piece::BlockComment, at + 4)),
        None => None,
    }
}

/// The comment to the end of the line that stands first.
fn line(rest: &[u8]) -> (Piece, usize)
    requires some { 0 < length rest.now }
    requires percent { slice_index rest.now 0 ≡ percent }
    requires brace { 1 < length rest.now → slice_index rest.now 1 ≢ open_brace }
    ensures { IsPieceOf result.0 result.1 rest.now }
{
    (Piece::LineComment, line_len(rest))
}

/// The comment that stands first. There is none where it is not closed.
fn comment(rest: &[u8]) -> Option<(Piece, usize)>
    requires some { 0 < length rest.now }
    requires percent { slice_index rest.now 0 ≡ percent }
    ensures found { IfSome result (λ p. IsPieceOf p.0 p.1 rest.now) }
    ensures none { IfNone result (IsFault rest.now) }
{
    if is_block(rest) {
        block(rest)
    } else {
        Some(line(rest))
    }
}

/// The piece that stands first, and how many bytes it has. There is none where no piece can begin
/// so.
pub(crate) fn first_piece(rest: &[u8]) -> Option<(Piece, usize)>
    requires { 0 < length rest.now }
    ensures found { IfSome result (λ p. IsPieceOf p.0 p.1 rest.now) }
    ensures none { IfNone result (IsFault rest.now) }
{
    let first = rest[0];
    if is_blank(first) {
        Some((Piece::Blank, 1))
    } else if first == b'%' {
        comment(rest)
    } else if first.is_ascii_alphabetic() {
        let (token, count) = word(rest)?;
        Some((Piece::Token(token), count))
    } else {
        let (symbol, count) = symbol(rest)?;
        Some((Piece::Token(Token::Symbol(symbol)), count))
    }
}
