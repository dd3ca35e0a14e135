//! What a text is made of, besides blanks and comments.
ghost use Rattle.std.specs.Prelude.{◌≡◌, IsTrue, ◌↔◌};
ghost use Rattle.est_text.specs.declared.token.Token.TheVariants.{Keyword as KeywordToken};
ghost use Rattle.est_text.specs.declared.token.Token.TheVariants.{Symbol as SymbolToken};

use crate::identifier::Identifier;
use crate::keyword::Keyword;
use crate::place::Span;

/// A symbol of the language.
#[derive(Clone, Copy, PartialEq, Eq, Debug)]
pub enum Symbol {
    Colon,
    Semicolon,
    Comma,
    Slash,
    OpenBracket,
    CloseBracket,
    OpenParenthesis,
    CloseParenthesis,
    Parallel,
    Hash,
    Implies,
}

/// A keyword, an identifier that is no keyword, or a symbol.
#[derive(Clone, Copy, PartialEq, Eq)]
pub enum Token {
    Keyword(Keyword),
    Identifier(Identifier),
    Symbol(Symbol),
}

/// A token, and where it lies in its text.
#[derive(Clone, Copy, PartialEq, Eq)]
pub struct Located {
    pub token: Token,
    pub span: Span,
}

impl Token {
    /// Whether it is this keyword.
    pub fn is_keyword(&self, keyword: Keyword) -> bool
        ensures { IsTrue result ↔ (self.now ≡ KeywordToken keyword) }
    {
        match self {
            Token::Keyword(own) => *own == keyword,
            _ => false,
        }
    }

    /// Whether it is this symbol.
    pub fn is_symbol(&self, symbol: Symbol) -> bool
        ensures { IsTrue result ↔ (self.now ≡ SymbolToken symbol) }
    {
        match self {
            Token::Symbol(own) => *own == symbol,
            _ => false,
        }
    }
}
