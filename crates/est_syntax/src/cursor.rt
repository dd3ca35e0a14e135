//! A walk over tokens.
ghost use Rattle.std.specs.Prelude.{◌≡◌, ◌≤◌, ◌∷◌, [], List, length, IsTrue, IfOk, IfErr, OnOk};
ghost use Rattle.std.specs.Prelude.{MatchOption, false};
ghost use Rattle.est_text.specs.declared.token.Token.TheVariants.{Keyword as KeywordToken};
ghost use Rattle.est_text.specs.declared.token.Token.TheVariants.{Identifier as IdentifierToken};
ghost use Rattle.est_text.specs.declared.token.Token.TheVariants.{Symbol as SymbolToken};
ghost use Rattle.est_syntax.specs.Inner.Machine.{one, may, name as name_want, Skips};
ghost use Rattle.est_syntax.specs.Inner.Parsing.{Fails, StandsFirst, NotMemory};
ghost use Rattle.est_syntax.specs.Inner.Parts.{Leads};
ghost use Rattle.est_syntax.specs.Grammar.{tokens_of};

use crate::fault::ParserStop;
use est_text::identifier::Identifier;
use est_text::keyword::Keyword;
use est_text::token::{Located, Symbol, Token};
use std::marker::Model;

/// The tokens that are left. A contract sees the list of them, without their places.
#[derive(Drop)]
pub struct Cursor<'a> {
    left: &'a [Located],
}

impl<'a> Model for Cursor<'a> {
    ghost use Rattle.std.specs.Prelude.{List};
    ghost use Rattle.est_text.specs.declared.token.Token.{Token};
    ghost use Rattle.est_syntax.specs.Grammar.{tokens_of};

    ghost Value = { List Token };

    ghost view = { λ c. tokens_of c.left.now };
}

impl<'a> Cursor<'a> {
    /// A walk from the first of these tokens on.
    pub fn new(left: &'a [Located]) -> Cursor<'a>
        ensures { result ≡ tokens_of left.now }
    {
        Cursor { left }
    }

    /// Another walk from here on.
    pub fn fork(&self) -> Cursor<'a>
        ensures { result ≡ self.now }
    {
        Cursor { left: self.left }
    }

    /// How many tokens are left.
    pub fn count(&self) -> usize
        ensures { result ≡ length self.now }
    {
        self.left.len()
    }

    /// The first token, if one is left.
    pub fn peek(&self) -> Option<&'a Token>
        ensures { MatchOption result (self.now ≡ []) (λ first. StandsFirst first.now self.now) }
    {
        match self.left {
            [first, ..] => Some(&first.token),
            [] => None,
        }
    }

    /// Goes past the first token, if one is left, and answers it.
    pub fn next(&mut self) -> Option<&'a Token>
        ensures { MatchOption result (self.old ≡ []) (λ first. self.old ≡ first.now ∷ self.new) }
    {
        let (first, rest) = self.left.split_first()?;
        self.left = rest;
        Some(&first.token)
    }

    /// Goes past the keyword if it stands first, and answers whether it does.
    pub fn take_keyword(&mut self, keyword: Keyword) -> bool
        ensures first { IsTrue result → self.old ≡ KeywordToken keyword ∷ self.new }
        ensures same { result ≡ false → self.new ≡ self.old }
        ensures other { result ≡ false → Skips (KeywordToken keyword) self.old }
        ensures shorter { length self.new ≤ length self.old }
        ensures passes { Leads (may (KeywordToken keyword) ∷ []) self.old self.new }
    {
        let Some((first, rest)) = self.left.split_first() else {
            return false;
        };
        let stands = first.token.is_keyword(keyword);
        if stands {
            self.left = rest;
        }
        stands
    }

    /// Goes past the symbol if it stands first, and answers whether it does.
    pub fn take_symbol(&mut self, symbol: Symbol) -> bool
        ensures first { IsTrue result → self.old ≡ SymbolToken symbol ∷ self.new }
        ensures same { result ≡ false → self.new ≡ self.old }
        ensures other { result ≡ false → Skips (SymbolToken symbol) self.old }
        ensures shorter { length self.new ≤ length self.old }
    {
        let Some((first, rest)) = self.left.split_first() else {
            return false;
        };
        let stands = first.token.is_symbol(symbol);
        if stands {
            self.left = rest;
        }
        stands
    }

    /// Goes past the keyword, which has to stand first.
    pub fn expect_keyword(&mut self, keyword: Keyword) -> Result<(), ParserStop>
        ensures ok { OnOk result (self.old ≡ KeywordToken keyword ∷ self.new) }
        ensures err { IfErr result (λ e. Fails (one (KeywordToken keyword) ∷ []) self.old e) }
        ensures memory { IfErr result NotMemory }
    {
        let here = self.count();
        if self.take_keyword(keyword) {
            Ok(())
        } else {
            Err(ParserStop::Syntax(here))
        }
    }

    /// Goes past the symbol, which has to stand first.
    pub fn expect_symbol(&mut self, symbol: Symbol) -> Result<(), ParserStop>
        ensures ok { OnOk result (self.old ≡ SymbolToken symbol ∷ self.new) }
        ensures err { IfErr result (λ e. Fails (one (SymbolToken symbol) ∷ []) self.old e) }
        ensures memory { IfErr result NotMemory }
    {
        let here = self.count();
        if self.take_symbol(symbol) {
            Ok(())
        } else {
            Err(ParserStop::Syntax(here))
        }
    }

    /// Goes past the identifier that has to stand first, and answers it.
    pub fn expect_name(&mut self) -> Result<Identifier, ParserStop>
        ensures ok { IfOk result (λ name. self.old ≡ IdentifierToken name ∷ self.new) }
        ensures err { IfErr result (λ e. Fails (name_want ∷ []) self.old e) }
        ensures memory { IfErr result NotMemory }
    {
        let here = self.count();
        let Some(first) = self.next() else {
            return Err(ParserStop::Syntax(here));
        };
        match first {
            Token::Identifier(name) => Ok(*name),
            _ => Err(ParserStop::Syntax(here)),
        }
    }
}
