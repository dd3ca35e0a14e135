//! The tokens of one text, in order.
ghost use Rattle.std.specs.Prelude.{◌≡◌, ◌≤◌, ◌<◌, ◌+◌, ◌^◌, length, take, None, IfSome, IfNone};
ghost use Rattle.std.specs.Prelude.{slice_get, slice_range};
ghost use Rattle.est_text.specs.Places.{place_after};
ghost use Rattle.est_text.specs.Pieces.{AreTokens};
ghost use Rattle.est_text.specs.TokenLists.{TokenList, IsTextOf, StandsIn, place_of};

use crate::place::{Place, Span, place_after};
use crate::token::Located;
use std::marker::Model;

/// A text and its tokens. A contract sees the list of its bytes, and the list of the tokens with
/// their spans.
#[derive(Drop)]
pub struct Tokens<'a> {
    source: &'a str,
    located: Vec<Located>,
}

impl<'a> Model for Tokens<'a> {
    ghost use Rattle.est_text.specs.TokenLists.{TokenList, IsTokenList};

    ghost Value = { TokenList };

    ghost view = { λ t. record { source = t.source.now; located = t.located.items } };

    ghost invariant = { λ t. IsTokenList t.source.now t.located.items };
}

/// The first `count` bytes.
pub(crate) fn front(bytes: &[u8], count: usize) -> &[u8]
    requires { count ≤ length bytes.now }
    ensures { result.now ≡ take count bytes.now }
{
    bytes.split_at(count).0
}

/// The token of this number, counted from 0.
fn at(tokens: &[Located], index: usize) -> Option<Located>
    ensures { result ≡ slice_get tokens.now index }
{
    tokens.get(index).copied()
}

/// The bytes of a span.
fn part(bytes: &[u8], span: Span) -> &[u8]
    requires ordered { span.start ≤ span.end }
    requires within { span.end ≤ length bytes.now }
    ensures { result.now ≡ slice_range bytes.now span.start span.end }
{
    &bytes[span.start..span.end]
}

impl<'a> Tokens<'a> {
    /// A text with its tokens.
    pub(crate) fn new(source: &'a str, located: Vec<Located>) -> Tokens<'a>
        requires short { length source.now + 1 < 2 ^ 64 }
        requires cut { AreTokens source.now located.items }
        ensures source { result.source ≡ source.now }
        ensures located { result.located ≡ located.items }
    {
        Tokens { source, located }
    }

    /// The text that the tokens were cut from.
    pub fn source(&self) -> &'a str
        ensures { result.now ≡ self.now.source }
    {
        self.source
    }

    /// The tokens in the order of the text, each with its span.
    pub fn as_slice(&self) -> &[Located]
        ensures same { result.now ≡ self.now.located }
        ensures cut { AreTokens self.now.source self.now.located }
    {
        self.located.as_slice()
    }

    /// The token of this number, counted from 0, with its span, if there is one.
    pub fn get(&self, index: usize) -> Option<Located>
        ensures token { result ≡ slice_get self.now.located index }
        ensures stands { IfSome result (StandsIn self.now.source) }
        ensures short { length self.now.source + 1 < 2 ^ 64 }
    {
        at(self.located.as_slice(), index)
    }

    /// The bytes of the text that spell the token of this number. There are none past the last
    /// token.
    pub fn text(&self, index: usize) -> Option<&'a [u8]>
        ensures token { IfSome result (λ text. IsTextOf self.now index text.now) }
        ensures none { IfNone result (slice_get self.now.located index ≡ None) }
    {
        match self.get(index) {
            Some(located) => Some(part(self.source.as_bytes(), located.span)),
            None => None,
        }
    }

    /// The place of the token of this number, counted from 0; past the last, the place just after
    /// the text.
    pub fn place(&self, index: usize) -> Place
        ensures { result ≡ place_of self.now index }
    {
        match self.get(index) {
            Some(located) => place_after(front(self.source.as_bytes(), located.span.start)),
            None => self.end(),
        }
    }

    /// The place just after the last byte of the text.
    pub fn end(&self) -> Place
        ensures { result ≡ place_after self.now.source }
    {
        place_after(self.source.as_bytes())
    }
}
