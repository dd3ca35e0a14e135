//! From the tokens of a text to the tree of its library.
ghost use Rattle.std.specs.Prelude.{◌≡◌, ◌≤◌, IfOk, IfErr};
ghost use Rattle.std.specs.Result.{MatchResult};
ghost use Rattle.est_syntax.specs.Grammar.{tokens_of, spelling, library_depth};
ghost use Rattle.est_syntax.specs.Tree.{LibraryTree};
ghost use Rattle.est_syntax.specs.Views.{library_view};
ghost use Rattle.est_syntax.specs.ParseFaults.{IsParseFault};
ghost use Rattle.est_syntax.specs.declared.parse.TheConstants.{MOST_OPEN_UNITS};
ghost use Rattle.est_syntax.specs.declared.parse.ParseFault.TheVariants.{Memory};

use crate::cursor::Cursor;
use crate::fault::ParserStop;
use crate::modules::library;
use crate::tree::Library;
use est_text::place::Place;
use est_text::token_list::Tokens;
use std::alloc::Global;

/// The most units that may be open at once. Each unit that holds a statement counts: a `present`, a
/// frame such as `loop` or `signal`, and a statement in brackets. In a test each `not` and each
/// parenthesis counts too.
pub const MOST_OPEN_UNITS: usize = 128;

/// Why tokens have no tree.
#[derive(Clone, Copy, PartialEq, Eq, Debug)]
pub enum ParseFault {
    /// The place of the first token with which the tokens so far begin no library, or the place
    /// just after a text that ends too early.
    Syntax(Place),
    /// The place of the token that opens one unit more than `MOST_OPEN_UNITS`.
    TooLarge(Place),
    /// Memory was refused.
    Memory,
}

/// The tree that the tokens of a text are spelt from, or the first place where they stop being the
/// beginning of a library. The grammar is that of Berry's Esterel v5 Language Primer, without
/// values; some closing keywords may be left out. The first fault in the text counts, whether it is
/// one of syntax or of nesting. Memory is taken for the tree alone.
pub fn parse(alloc: Global, tokens: &Tokens) -> Result<Library, ParseFault>
    ensures spelt { IfOk result (λ l. tokens_of tokens.now.located ≡ spelling (library_view l)) }
    ensures depth { IfOk result (λ l. library_depth (library_view l) ≤ MOST_OPEN_UNITS) }
    ensures takes { (l : LibraryTree) → tokens_of tokens.now.located ≡ spelling l
        → library_depth l ≤ MOST_OPEN_UNITS
        → MatchResult result (λ k. library_view k ≡ l) (λ fault. fault ≡ Memory) }
    ensures fault { IfErr result (λ fault. IsParseFault MOST_OPEN_UNITS tokens.now fault) }
{
    let located = tokens.as_slice();
    let mut cursor = Cursor::new(located);
    match library(alloc, &mut cursor) {
        Ok(library) => Ok(library),
        Err(ParserStop::Syntax(left)) => Err(ParseFault::Syntax(tokens.place(
            located.len() - left,
        ))),
        Err(ParserStop::TooDeep(left)) => Err(ParseFault::TooLarge(tokens.place(
            located.len() - left,
        ))),
        Err(ParserStop::Memory) => Err(ParseFault::Memory),
    }
}
