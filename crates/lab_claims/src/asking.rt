//! Tests as texts: a test is read by the grammar that modules have, as that of a `present` of a
//! module that has the same signals and does nothing else.

ghost use Rattle.std.specs.Prelude.{◌≡◌, ◌++◌, IfErr, IfOk, OnOk, codes, string_bytes};
ghost use Rattle.std.specs.List.{flat_map};
ghost use Rattle.std.specs.Result.{MatchResult};
ghost use Rattle.reactor_core.specs.Loading.{Gives};
ghost use Rattle.reactor_core.specs.Standing.{given_by};
ghost use Rattle.lab_lines.specs.Tests.{test_of};
ghost use Rattle.lab_claims.specs.Claims.{HasTestTokens, IsTestText, asking_text};
ghost use Rattle.lab_claims.specs.Claims.{declaration_text, first_other, is_of_tests, kind_word};
ghost use Rattle.lab_claims.specs.Refused.{HasNoTestTokens, IsAskingFault, IsTestFault};
ghost use Rattle.lab_claims.specs.Refused.{at_start, refusal_of_test};

use est_kernel::interface::{Declaration, Interface, Kind};
use est_text::keyword::Keyword;
use est_text::lex::lex;
use est_text::place::Place;
use est_text::token::{Located, Symbol, Token};
use lab_lines::asked_test::AskedTest;
use lab_lines::comparing::are_same;
use reactor_core::kernel_module::Module;
use reactor_core::reading::read_module;
use reactor_core::refusal::{ModuleRefusal, ReactorRefusal};
use std::alloc::{AllocError, Global};

/// A fault of the grammar where a text begins.
pub(crate) fn at_start() -> ReactorRefusal
    ensures { result ≡ at_start }
{
    ReactorRefusal::Module(ModuleRefusal::Syntax(Place { line: 1, column: 1 }))
}

/// Whether a test may have this token.
fn is_of_tests(token: &Token) -> bool
    ensures { result ≡ is_of_tests token.now }
{
    match token {
        Token::Identifier(_) => true,
        Token::Keyword(Keyword::Not | Keyword::And | Keyword::Or) => true,
        Token::Keyword(_) => false,
        Token::Symbol(Symbol::OpenParenthesis | Symbol::CloseParenthesis) => true,
        Token::Symbol(_) => false,
    }
}

/// The number, from 0, of the first token that no test may have.
fn first_other(located: &[Located]) -> Option<usize>
    ensures { result ≡ first_other located.now }
{
    located.iter().position(|token| !is_of_tests(&token.token))
}

/// Fails at the first token that no test may have.
fn check_tokens(alloc: Global, text: &str) -> Result<(), ReactorRefusal>
    ensures { MatchResult result (λ _. HasTestTokens text.now) (HasNoTestTokens text.now) }
{
    let tokens = lex(alloc, text)?;
    match first_other(tokens.as_slice()) {
        None => Ok(()),
        Some(at) => Err(ReactorRefusal::Module(ModuleRefusal::Syntax(tokens.place(at)))),
    }
}

/// The word with which a signal of this kind is declared.
fn word_of(kind: Kind) -> &'static str
    ensures { result.now ≡ kind_word kind }
{
    match kind {
        Kind::Input => "input ",
        Kind::Output => "output ",
        Kind::InputOutput => "inputoutput ",
    }
}

/// Adds a declaration, as it is written.
fn push_declaration(text: &mut String, declaration: &Declaration) -> Result<(), AllocError>
    ensures { OnOk result (string_bytes text.new
        ≡ string_bytes text.old ++ declaration_text declaration.now) }
{
    text.push_str(word_of(declaration.kind))?;
    text.push_str(declaration.name.as_str())?;
    text.push_str("; ")
}

/// The beginning of a module with this interface.
fn declarations_text(alloc: Global, interface: &Interface) -> Result<String, AllocError>
    ensures { IfOk result (λ s. string_bytes s
        ≡ codes "module M: " ++ flat_map declaration_text interface.now) }
{
    let mut text = String::from_str(alloc, "module M: ")?;
    let declarations = interface.declarations();
    for declaration in declarations {
        push_declaration(&mut text, declaration)?;
    }
    Ok(text)
}

/// A module with this interface that asks the test and does nothing else. The test's text is in
/// lines of its own, from the second on.
fn asking_text(alloc: Global, interface: &Interface, test: &str) -> Result<String, AllocError>
    ensures { IfOk result (λ s. string_bytes s ≡ asking_text interface.now test.now) }
{
    let mut text = declarations_text(alloc, interface)?;
    text.push_str("present [\n")?;
    text.push_str(test)?;
    text.push_str("\n] then nothing end end module")?;
    Ok(text)
}

/// The refusal of a test, of that of the module that asks it, where it begins in the second line.
fn of_test(refusal: ReactorRefusal) -> ReactorRefusal
    ensures { result ≡ refusal_of_test refusal }
{
    match refusal {
        ReactorRefusal::Module(ModuleRefusal::Syntax(place)) => {
            ReactorRefusal::Module(ModuleRefusal::Syntax(Place {
                line: place.line.saturating_sub(1),
                column: place.column,
            }))
        }
        other => other,
    }
}

/// The module M of a text that asks a test.
fn read_asking(alloc: Global, text: &str) -> Result<Module, ReactorRefusal>
    ensures { MatchResult result (λ m. Gives (codes "M") text.now (given_by m))
        (IsAskingFault text.now) }
{
    match read_module(alloc, "M", text) {
        Ok(asking) => Ok(asking),
        Err(refusal) => Err(of_test(refusal)),
    }
}

/// The test that a text spells over the signals of an interface.
///
/// # Errors
///
/// Where it spells none; or where memory is refused.
pub fn read_test(
    alloc: Global,
    interface: &Interface,
    text: &str,
) -> Result<AskedTest, ReactorRefusal>
    ensures read { IfOk result (λ a. IsTestText interface.now text.now (test_of a)) }
    ensures fault { IfErr result (IsTestFault interface.now text.now) }
{
    check_tokens(alloc, text)?;
    let words = asking_text(alloc, interface, text)?;
    let asking = read_asking(alloc, words.as_str())?;
    if !are_same(asking.kernel.interface(), interface) {
        return Err(at_start());
    }
    let Module { kernel, .. } = asking;
    match AskedTest::of(kernel) {
        Some(test) => Ok(test),
        None => Err(at_start()),
    }
}
