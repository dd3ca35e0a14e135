//! Claims as texts: `never T` and `always T`, where T is a test of the language.

ghost use Rattle.std.specs.Prelude.{◌≡◌, ◌≢◌, ◌++◌, ℕ, List, IfErr, IfOk, map, string_bytes};
ghost use Rattle.std.specs.Option.{MatchOption};
ghost use Rattle.lab_lines.specs.Tests.{test_of};
ghost use Rattle.lab_claims.specs.Claims.{AreClaimTexts, IsClaimText, IsTestText, denial_text};
ghost use Rattle.lab_claims.specs.Refused.{IsClaimFault, IsFirstBad, IsPartFault, moved};
ghost use Rattle.lab_claims.specs.Refused.{refusal_of_claim};

use crate::asking::{at_start, read_test};
use est_kernel::interface::Interface;
use est_text::place::Place;
use lab_lines::asked_test::AskedTest;
use reactor_core::refusal::{ModuleRefusal, ReactorRefusal};
use std::alloc::{AllocError, Global};

/// How many bytes stand before the test of `always T`.
const ALWAYS_BYTES: u64 = "always ".len() as u64;

/// How many bytes stand before the test of `never T`.
const NEVER_BYTES: u64 = "never ".len() as u64;

/// The place in a claim, of that in its test, before which so many bytes stand.
fn moved(place: Place, before: u64) -> Place
    ensures { result ≡ moved place before }
{
    let column = if place.line == 1 {
        place.column.saturating_add(before)
    } else {
        place.column
    };
    Place {
        line: place.line,
        column,
    }
}

/// The refusal of a claim, of that of its test.
fn of_claim(refusal: ReactorRefusal, before: u64) -> ReactorRefusal
    ensures { result ≡ refusal_of_claim refusal before }
{
    match refusal {
        ReactorRefusal::Module(ModuleRefusal::Lexical(place)) => {
            ReactorRefusal::Module(ModuleRefusal::Lexical(moved(place, before)))
        }
        ReactorRefusal::Module(ModuleRefusal::Syntax(place)) => {
            ReactorRefusal::Module(ModuleRefusal::Syntax(moved(place, before)))
        }
        other => other,
    }
}

/// `not (T)`, where T is this text.
fn denial(alloc: Global, text: &str) -> Result<String, AllocError>
    ensures { IfOk result (λ s. string_bytes s ≡ denial_text text.now) }
{
    let mut denial = String::from_str(alloc, "not (")?;
    denial.push_str(text)?;
    denial.push_str("\n)")?;
    Ok(denial)
}

/// The test of a claim, before which so many bytes stand.
fn read_part(
    alloc: Global,
    interface: &Interface,
    text: &str,
    before: u64,
) -> Result<AskedTest, ReactorRefusal>
    ensures read { IfOk result (λ a. IsTestText interface.now text.now (test_of a)) }
    ensures fault { IfErr result (IsPartFault interface.now text.now before) }
{
    match read_test(alloc, interface, text) {
        Ok(test) => Ok(test),
        Err(refusal) => Err(of_claim(refusal, before)),
    }
}

/// What follows the word with which a claim begins, if it begins with it.
fn after<'a>(claim: &'a str, word: &str) -> Option<&'a str>
    ensures { MatchOption result ((text : List ℕ) → claim.now ≢ word.now ++ text)
        (λ text. claim.now ≡ word.now ++ text.now) }
{
    claim.strip_prefix(word)
}

/// The test that has to hold in each instant by a claim.
///
/// # Errors
///
/// Where the text is no claim; or where memory is refused.
pub fn read_claim(
    alloc: Global,
    interface: &Interface,
    claim: &str,
) -> Result<AskedTest, ReactorRefusal>
    ensures read { IfOk result (λ a. IsClaimText interface.now claim.now (test_of a)) }
    ensures fault { IfErr result (IsClaimFault interface.now claim.now) }
{
    if let Some(text) = after(claim, "always ") {
        let test = read_part(alloc, interface, text, ALWAYS_BYTES)?;
        return Ok(test);
    }
    let Some(text) = after(claim, "never ") else {
        return Err(at_start());
    };
    let _part = read_part(alloc, interface, text, NEVER_BYTES)?;
    let denial = denial(alloc, text)?;
    let test = read_test(alloc, interface, denial.as_str())?;
    Ok(test)
}

/// A claim that can't be read.
#[derive(Drop)]
pub struct BadClaim {
    /// Its number, from 1.
    pub number: usize,
    /// Why.
    pub why: ReactorRefusal,
}

/// The tests of claims, or the first claim that can't be read.
pub fn read_claims(
    alloc: Global,
    interface: &Interface,
    claims: &[&str],
) -> Result<Result<Vec<AskedTest>, BadClaim>, AllocError>
    ensures read { IfOk result (λ read. IfOk read (λ tests. AreClaimTexts interface.now
        (map (λ t. t.now) claims.now) (map test_of tests.items))) }
    ensures fault { IfOk result (λ read. IfErr read
        (IsFirstBad interface.now (map (λ t. t.now) claims.now))) }
{
    let mut tests = Vec::new(alloc);
    for claim in claims {
        match read_claim(alloc, interface, claim) {
            Ok(test) => tests.push(test)?,
            Err(why) => {
                let number = tests.len() + 1;
                return Ok(Err(BadClaim { number, why }));
            }
        }
    }
    Ok(Ok(tests))
}
