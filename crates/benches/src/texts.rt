//! What is done with a text: it is cut into its tokens, its tree is read, its kernel is made.

use anyhow::{Result, bail};
use est_kernel::kernel::Kernel;
use est_link::link::link;
use est_reduce::reduce::reduce;
use est_syntax::parse::parse;
use est_syntax::tree::Library;
use est_text::lex::lex;
use est_text::token_list::Tokens;
use std::alloc::Global;

/// The tokens of a text.
fn tokens_of(alloc: Global, text: &str) -> Result<Tokens<'_>> {
    match lex(alloc, text) {
        Ok(tokens) => Ok(tokens),
        Err(fault) => bail!("{fault:?}"),
    }
}

/// The tree of these tokens.
fn library_of(alloc: Global, tokens: &Tokens<'_>) -> Result<Library> {
    match parse(alloc, tokens) {
        Ok(library) => Ok(library),
        Err(fault) => bail!("{fault:?}"),
    }
}

/// The kernel of the module M of a text.
pub fn kernel_of(alloc: Global, text: &str) -> Result<Kernel> {
    let library = library_of(alloc, &tokens_of(alloc, text)?)?;
    let flat = match link(alloc, &library, "M") {
        Ok(flat) => flat,
        Err(fault) => bail!("{fault:?}"),
    };
    match reduce(alloc, &flat) {
        Ok(kernel) => Ok(kernel),
        Err(fault) => bail!("{fault:?}"),
    }
}

/// The sum of the places where the tokens end, in 64 bits.
fn ends_of(tokens: &Tokens<'_>) -> u64 {
    let mut ends = 0u64;
    for located in tokens.as_slice() {
        ends = ends.wrapping_add(located.span.end as u64);
    }
    ends
}

/// Reads a text as far as the word says, and answers what is printed of it.
fn read_once(alloc: Global, word: &str, text: &str) -> Result<String> {
    if word == "load" {
        let signals = kernel_of(alloc, text)?.interface().len();
        return Ok(format!(in alloc; "a kernel of {signals} signals")?);
    }
    let tokens = tokens_of(alloc, text)?;
    let (count, ends) = (tokens.as_slice().len(), ends_of(&tokens));
    if word == "lex" {
        return Ok(format!(in alloc; "{count} tokens, ends {ends}")?);
    }
    let modules = library_of(alloc, &tokens)?.later.len().saturating_add(1);
    Ok(format!(in alloc; "{count} tokens, ends {ends}; {modules} modules")?)
}

/// Reads a text again and again, at least once, and prints the last answer: what there is, or what
/// is wrong with it.
pub fn read_again(
    rt: &(impl Alloc<A = Global> + Print),
    word: &str,
    count: u64,
    text: &str,
) -> Result<()> {
    for _ in 1..count {
        let _ = read_once(rt.alloc(), word, text);
    }
    match read_once(rt.alloc(), word, text) {
        Ok(answer) => println!(rt; "{answer}")?,
        Err(fault) => println!(rt; "{fault}")?,
    }
    Ok(())
}
