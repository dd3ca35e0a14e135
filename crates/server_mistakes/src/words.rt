//! What the words of a command line ask for.
ghost use Rattle.std.specs.Prelude.{IfOk, IfErr, map};
ghost use Rattle.program_words.specs.Words.{IsInvocation, IsRefused};

use program_words::fault::WordFault;
use program_words::invocation::Invocation;
use std::alloc::Global;
use std::convert::AsStr;

/// The invocation that the words give, of which the first is the program's own name.
///
/// # Errors
///
/// Words, where they are no invocation, or ask for help; Memory, where memory was refused.
pub fn from_words<'a, S: AsStr>(alloc: Global, words: &'a [S]) -> Result<Invocation<'a>, WordFault>
    ensures ok { IfOk result (IsInvocation (map S.text words.entry.now)) }
    ensures refused { IfErr result (IsRefused (map S.text words.entry.now)) }
{
    Invocation::from_words(alloc, words)
}
