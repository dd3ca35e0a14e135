//! The lines of `instant` and `try`, read token by token where their keys stand in order, without a
//! tree of values.
//!
//! A line that is not read here may still ask for something: then the JSON value says so
//! (`reading`).
ghost use Rattle.std.specs.Prelude.{◌≡◌, IfOk, IfSome, map, option_map};
ghost use Rattle.lab_lines.specs.Requests.{Asks};
ghost use Rattle.lab_lines.specs.Inner.InstantLines.{inputs_at, texts_in};

use crate::request::Request;
use json::{Reader, Scratch, Token};
use std::alloc::{AllocError, Global};
use wire_lines::members::{begin_list, take_end, take_word};

/// Takes the texts that come next, and the bracket after them.
#[tactic(auto, unfolding(crate::specs::Inner::InstantLines::texts_in))]
fn take_texts<'a>(
    alloc: Global,
    reader: &mut Reader<'a>,
) -> Result<Option<Vec<&'a str>>, AllocError>
    ensures { IfOk result (λ texts. option_map (λ v. (map (λ t. t.now) v.items, reader.new)) texts
        ≡ texts_in reader.old) }
{
    let mut texts = Vec::new(alloc);
    while let Some(token) = reader.next() {
        match token {
            Token::EndArray => return Ok(Some(texts)),
            Token::String(text) => texts.push(text)?,
            _ => return Ok(None),
        }
    }
    Ok(None)
}

/// The list of texts under the key `inputs`, where it is the last member.
#[tactic(auto, unfolding(crate::specs::Inner::InstantLines::inputs_at))]
fn read_inputs<'a>(
    alloc: Global,
    reader: &mut Reader<'a>,
) -> Result<Option<Vec<&'a str>>, AllocError>
    ensures { IfOk result (λ names. option_map (λ v. map (λ t. t.now) v.items) names
        ≡ inputs_at reader.old) }
{
    if begin_list(reader, "inputs").is_none() {
        return Ok(None);
    }
    let Some(names) = take_texts(alloc, reader)? else {
        return Ok(None);
    };
    match take_end(reader) {
        Some(()) => Ok(Some(names)),
        None => Ok(None),
    }
}

/// The request of a line of `instant` or `try` whose keys stand in order. Memory that the scratch
/// took for one line serves the next.
///
/// # Errors
///
/// `AllocError` where memory is refused.
pub fn read_instant<'a>(
    alloc: Global,
    scratch: &'a mut Scratch,
    text: &'a str,
) -> Result<Option<Request<'a>>, AllocError>
    ensures { IfOk result (λ read. IfSome read (Asks text.now)) }
{
    let mut reader = Reader::new(text, scratch)?;
    let Some(word) = take_word(&mut reader) else {
        return Ok(None);
    };
    match word {
        "instant" => match read_inputs(alloc, &mut reader)? {
            Some(names) => Ok(Some(Request::Instant(names))),
            None => Ok(None),
        },
        "try" => match read_inputs(alloc, &mut reader)? {
            Some(names) => Ok(Some(Request::Try(names))),
            None => Ok(None),
        },
        _ => Ok(None),
    }
}
