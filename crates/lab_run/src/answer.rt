//! From a line to the line of its answer.
//!
//! A line of `instant` or `try` is read token by token where its keys stand in order. Of any other
//! line the JSON value is read as a tree.

ghost use Rattle.std.specs.Prelude.{◌≡◌, IfOk, IfErr, MatchOption};
ghost use Rattle.std.specs.Cow.{cow_slice_items};
ghost use Rattle.serde_json.specs.View.{view};
ghost use Rattle.lab_run.specs.Lines.{HasNoText, IsAnswer, IsLineOf, IsTextOf, IsTold};
ghost use Rattle.lab_run.specs.Lines.{IsAsked, IsReadAs, IsValueTold};

use crate::lab::{Lab, LabReply};
use access_core::refusal::Refusal;
use access_core::reply::Reply;
use json::Scratch;
use lab_lines::instant_lines::read_instant;
use lab_lines::reading::request_of;
use serde_json::Value;
use serde_json::error::Category;
use std::alloc::{AllocError, Global};
use std::borrow::CowSlice;
use wire_lines::reply::reply_text;
use wire_reader::serving::{AnswerText, Answerer};

/// The JSON value of a line, or NotJson or Memory.
fn value_of(alloc: Global, line: &[u8]) -> Result<Value, Refusal>
    ensures { IsReadAs line.now result }
{
    match Value::from_slice(alloc, line) {
        Ok(value) => Ok(value),
        Err(fault) if fault.classify() == Category::Memory => Err(Refusal::Memory),
        Err(_) => Err(Refusal::NotJson),
    }
}

/// What a value is told.
fn answer_value(alloc: Global, lab: &mut Lab, value: &Value) -> Result<LabReply, AllocError>
    ensures done { IfOk result (λ told. IsValueTold lab.old.stepped (view value.now) told
        lab.new.stepped) }
    ensures kept { IfErr result (λ _. lab.new ≡ lab.old) }
{
    match request_of(alloc, value)? {
        Some(request) => {
            let told = lab.obey(alloc, &request)?;
            Ok(told)
        }
        None => Ok(LabReply::Refused(Refusal::NotARequest)),
    }
}

/// What a line is told whose value is read as a tree.
fn answer_tree(alloc: Global, lab: &mut Lab, line: &[u8]) -> LabReply
    ensures { IsTold lab.old.stepped line.now result lab.new.stepped }
{
    match value_of(alloc, line) {
        Ok(value) => match answer_value(alloc, lab, &value) {
            Ok(told) => told,
            Err(_) => LabReply::Refused(Refusal::Memory),
        },
        Err(refusal) => LabReply::Refused(refusal),
    }
}

/// What a text is told that is read token by token; none where its value has to be read as a tree.
fn answer_instant(
    alloc: Global,
    scratch: &mut Scratch,
    lab: &mut Lab,
    text: &str,
) -> Result<Option<LabReply>, AllocError>
    ensures done { IfOk result (λ read. MatchOption read (lab.new ≡ lab.old)
        (λ told. IsAsked lab.old.stepped text.now told lab.new.stepped)) }
    ensures kept { IfErr result (λ _. lab.new ≡ lab.old) }
{
    match read_instant(alloc, scratch, text)? {
        Some(request) => Ok(Some(lab.obey(alloc, &request)?)),
        None => Ok(None),
    }
}

/// What a line is told.
fn answer_line(alloc: Global, scratch: &mut Scratch, lab: &mut Lab, line: &[u8]) -> LabReply
    ensures { IsTold lab.old.stepped line.now result lab.new.stepped }
{
    let Ok(text) = std::str::from_utf8(line) else {
        return answer_tree(alloc, lab, line);
    };
    match answer_instant(alloc, scratch, lab, text) {
        Ok(Some(told)) => told,
        Ok(None) => answer_tree(alloc, lab, line),
        Err(_) => LabReply::Refused(Refusal::Memory),
    }
}

/// The line of a value, with its LF.
fn value_line(alloc: Global, value: &Value) -> Result<Vec<u8>, AllocError>
    ensures { IfOk result (λ line. IsLineOf (view value.now) line.items) }
{
    let mut line = value.to_string(alloc)?.into_bytes();
    line.push(b'\n')?;
    Ok(line)
}

/// The line of what is told, with its LF. Want of memory takes none.
pub fn line_of(alloc: Global, told: LabReply) -> Result<AnswerText, AllocError>
    ensures { IfOk result (λ text. IsTextOf told (cow_slice_items text)) }
{
    match told {
        LabReply::Refused(refusal) => reply_text(alloc, &Reply::Refused(refusal)),
        LabReply::Json(value) => Ok(CowSlice::Owned(value_line(alloc, &value)?)),
        LabReply::Line(line) => Ok(CowSlice::Owned(line)),
    }
}

/// Answers the lines of a connection by the lab. The memory that it took to read one line serves
/// the next.
#[derive(Drop)]
pub struct LabAnswerer {
    scratch: Scratch,
}

impl LabAnswerer {
    /// An answerer that has read nothing. It takes no memory.
    pub fn new(alloc: Global) -> LabAnswerer {
        LabAnswerer {
            scratch: Scratch::new(alloc),
        }
    }
}

impl Answerer<Lab> for LabAnswerer {
    ghost tells = { λ before line text after. IsAnswer before.1.stepped line text after.1.stepped };

    ghost fails = { λ before line after. HasNoText before.1.stepped line after.1.stepped };

    fn answer(
        &mut self,
        alloc: Global,
        lab: &mut Lab,
        line: &[u8],
    ) -> Result<AnswerText, AllocError> {
        let told = answer_line(alloc, &mut self.scratch, lab, line);
        line_of(alloc, told)
    }
}
