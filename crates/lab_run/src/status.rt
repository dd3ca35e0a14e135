//! The status with which the program ends, of what was told.

ghost use Rattle.std.specs.Prelude.{◌≡◌};
ghost use Rattle.std.specs.List.{list_all, list_any};
ghost use Rattle.serde_json.specs.View.{items_view, view};
ghost use Rattle.serde_json.specs.declared.value.Value.{Value as JsonValue};
ghost use Rattle.lab_run.specs.Statuses.{all_items, any_item, each_holds, is_text};
ghost use Rattle.lab_run.specs.Statuses.{is_told_by, one_fails, status_by};
ghost use Rattle.lab_run.specs.Statuses.{status_by_list, status_in, status_of};

use crate::lab::LabReply;
use access_core::refusal::Refusal;
use serde_json::Value;

/// A claim fails, or a device does.
pub const FAILS: u8 = 1;

/// Words, a file or a claim can't be read.
pub const UNREAD: u8 = 2;

/// There are too many states or reactions, or memory was refused.
pub const UNKNOWN: u8 = 3;

/// Whether a value is this text.
fn is_text(value: &Value, word: &str) -> bool
    ensures { result ≡ is_text word.now (view value.now) }
{
    match value {
        Value::String(text) => text.as_str() == word,
        _ => false,
    }
}

/// Whether a verdict is told by this word.
fn is_told_by(verdict: &Value, word: &str) -> bool
    ensures { result ≡ is_told_by word.now (view verdict.now) }
{
    match verdict.get("verdict") {
        Some(said) => is_text(said, word),
        None => false,
    }
}

/// Whether one of the verdicts is told by this word.
fn any_told_by(verdicts: &[Value], word: &str) -> bool
    ensures { result
        ≡ list_any (λ (v : JsonValue). is_told_by word.now (view v)) verdicts.now }
{
    verdicts.iter().any(|verdict| is_told_by(verdict, word))
}

/// Whether each of the verdicts is told by this word.
fn all_told_by(verdicts: &[Value], word: &str) -> bool
    ensures { result
        ≡ list_all (λ (v : JsonValue). is_told_by word.now (view v)) verdicts.now }
{
    verdicts.iter().all(|verdict| is_told_by(verdict, word))
}

/// The same, said of the list of items, as a proof needs it.
fn any_item_told_by(verdicts: &[Value], word: &str) -> bool
    ensures { result ≡ any_item (is_told_by word.now) (items_view verdicts.now) }
{
    any_told_by(verdicts, word)
}

/// The same, said of the list of items, as a proof needs it.
fn all_items_told_by(verdicts: &[Value], word: &str) -> bool
    ensures { result ≡ all_items (is_told_by word.now) (items_view verdicts.now) }
{
    all_told_by(verdicts, word)
}

/// Whether a claim fails: that no instant is Stuck, or another.
fn one_fails(stuck: &Value, verdicts: &[Value]) -> bool
    ensures { result ≡ one_fails (view stuck.now) (items_view verdicts.now) }
{
    is_told_by(stuck, "fails") || any_item_told_by(verdicts, "fails")
}

/// Whether each claim holds: that no instant is Stuck, and the others.
fn each_holds(stuck: &Value, verdicts: &[Value]) -> bool
    ensures { result ≡ each_holds (view stuck.now) (items_view verdicts.now) }
{
    is_told_by(stuck, "holds") && all_items_told_by(verdicts, "holds")
}

/// The status of these verdicts: on the claim that no instant is Stuck, and on the others.
fn status_by(stuck: &Value, verdicts: &[Value]) -> u8
    ensures { result ≡ status_by (view stuck.now) (items_view verdicts.now) }
{
    if one_fails(stuck, verdicts) {
        return FAILS;
    }
    if each_holds(stuck, verdicts) {
        return 0;
    }
    UNKNOWN
}

/// The same of a list of verdicts.
fn status_by_list(stuck: &Value, verdicts: &Value) -> u8
    ensures { result ≡ status_by_list (view stuck.now) (view verdicts.now) }
{
    match verdicts {
        Value::Array(verdicts) => status_by(stuck, verdicts.as_slice()),
        _ => UNREAD,
    }
}

/// The status of what is found of claims.
fn status_in(answer: &Value) -> u8
    ensures { result ≡ status_in (view answer.now) }
{
    match (answer.get("stuck"), answer.get("verdicts")) {
        (Some(stuck), Some(verdicts)) => status_by_list(stuck, verdicts),
        _ => UNREAD,
    }
}

/// The status of what is told: 0 where each claim holds, 1 where one fails, 3 where it is not
/// known, and 2 where something can't be read.
pub fn status_of(told: &LabReply) -> u8
    ensures { result ≡ status_of told.now }
{
    match told {
        LabReply::Refused(Refusal::Memory) => UNKNOWN,
        LabReply::Refused(_) => UNREAD,
        LabReply::Json(answer) => status_in(answer),
        LabReply::Line(_) => UNREAD,
    }
}
