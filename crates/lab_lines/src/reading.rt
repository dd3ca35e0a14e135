//! From the JSON value of a line to its request.

ghost use Rattle.std.specs.Prelude.{◌≡◌, ◌↔◌, ℕ, List, IfOk, IsTrue, codes, map};
ghost use Rattle.std.specs.Option.{MatchOption};
ghost use Rattle.serde_json.specs.Data.{string};
ghost use Rattle.serde_json.specs.View.{view};
ghost use Rattle.lab_lines.specs.declared.request.SearchScope.{SearchScope as ScopeValue};
ghost use Rattle.lab_lines.specs.Requests.{HasMembers, HasNumber, HasScope, HasText, HasTexts};
ghost use Rattle.lab_lines.specs.Requests.{Says, SaysNothing};

use crate::request::{Request, SearchScope};
use serde_json::Value;
use std::alloc::{AllocError, Global};

/// Whether the value is an object with this number of members.
fn has_members(value: &Value, count: usize) -> bool
    ensures { IsTrue result ↔ HasMembers (view value.now) count }
{
    match value.as_object() {
        Some(members) => members.len() == count,
        None => false,
    }
}

/// The text under this key.
fn text_at<'v>(value: &'v Value, key: &str) -> Option<&'v str>
    ensures { MatchOption result ((text : List ℕ) → HasText (view value.now) key.now text → ⊥)
        (λ t. HasText (view value.now) key.now t.now) }
{
    match value.get(key) {
        Some(member) => member.as_str(),
        None => None,
    }
}

/// The whole number under this key.
fn number_at(value: &Value, key: &str) -> Option<u64>
    ensures { MatchOption result ((n : ℕ) → HasNumber (view value.now) key.now n → ⊥)
        (HasNumber (view value.now) key.now) }
{
    match value.get(key) {
        Some(member) => member.as_u64(),
        None => None,
    }
}

/// The texts of a list, or none where one of them is no text.
fn texts_of<'v>(alloc: Global, items: &'v [Value]) -> Result<Option<Vec<&'v str>>, AllocError>
    ensures { IfOk result (λ read. MatchOption read
        ((texts : List (List ℕ)) → map view items.now ≡ map string texts → ⊥)
        (λ texts. map view items.now ≡ map string (map (λ t. t.now) texts.items))) }
{
    let mut texts = Vec::new(alloc);
    for item in items {
        let Some(text) = item.as_str() else {
            return Ok(None);
        };
        texts.push(text)?;
    }
    Ok(Some(texts))
}

/// The texts under this key.
fn texts_at<'v>(
    alloc: Global,
    value: &'v Value,
    key: &str,
) -> Result<Option<Vec<&'v str>>, AllocError>
    ensures { IfOk result (λ read. MatchOption read
        ((texts : List (List ℕ)) → HasTexts (view value.now) key.now texts → ⊥)
        (λ texts. HasTexts (view value.now) key.now (map (λ t. t.now) texts.items))) }
{
    let Some(member) = value.get(key) else {
        return Ok(None);
    };
    match member.as_array() {
        Some(items) => texts_of(alloc, items.as_slice()),
        None => Ok(None),
    }
}

/// What a search looks at.
fn scope_of<'v>(alloc: Global, value: &'v Value) -> Result<Option<SearchScope<'v>>, AllocError>
    ensures { IfOk result (λ read. MatchOption read
        ((scope : ScopeValue) → HasScope (view value.now) scope → ⊥)
        (HasScope (view value.now))) }
{
    let Some(inputs) = texts_at(alloc, value, "inputs")? else {
        return Ok(None);
    };
    match number_at(value, "most") {
        Some(most) => Ok(Some(SearchScope { inputs, most })),
        None => Ok(None),
    }
}

/// The request to load a module.
fn load_of<'v>(value: &'v Value) -> Option<Request<'v>>
    requires { HasText (view value.now) (codes "cmd") (codes "load") }
    ensures { MatchOption result (SaysNothing (view value.now)) (Says (view value.now)) }
{
    if !has_members(value, 3) {
        return None;
    }
    let main = text_at(value, "main")?;
    let text = text_at(value, "text")?;
    Some(Request::Load { main, text })
}

/// The request for the kernel.
fn kernel_of<'v>(value: &'v Value) -> Option<Request<'v>>
    requires { HasText (view value.now) (codes "cmd") (codes "kernel") }
    ensures { MatchOption result (SaysNothing (view value.now)) (Says (view value.now)) }
{
    if has_members(value, 1) {
        Some(Request::Kernel)
    } else {
        None
    }
}

/// The request to judge claims.
fn explore_of<'v>(alloc: Global, value: &'v Value) -> Result<Option<Request<'v>>, AllocError>
    requires { HasText (view value.now) (codes "cmd") (codes "explore") }
    ensures { IfOk result (λ read. MatchOption read (SaysNothing (view value.now))
        (Says (view value.now))) }
{
    if !has_members(value, 4) {
        return Ok(None);
    }
    let Some(claims) = texts_at(alloc, value, "claims")? else {
        return Ok(None);
    };
    match scope_of(alloc, value)? {
        Some(scope) => Ok(Some(Request::Explore { claims, scope })),
        None => Ok(None),
    }
}

/// The request to compare two modules.
fn same_of<'v>(alloc: Global, value: &'v Value) -> Result<Option<Request<'v>>, AllocError>
    requires { HasText (view value.now) (codes "cmd") (codes "same") }
    ensures { IfOk result (λ read. MatchOption read (SaysNothing (view value.now))
        (Says (view value.now))) }
{
    if !has_members(value, 5) {
        return Ok(None);
    }
    let Some(main) = text_at(value, "main") else {
        return Ok(None);
    };
    let Some(text) = text_at(value, "text") else {
        return Ok(None);
    };
    match scope_of(alloc, value)? {
        Some(scope) => Ok(Some(Request::Same { main, text, scope })),
        None => Ok(None),
    }
}

/// The request for the table.
fn table_of<'v>(alloc: Global, value: &'v Value) -> Result<Option<Request<'v>>, AllocError>
    requires { HasText (view value.now) (codes "cmd") (codes "table") }
    ensures { IfOk result (λ read. MatchOption read (SaysNothing (view value.now))
        (Says (view value.now))) }
{
    if !has_members(value, 3) {
        return Ok(None);
    }
    match scope_of(alloc, value)? {
        Some(scope) => Ok(Some(Request::Table(scope))),
        None => Ok(None),
    }
}

/// The request for the next instant.
fn instant_of<'v>(alloc: Global, value: &'v Value) -> Result<Option<Request<'v>>, AllocError>
    requires { HasText (view value.now) (codes "cmd") (codes "instant") }
    ensures { IfOk result (λ read. MatchOption read (SaysNothing (view value.now))
        (Says (view value.now))) }
{
    if !has_members(value, 2) {
        return Ok(None);
    }
    match texts_at(alloc, value, "inputs")? {
        Some(names) => Ok(Some(Request::Instant(names))),
        None => Ok(None),
    }
}

/// The request to try an instant.
fn try_of<'v>(alloc: Global, value: &'v Value) -> Result<Option<Request<'v>>, AllocError>
    requires { HasText (view value.now) (codes "cmd") (codes "try") }
    ensures { IfOk result (λ read. MatchOption read (SaysNothing (view value.now))
        (Says (view value.now))) }
{
    if !has_members(value, 2) {
        return Ok(None);
    }
    match texts_at(alloc, value, "inputs")? {
        Some(names) => Ok(Some(Request::Try(names))),
        None => Ok(None),
    }
}

/// The request to go back.
fn back_of<'v>(value: &'v Value) -> Option<Request<'v>>
    requires { HasText (view value.now) (codes "cmd") (codes "back") }
    ensures { MatchOption result (SaysNothing (view value.now)) (Says (view value.now)) }
{
    if !has_members(value, 2) {
        return None;
    }
    let to = number_at(value, "to")?;
    Some(Request::Back(to))
}

/// The request that a value spells, if it spells one.
pub fn request_of<'v>(alloc: Global, value: &'v Value) -> Result<Option<Request<'v>>, AllocError>
    ensures { IfOk result (λ read. MatchOption read (SaysNothing (view value.now))
        (Says (view value.now))) }
{
    let Some(word) = text_at(value, "cmd") else {
        return Ok(None);
    };
    match word {
        "load" => Ok(load_of(value)),
        "kernel" => Ok(kernel_of(value)),
        "explore" => explore_of(alloc, value),
        "same" => same_of(alloc, value),
        "table" => table_of(alloc, value),
        "instant" => instant_of(alloc, value),
        "try" => try_of(alloc, value),
        "back" => Ok(back_of(value)),
        _ => Ok(None),
    }
}
