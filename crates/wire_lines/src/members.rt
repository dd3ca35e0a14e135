//! The members of a line, taken token by token in the order of their keys, without a tree of
//! values.
//!
//! Each call takes one member, or answers that the next one is not of this key and kind. A line
//! whose keys stand in another order is not read here. The public calls serve the lines of the lab
//! too.
ghost use Rattle.std.specs.Prelude.{◌≡◌, ◌==◌, ◌≤◌, slice_index, length, codes, IfOk, IfSome};
ghost use Rattle.std.specs.Prelude.{option_map, option_and_then};
ghost use Rattle.rbac_policy.specs.declared.names.TheConstants.{LISTED_ROLES};
ghost use Rattle.rbac_policy.specs.Texts.{operation_of, object_of};
ghost use Rattle.wire_lines.specs.Inner.Members.{whole_of, after_key, front_text, front_number};
ghost use Rattle.wire_lines.specs.Inner.Members.{begins_object, begins_array, text_after};
ghost use Rattle.wire_lines.specs.Inner.Members.{number_after, name_of, identifier_of};
ghost use Rattle.wire_lines.specs.Inner.Members.{parsed_after, list_after, names_in, listed};
ghost use Rattle.wire_lines.specs.Inner.Members.{roles_after, ends, word_at};

use est_text::identifier::Identifier;
use fast_float::Numeral;
use json::{Reader, Token};
use rbac_policy::names::{LISTED_ROLES, Name, RoleNames};
use rbac_policy::objects::{Object, Operation};
use std::alloc::{AllocError, Global};

/// Whether a minus sign comes first.
fn has_sign(digits: &[u8]) -> bool
    ensures { result ≡ (slice_index digits.now 0 == 45) }
{
    !digits.is_empty() && digits[0] == b'-'
}

/// The whole number that a token writes: it has no sign, point or exponent, and fits into 64 bits.
fn whole_number(text: &str) -> Option<u64>
    ensures { result ≡ whole_of text.now }
{
    let digits = text.as_bytes();
    if has_sign(digits) {
        return None;
    }
    Numeral::scan(digits).to_u64()
}

/// Takes the key that comes next, where it is this one.
#[tactic(auto, unfolding(crate::specs::Inner::Members::after_key))]
fn take_key(reader: &mut Reader<'_>, name: &str) -> Option<()>
    ensures { option_map (λ _. reader.new) result ≡ after_key name.now reader.old }
{
    match reader.next() {
        Some(Token::Key(found)) if found == name => Some(()),
        _ => None,
    }
}

/// Takes the text that comes next.
fn next_text<'a>(reader: &mut Reader<'a>) -> Option<&'a str>
    ensures { option_map (λ text. (text.now, reader.new)) result ≡ front_text reader.old }
{
    match reader.next() {
        Some(Token::String(text)) => Some(text),
        _ => None,
    }
}

/// Takes the number that comes next, as it is written.
fn next_number<'a>(reader: &mut Reader<'a>) -> Option<&'a str>
    ensures { option_map (λ text. (text.now, reader.new)) result ≡ front_number reader.old }
{
    match reader.next() {
        Some(Token::Number(text)) => Some(text),
        _ => None,
    }
}

/// Takes the brace that begins an object.
fn begin_object(reader: &mut Reader<'_>) -> Option<()>
    ensures { option_map (λ _. reader.new) result ≡ begins_object reader.old }
{
    match reader.next() {
        Some(Token::BeginObject) => Some(()),
        _ => None,
    }
}

/// Takes the bracket that begins an array.
fn begin_array(reader: &mut Reader<'_>) -> Option<()>
    ensures { option_map (λ _. reader.new) result ≡ begins_array reader.old }
{
    match reader.next() {
        Some(Token::BeginArray) => Some(()),
        _ => None,
    }
}

/// Takes the brace that begins an object, and the word of its command, which is its first member.
#[tactic(auto, unfolding(crate::specs::Inner::Members::word_at))]
pub fn take_word<'a>(reader: &mut Reader<'a>) -> Option<&'a str>
    ensures { option_map (λ word. (word.now, reader.new)) result ≡ word_at reader.old }
{
    begin_object(reader)?;
    take_text(reader, "cmd")
}

/// Takes the text that comes next, under this key.
#[tactic(auto, unfolding(crate::specs::Inner::Members::text_after))]
pub(crate) fn take_text<'a>(reader: &mut Reader<'a>, name: &str) -> Option<&'a str>
    ensures { option_map (λ text. (text.now, reader.new)) result ≡ text_after name.now reader.old }
{
    take_key(reader, name)?;
    next_text(reader)
}

/// Takes the whole number that comes next, under this key.
#[tactic(auto, unfolding(crate::specs::Inner::Members::number_after))]
pub(crate) fn take_number(reader: &mut Reader<'_>, name: &str) -> Option<u64>
    ensures { option_map (λ n. (n, reader.new)) result ≡ number_after name.now reader.old }
{
    take_key(reader, name)?;
    whole_number(next_number(reader)?)
}

/// Takes the name that comes next, under this key.
#[tactic(auto, unfolding(crate::specs::Inner::Members::parsed_after))]
pub(crate) fn take_name(reader: &mut Reader<'_>, key: &str) -> Option<Name>
    ensures { option_map (λ name. (name, reader.new)) result
        ≡ parsed_after name_of key.now reader.old }
{
    Name::from_text(take_text(reader, key)?)
}

/// Takes the identifier that comes next, under this key.
#[tactic(auto, unfolding(crate::specs::Inner::Members::parsed_after))]
pub(crate) fn take_identifier(reader: &mut Reader<'_>, key: &str) -> Option<Identifier>
    ensures { option_map (λ name. (name, reader.new)) result
        ≡ parsed_after identifier_of key.now reader.old }
{
    Identifier::from_text(take_text(reader, key)?)
}

/// Takes the object that comes next.
#[tactic(auto, unfolding(crate::specs::Inner::Members::parsed_after))]
pub(crate) fn take_object(reader: &mut Reader<'_>) -> Option<Object>
    ensures { option_map (λ on. (on, reader.new)) result
        ≡ parsed_after object_of (codes "object") reader.old }
{
    Object::from_text(take_text(reader, "object")?)
}

/// Takes the operation that comes next.
#[tactic(auto, unfolding(crate::specs::Inner::Members::parsed_after))]
pub(crate) fn take_operation(reader: &mut Reader<'_>) -> Option<Operation>
    ensures { option_map (λ operation. (operation, reader.new)) result
        ≡ parsed_after operation_of (codes "op") reader.old }
{
    Operation::from_text(take_text(reader, "op")?)
}

/// Takes the bracket that comes next, under this key: a list begins.
#[tactic(auto, unfolding(crate::specs::Inner::Members::list_after))]
pub fn begin_list(reader: &mut Reader<'_>, name: &str) -> Option<()>
    ensures { option_map (λ _. reader.new) result ≡ list_after name.now reader.old }
{
    take_key(reader, name)?;
    begin_array(reader)
}

/// Takes the names that come next, and the bracket after them: no more names than a command may
/// list.
#[tactic(auto, unfolding(crate::specs::Inner::Members::names_in))]
fn take_names(alloc: Global, reader: &mut Reader<'_>) -> Result<Option<Vec<Name>>, AllocError>
    ensures names { IfOk result (λ names. option_map (λ v. (v.items, reader.new)) names
        ≡ option_and_then listed (names_in reader.old)) }
    ensures count { IfOk result (λ names. IfSome names (λ v. length v.items ≤ LISTED_ROLES)) }
{
    let mut names = Vec::new(alloc);
    while names.len() <= LISTED_ROLES {
        match reader.next() {
            Some(Token::EndArray) => return Ok(Some(names)),
            Some(Token::String(text)) => {
                let Some(name) = Name::from_text(text) else {
                    return Ok(None);
                };
                names.push(name)?;
            }
            _ => return Ok(None),
        }
    }
    Ok(None)
}

/// Takes the roles that come next, a list under the key `roles`.
#[tactic(auto, unfolding(crate::specs::Inner::Members::roles_after))]
pub(crate) fn take_roles(
    alloc: Global,
    reader: &mut Reader<'_>,
) -> Result<Option<RoleNames>, AllocError>
    ensures { IfOk result (λ roles. option_map (λ r. (r, reader.new)) roles
        ≡ roles_after reader.old) }
{
    if begin_list(reader, "roles").is_none() {
        return Ok(None);
    }
    match take_names(alloc, reader)? {
        Some(names) => Ok(Some(RoleNames::from_vec(names)?)),
        None => Ok(None),
    }
}

/// Takes the last brace, after which the text has to end.
#[tactic(auto, unfolding(crate::specs::Inner::Members::ends))]
pub fn take_end(reader: &mut Reader<'_>) -> Option<()>
    ensures { result ≡ ends reader.old }
{
    let Some(Token::EndObject) = reader.next() else {
        return None;
    };
    match reader.next() {
        None => Some(()),
        Some(_) => None,
    }
}
