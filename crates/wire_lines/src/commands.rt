//! The commands: which members have to follow each command's word, and which request they make.
//!
//! Commands with the same keys share a reader. The words are tried in turn by `request_of`,
//! `read_policy`, `read_session_command`, `read_user_or_role` and `read_role_relation`: each knows
//! some words, and passes any other on to the next.
ghost use Rattle.std.specs.Prelude.{◌≡◌, codes, option_map, IfOk};
ghost use Rattle.json.specs.Lex.{tokens};
ghost use Rattle.wire_lines.specs.Inner.Members.{name_of, parsed_after, number_after};
ghost use Rattle.wire_lines.specs.Inner.Members.{two_values, permission_values, last};
ghost use Rattle.wire_lines.specs.Inner.Commands.{request_of, request_in, request_at, rows};
ghost use Rattle.wire_lines.specs.Inner.Commands.{policy_rows, plain_rows, user_or_role_rows};
ghost use Rattle.wire_lines.specs.Inner.Commands.{relation_rows, slot_alone, main_slot_text};
ghost use Rattle.wire_lines.specs.Inner.Commands.{signal_slot, instant_slot, object_operation};
ghost use Rattle.wire_lines.specs.Inner.Commands.{roles_user, count_name_roles};
ghost use Rattle.wire_lines.specs.declared.request.Request.TheVariants.{Policy};

use crate::members::{
    take_end, take_identifier, take_name, take_number, take_object, take_operation, take_roles,
    take_text, take_word,
};
use crate::request::Request;
use access_core::command::SlotCommand;
use json::{Reader, Scratch};
use rbac_policy::commands::AdminCommand;
use rbac_policy::names::Name;
use rbac_policy::objects::{Object, Operation};
use reactor_core::entry::{Load, Move};
use reactor_core::text::Text;
use std::alloc::{AllocError, Global};

/// The name under this key, where it is the last member.
fn read_last_name(reader: &mut Reader<'_>, key: &str) -> Option<Name>
    ensures { result ≡ last (parsed_after name_of key.now reader.old) }
{
    let name = take_name(reader, key)?;
    take_end(reader)?;
    Some(name)
}

/// The slot, where it is the last member.
fn read_last_slot(reader: &mut Reader<'_>) -> Option<u64>
    ensures { result ≡ last (number_after (codes "slot") reader.old) }
{
    let slot = take_number(reader, "slot")?;
    take_end(reader)?;
    Some(slot)
}

/// The names under these two keys, the second of which is the last.
#[tactic(auto, unfolding(crate::specs::Inner::Members::two_values))]
fn read_two_names(reader: &mut Reader<'_>, first: &str, second: &str) -> Option<(Name, Name)>
    ensures { result ≡ two_values first.now second.now reader.old }
{
    let one = take_name(reader, first)?;
    let other = read_last_name(reader, second)?;
    Some((one, other))
}

/// The permission of a role: the object, the operation and the role.
#[tactic(auto, unfolding(crate::specs::Inner::Members::permission_values))]
fn read_permission(reader: &mut Reader<'_>) -> Option<(Object, Operation, Name)>
    ensures { result ≡ permission_values reader.old }
{
    let object = take_object(reader)?;
    let operation = take_operation(reader)?;
    let role = read_last_name(reader, "role")?;
    Some((object, operation, role))
}

/// A login: the roles and the user.
#[tactic(auto, unfolding(crate::specs::Inner::Commands::request_of))]
fn read_login(alloc: Global, reader: &mut Reader<'_>) -> Result<Option<Request>, AllocError>
    ensures { IfOk result (λ request. request ≡ request_of roles_user reader.old) }
{
    let Some(roles) = take_roles(alloc, reader)? else {
        return Ok(None);
    };
    let Some(user) = read_last_name(reader, "user") else {
        return Ok(None);
    };
    let command = AdminCommand::CreateSession { user, roles };
    Ok(Some(Request::Policy(command)))
}

/// A separation set: its count, its name and its roles. No session may hold that many of them.
#[tactic(auto, unfolding(crate::specs::Inner::Commands::request_of))]
fn read_separation(alloc: Global, reader: &mut Reader<'_>) -> Result<Option<Request>, AllocError>
    ensures { IfOk result (λ request. request ≡ request_of count_name_roles reader.old) }
{
    let Some(count) = take_number(reader, "count") else {
        return Ok(None);
    };
    let Some(set) = take_name(reader, "name") else {
        return Ok(None);
    };
    let Some(roles) = take_roles(alloc, reader)? else {
        return Ok(None);
    };
    if take_end(reader).is_none() {
        return Ok(None);
    }
    let command = AdminCommand::CreateDsdSet { set, count, roles };
    Ok(Some(Request::Policy(command)))
}

/// A load: the main module, the slot and the text.
#[tactic(auto, unfolding(crate::specs::Inner::Commands::request_of))]
fn read_load(alloc: Global, reader: &mut Reader<'_>) -> Result<Option<Request>, AllocError>
    ensures { IfOk result (λ request. request ≡ request_of main_slot_text reader.old) }
{
    let Some(main) = take_identifier(reader, "main") else {
        return Ok(None);
    };
    let Some(slot) = take_number(reader, "slot") else {
        return Ok(None);
    };
    let Some(text) = take_text(reader, "text") else {
        return Ok(None);
    };
    if take_end(reader).is_none() {
        return Ok(None);
    }
    let text = Text::copied(alloc, text)?;
    let command = SlotCommand::Move(Move::Load(Load { main, text }));
    Ok(Some(Request::Slot { slot, command }))
}

/// This command, on the slot that the only other key names.
#[tactic(auto, unfolding(crate::specs::Inner::Commands::request_of))]
fn read_slot_alone(reader: &mut Reader<'_>, command: SlotCommand) -> Option<Request>
    ensures { result ≡ request_of (slot_alone command) reader.old }
{
    let slot = read_last_slot(reader)?;
    Some(Request::Slot { slot, command })
}

/// An offer: the signal and the slot.
#[tactic(auto, unfolding(crate::specs::Inner::Commands::request_of))]
fn read_offer(reader: &mut Reader<'_>) -> Option<Request>
    ensures { result ≡ request_of signal_slot reader.old }
{
    let signal = take_identifier(reader, "signal")?;
    let slot = read_last_slot(reader)?;
    let command = SlotCommand::Move(Move::Offer(signal));
    Some(Request::Slot { slot, command })
}

/// A look: the instant and the slot.
#[tactic(auto, unfolding(crate::specs::Inner::Commands::request_of))]
fn read_look(reader: &mut Reader<'_>) -> Option<Request>
    ensures { result ≡ request_of instant_slot reader.old }
{
    let instant = take_number(reader, "instant")?;
    let slot = read_last_slot(reader)?;
    let command = SlotCommand::Look { instant };
    Some(Request::Slot { slot, command })
}

/// A check: the object and the operation.
#[tactic(auto, unfolding(crate::specs::Inner::Commands::request_of))]
fn read_check(reader: &mut Reader<'_>) -> Option<Request>
    ensures { result ≡ request_of object_operation reader.old }
{
    let object = take_object(reader)?;
    let operation = take_operation(reader)?;
    take_end(reader)?;
    Some(Request::Check { operation, object })
}

/// Tries the words on assignments, grants and edges: the relations of the policy, which are not
/// those of a module. Any other word is no command.
#[tactic(auto, unfolding(crate::specs::Inner::Commands::request_of, crate::specs::Inner::Commands::relation_rows))]
fn read_role_relation(reader: &mut Reader<'_>, word: &str) -> Option<AdminCommand>
    ensures { option_map Policy result ≡ request_in relation_rows word.now reader.old }
{
    match word {
        "assign" => {
            let (role, user) = read_two_names(reader, "role", "user")?;
            Some(AdminCommand::AssignUser { user, role })
        }
        "deassign" => {
            let (role, user) = read_two_names(reader, "role", "user")?;
            Some(AdminCommand::DeassignUser { user, role })
        }
        "inherit" => {
            let (junior, senior) = read_two_names(reader, "junior", "senior")?;
            Some(AdminCommand::AddInheritance { senior, junior })
        }
        "disinherit" => {
            let (junior, senior) = read_two_names(reader, "junior", "senior")?;
            Some(AdminCommand::DeleteInheritance { senior, junior })
        }
        "grant" => {
            let (object, operation, role) = read_permission(reader)?;
            Some(AdminCommand::GrantPermission {
                role,
                operation,
                object,
            })
        }
        "revoke" => {
            let (object, operation, role) = read_permission(reader)?;
            Some(AdminCommand::RevokePermission {
                role,
                operation,
                object,
            })
        }
        _ => None,
    }
}

/// Tries the words that add or delete a user or a role, then those of `read_role_relation`.
#[tactic(auto, unfolding(crate::specs::Inner::Commands::request_of, crate::specs::Inner::Commands::user_or_role_rows))]
fn read_user_or_role(reader: &mut Reader<'_>, word: &str) -> Option<AdminCommand>
    ensures { option_map Policy result ≡ request_in user_or_role_rows word.now reader.old }
{
    match word {
        "adduser" => {
            let user = read_last_name(reader, "user")?;
            Some(AdminCommand::AddUser { user })
        }
        "deluser" => {
            let user = read_last_name(reader, "user")?;
            Some(AdminCommand::DeleteUser { user })
        }
        "addrole" => {
            let role = read_last_name(reader, "role")?;
            Some(AdminCommand::AddRole { role })
        }
        "delrole" => {
            let role = read_last_name(reader, "role")?;
            Some(AdminCommand::DeleteRole { role })
        }
        _ => read_role_relation(reader, word),
    }
}

/// Tries `logout`, `activate`, `drop` and `undsd`; then the words of `read_user_or_role`.
#[tactic(auto, unfolding(crate::specs::Inner::Commands::request_of, crate::specs::Inner::Commands::plain_rows))]
fn read_session_command(reader: &mut Reader<'_>, word: &str) -> Option<AdminCommand>
    ensures { option_map Policy result ≡ request_in plain_rows word.now reader.old }
{
    match word {
        "logout" => {
            take_end(reader)?;
            Some(AdminCommand::DeleteSession)
        }
        "activate" => {
            let role = read_last_name(reader, "role")?;
            Some(AdminCommand::AddActiveRole { role })
        }
        "drop" => {
            let role = read_last_name(reader, "role")?;
            Some(AdminCommand::DropActiveRole { role })
        }
        "undsd" => {
            let set = read_last_name(reader, "name")?;
            Some(AdminCommand::DeleteDsdSet { set })
        }
        _ => read_user_or_role(reader, word),
    }
}

/// Tries the words of policy commands that list roles, then those of `read_session_command`.
#[tactic(auto, unfolding(crate::specs::Inner::Commands::policy_rows))]
fn read_policy(
    alloc: Global,
    reader: &mut Reader<'_>,
    word: &str,
) -> Result<Option<Request>, AllocError>
    ensures { IfOk result (λ request. request ≡ request_in policy_rows word.now reader.old) }
{
    match word {
        "login" => read_login(alloc, reader),
        "dsd" => read_separation(alloc, reader),
        _ => Ok(read_session_command(reader, word).map(Request::Policy)),
    }
}

/// The request of this word. Tries the words on slots and `check`, then those of `read_policy`.
#[tactic(auto, unfolding(crate::specs::Inner::Commands::rows))]
fn request_of(
    alloc: Global,
    reader: &mut Reader<'_>,
    word: &str,
) -> Result<Option<Request>, AllocError>
    ensures { IfOk result (λ request. request ≡ request_in rows word.now reader.old) }
{
    match word {
        "step" => Ok(read_slot_alone(reader, SlotCommand::Move(Move::Step(())))),
        "look" => Ok(read_look(reader)),
        "offer" => Ok(read_offer(reader)),
        "check" => Ok(read_check(reader)),
        "load" => read_load(alloc, reader),
        "discard" => Ok(read_slot_alone(reader, SlotCommand::Move(Move::Discard))),
        "unload" => Ok(read_slot_alone(reader, SlotCommand::Move(Move::Unload))),
        "audit" => Ok(read_slot_alone(reader, SlotCommand::Audit)),
        _ => read_policy(alloc, reader, word),
    }
}

/// The request of a text whose members stand in the order of their keys.
#[tactic(auto, unfolding(crate::specs::Inner::Commands::request_at))]
pub(crate) fn request_at(
    alloc: Global,
    scratch: &mut Scratch,
    text: &str,
) -> Result<Option<Request>, AllocError>
    ensures { IfOk result (λ request. request ≡ request_at (tokens text.now)) }
{
    let mut reader = Reader::new(text, scratch)?;
    match take_word(&mut reader) {
        Some(word) => request_of(alloc, &mut reader, word),
        None => Ok(None),
    }
}
