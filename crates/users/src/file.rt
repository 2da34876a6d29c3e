//! The users that the lines of a file spell.
ghost use Rattle.std.specs.Prelude.{◌≡◌, IfErr, IfOk, MatchBool, None, Ok, Some};
ghost use Rattle.std.specs.List.{list_any};
ghost use Rattle.std.specs.Option.{option_map};
ghost use Rattle.users.specs.Granting.{is_taken, onto_last, right_of, with_grant};
ghost use Rattle.users.specs.Layout.{seen};
ghost use Rattle.users.specs.Lines.{is_passed_over, user_of, users_of, with_line, with_user};
ghost use Rattle.users.specs.Refusals.{IsRefusal};
ghost use Rattle.users.specs.Rights.{owns_client};

use crate::cutting::{begins_blank, cut, split_line, without_return};
use crate::error::UsersError;
use crate::fields::password;
use crate::name::is_user_name;
use crate::right::{Right, given_right};
use crate::user::StoredUser;
use indexmap::IndexMap;
use std::alloc::{AllocError, Global};

/// The users of a file, by their names.
///
/// # Errors
///
/// [`UsersError::Line`] for the first line at fault, and [`UsersError::Memory`].
pub(crate) fn read(alloc: Global, text: &[u8]) -> Result<IndexMap<Vec<u8>, StoredUser>, UsersError>
    ensures ok { IfOk result (λ users. users_of text.now ≡ Ok (seen users.entries)) }
    ensures err { IfErr result (IsRefusal (users_of text.now)) }
{
    let mut users = IndexMap::new(alloc);
    let mut rest = text;
    let mut number = 0;
    while !rest.is_empty() {
        let (line, others) = split_line(rest);
        number += 1;
        if !add_line(alloc, &mut users, without_return(line))? {
            return Err(UsersError::Line(number));
        }
        rest = others;
    }
    Ok(users)
}

/// Adds the user of a line, if it is of one, or gives the last user the right of a line; `false` where the line is at fault.
#[tactic(auto, unfolding(crate::specs::Lines::with_line))]
fn add_line(
    alloc: Global,
    users: &mut IndexMap<Vec<u8>, StoredUser>,
    line: &[u8],
) -> Result<bool, AllocError>
    ensures { IfOk result (λ added. MatchBool added
        (with_line (seen users.old.entries) line.now ≡ Some (seen users.new.entries))
        (with_line (seen users.old.entries) line.now ≡ None)) }
{
    if is_passed_over(line) {
        return Ok(true);
    }
    if begins_blank(line) {
        return add_right(alloc, users, line);
    }
    match user(alloc, line)? {
        Some((name, stored)) => add(alloc, users, name, stored),
        None => Ok(false),
    }
}

/// Whether a line is empty or begins with `#`.
fn is_passed_over(line: &[u8]) -> bool
    ensures { result ≡ is_passed_over line.now }
{
    match line.first() {
        None => true,
        Some(byte) => *byte == b'#',
    }
}

/// The user of a line: its name and what is kept of it.
#[tactic(auto, unfolding(crate::specs::Lines::user_of))]
fn user(alloc: Global, line: &[u8]) -> Result<Option<(&[u8], StoredUser)>, AllocError>
    ensures { IfOk result (λ found. option_map (λ user. (user.0.now, user.1)) found ≡ user_of line.now) }
{
    let Some((name, text)) = cut(line, b':') else {
        return Ok(None);
    };
    if !is_user_name(name) {
        return Ok(None);
    }
    match password(alloc, text)? {
        Some(password) => Ok(Some((name, StoredUser::new(alloc, password)))),
        None => Ok(None),
    }
}

/// Adds a user; `false` where there is one of that name.
fn add(
    alloc: Global,
    users: &mut IndexMap<Vec<u8>, StoredUser>,
    name: &[u8],
    stored: StoredUser,
) -> Result<bool, AllocError>
    ensures { IfOk result (λ added. MatchBool added
        (with_user (seen users.old.entries) (Some (name.now, stored)) ≡ Some (seen users.new.entries))
        (with_user (seen users.old.entries) (Some (name.now, stored)) ≡ None)) }
{
    if users.contains_key(name) {
        return Ok(false);
    }
    users.insert(Vec::from_slice(alloc, name)?, stored)?;
    Ok(true)
}

/// Gives the last user the right of a line; `false` where the line gives none, or a client identifier that a user has, or there is no user.
fn add_right(
    alloc: Global,
    users: &mut IndexMap<Vec<u8>, StoredUser>,
    line: &[u8],
) -> Result<bool, AllocError>
    ensures { IfOk result (λ added. MatchBool added
        (with_grant (seen users.old.entries) (right_of line.now) ≡ Some (seen users.new.entries))
        (with_grant (seen users.old.entries) (right_of line.now) ≡ None)) }
{
    let Some(right) = given_right(alloc, line)? else {
        return Ok(false);
    };
    if is_taken(users, &right) {
        drop(right);
        return Ok(false);
    }
    grant(users, right)
}

/// Whether a right is a client identifier that a user has.
#[tactic(auto, using(crate::proofs::Allowed::any_mapped))]
fn is_taken(users: &IndexMap<Vec<u8>, StoredUser>, right: &Right) -> bool
    ensures { result ≡ is_taken (seen users.now.entries) right.now }
{
    match right {
        Right::Client(client) => has_owner(users, client.as_bytes()),
        Right::Publish(_) | Right::Work(_) => false,
    }
}

/// Whether a user has the client identifier.
fn has_owner(users: &IndexMap<Vec<u8>, StoredUser>, client: &[u8]) -> bool
    ensures { result ≡ list_any (λ entry. owns_client entry.1.rights client.now) users.now.entries }
{
    users
        .iter()
        .any(|(_, user)| user.rights.owns_client(client))
}

/// Gives the last user one right more; `false` where there is no user.
fn grant(users: &mut IndexMap<Vec<u8>, StoredUser>, right: Right) -> Result<bool, AllocError>
    ensures { IfOk result (λ added. MatchBool added
        (onto_last right (seen users.old.entries) ≡ Some (seen users.new.entries))
        (onto_last right (seen users.old.entries) ≡ None)) }
{
    match users.last_mut() {
        Some(user) => {
            user.rights.add(right)?;
            Ok(true)
        }
        None => Ok(false),
    }
}
