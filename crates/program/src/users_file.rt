//! The users of a broker, from their file.
ghost use Rattle.std.specs.Prelude.{◌≡◌, ◌⊎◌, Ok, IfOk, IfErr};
ghost use Rattle.users.specs.Lines.{users_of};
ghost use Rattle.text_io.specs.declared.error.RunError.TheVariants.{Memory, UsersUnread};
ghost use Rattle.program.specs.Users.{AreUsersFor, IsRefusalOf, LacksUsers};

use arguments::FilePath;
use std::alloc::Global;
use std::fs::File;
use std::rt::Files;
use text_io::{RunError, read_all};
use users::{SharedUsers, Users, UsersError};

/// The users of a broker: those that the file lists, where one was asked for.
///
/// # Errors
///
/// [`RunError::UsersUnread`], [`RunError::UsersLine`] and [`RunError::Memory`].
pub(crate) fn users_for<H: Files>(
    rt: &H,
    alloc: Global,
    file: &Option<FilePath>,
) -> Result<Option<SharedUsers>, RunError>
    ensures ok { IfOk result (AreUsersFor file.now) }
    ensures err { IfErr result (LacksUsers file.now) }
{
    let Some(file) = file else {
        return Ok(None);
    };
    let text = read_file(rt, alloc, file)?;
    let users = users_in(alloc, &text)?;
    Ok(Some(users))
}

/// All that a file gives.
fn read_file<H: Files>(rt: &H, alloc: Global, file: &FilePath) -> Result<Vec<u8>, RunError>
    ensures { IfErr result (λ error. (error ≡ Memory) ⊎ (error ≡ UsersUnread)) }
{
    let Ok(mut opened) = File::open(rt, file.as_str()) else {
        return Err(RunError::UsersUnread);
    };
    match read_all(alloc, &mut opened) {
        Ok(text) => Ok(text),
        Err(RunError::Memory) => Err(RunError::Memory),
        Err(_) => Err(RunError::UsersUnread),
    }
}

/// The users that a text lists.
fn users_in(alloc: Global, text: &[u8]) -> Result<SharedUsers, RunError>
    ensures ok { IfOk result (λ users. users_of text.now ≡ Ok users) }
    ensures err { IfErr result (IsRefusalOf text.now) }
{
    match Users::parse(alloc, text) {
        Ok(users) => Ok(users.into_shared(alloc)?),
        Err(UsersError::Memory) => Err(RunError::Memory),
        Err(UsersError::Line(number)) => Err(RunError::UsersLine(number)),
    }
}
