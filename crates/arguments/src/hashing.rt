//! What the line of a user is made of, by the words of `hash-password`.
ghost use Rattle.std.specs.Prelude.{◌≡◌, ◌⊎◌, codes, IfOk, IfErr};
ghost use Rattle.clap.specs.Words.{found_of, kind_of, rows_of};
ghost use Rattle.clap.specs.declared.error.kind.ErrorKind.TheVariants as kinds;
ghost use Rattle.arguments.specs.CommandLine.{IsPasswordBy};
ghost use Rattle.arguments.specs.declared.password.PasswordOptions.{PasswordOptions as AnyPassword};

use crate::command::{password_command, refused_value};
use crate::password::PasswordOptions;
use crate::serving::number;
use crate::texts::UserName;
use clap::{ArgMatches, Error};
use std::alloc::{AllocError, Global};

/// What the line of a user is made of, by the words.
pub(crate) fn password_of(alloc: Global, options: &ArgMatches) -> Result<PasswordOptions, Error>
    ensures ok { IfOk result (IsPasswordBy (rows_of (found_of options.now))) }
    ensures err { IfErr result (λ error. (kind_of error ≡ kinds.OutOfMemory)
        ⊎ ((kind_of error ≡ kinds.ValueValidation)
        × ((password : AnyPassword) → ¬ IsPasswordBy (rows_of (found_of options.now)) password))) }
{
    let Some(iterations) = number(options, "iterations", 1, 1_000_000) else {
        return Err(wrong(alloc, "a number is out of its range")?);
    };
    let Some(text) = options.get_str("name") else {
        return Err(wrong(alloc, "a name is wanted")?);
    };
    match UserName::new(alloc, text)? {
        Some(name) => Ok(PasswordOptions { name, iterations }),
        None => Err(wrong_name(alloc, text)?),
    }
}

/// The error of a text that is no user's name.
fn wrong_name(alloc: Global, text: &str) -> Result<Error, AllocError>
    ensures { IfOk result (λ error. kind_of error ≡ kinds.ValueValidation) }
{
    let refusal = format!(in alloc;
        "invalid value '{text}' for '<NAME>': a user's name has 1 to 128 bytes, no colon, no control character, and no # or space in front"
    )?;
    wrong(alloc, refusal.as_str())
}

/// The error of a value that is refused.
fn wrong(alloc: Global, text: &str) -> Result<Error, AllocError>
    ensures { IfOk result (λ error. kind_of error ≡ kinds.ValueValidation) }
{
    refused_value(password_command(alloc)?, "share_broker hash-password", text)
}
