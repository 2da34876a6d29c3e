//! Texts that the words of the command line have.
ghost use Rattle.std.specs.Prelude.{◌≡◌, true, Some, None, IfOk, if◌then◌else◌};
ghost use Rattle.users.specs.Lines.{is_user_name};

use std::alloc::{AllocError, Global};
use std::marker::Model;
use users::is_user_name;

/// The path of a file, as it was given.
///
/// Contracts see its bytes.
#[derive(Drop)]
pub struct FilePath {
    path: String,
}

impl Model for FilePath {
    ghost use Rattle.std.specs.Prelude.{List, ℕ, string_bytes};

    ghost Value = { List ℕ };

    ghost view = { λ file. string_bytes file.path };
}

impl FilePath {
    /// The path of this text.
    pub(crate) fn new(alloc: Global, path: &str) -> Result<FilePath, AllocError>
        ensures { IfOk result (λ file. file ≡ path.now) }
    {
        Ok(FilePath {
            path: String::from_str(alloc, path)?,
        })
    }

    /// Its text.
    pub fn as_str(&self) -> &str
        ensures { result.now ≡ self.now }
    {
        self.path.as_str()
    }
}

/// The name of a user.
///
/// Contracts see its bytes.
#[derive(Drop)]
pub struct UserName {
    name: String,
}

impl Model for UserName {
    ghost use Rattle.std.specs.Prelude.{◌≡◌, List, ℕ, string_bytes, true};
    ghost use Rattle.users.specs.Lines.{is_user_name};

    ghost Value = { List ℕ };

    ghost view = { λ user. string_bytes user.name };

    ghost invariant = { λ user. is_user_name (string_bytes user.name) ≡ true };
}

impl UserName {
    /// The name that the text is; `None` where it is no user's name.
    pub(crate) fn new(alloc: Global, text: &str) -> Result<Option<UserName>, AllocError>
        ensures { IfOk result (λ name. name ≡ (if is_user_name text.now then Some text.now else None)) }
    {
        if !is_user_name(text.as_bytes()) {
            return Ok(None);
        }
        Ok(Some(UserName {
            name: String::from_str(alloc, text)?,
        }))
    }

    /// Its text.
    pub fn as_str(&self) -> &str
        ensures value { result.now ≡ self.now }
        ensures valid { is_user_name result.now ≡ true }
    {
        self.name.as_str()
    }
}
