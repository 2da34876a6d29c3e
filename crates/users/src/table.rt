//! A table of users.
ghost use Rattle.std.specs.Prelude.{◌≡◌, IfErr, IfOk, Ok};
ghost use Rattle.users.specs.Lines.{users_of};
ghost use Rattle.users.specs.Refusals.{IsRefusal};

use crate::error::UsersError;
use crate::file::read;
use crate::shared::SharedUsers;
use crate::user::StoredUser;
use indexmap::IndexMap;
use std::alloc::{AllocError, Global};
use std::marker::Model;

/// A table of users, each once: a name of 1 to 128 bytes, what is kept of its password, and what it may do.
///
/// Contracts see it as a `UserTable`, in the order of the file.
#[derive(Drop)]
pub struct Users {
    users: IndexMap<Vec<u8>, StoredUser>,
}

impl Model for Users {
    ghost use Rattle.users.specs.Table.{UserTable};
    ghost use Rattle.users.specs.Layout.{seen};

    ghost Value = { UserTable };

    ghost view = { λ u. seen u.users.entries };
}

impl Users {
    /// The users of a file: of each line `name:$7$iterations$salt$hash`, as `mosquitto_passwd` and [`user_line`](crate::user_line) make them, the
    /// user of that name. Lines end at a line feed, and a carriage return before it is no part of them; empty lines and lines that begin with `#` say
    /// nothing. The name is one as [`is_user_name`](crate::is_user_name) says that no earlier line has, the iterations are 1 to 1,000,000 in decimal,
    /// and salt and hash stand in base64 with padding (RFC 4648, section 4), the salt of 1 to 64 bytes and the hash of 64.
    ///
    /// A line that begins with a space or a tab says what the last user before it may do: after the spaces and tabs in front stands `publish`, a space
    /// and a topic filter, or `work`, a space and a shared subscription `$share/NAME/FILTER`, or `client`, a space and a client identifier of 1 to 128
    /// bytes that no earlier line gives; each of these is well-formed UTF-8 without U+0000. A user without such lines may do everything.
    ///
    /// # Errors
    ///
    /// [`UsersError::Line`] for the first line that is none of these, and [`UsersError::Memory`].
    pub fn parse(alloc: Global, text: &[u8]) -> Result<Users, UsersError>
        ensures ok { IfOk result (λ users. users_of text.now ≡ Ok users) }
        ensures err { IfErr result (IsRefusal (users_of text.now)) }
    {
        Ok(Users {
            users: read(alloc, text)?,
        })
    }

    /// The same table, for several owners.
    ///
    /// # Errors
    ///
    /// An allocation failed.
    pub fn into_shared(self, alloc: Global) -> Result<SharedUsers, AllocError>
        ensures { IfOk result (λ shared. shared ≡ self) }
    {
        let Users { users } = self;
        SharedUsers::new(alloc, users)
    }
}
