//! What is kept of a user.
ghost use Rattle.std.specs.Prelude.{◌≡◌};
ghost use Rattle.users.specs.Rights.{with_all_rights};

use crate::password::StoredPassword;
use crate::rights::Rights;
use std::alloc::Global;
use std::marker::Model;

/// What is kept of a user: of its password, and what it may do.
#[derive(Drop)]
pub(crate) struct StoredUser {
    pub(crate) password: StoredPassword,
    pub(crate) rights: Rights,
}

impl Model for StoredUser {
    ghost use Rattle.users.specs.Table.{StoredUser};

    ghost Value = { StoredUser };

    ghost view = { λ u. record { password = u.password; rights = u.rights } };
}

impl StoredUser {
    /// A user with this password, who may do everything.
    pub(crate) fn new(alloc: Global, password: StoredPassword) -> StoredUser
        ensures { result ≡ with_all_rights password }
    {
        StoredUser {
            password,
            rights: Rights::all(alloc),
        }
    }
}
