//! A table of users with several owners.
ghost use Rattle.std.specs.Prelude.{◌≡◌, ◌&&◌, not, bytes_eq, IfOk, MatchOption};
ghost use Rattle.std.specs.List.{list_any};
ghost use Rattle.users.specs.Layout.{rights_at, seen};
ghost use Rattle.users.specs.Rights.{all_rights, is_of_another, may_connect_as, may_use, owns_client, rights_of};
ghost use Rattle.users.specs.Table.{admits};

use crate::client_rights::ClientRights;
use crate::rights::Rights;
use crate::user::StoredUser;
use indexmap::IndexMap;
use std::alloc::{AllocError, Global};
use std::marker::Model;
use std::sync::Arc;

/// A table of users with several owners, in whatever threads. It is let go with the last of them.
///
/// Contracts see it as a `UserTable`.
#[derive(Drop)]
pub struct SharedUsers {
    users: Arc<IndexMap<Vec<u8>, StoredUser>>,
}

impl Model for SharedUsers {
    ghost use Rattle.users.specs.Table.{UserTable};
    ghost use Rattle.users.specs.Layout.{seen};

    ghost Value = { UserTable };

    ghost view = { λ s. seen s.users.value.entries };
}

impl SharedUsers {
    /// The table of these users, for one owner.
    pub(crate) fn new(
        alloc: Global,
        users: IndexMap<Vec<u8>, StoredUser>,
    ) -> Result<SharedUsers, AllocError>
        ensures { IfOk result (λ shared. shared ≡ seen users.entries) }
    {
        Ok(SharedUsers {
            users: Arc::new(alloc, users)?,
        })
    }

    /// The same table, for one owner more. It takes no memory.
    ///
    /// # Errors
    ///
    /// It has as many owners as can be counted, 2^63.
    pub fn share(&self) -> Result<SharedUsers, AllocError>
        ensures { IfOk result (λ shared. shared ≡ self.now) }
    {
        Ok(SharedUsers {
            users: Arc::try_clone(&self.users)?,
        })
    }

    /// Whether a user of that name is in the table, and that is its password.
    ///
    /// It computes the hash of the password for a user that is there and nothing for another one, so that how long it takes tells whether there is a
    /// user of that name, and how many iterations it has. It does not tell how far the hash is that of the user.
    pub fn admits(&self, name: &[u8], password: &[u8]) -> bool
        ensures { result ≡ admits self.now name.now password.now }
    {
        match self.users.get(name) {
            Some(user) => user.password.is_password(password),
            None => false,
        }
    }

    /// Whether the user of that name may connect under that client identifier: it is one of the user's own, where it has any, and no other user's. A
    /// user that is not in the table has none of its own. Each user of the table is looked at.
    #[tactic(auto, unfolding(crate::specs::Rights::may_connect_as))]
    pub fn may_connect_as(&self, name: &[u8], client: &[u8]) -> bool
        ensures { result ≡ may_connect_as self.now name.now client.now }
    {
        self.may_use(name, client) && !self.is_of_another(name, client)
    }

    /// Whether a client identifier is one of those of the user of that name, where it has any.
    fn may_use(&self, name: &[u8], client: &[u8]) -> bool
        ensures { result ≡ may_use (rights_of self.now name.now) client.now }
    {
        match self.users.get(name) {
            Some(user) => user.rights.may_use(client),
            None => true,
        }
    }

    /// Whether a client identifier is one of a user of another name.
    #[tactic(auto, using(crate::proofs::Allowed::any_mapped))]
    fn is_of_another(&self, name: &[u8], client: &[u8]) -> bool
        ensures { result ≡ is_of_another self.now name.now client.now }
    {
        has_another(&self.users, name, client)
    }

    /// What the user of that name may do, and everything where there is none. It takes the owner over, so it takes no memory.
    pub fn into_rights(self, name: &[u8]) -> ClientRights
        ensures { result ≡ rights_of self name.now }
    {
        match self.users.get_index_of(name) {
            Some(index) => ClientRights::at(self, index),
            None => ClientRights::all(),
        }
    }

    /// The rights of the user at a place of the table.
    pub(crate) fn rights_at(&self, index: usize) -> Option<&Rights>
        ensures { MatchOption result (rights_at self.now index ≡ all_rights) (λ rights. rights_at self.now index ≡ rights.now) }
    {
        let (_, user) = self.users.get_index(index)?;
        Some(&user.rights)
    }
}

/// Whether one of the users of another name has the client identifier.
fn has_another(users: &IndexMap<Vec<u8>, StoredUser>, name: &[u8], client: &[u8]) -> bool
    ensures { result ≡ list_any (λ entry. owns_client entry.1.rights client.now && not (bytes_eq entry.0.items name.now)) users.now.entries }
{
    users.iter().any(|(known, user)| user.rights.owns_client(client) && known.as_slice() != name)
}
