//! What is kept of a password.
ghost use Rattle.std.specs.Prelude.{◌≡◌};
ghost use Rattle.users.specs.Table.{is_password};

use crate::hashing::{is_same, pbkdf2};
use std::marker::Model;

/// What is kept of a password: its hash, and what it was hashed under. It is never printed.
#[derive(Drop)]
pub(crate) struct StoredPassword {
    pub(crate) iterations: u32,
    pub(crate) salt: Vec<u8>,
    pub(crate) hash: [u8; 64],
}

impl Model for StoredPassword {
    ghost use Rattle.users.specs.Table.{StoredPassword};

    ghost Value = { StoredPassword };

    ghost view = { λ s. record { iterations = s.iterations; salt = s.salt.items; hash = s.hash } };
}

impl StoredPassword {
    /// Whether the password has the hash. How long it takes depends on the iterations and on how long password and salt are, and not on what they are.
    pub(crate) fn is_password(&self, password: &[u8]) -> bool
        ensures { result ≡ is_password self.now password.now }
    {
        let hash = pbkdf2(password, self.salt.as_slice(), self.iterations);
        is_same(&hash, &self.hash)
    }
}
