//! What the line of a user is made of.
ghost use Rattle.std.specs.Prelude.{◌≤◌};

use crate::texts::UserName;

/// What the line of a user is made of, beside its password.
#[derive(Drop)]
pub struct PasswordOptions {
    /// The user's name.
    pub name: UserName,
    /// How often the password is hashed, 1 to 1,000,000.
    pub iterations: u32,
    ghost counted: { (1 ≤ iterations) × (iterations ≤ 1000000) },
}
