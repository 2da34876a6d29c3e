//! Lines of a users file that are made.
ghost use Rattle.std.specs.Prelude.{◌≡◌, ◌<◌, ◌≤◌, IfOk, IsTrue, string_bytes};
ghost use Rattle.users.specs.Lines.{base64_of, is_user_name, user_line};

use crate::hashing::pbkdf2;
use base64::engine::general_purpose::STANDARD;
use std::alloc::{AllocError, Global};

/// The line of a users file, without a line feed, for a user of this name and password, which is hashed under this salt by so many iterations. The salt
/// is to be new for each line, of random bytes.
///
/// # Errors
///
/// An allocation failed.
pub fn user_line(
    alloc: Global,
    name: &str,
    password: &[u8],
    salt: &[u8; 12],
    iterations: u32,
) -> Result<String, AllocError>
    requires name { IsTrue (is_user_name name.now) }
    requires some { 0 < iterations }
    requires few { iterations ≤ 1000000 }
    ensures { IfOk result (λ line. string_bytes line
        ≡ user_line name.now password.now salt.now iterations) }
{
    let hash = base64_of(alloc, &pbkdf2(password, salt, iterations))?;
    let salt = base64_of(alloc, salt)?;
    format!(in alloc; "{name}:$7${iterations}${salt}${hash}")
}

/// The bytes in base64 with padding (RFC 4648, section 4).
#[tactic(auto, unfolding(crate::specs::Lines::base64_of))]
fn base64_of(alloc: Global, bytes: &[u8]) -> Result<String, AllocError>
    ensures { IfOk result (λ text. string_bytes text ≡ base64_of bytes.now) }
{
    STANDARD.encode(alloc, bytes)
}
