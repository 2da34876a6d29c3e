//! What is kept of a password as a line spells it: `$7$iterations$salt$hash`.
ghost use Rattle.std.specs.Prelude.{◌≡◌, ◌≤◌, IfOk, MatchOption, None, Some};
ghost use Rattle.std.specs.Option.{option_map};
ghost use Rattle.base64.specs.Engines.{standard};
ghost use Rattle.base64.specs.GeneralPurpose.{decoded_of};
ghost use Rattle.users.specs.Lines.{fields_of, hash_of, iterations_of, password_of, salt_of, with_digit};

use crate::cutting::cut;
use crate::password::StoredPassword;
use base64::DecodeAllocError;
use base64::engine::general_purpose::STANDARD;
use std::alloc::{AllocError, Global};

/// The most iterations that a line may name.
pub(crate) const MOST_ITERATIONS: u32 = 1_000_000;

/// The longest salt, in bytes.
const LONGEST_SALT: usize = 64;

/// What is kept of a password, where the text spells it.
#[tactic(auto, unfolding(crate::specs::Lines::password_of))]
pub(crate) fn password(alloc: Global, text: &[u8]) -> Result<Option<StoredPassword>, AllocError>
    ensures { IfOk result (λ found. found ≡ password_of text.now) }
{
    let Some((iterations, salt_text, hash_text)) = fields(text) else {
        return Ok(None);
    };
    let Some(iterations) = iterations_in(iterations) else {
        return Ok(None);
    };
    let Some(salt) = salt(alloc, salt_text)? else {
        return Ok(None);
    };
    let Some(hash) = hash(alloc, hash_text)? else {
        return Ok(None);
    };
    Ok(Some(StoredPassword {
        iterations,
        salt,
        hash,
    }))
}

/// The iterations, the salt and the hash, as they are spelled.
#[tactic(auto, unfolding(crate::specs::Lines::fields_of))]
fn fields(text: &[u8]) -> Option<(&[u8], &[u8], &[u8])>
    ensures { MatchOption result (fields_of text.now ≡ None)
        (λ fields. fields_of text.now ≡ Some (fields.0.now, fields.1.now, fields.2.now)) }
{
    if !text.starts_with(b"$7$") {
        return None;
    }
    let (iterations, others) = cut(&text[3..], b'$')?;
    let (salt, hash) = cut(others, b'$')?;
    Some((iterations, salt, hash))
}

/// The number of iterations that digits spell, from 1 to 1,000,000.
fn iterations_in(digits: &[u8]) -> Option<u32>
    ensures { result ≡ iterations_of digits.now }
{
    let mut number = 0;
    let mut rest = digits;
    while let Some((byte, others)) = rest.split_first() {
        match with_digit(number, *byte) {
            Some(longer) => number = longer,
            None => return None,
        }
        rest = others;
    }
    if number > 0 { Some(number) } else { None }
}

/// A number of iterations with one digit more after it.
fn with_digit(number: u32, byte: u8) -> Option<u32>
    requires { number ≤ 1000000 }
    ensures { result ≡ with_digit number byte }
{
    if !byte.is_ascii_digit() {
        return None;
    }
    let longer = number * 10 + u32::from(byte - b'0');
    if longer <= MOST_ITERATIONS {
        Some(longer)
    } else {
        None
    }
}

/// The salt that a text spells, of 1 to 64 bytes.
#[tactic(auto, unfolding(crate::specs::Lines::salt_of))]
fn salt(alloc: Global, text: &[u8]) -> Result<Option<Vec<u8>>, AllocError>
    ensures { IfOk result (λ found. option_map (λ salt. salt.items) found ≡ salt_of text.now) }
{
    match decoded(alloc, text)? {
        Some(salt) if !salt.is_empty() && salt.len() <= LONGEST_SALT => Ok(Some(salt)),
        _ => Ok(None),
    }
}

/// The hash that a text spells, of 64 bytes.
#[tactic(auto, unfolding(crate::specs::Lines::hash_of))]
fn hash(alloc: Global, text: &[u8]) -> Result<Option<[u8; 64]>, AllocError>
    ensures { IfOk result (λ found. found ≡ hash_of text.now) }
{
    match decoded(alloc, text)? {
        Some(bytes) if bytes.len() == 64 => {
            let mut hash = [0; 64];
            hash.copy_from_slice(bytes.as_slice());
            Ok(Some(hash))
        }
        _ => Ok(None),
    }
}

/// The bytes that a text spells in base64 with padding (RFC 4648, section 4).
fn decoded(alloc: Global, text: &[u8]) -> Result<Option<Vec<u8>>, AllocError>
    ensures { IfOk result (λ found. option_map (λ bytes. bytes.items) found ≡ decoded_of standard text.now) }
{
    match STANDARD.decode(alloc, text) {
        Ok(bytes) => Ok(Some(bytes)),
        Err(DecodeAllocError::DecodeError(_)) => Ok(None),
        Err(DecodeAllocError::OutOfMemory) => Err(AllocError),
    }
}
