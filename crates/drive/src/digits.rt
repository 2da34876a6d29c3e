//! Pieces of streams, from the hex digits that spell them.
ghost use Rattle.std.specs.Prelude.{◌≡◌, ◌⊎◌, ◌++◌, List, ℕ, length, Err, Ok, IfOk, IfErr};
ghost use Rattle.hex.specs.Hex.{decode_of};
ghost use Rattle.hex.specs.declared.error.FromHexError.TheVariants.{OutOfMemory};

use bytes::{Bytes, BytesMut};
use hex::FromHexError;

/// The bytes that hex digits of either case spell, cut off from the buffer: pieces that come one after the other share its memory, and
/// none is copied.
///
/// # Errors
///
/// As [`hex::decode`].
pub(crate) fn decode(buffer: &mut BytesMut, digits: &[u8]) -> Result<Bytes, FromHexError>
    ensures ok { IfOk result (λ piece. decode_of digits.now ≡ Ok piece) }
    ensures err { IfErr result (λ error. (error ≡ OutOfMemory) ⊎ (decode_of digits.now ≡ Err error)) }
{
    buffer.clear();
    let size = decode_onto(buffer, digits)?;
    Ok(buffer.freeze_to(size)?)
}

/// Adds the bytes that hex digits of either case spell to the end of the buffer, and gives their number.
///
/// # Errors
///
/// As [`hex::decode`]. What the buffer then ends with is not said.
#[inline(always)]
pub(crate) fn decode_onto(buffer: &mut BytesMut, digits: &[u8]) -> Result<usize, FromHexError>
    ensures ok { IfOk result (λ size. (piece : List ℕ) × (decode_of digits.now ≡ Ok piece) × (size ≡ length piece)
        × (buffer.new.items ≡ buffer.old.items ++ piece)) }
    ensures err { IfErr result (λ error. (error ≡ OutOfMemory) ⊎ (decode_of digits.now ≡ Err error)) }
{
    let start = buffer.len();
    let size = digits.len() / 2;
    buffer.reserve(size)?;
    buffer.advance_mut(size);
    hex::decode_to_slice(digits, &mut buffer[start..])?;
    Ok(size)
}
