//! All of an input, and its lines.
ghost use Rattle.std.specs.Prelude.{◌≡◌, ◌<◌, ◌∷◌, length, vec_len, IfOk, IfErr, IfSome};
ghost use Rattle.text_io.specs.Lines.{lines_of};
ghost use Rattle.text_io.specs.Status.{IsOfReading};

use crate::error::RunError;
use memchr::memchr;
use std::alloc::{AllocError, Global};
use std::io::{ErrorKind, Read};

/// How often a reader is asked before its input counts as endless.
const MOST_READS: u32 = 1 << 20;

/// How many bytes one read may give.
const PIECE: usize = 65_536;

/// Room for one read.
fn room(alloc: Global) -> Result<Vec<u8>, AllocError>
    ensures { IfOk result (λ piece. 0 < vec_len piece) }
{
    vec![in alloc; 0; PIECE]
}

/// All that a reader has left, in at most 2^20 reads.
///
/// # Errors
///
/// [`RunError::ReadFailed`], [`RunError::TooManyReads`] where 2^20 reads did not reach the reader's end, and [`RunError::Memory`].
pub fn read_all<R: Read>(alloc: Global, reader: &mut R) -> Result<Vec<u8>, RunError>
    ensures all { IfOk result (λ input. IfSome (R.remaining reader.old) (λ bytes. input.items ≡ bytes)) }
    ensures err { IfErr result IsOfReading }
{
    let mut input = Vec::new(alloc);
    let mut piece = room(alloc)?;
    for _ in 0..MOST_READS {
        match reader.read(&mut piece) {
            Ok(0) => return Ok(input),
            Ok(count) => input.extend_from_slice(&piece[..count])?,
            Err(e) if e.kind() == ErrorKind::Interrupted => {}
            Err(_) => return Err(RunError::ReadFailed),
        }
    }
    Err(RunError::TooManyReads)
}

/// The first line of an input that is not empty, without the 0A that ends it, and what follows.
pub fn split_line(input: &[u8]) -> (&[u8], &[u8])
    requires { 0 < length input.now }
    ensures lines { lines_of input.now ≡ result.0.now ∷ lines_of result.1.now }
    ensures fewer { length result.1.now < length input.now }
{
    match memchr(b'\n', input) {
        Some(end) => (&input[..end], &input[end + 1..]),
        None => (input, &[]),
    }
}
