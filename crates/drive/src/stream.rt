//! The stream of one client, in lines of hex digits.
ghost use Rattle.std.specs.Prelude.{◌≡◌, Ok, IfOk, IfErr};
ghost use Rattle.text_io.specs.declared.error.RunError.TheVariants.{Memory};
ghost use Rattle.drive.specs.Scripts.{NamesBadLine};
ghost use Rattle.drive.specs.Streams.{at_once, client_script_of};
ghost use Rattle.drive.specs.Pieces.{cut_by, AddUpTo, life_of};

use crate::digits::decode_onto;
use bytes::BytesMut;
use hex::FromHexError;
use local_server::{ConnectionNumber, ServerEvent, TimedEvent};
use std::alloc::Global;
use text_io::{RunError, split_line};

/// The pieces of a stream, one after the other in one buffer.
#[derive(Drop)]
struct Pieces {
    bytes: BytesMut,
    // The size of each piece.
    sizes: Vec<usize>,
}

/// The life of the one connection: it is opened, the stream comes, a piece a line, and ends.
///
/// # Errors
///
/// [`RunError::Line`] for the first line that is not hex, and [`RunError::Memory`].
pub(crate) fn read_stream(alloc: Global, input: &[u8]) -> Result<Vec<TimedEvent>, RunError>
    ensures ok { IfOk result (λ events. client_script_of input.now ≡ Ok events.items) }
    ensures err { IfErr result (NamesBadLine (client_script_of input.now)) }
{
    let pieces = read_pieces(alloc, input)?;
    life(alloc, pieces)
}

/// The pieces that the lines spell.
fn read_pieces(alloc: Global, input: &[u8]) -> Result<Pieces, RunError>
    ensures whole { IfOk result (λ pieces. AddUpTo pieces.sizes.items pieces.bytes.items) }
    ensures ok { IfOk result (λ pieces. client_script_of input.now ≡ Ok (life_of (cut_by pieces.sizes.items pieces.bytes.items))) }
    ensures err { IfErr result (NamesBadLine (client_script_of input.now)) }
{
    let mut bytes = BytesMut::with_capacity(alloc, input.len() / 2)?;
    let mut sizes = Vec::new(alloc);
    let mut rest = input;
    let mut number = 0;
    while !rest.is_empty() {
        let (line, others) = split_line(rest);
        number += 1;
        match decode_onto(&mut bytes, line) {
            Ok(size) => sizes.push(size)?,
            Err(FromHexError::OutOfMemory) => return Err(RunError::Memory),
            Err(_) => return Err(RunError::Line(number)),
        }
        rest = others;
    }
    Ok(Pieces { bytes, sizes })
}

/// The connection is opened, the pieces come, and the stream ends. All pieces share the memory of the buffer.
fn life(alloc: Global, pieces: Pieces) -> Result<Vec<TimedEvent>, RunError>
    requires { AddUpTo pieces.sizes.items pieces.bytes.items }
    ensures ok { IfOk result (λ events. events.items ≡ life_of (cut_by pieces.sizes.items pieces.bytes.items)) }
    ensures err { IfErr result (λ error. error ≡ Memory) }
{
    let Pieces { bytes, sizes } = pieces;
    let mut stream = bytes.freeze()?;
    let mut events = Vec::with_capacity(alloc, sizes.len() + 2)?;
    events.push(at_once(ServerEvent::Open(ConnectionNumber::FIRST)))?;
    for size in &sizes {
        let piece = stream.split_to(*size)?;
        events.push(at_once(ServerEvent::Bytes(ConnectionNumber::FIRST, piece)))?;
    }
    events.push(at_once(ServerEvent::End(ConnectionNumber::FIRST)))?;
    Ok(events)
}

/// The event at the moment 0.
fn at_once(event: ServerEvent) -> TimedEvent
    ensures { result ≡ at_once event }
{
    TimedEvent { moment: 0, event }
}
