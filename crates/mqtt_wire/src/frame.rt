//! Packets that are taken off a stream: first the header, then the body (section 2.1).

ghost use Rattle.std.specs.Prelude.{◌≡◌, List, ℕ};
ghost use Rattle.mqtt_fields.specs.Faults.{Gives};
ghost use Rattle.mqtt_wire.specs.Bodies.{body_at};
ghost use Rattle.mqtt_wire.specs.Frame.{TakesHeader, TakesBody};

use crate::bodies::read_body;
use crate::body_room::BodyRoom;
use crate::header::{FixedHeader, read_header};
use crate::kind::Kind;
use bytes::{Bytes, BytesMut};
use mqtt_fields::{Fault, StreamFault};
use mqtt_packet::Packet;
use std::alloc::{AllocError, Global};

/// A whole packet: its kind and its body.
#[derive(Drop)]
pub(crate) struct Frame {
    pub(crate) kind: Kind,
    pub(crate) body: Bytes,
}

/// Takes the header off the stream; `None` where it is not whole yet. An `Err` changes nothing.
pub(crate) fn take_header(stream: &mut BytesMut) -> Result<Option<FixedHeader>, StreamFault>
    ensures { TakesHeader stream.old.items result stream.new.items }
{
    let bytes = stream.as_slice();
    let Some((header, rest)) = read_header(bytes)? else {
        return Ok(None);
    };
    let size = bytes.len() - rest.len();
    stream.advance(size);
    Ok(Some(header))
}

/// Takes the body after a header off the stream; `None` where it is not whole yet. An `Err` comes only where it is, and changes nothing of the
/// stream.
pub(crate) fn take_body(
    room: &mut BodyRoom,
    header: FixedHeader,
    stream: &mut BytesMut,
) -> Result<Option<Frame>, AllocError>
    ensures { TakesBody header stream.old.items result stream.new.items }
{
    let FixedHeader { kind, remaining } = header;
    if stream.len() < remaining {
        return Ok(None);
    }
    let body = room.take(kind, remaining, stream)?;
    Ok(Some(Frame { kind, body }))
}

/// Reads the packet.
pub(crate) fn read_frame(alloc: Global, frame: &Frame) -> Result<Packet, Fault>
    ensures { Gives (λ packet. packet) result (body_at frame.now.kind frame.now.body) }
{
    read_body(alloc, frame.kind, frame.body.clone()?)
}
