//! Short packets, read where they stand on the stream.

ghost use Rattle.std.specs.Prelude.{◌≡◌, None};
ghost use Rattle.mqtt_fields.specs.Forms.{AreBytes};
ghost use Rattle.mqtt_wire.specs.Frame.{TakesShort};

use crate::bodies::read_body;
use crate::body_room::BodyRoom;
use crate::header::read_header;
use bytes::BytesMut;
use mqtt_packet::{
    Disconnect, DisconnectProperties, Packet, PacketIdentifier, Puback, PubackProperties,
    ReasonCode,
};
use std::alloc::Global;

/// Takes a PUBACK or a DISCONNECT of Reason Code 00 without properties, or a packet with a small body that is copied, off the stream, where one
/// stands whole in front and is lawful.
pub(crate) fn take_short(
    alloc: Global,
    room: &mut BodyRoom,
    stream: &mut BytesMut,
) -> Option<Packet>
    ensures taken { AreBytes stream.old.items → TakesShort stream.old.items result stream.new.items }
    ensures same { result ≡ None → stream.new.items ≡ stream.old.items }
{
    if let Some(packet) = take_short_puback(alloc, stream) {
        return Some(packet);
    }
    if let Some(packet) = take_short_disconnect(alloc, stream) {
        return Some(packet);
    }
    take_small(alloc, room, stream)
}

/// Takes a packet with a small body that is copied. One comes for each job.
fn take_small(alloc: Global, room: &mut BodyRoom, stream: &mut BytesMut) -> Option<Packet>
    ensures taken { AreBytes stream.old.items → TakesShort stream.old.items result stream.new.items }
    ensures same { result ≡ None → stream.new.items ≡ stream.old.items }
{
    let bytes = stream.as_slice();
    let (header, rest) = read_header(bytes).ok()??;
    let body = room.copy_small(header, rest)?;
    let size = bytes.len() - rest.len() + header.remaining;
    let packet = read_body(alloc, header.kind, body).ok()?;
    stream.advance(size);
    Some(packet)
}

/// Takes a PUBACK of four bytes. One comes for each job.
fn take_short_puback(alloc: Global, stream: &mut BytesMut) -> Option<Packet>
    ensures { TakesShort stream.old.items result stream.new.items }
{
    let [0x40, 2, high, low, ..] = stream.as_slice() else {
        return None;
    };
    let packet_identifier = PacketIdentifier::new(u16::from_be_bytes([*high, *low]))?;
    stream.advance(4);
    Some(Packet::Puback(Puback {
        packet_identifier,
        reason_code: ReasonCode::SUCCESS,
        properties: PubackProperties::new(alloc),
    }))
}

/// Takes a DISCONNECT of two bytes.
fn take_short_disconnect(alloc: Global, stream: &mut BytesMut) -> Option<Packet>
    ensures { TakesShort stream.old.items result stream.new.items }
{
    let [0xE0, 0, ..] = stream.as_slice() else {
        return None;
    };
    stream.advance(2);
    Some(Packet::Disconnect(Disconnect {
        reason_code: ReasonCode::SUCCESS,
        properties: DisconnectProperties::new(alloc),
    }))
}
