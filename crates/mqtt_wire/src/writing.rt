//! Packets as bytes, each in its one written form (chapter 3).

ghost use Rattle.std.specs.Prelude.{◌≡◌, ◌<◌, ◌≤◌, ◌+◌, ◌++◌, ◌⊎◌, ◌↔◌, length, vec_len, vec_capacity, IsErrOf, OnOk, OnErr, IfOk, IfErr};
ghost use Rattle.mqtt_fields.specs.Buffers.{HasRoom, Appends};
ghost use Rattle.mqtt_fields.specs.Forms.{variable_byte_integer};
ghost use Rattle.mqtt_wire.specs.Kinds.{qos_bits, foreign_byte};
ghost use Rattle.mqtt_wire.specs.Writing.{qos_of, packet_byte, written, written_size, remaining_length};
ghost use Rattle.mqtt_wire.specs.Ranges.{IsClientKind, IsFromClient, PropertiesFit};
ghost use Rattle.mqtt_wire.specs.Spelling.{Spells, maximum_packet_size};

use crate::body_writing::put_body;
use crate::sizes::body_size;
use mqtt_fields::{Fault, StreamFault, put_byte, put_variable_byte_integer, variable_size};
use mqtt_packet::{Delivery, ForeignKind, Packet};
use std::alloc::Global;

/// The bytes of the packet, in its one written form, as [`encode_into`] writes them.
///
/// Refusals: 103 exactly where the Remaining Length would be over 268,435,455; 104 where memory is refused.
pub fn encode(alloc: Global, packet: &Packet) -> Result<Vec<u8>, Fault>
    ensures ok { IfOk result (λ bytes. bytes.items ≡ written packet.now) }
    ensures too_large { IsErrOf result (Fault.Stream StreamFault.TooLarge) ↔ (268435455 < remaining_length packet.now) }
    ensures refused { IfErr result (λ fault. (fault ≡ Fault.Stream StreamFault.TooLarge) ⊎ (fault ≡ Fault.Memory)) }
{
    let mut bytes = Vec::new(alloc);
    encode_into(&mut bytes, packet)?;
    Ok(bytes)
}

/// Writes the packet after what the buffer holds, in its one written form: its properties in rising order of their
/// identifiers, and nothing that may be left out. Of the last three kinds of packet, which are only read, it is the
/// shortest form that is read as the same packet.
///
/// What is written of a kind that a client sends is read again as the same packet, where it has at most 65,536 bytes. A PUBLISH with a
/// Subscription Identifier is of no such kind: only a server sends it.
///
/// Refusals: 103 exactly where the Remaining Length would be over 268,435,455; 104 where the buffer has no room and memory
/// is refused. Then it holds what it held. Its capacity never shrinks.
pub fn encode_into(out: &mut Vec<u8>, packet: &Packet) -> Result<(), Fault>
    ensures ok { OnOk result (out.new.items ≡ out.old.items ++ written packet.now) }
    ensures err { OnErr result (out.new.items ≡ out.old.items) }
    ensures too_large { IsErrOf result (Fault.Stream StreamFault.TooLarge) ↔ (268435455 < remaining_length packet.now) }
    ensures memory { IsErrOf result Fault.Memory → vec_capacity out.old < vec_len out.old + length (written packet.now) }
    ensures capacity { vec_capacity out.old ≤ vec_capacity out.new }
    ensures refused { IfErr result (λ fault. (fault ≡ Fault.Stream StreamFault.TooLarge) ⊎ (fault ≡ Fault.Memory)) }
    ensures spelled { OnOk result (IsClientKind packet.now → length (written packet.now) ≤ maximum_packet_size →
        Spells packet.now (written packet.now)) }
{
    let Some(remaining) = body_size(packet) else {
        return Err(Fault::Stream(StreamFault::TooLarge));
    };
    out.reserve(framed_size(remaining))?;
    put_packet(out, packet, remaining);
    Ok(())
}

/// How many bytes the packet is written in; 18,446,744,073,709,551,615 where it can't be written, as its Remaining Length
/// would be over 268,435,455.
#[tactic(auto, unfolding(crate::specs::Writing::written_size), using(crate::proofs::WritingLaws::written_length))]
pub fn encoded_size(packet: &Packet) -> u64
    ensures { result ≡ written_size packet.now }
{
    match body_size(packet) {
        Some(remaining) => framed_size(remaining) as u64,
        None => u64::MAX,
    }
}

/// How many bytes a packet has whose body has so many (section 2.1).
fn framed_size(remaining: usize) -> usize
    requires { remaining < 268435456 }
    ensures { result ≡ 1 + length (variable_byte_integer remaining) + remaining }
{
    1 + variable_size(remaining) + remaining
}

/// Writes the packet, whose body has that many bytes.
#[tactic(auto, unfolding(crate::specs::Writing::written, crate::specs::Writing::remaining_length))]
fn put_packet(out: &mut Vec<u8>, packet: &Packet, remaining: usize)
    requires size { remaining ≡ remaining_length packet.now }
    requires small { remaining < 268435456 }
    requires room { HasRoom out.old (written packet.now) }
    ensures appended { Appends out.old (written packet.now) out.new }
    ensures fits { IsClientKind packet.now → IsFromClient packet.now × PropertiesFit packet.now }
{
    put_byte(out, first_byte(packet));
    put_variable_byte_integer(out, 3, remaining as u32);
    put_body(out, packet);
}

/// The first byte of the packet (section 2.1.1).
fn first_byte(packet: &Packet) -> u8
    ensures { result ≡ packet_byte packet.now }
{
    match packet {
        Packet::Connect(_) | Packet::OtherVersion(_) | Packet::WithWill => 0x10,
        Packet::Connack(_) => 0x20,
        Packet::Publish(publish) => {
            let dup = 8 * u8::from(publish.dup);
            let qos = 2 * delivery_qos(&publish.delivery);
            0x30 + dup + qos + u8::from(publish.retain)
        }
        Packet::Puback(_) => 0x40,
        Packet::Subscribe(_) => 0x82,
        Packet::Suback(_) => 0x90,
        Packet::Unsubscribe(_) => 0xA2,
        Packet::Unsuback(_) => 0xB0,
        Packet::Pingreq => 0xC0,
        Packet::Pingresp => 0xD0,
        Packet::Disconnect(_) => 0xE0,
        Packet::Foreign(kind) => foreign_byte(*kind),
    }
}

/// The first byte of a kind that a client has no business to send.
fn foreign_byte(kind: ForeignKind) -> u8
    ensures { result ≡ foreign_byte kind }
{
    match kind {
        ForeignKind::Connack => 0x20,
        ForeignKind::Pubrec => 0x50,
        ForeignKind::Pubrel => 0x62,
        ForeignKind::Pubcomp => 0x70,
        ForeignKind::Suback => 0x90,
        ForeignKind::Unsuback => 0xB0,
        ForeignKind::Pingresp => 0xD0,
        ForeignKind::Auth => 0xF0,
    }
}

/// The two bits of a PUBLISH's quality of service (section 3.3.1.2).
fn delivery_qos(delivery: &Delivery) -> u8
    ensures value { result ≡ qos_bits (qos_of delivery.now) }
    ensures small { result < 3 }
{
    match delivery {
        Delivery::AtMostOnce => 0,
        Delivery::AtLeastOnce(_) => 1,
        Delivery::ExactlyOnce(_) => 2,
    }
}
