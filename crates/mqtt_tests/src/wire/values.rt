//! The values that packets are made of, and the other packets made of them.

use crate::asserting::{assert_items, assert_same, assert_text};
use crate::wire::text;
use crate::written;
use bytes::Bytes;
use mqtt_fields::{Fault, StreamFault};
use mqtt_packet::{
    Acceptance, Binary, Connack, ConnectRefusal, MaximumPacketSize, NonEmpty, Offer, Packet,
    PacketIdentifier, QoS, ReasonCode, ReceiveMaximum, Suback, SubscriptionIdentifier, Text,
    Unsuback,
};
use std::alloc::Global;
use std::test::Fail;

// A CONNACK that accepts, as it is written.
fn accepting(
    alloc: Global,
    assigned_client_identifier: Option<Text>,
    offer: Offer,
) -> Result<Vec<u8>, Fault> {
    let accepted = Acceptance {
        session_present: false,
        session_expiry_interval: None,
        assigned_client_identifier,
        server_keep_alive: None,
        offer,
    };
    written(alloc, Packet::Connack(Connack::Accepted(accepted)))
}

// A CONNACK that accepts with a session, an expiry interval and a keep alive, as it is written.
fn limiting(
    alloc: Global,
    session_expiry_interval: Option<u32>,
    assigned_client_identifier: Option<Text>,
    server_keep_alive: Option<u16>,
    offer: Offer,
) -> Result<Vec<u8>, Fault> {
    let accepted = Acceptance {
        session_present: true,
        session_expiry_interval,
        assigned_client_identifier,
        server_keep_alive,
        offer,
    };
    written(alloc, Packet::Connack(Connack::Accepted(accepted)))
}

// An offer of a little.
fn little() -> Offer {
    Offer {
        maximum_qos: QoS::AtLeastOnce,
        retain_available: false,
        maximum_packet_size: MaximumPacketSize::new(65_536),
        subscription_identifiers_available: false,
    }
}

// An offer of all that there is.
fn all() -> Offer {
    Offer {
        maximum_qos: QoS::ExactlyOnce,
        retain_available: true,
        maximum_packet_size: None,
        subscription_identifiers_available: true,
    }
}

// Whether a CONNACK that accepts with a little is written so.
fn offers_a_little(
    alloc: Global,
    assigned_client_identifier: Option<Text>,
    wanted: &[u8],
) -> Result<bool, Fault> {
    let bytes = accepting(alloc, assigned_client_identifier, little())?;
    Ok(bytes.as_slice() == wanted)
}

#[test]
fn accepting_connack(rt: HostRuntime) -> Result<(), Fail> {
    let wanted = b"\x20\x0E\x00\x00\x0B\x24\x01\x25\x00\x27\x00\x01\x00\x00\x29\x00";
    assert!(rt; offers_a_little(rt.alloc(), None, wanted)?);
    let wanted = b"\x20\x12\x00\x00\x0F\x12\x00\x01a\x24\x01\x25\x00\x27\x00\x01\x00\x00\x29\x00";
    let assigned = Text::parse(Bytes::from_static(b"a"));
    assert!(rt; offers_a_little(rt.alloc(), assigned, wanted)?);
    let bytes = accepting(rt.alloc(), None, all())?;
    assert_items(&rt, bytes.as_slice(), b"\x20\x03\x00\x00\x00".as_slice());
    Ok(())
}

#[test]
fn limits_in_a_connack(rt: HostRuntime) -> Result<(), Fail> {
    let rows = [
        (
            Some(3_600),
            None,
            b"\x20\x08\x01\x00\x05\x11\x00\x00\x0E\x10".as_slice(),
        ),
        (
            Some(0xFEDC_BA98),
            Some(0x1234),
            b"\x20\x0B\x01\x00\x08\x11\xFE\xDC\xBA\x98\x13\x12\x34".as_slice(),
        ),
        (
            None,
            Some(60),
            b"\x20\x06\x01\x00\x03\x13\x00\x3C".as_slice(),
        ),
        (
            Some(0),
            Some(0),
            b"\x20\x0B\x01\x00\x08\x11\x00\x00\x00\x00\x13\x00\x00".as_slice(),
        ),
    ];
    for (expiry, keep_alive, wanted) in &rows {
        let bytes = limiting(rt.alloc(), *expiry, None, *keep_alive, all())?;
        assert_items(&rt, bytes.as_slice(), *wanted);
    }
    let assigned = Text::parse(Bytes::from_static(b"a"));
    let bytes = limiting(rt.alloc(), Some(1), assigned, Some(2), little())?;
    let wanted =
        b"\x20\x1A\x01\x00\x17\x11\x00\x00\x00\x01\x12\x00\x01a\x13\x00\x02\x24\x01\x25\x00\x27\x00\x01\x00\x00\x29\x00";
    assert_items(&rt, bytes.as_slice(), wanted.as_slice());
    Ok(())
}

#[test]
fn refusing_connack(rt: HostRuntime) -> Result<(), Fail> {
    let refusal = ConnectRefusal::UnsupportedProtocolVersion;
    let bytes = written(rt.alloc(), Packet::Connack(Connack::Refused(refusal)))?;
    assert_items(&rt, bytes.as_slice(), b"\x20\x03\x00\x84\x00".as_slice());
    Ok(())
}

#[test]
fn answer_to_a_ping(rt: HostRuntime) -> Result<(), Fail> {
    let bytes = written(rt.alloc(), Packet::Pingresp)?;
    assert_items(&rt, bytes.as_slice(), b"\xD0\x00".as_slice());
    Ok(())
}

// Two codes of a SUBACK or an UNSUBACK.
fn two_codes(alloc: Global) -> Result<NonEmpty<ReasonCode>, Fault> {
    let codes = [ReasonCode::GRANTED_QOS_1, ReasonCode::QUOTA_EXCEEDED];
    NonEmpty::from_vec(Vec::from_slice(alloc, &codes)?).ok_or(Fault::Memory)
}

// A SUBACK of two codes, as it is written.
fn suback(alloc: Global, packet_identifier: PacketIdentifier) -> Result<Vec<u8>, Fault> {
    let suback = Suback {
        packet_identifier,
        reason_codes: two_codes(alloc)?,
    };
    written(alloc, Packet::Suback(suback))
}

// An UNSUBACK of two codes, as it is written.
fn unsuback(alloc: Global, packet_identifier: PacketIdentifier) -> Result<Vec<u8>, Fault> {
    let unsuback = Unsuback {
        packet_identifier,
        reason_codes: two_codes(alloc)?,
    };
    written(alloc, Packet::Unsuback(unsuback))
}

#[test]
fn suback_and_unsuback(rt: HostRuntime) -> Result<(), Fail> {
    let one = PacketIdentifier::new(1).ok_or("1 is an identifier")?;
    let bytes = suback(rt.alloc(), one)?;
    assert_items(
        &rt,
        bytes.as_slice(),
        b"\x90\x05\x00\x01\x00\x01\x97".as_slice(),
    );
    let bytes = unsuback(rt.alloc(), one)?;
    assert_items(
        &rt,
        bytes.as_slice(),
        b"\xB0\x05\x00\x01\x00\x01\x97".as_slice(),
    );
    Ok(())
}

// The text of a fault.
fn told(alloc: Global, fault: Fault) -> Result<String, Fail> {
    Ok(format!(in alloc; "{fault}")?)
}

#[test]
fn texts_of_faults(rt: HostRuntime) -> Result<(), Fail> {
    let rows = [
        (Fault::Stream(StreamFault::Malformed), "malformed packet"),
        (Fault::Stream(StreamFault::Protocol), "protocol error"),
        (Fault::Stream(StreamFault::TooLarge), "packet too large"),
        (Fault::Memory, "out of memory"),
    ];
    for (fault, wanted) in &rows {
        assert_text(&rt, told(rt.alloc(), *fault)?.as_str(), *wanted);
    }
    Ok(())
}

// Whether these bytes are a text.
fn is_text(bytes: &'static [u8]) -> bool {
    Text::parse(Bytes::from_static(bytes)).is_some()
}

// A copy of a word as a text.
fn copied(word: &'static str) -> Result<Text, Fault> {
    match text(word)?.try_clone() {
        Ok(copy) => Ok(copy),
        Err(_) => Err(Fault::Memory),
    }
}

// A copy of two bytes as binary data.
fn two_bytes() -> Result<Binary, Fault> {
    let binary = Binary::new(Bytes::from_static(b"\0\xFF")).ok_or(Fault::Memory)?;
    match binary.try_clone() {
        Ok(copy) => Ok(copy),
        Err(_) => Err(Fault::Memory),
    }
}

#[test]
fn texts(rt: HostRuntime) -> Result<(), Fail> {
    assert!(rt; !is_text(b"a\0") && !is_text(b"\xC3") && is_text(b"a"));
    assert_text(&rt, copied("ü")?.as_str(), "ü");
    assert_items(&rt, two_bytes()?.as_bytes(), b"\0\xFF".as_slice());
    Ok(())
}

#[test]
fn lists(rt: HostRuntime) -> Result<(), Fail> {
    assert!(rt; NonEmpty::<u8>::from_vec(Vec::new(rt.alloc())).is_none());
    let list = NonEmpty::from_vec(Vec::from_slice(rt.alloc(), &[3u8])?).ok_or("it has an item")?;
    assert_items(&rt, list.into_vec().as_slice(), [3u8].as_slice());
    Ok(())
}

#[test]
fn numbers_of_two_bytes(rt: HostRuntime) -> Result<(), Fail> {
    for (number, wanted) in &[(0, None), (7, Some(7))] {
        let identifier = PacketIdentifier::new(*number).map(PacketIdentifier::get);
        assert_same(&rt, &identifier, wanted);
        let maximum = ReceiveMaximum::new(*number).map(ReceiveMaximum::get);
        assert_same(&rt, &maximum, wanted);
    }
    Ok(())
}

#[test]
fn longer_numbers(rt: HostRuntime) -> Result<(), Fail> {
    for (number, wanted) in &[(0, None), (9, Some(9))] {
        let size = MaximumPacketSize::new(*number).map(MaximumPacketSize::get);
        assert_same(&rt, &size, wanted);
    }
    for (number, wanted) in &[
        (0, None),
        (268_435_455, Some(268_435_455)),
        (268_435_456, None),
    ] {
        let identifier = SubscriptionIdentifier::new(*number).map(SubscriptionIdentifier::get);
        assert_same(&rt, &identifier, wanted);
    }
    Ok(())
}

#[test]
fn failures(rt: HostRuntime) -> Result<(), Fail> {
    assert!(rt; ReasonCode::new(0x80).is_failure());
    assert!(rt; !ReasonCode::new(0x7F).is_failure());
    Ok(())
}
