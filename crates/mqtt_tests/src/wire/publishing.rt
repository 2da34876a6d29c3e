//! PUBLISH packets and their properties, written and read.

use crate::asserting::{assert_items, assert_same};
use crate::wire::text;
use crate::written;
use bytes::Bytes;
use mqtt_fields::Fault;
use mqtt_packet::{
    Binary, Delivery, Packet, PacketIdentifier, Publish, PublishProperties, RareProperties,
    SubscriptionIdentifier, UserProperties, UserProperty,
};
use mqtt_wire::{Splitter, encode_into, encoded_size};
use std::alloc::Global;
use std::test::Fail;

// A list of one User Property.
fn one_property(alloc: Global) -> Result<UserProperties, Fault> {
    let mut list = UserProperties::new(alloc);
    list.push(property()?)?;
    Ok(list)
}

// A User Property.
fn property() -> Result<UserProperty, Fault> {
    let name = text("k")?;
    let value = text("v")?;
    Ok(UserProperty { name, value })
}

// A PUBLISH of that payload, with a User Property.
fn publish(alloc: Global, payload: &'static [u8]) -> Result<Packet, Fault> {
    let topic = text("job")?;
    let user_properties = one_property(alloc)?;
    let mut properties = PublishProperties::new(alloc);
    properties.user_properties = user_properties;
    let properties = RareProperties::new(alloc, properties)?;
    Ok(Packet::Publish(Publish {
        dup: false,
        retain: false,
        delivery: Delivery::AtMostOnce,
        message_expiry_interval: None,
        subscription_identifier: None,
        topic,
        properties,
        payload: Bytes::from_static(payload),
    }))
}

// Whether a packet is the PUBLISH of a payload.
fn is_publish(alloc: Global, packet: &Packet, payload: &'static [u8]) -> Result<bool, Fault> {
    match publish(alloc, payload) {
        Ok(other) => {
            let is_equal = *packet == other;
            drop(other);
            Ok(is_equal)
        }
        Err(fault) => Err(fault),
    }
}

// Whether the PUBLISH packets of two payloads are equal.
fn are_equal(alloc: Global, payload: &'static [u8], other: &'static [u8]) -> Result<bool, Fault> {
    match publish(alloc, payload) {
        Ok(packet) => {
            let is_equal = is_publish(alloc, &packet, other);
            drop(packet);
            is_equal
        }
        Err(fault) => Err(fault),
    }
}

// The PUBLISH of a payload after what stands there already, and how long it is said to be.
fn put_behind(alloc: Global, out: &mut Vec<u8>, payload: &'static [u8]) -> Result<u64, Fault> {
    match publish(alloc, payload) {
        Ok(packet) => {
            let written = encode_into(out, &packet);
            let size = encoded_size(&packet);
            drop(packet);
            written.map(|()| size)
        }
        Err(fault) => Err(fault),
    }
}

// A PUBLISH of a job, as a server sends it: with these two properties of its own, and the others.
fn job(
    message_expiry_interval: Option<u32>,
    number: u32,
    properties: &RareProperties,
) -> Result<Packet, Fault> {
    let packet_identifier = PacketIdentifier::new(1).ok_or(Fault::Memory)?;
    let topic = text("job")?;
    let properties = properties.share()?;
    Ok(Packet::Publish(Publish {
        dup: false,
        retain: false,
        delivery: Delivery::AtLeastOnce(packet_identifier),
        message_expiry_interval,
        subscription_identifier: SubscriptionIdentifier::new(number),
        topic,
        properties,
        payload: Bytes::from_static(b"A"),
    }))
}

// Whether such a PUBLISH is written in these bytes, and is said to be so long.
fn job_is(
    alloc: Global,
    message_expiry_interval: Option<u32>,
    number: u32,
    properties: &RareProperties,
    wanted: &[u8],
) -> Result<bool, Fault> {
    let packet = job(message_expiry_interval, number, properties)?;
    let size = encoded_size(&packet);
    let bytes = written(alloc, packet)?;
    Ok(bytes.as_slice() == wanted && size == wanted.len() as u64)
}

// Every property of a PUBLISH that stands apart from it.
fn every_property(alloc: Global) -> Result<RareProperties, Fault> {
    let content_type = text("c")?;
    let response_topic = text("r")?;
    let correlation_data = Binary::new(Bytes::from_static(b"d"));
    let user_properties = one_property(alloc)?;
    let mut properties = PublishProperties::new(alloc);
    properties.payload_format_indicator = Some(1);
    properties.content_type = Some(content_type);
    properties.response_topic = Some(response_topic);
    properties.correlation_data = correlation_data;
    properties.topic_alias = Some(1);
    properties.user_properties = user_properties;
    Ok(RareProperties::new(alloc, properties)?)
}

#[test]
fn publish_of_a_subscription(rt: HostRuntime) -> Result<(), Fail> {
    let none = RareProperties::none();
    let wanted = b"\x32\x0B\x00\x03job\x00\x01\x02\x0B\x05A";
    assert!(rt; job_is(rt.alloc(), None, 5, &none, wanted)?);
    let wanted = b"\x32\x0C\x00\x03job\x00\x01\x03\x0B\xC8\x01A";
    assert!(rt; job_is(rt.alloc(), None, 200, &none, wanted)?);
    let wanted = b"\x32\x10\x00\x03job\x00\x01\x07\x02\x00\x00\x0E\x10\x0B\x05A";
    assert!(rt; job_is(rt.alloc(), Some(3_600), 5, &none, wanted)?);
    Ok(())
}

#[test]
fn every_property_in_its_place(rt: HostRuntime) -> Result<(), Fail> {
    let all = every_property(rt.alloc())?;
    let wanted =
        b"\x32\x29\x00\x03job\x00\x01\x20\x01\x01\x02\x00\x00\x00\x0A\x03\x00\x01c\x08\x00\x01r\x09\x00\x01d\x0B\xC8\x01\x23\x00\x01\x26\x00\x01k\x00\x01vA";
    assert!(rt; job_is(rt.alloc(), Some(10), 200, &all, wanted)?);
    Ok(())
}

// The Message Expiry Interval of the PUBLISH that these bytes are, whether it has a Subscription Identifier, and whether properties stand apart from it.
fn read_of(alloc: Global, bytes: &[u8]) -> Result<(Option<u32>, bool, bool), Fault> {
    let mut splitter = Splitter::new(alloc);
    splitter.feed(bytes)?;
    match splitter.next()? {
        Some(Packet::Publish(publish)) => Ok((
            publish.message_expiry_interval,
            publish.subscription_identifier.is_some(),
            publish.properties.get().is_some(),
        )),
        _ => Err(Fault::Memory),
    }
}

#[test]
fn expiry_of_a_publish(rt: HostRuntime) -> Result<(), Fail> {
    let alone = b"\x32\x0E\x00\x03job\x00\x01\x05\x02\x00\x00\x0E\x10A";
    assert_same(
        &rt,
        &read_of(rt.alloc(), alone)?,
        &(Some(3_600), false, false),
    );
    let with_format = b"\x32\x10\x00\x03job\x00\x01\x07\x01\x01\x02\xFF\xFF\xFF\xFFA";
    assert_same(
        &rt,
        &read_of(rt.alloc(), with_format)?,
        &(Some(u32::MAX), false, true),
    );
    Ok(())
}

#[test]
fn packets_behind_a_buffer(rt: HostRuntime) -> Result<(), Fail> {
    let mut out = Vec::from_slice(rt.alloc(), b"first")?;
    let size = put_behind(rt.alloc(), &mut out, b"A")?;
    let wanted = b"first\x30\x0E\x00\x03job\x07\x26\x00\x01k\x00\x01vA";
    assert_items(&rt, out.as_slice(), wanted.as_slice());
    assert_same(&rt, &size, &16);
    Ok(())
}

#[test]
fn equal_packets(rt: HostRuntime) -> Result<(), Fail> {
    assert!(rt; are_equal(rt.alloc(), b"A", b"A")?);
    assert!(rt; !are_equal(rt.alloc(), b"A", b"B")?);
    Ok(())
}

// How many User Properties a copy of one has, and a list made of its `Vec`.
fn copies(alloc: Global) -> Result<(usize, usize), Fault> {
    let list = one_property(alloc)?;
    let copy = list.try_clone(alloc)?;
    let count = copy.as_slice().len();
    let again = UserProperties::from(copy.into_vec());
    Ok((count, again.as_slice().len()))
}

#[test]
fn user_properties(rt: HostRuntime) -> Result<(), Fail> {
    assert_same(&rt, &copies(rt.alloc())?, &(1, 1));
    Ok(())
}

// Whether properties are equal to what is shared of them, and how many of them are User Properties.
fn shared(alloc: Global) -> Result<(bool, usize), Fault> {
    let mut properties = PublishProperties::new(alloc);
    properties.user_properties = one_property(alloc)?;
    let properties = RareProperties::new(alloc, properties)?;
    let shared = properties.share()?;
    let count = shared
        .get()
        .map_or(0, |shared| shared.user_properties.as_slice().len());
    Ok((shared == properties, count))
}

#[test]
fn properties_of_several_owners(rt: HostRuntime) -> Result<(), Fail> {
    assert_same(&rt, &shared(rt.alloc())?, &(true, 1));
    Ok(())
}
