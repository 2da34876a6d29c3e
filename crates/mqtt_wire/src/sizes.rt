//! How many bytes the body of a packet is written in (section 2.1.4).

ghost use Rattle.std.specs.Prelude.{◌≡◌, ◌<◌, ◌≤◌, ◌+◌, ◌^◌, List, ℕ, min, length, MatchOption};
ghost use Rattle.std.specs.List.{flat_map};
ghost use Rattle.mqtt_fields.specs.PropertyLists.{bytes_if};
ghost use Rattle.mqtt_fields.specs.Sizes.{greatest};
ghost use Rattle.mqtt_wire.specs.Connacks.{connack_properties, connack_body, offer_bytes};
ghost use Rattle.mqtt_wire.specs.Writing.{subscription_bytes, delivery_bytes, reason_bytes, connect_payload, remaining_length};
ghost use Rattle.mqtt_fields.specs.Forms.{utf8_string, binary_data};

use mqtt_fields::{
    connect_list_size, disconnect_list_size, puback_list_size, publish_list_size, section_size,
    subscribe_list_size, unsubscribe_list_size, variable_size,
};
use mqtt_packet::{
    Acceptance, Binary, Connack, Connect, Delivery, Offer, Packet, QoS, ReasonCode, Subscription,
    Text,
};

/// The greatest number that a Variable Byte Integer can say, and so the greatest Remaining Length (section 1.5.5).
const MAXIMUM_VARIABLE_BYTE_INTEGER: usize = 268_435_455;

/// The Remaining Length in which the packet is written; `None` where four bytes cannot say it.
#[tactic(auto, unfolding(crate::specs::Writing::remaining_length))]
pub(crate) fn body_size(packet: &Packet) -> Option<usize>
    ensures { MatchOption result (MAXIMUM_VARIABLE_BYTE_INTEGER < remaining_length packet.now)
        (λ size. (size ≡ remaining_length packet.now) × (size ≤ MAXIMUM_VARIABLE_BYTE_INTEGER)) }
{
    match packet {
        Packet::Connect(connect) => {
            let properties = section_size(connect_list_size(&connect.properties))?;
            within(connect_size(connect) + properties)
        }
        Packet::Connack(connack) => within(connack_size(connack)),
        Packet::Publish(publish) => {
            let properties = section_size(publish_list_size(publish))?;
            let header = 2 + publish.topic.as_bytes().len() + delivery_size(&publish.delivery);
            within(header + properties + publish.payload.len())
        }
        Packet::Puback(puback) => {
            let list = puback_list_size(&puback.properties);
            within(2 + reason_size(puback.reason_code, list)?)
        }
        Packet::Subscribe(subscribe) => {
            let properties = section_size(subscribe_list_size(&subscribe.properties))?;
            let entries = subscriptions_size(subscribe.subscriptions.as_slice())?;
            within(2 + properties + entries)
        }
        Packet::Suback(suback) => within(3 + suback.reason_codes.as_slice().len()),
        Packet::Unsubscribe(unsubscribe) => {
            let properties = section_size(unsubscribe_list_size(&unsubscribe.properties))?;
            let entries = filters_size(unsubscribe.filters.as_slice())?;
            within(2 + properties + entries)
        }
        Packet::Unsuback(unsuback) => within(3 + unsuback.reason_codes.as_slice().len()),
        Packet::Disconnect(disconnect) => {
            let list = disconnect_list_size(&disconnect.properties);
            within(reason_size(disconnect.reason_code, list)?)
        }
        Packet::OtherVersion(_) => Some(3),
        Packet::WithWill => Some(8),
        Packet::Pingreq | Packet::Pingresp | Packet::Foreign(_) => Some(0),
    }
}

/// How many bytes the body of a CONNECT takes beside its properties.
fn connect_size(connect: &Connect) -> usize
    ensures value { result ≡ 10 + length (connect_payload connect.now) }
    ensures small { result < 2 ^ 18 }
{
    let client_identifier = 2 + connect.client_identifier.as_bytes().len();
    10 + client_identifier + text_size_if(&connect.user_name) + binary_size_if(&connect.password)
}

/// How many bytes a UTF-8 Encoded String takes where it is there.
fn text_size_if(text: &Option<Text>) -> usize
    ensures value { result ≡ length (bytes_if utf8_string text.now) }
    ensures small { result < 65538 }
{
    match text {
        Some(text) => 2 + text.as_bytes().len(),
        None => 0,
    }
}

/// How many bytes Binary Data takes where it is there.
fn binary_size_if(binary: &Option<Binary>) -> usize
    ensures value { result ≡ length (bytes_if binary_data binary.now) }
    ensures small { result < 65538 }
{
    match binary {
        Some(binary) => 2 + binary.as_bytes().len(),
        None => 0,
    }
}

/// How many bytes the body of a CONNACK takes.
fn connack_size(connack: &Connack) -> usize
    ensures { result ≡ length (connack_body connack.now) }
{
    match connack {
        Connack::Accepted(acceptance) => {
            let size = connack_properties_size(acceptance);
            2 + variable_size(size) + size
        }
        Connack::Refused(_) => 3,
    }
}

/// How many bytes the properties of a CONNACK that accepts take.
pub(crate) fn connack_properties_size(acceptance: &Acceptance) -> usize
    ensures value { result ≡ length (connack_properties acceptance.now) }
    ensures small { result < 2 ^ 17 }
{
    let expiry = if acceptance.session_expiry_interval.is_some() {
        5
    } else {
        0
    };
    let assigned = match &acceptance.assigned_client_identifier {
        Some(identifier) => 3 + identifier.as_bytes().len(),
        None => 0,
    };
    let keep_alive = if acceptance.server_keep_alive.is_some() {
        3
    } else {
        0
    };
    expiry + assigned + keep_alive + offer_size(&acceptance.offer)
}

/// How many bytes the properties take that say what a server offers.
fn offer_size(offer: &Offer) -> usize
    ensures value { result ≡ length (offer_bytes offer.now) }
    ensures small { result ≤ 11 }
{
    let maximum_qos = match offer.maximum_qos {
        QoS::AtMostOnce | QoS::AtLeastOnce => 2,
        QoS::ExactlyOnce => 0,
    };
    let retain = if offer.retain_available { 0 } else { 2 };
    let maximum_packet_size = if offer.maximum_packet_size.is_some() {
        5
    } else {
        0
    };
    let identifiers = if offer.subscription_identifiers_available {
        0
    } else {
        2
    };
    maximum_qos + retain + maximum_packet_size + identifiers
}

/// The size, where four bytes can say it.
fn within(size: usize) -> Option<usize>
    ensures { MatchOption result (MAXIMUM_VARIABLE_BYTE_INTEGER < size)
        (λ found. (found ≡ size) × (size ≤ MAXIMUM_VARIABLE_BYTE_INTEGER)) }
{
    if size > MAXIMUM_VARIABLE_BYTE_INTEGER {
        return None;
    }
    Some(size)
}

/// How many bytes the identifier of a PUBLISH takes.
fn delivery_size(delivery: &Delivery) -> usize
    ensures value { result ≡ length (delivery_bytes delivery.now) }
    ensures small { result ≤ 2 }
{
    match delivery {
        Delivery::AtMostOnce => 0,
        Delivery::AtLeastOnce(_) | Delivery::ExactlyOnce(_) => 2,
    }
}

/// How many bytes a reason code takes, with so many bytes of properties; `None` where four bytes cannot say how many.
fn reason_size(code: ReasonCode, list: usize) -> Option<usize>
    ensures { (bytes : List ℕ) → list ≡ min (length bytes) greatest → MatchOption result
        (MAXIMUM_VARIABLE_BYTE_INTEGER < length (reason_bytes code bytes))
        (λ size. (size ≡ length (reason_bytes code bytes)) × (size ≤ 268435460)) }
{
    if list == 0 {
        return Some(if code == ReasonCode::SUCCESS { 0 } else { 1 });
    }
    Some(1 + section_size(list)?)
}

/// How many bytes the entries of a SUBSCRIBE take; `None` where they are more than four bytes can say.
fn subscriptions_size(entries: &[Subscription]) -> Option<usize>
    ensures { MatchOption result
        (MAXIMUM_VARIABLE_BYTE_INTEGER < length (flat_map subscription_bytes entries.now))
        (λ size. (size ≡ length (flat_map subscription_bytes entries.now))
        × (size ≤ MAXIMUM_VARIABLE_BYTE_INTEGER)) }
{
    let mut size = 0usize;
    for entry in entries {
        size += 3 + entry.filter.as_bytes().len();
        if size > MAXIMUM_VARIABLE_BYTE_INTEGER {
            return None;
        }
    }
    Some(size)
}

/// How many bytes the filters of an UNSUBSCRIBE take; `None` where they are more than four bytes can say.
fn filters_size(filters: &[Text]) -> Option<usize>
    ensures { MatchOption result
        (MAXIMUM_VARIABLE_BYTE_INTEGER < length (flat_map utf8_string filters.now))
        (λ size. (size ≡ length (flat_map utf8_string filters.now))
        × (size ≤ MAXIMUM_VARIABLE_BYTE_INTEGER)) }
{
    let mut size = 0usize;
    for filter in filters {
        size += 2 + filter.as_bytes().len();
        if size > MAXIMUM_VARIABLE_BYTE_INTEGER {
            return None;
        }
    }
    Some(size)
}
