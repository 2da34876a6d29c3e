//! Readers of whole bodies, one for each kind of packet (chapter 3). Each takes the fields from first to last, and the
//! first that is wrong decides.

ghost use Rattle.std.specs.Prelude.{◌≡◌, ◌<◌, List, ℕ, length, OnOk};
ghost use Rattle.mqtt_fields.specs.Faults.{Gives, GivesField, ReadsField};
ghost use Rattle.mqtt_fields.specs.PropertyLists.{GivesPublish};
ghost use Rattle.mqtt_fields.specs.Sections.{properties_at};
ghost use Rattle.mqtt_fields.specs.Fields.{Field, text_at};
ghost use Rattle.mqtt_wire.specs.Protocol.{are_connect_flags};
ghost use Rattle.mqtt_wire.specs.Bodies.{delivery_at, publish_body_at, last_properties_at, reason_at, puback_at, disconnect_at, retain_handling_at, options_at, subscription_at, entries_within, at_least_one, entries_at, subscribe_at, unsubscribe_at, body_at};
ghost use Rattle.mqtt_wire.specs.ConnectBody.{expect, connect_payload_at, connect_fields_at, connect_5_at, connect_at};

use crate::kind::{Kind, PublishFlags, qos_of};
use bytes::Bytes;
use mqtt_fields::{
    Fault, Properties, Section, StreamFault, read_binary_if, read_byte, read_identifier,
    read_properties, read_text, read_text_if, read_u16,
};
use mqtt_packet::{
    Binary, Boxed, Connect, Delivery, Disconnect, NonEmpty, Packet, Puback, Publish, QoS,
    RareProperties, ReasonCode, RetainHandling, Subscribe, Subscription, SubscriptionOptions, Text,
    Unsubscribe,
};
use std::alloc::Global;

/// The Protocol Version of MQTT 5.0 (section 3.1.2.2).
const PROTOCOL_VERSION: u8 = 5;

/// The payload of a CONNECT (section 3.1.3).
#[derive(Drop)]
pub(crate) struct ConnectPayload {
    client_identifier: Text,
    user_name: Option<Text>,
    password: Option<Binary>,
}

/// Reads the body of a packet of that kind, all of it.
#[tactic(auto, unfolding(crate::specs::Bodies::body_at))]
pub(crate) fn read_body(alloc: Global, kind: Kind, body: Bytes) -> Result<Packet, Fault>
    ensures { Gives (λ packet. packet) result (body_at kind body) }
{
    match kind {
        Kind::Connect => read_connect(alloc, body),
        Kind::Publish(flags) => read_publish(alloc, flags, body),
        Kind::Puback => Ok(Packet::Puback(read_puback(alloc, body)?)),
        Kind::Subscribe => Ok(Packet::Subscribe(read_subscribe(alloc, body)?)),
        Kind::Unsubscribe => Ok(Packet::Unsubscribe(read_unsubscribe(alloc, body)?)),
        Kind::Pingreq => {
            expected(body.is_empty())?;
            Ok(Packet::Pingreq)
        }
        Kind::Disconnect => Ok(Packet::Disconnect(read_disconnect(alloc, body)?)),
        Kind::Foreign(kind) => Ok(Packet::Foreign(kind)),
    }
}

/// What has to hold, or the packet is malformed.
fn expected(holds: bool) -> Result<(), StreamFault>
    ensures { result ≡ expect holds }
{
    if holds {
        Ok(())
    } else {
        Err(StreamFault::Malformed)
    }
}

/// Reads a CONNECT (section 3.1). After another protocol name or version nothing is looked at.
#[tactic(auto, unfolding(crate::specs::ConnectBody::connect_at))]
fn read_connect(alloc: Global, mut body: Bytes) -> Result<Packet, Fault>
    ensures { Gives (λ packet. packet) result (connect_at body) }
{
    let name = read_text(&mut body)?;
    let version = read_byte(&mut body)?;
    if name.as_bytes() == b"MQTT".as_slice() && version == PROTOCOL_VERSION {
        read_connect_5(alloc, body)
    } else {
        Ok(Packet::OtherVersion(version))
    }
}

/// Reads what stands behind the version 5. After a will flag nothing is looked at.
#[tactic(auto, unfolding(crate::specs::ConnectBody::connect_5_at))]
fn read_connect_5(alloc: Global, mut body: Bytes) -> Result<Packet, Fault>
    ensures { Gives (λ packet. packet) result (connect_5_at body) }
{
    let flags = read_byte(&mut body)?;
    expected(are_connect_flags(flags))?;
    if flags / 4 % 2 == 1 {
        return Ok(Packet::WithWill);
    }
    let connect = read_connect_fields(alloc, flags, body)?;
    Ok(Packet::Connect(Boxed::new(alloc, connect)?))
}

/// Whether the connect flags are lawful: bit 0 is reserved, a will QoS of 3 is none, and without a will its flags are 0
/// (section 3.1.2.3).
fn are_connect_flags(flags: u8) -> bool
    ensures { result ≡ are_connect_flags flags }
{
    flags % 2 == 0 && flags / 8 % 4 != 3 && (flags / 4 % 2 == 1 || flags / 8 % 8 == 0)
}

/// Reads what stands behind the connect flags of a CONNECT without a will (sections 3.1.2.10 and 3.1.3).
#[tactic(auto, unfolding(crate::specs::ConnectBody::connect_fields_at))]
fn read_connect_fields(alloc: Global, flags: u8, mut body: Bytes) -> Result<Connect, Fault>
    ensures { Gives (λ packet. packet) result (connect_fields_at flags body) }
{
    let keep_alive = read_u16(&mut body)?;
    let properties = read_properties(alloc, Section::Connect, &mut body)?.into_connect()?;
    read_connect_payload(flags, body).map(|payload| Connect {
        clean_start: flags / 2 % 2 == 1,
        keep_alive,
        properties,
        client_identifier: payload.client_identifier,
        user_name: payload.user_name,
        password: payload.password,
    })
}

/// Reads the payload of a CONNECT, all of it: the client identifier, the user name and the password (section 3.1.3).
#[tactic(auto, unfolding(crate::specs::ConnectBody::connect_payload_at))]
fn read_connect_payload(flags: u8, mut body: Bytes) -> Result<ConnectPayload, Fault>
    ensures { Gives (λ payload. payload) result (connect_payload_at flags body) }
{
    let client_identifier = read_text(&mut body)?;
    let user_name = read_text_if(flags / 128 % 2 == 1, &mut body)?;
    let password = read_binary_if(flags / 64 % 2 == 1, &mut body)?;
    if !body.is_empty() {
        return Err(Fault::Stream(StreamFault::Malformed));
    }
    Ok(ConnectPayload {
        client_identifier,
        user_name,
        password,
    })
}

/// Takes the identifier that a PUBLISH of that quality of service has (section 3.3.2.2).
#[tactic(auto, unfolding(crate::specs::Bodies::delivery_at))]
fn read_delivery(qos: QoS, body: &mut Bytes) -> Result<Delivery, StreamFault>
    ensures { ReadsField result body.new (delivery_at qos body.old) }
{
    match qos {
        QoS::AtMostOnce => Ok(Delivery::AtMostOnce),
        QoS::AtLeastOnce => Ok(Delivery::AtLeastOnce(read_identifier(body)?)),
        QoS::ExactlyOnce => Ok(Delivery::ExactlyOnce(read_identifier(body)?)),
    }
}

/// Reads a PUBLISH (section 3.3): what is left behind its properties is the payload.
#[tactic(auto, unfolding(crate::specs::Bodies::publish_body_at, crate::specs::Bodies::body_at))]
fn read_publish(alloc: Global, flags: PublishFlags, mut body: Bytes) -> Result<Packet, Fault>
    ensures { Gives (λ packet. packet) result (body_at (Kind.Publish flags) body) }
{
    let topic = read_text(&mut body)?;
    let delivery = read_delivery(flags.qos, &mut body)?;
    let (message_expiry_interval, properties) = read_publish_properties(alloc, &mut body)?;
    Ok(Packet::Publish(Publish {
        dup: flags.dup,
        retain: flags.retain,
        delivery,
        message_expiry_interval,
        subscription_identifier: None,
        topic,
        properties,
        payload: body,
    }))
}

/// Takes the properties of a PUBLISH: its Message Expiry Interval, and the others. Most have none, and a length of 0 says so.
fn read_publish_properties(
    alloc: Global,
    body: &mut Bytes,
) -> Result<(Option<u32>, RareProperties), Fault>
    ensures { GivesPublish result body.new (properties_at Section.Publish body.old) }
{
    if let [0, ..] = body.as_slice() {
        body.advance(1);
        return Ok((None, RareProperties::none()));
    }
    read_rare_properties(alloc, body)
}

/// Takes the properties of a PUBLISH that may have some.
#[inline(never)]
fn read_rare_properties(
    alloc: Global,
    body: &mut Bytes,
) -> Result<(Option<u32>, RareProperties), Fault>
    ensures { GivesPublish result body.new (properties_at Section.Publish body.old) }
{
    let (expiry, others) = read_properties(alloc, Section::Publish, body)?.into_publish();
    Ok((expiry, RareProperties::new(alloc, others)?))
}

/// Reads the reason code and the properties that end a PUBACK or a DISCONNECT (sections 3.4.2 and 3.14.2).
#[tactic(auto, unfolding(crate::specs::Bodies::reason_at))]
fn read_reason(
    alloc: Global,
    section: Section,
    mut body: Bytes,
) -> Result<(ReasonCode, Properties), Fault>
    ensures { Gives (λ reason. reason) result (reason_at section body) }
{
    let code = match body.as_slice() {
        [] => return Ok((ReasonCode::SUCCESS, Properties::nothing(alloc))),
        [code] => return Ok((ReasonCode::new(*code), Properties::nothing(alloc))),
        [code, ..] => ReasonCode::new(*code),
    };
    body.advance(1);
    let properties = read_last_properties(alloc, section, body)?;
    Ok((code, properties))
}

/// Reads a section of properties with nothing after it.
#[tactic(auto, unfolding(crate::specs::Bodies::last_properties_at))]
fn read_last_properties(
    alloc: Global,
    section: Section,
    mut body: Bytes,
) -> Result<Properties, Fault>
    ensures { Gives (λ all. all) result (last_properties_at section body) }
{
    let properties = read_properties(alloc, section, &mut body)?;
    if body.is_empty() {
        Ok(properties)
    } else {
        drop(properties);
        Err(Fault::Stream(StreamFault::Malformed))
    }
}

/// Reads a PUBACK (section 3.4).
#[tactic(auto, unfolding(crate::specs::Bodies::puback_at))]
fn read_puback(alloc: Global, mut body: Bytes) -> Result<Puback, Fault>
    ensures { Gives (λ packet. packet) result (puback_at body) }
{
    let packet_identifier = read_identifier(&mut body)?;
    let (reason_code, properties) = read_reason(alloc, Section::Puback, body)?;
    Ok(Puback {
        packet_identifier,
        reason_code,
        properties: properties.into_puback(),
    })
}

/// Reads a DISCONNECT (section 3.14).
#[tactic(auto, unfolding(crate::specs::Bodies::disconnect_at))]
fn read_disconnect(alloc: Global, body: Bytes) -> Result<Disconnect, Fault>
    ensures { Gives (λ packet. packet) result (disconnect_at body) }
{
    let (reason_code, properties) = read_reason(alloc, Section::Disconnect, body)?;
    Ok(Disconnect {
        reason_code,
        properties: properties.into_disconnect(),
    })
}

/// The retain handling of two bits; `None` for 3.
fn retain_handling_of(bits: u8) -> Option<RetainHandling>
    ensures { result ≡ retain_handling_at bits }
{
    match bits {
        0 => Some(RetainHandling::Send),
        1 => Some(RetainHandling::SendIfNew),
        2 => Some(RetainHandling::DoNotSend),
        _ => None,
    }
}

/// The options of a byte (section 3.8.3.1).
#[tactic(auto, unfolding(crate::specs::Bodies::options_at))]
fn options_of(byte: u8) -> Result<SubscriptionOptions, StreamFault>
    ensures { result ≡ options_at byte }
{
    if byte >= 64 {
        return Err(StreamFault::Malformed);
    }
    let Some(maximum_qos) = qos_of(byte % 4) else {
        return Err(StreamFault::Protocol);
    };
    let Some(retain_handling) = retain_handling_of(byte / 16 % 4) else {
        return Err(StreamFault::Protocol);
    };
    Ok(SubscriptionOptions {
        maximum_qos,
        no_local: byte / 4 % 2 == 1,
        retain_as_published: byte / 8 % 2 == 1,
        retain_handling,
    })
}

/// Takes an entry of a SUBSCRIBE (section 3.8.3).
#[tactic(auto, unfolding(crate::specs::Bodies::subscription_at))]
fn read_subscription(body: &mut Bytes) -> Result<Subscription, Fault>
    ensures field { GivesField result body.new (subscription_at body.old) }
    ensures shorter { OnOk result (length body.new < length body.old) }
{
    let filter = read_text(body)?;
    let options = options_of(read_byte(body)?)?;
    Ok(Subscription { filter, options })
}

/// Reads the entries of a SUBSCRIBE, at least one (section 3.8.3).
fn read_subscriptions(alloc: Global, mut body: Bytes) -> Result<NonEmpty<Subscription>, Fault>
    ensures { Gives (λ entries. entries) result (entries_at subscription_at body) }
{
    let mut entries = Vec::new(alloc);
    while !body.is_empty() {
        entries.push(read_subscription(&mut body)?)?;
    }
    at_least_one(entries)
}

/// Reads the filters of an UNSUBSCRIBE, at least one (section 3.10.3).
fn read_filters(alloc: Global, mut body: Bytes) -> Result<NonEmpty<Text>, Fault>
    ensures { Gives (λ entries. entries) result (entries_at text_at body) }
{
    let mut entries = Vec::new(alloc);
    while !body.is_empty() {
        entries.push(read_text(&mut body)?)?;
    }
    at_least_one(entries)
}

/// The entries, of which there has to be one.
fn at_least_one<T: Drop>(entries: Vec<T>) -> Result<NonEmpty<T>, Fault>
    ensures { Gives (λ entries. entries) result (at_least_one entries.items) }
{
    match NonEmpty::from_vec(entries) {
        Some(entries) => Ok(entries),
        None => Err(Fault::Stream(StreamFault::Protocol)),
    }
}

/// Reads a SUBSCRIBE (section 3.8).
#[tactic(auto, unfolding(crate::specs::Bodies::subscribe_at))]
fn read_subscribe(alloc: Global, mut body: Bytes) -> Result<Subscribe, Fault>
    ensures { Gives (λ packet. packet) result (subscribe_at body) }
{
    let packet_identifier = read_identifier(&mut body)?;
    let properties = read_properties(alloc, Section::Subscribe, &mut body)?.into_subscribe();
    let subscriptions = read_subscriptions(alloc, body)?;
    Ok(Subscribe {
        packet_identifier,
        properties,
        subscriptions,
    })
}

/// Reads an UNSUBSCRIBE (section 3.10).
#[tactic(auto, unfolding(crate::specs::Bodies::unsubscribe_at))]
fn read_unsubscribe(alloc: Global, mut body: Bytes) -> Result<Unsubscribe, Fault>
    ensures { Gives (λ packet. packet) result (unsubscribe_at body) }
{
    let packet_identifier = read_identifier(&mut body)?;
    let properties = read_properties(alloc, Section::Unsubscribe, &mut body)?.into_unsubscribe();
    let filters = read_filters(alloc, body)?;
    Ok(Unsubscribe {
        packet_identifier,
        properties,
        filters,
    })
}
