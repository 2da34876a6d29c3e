//! Writers of the body of each kind of packet, after what a buffer holds (chapter 3). The buffer has room for it.

ghost use Rattle.std.specs.Prelude.{◌≡◌, ◌<◌, ◌++◌, ◌∷◌, [], length, IfSome};
ghost use Rattle.std.specs.List.{flat_map, AllByRecursion};
ghost use Rattle.mqtt_fields.specs.Buffers.{HasRoom, Appends};
ghost use Rattle.mqtt_packet.specs.Texts.{IsText, IsBinary};
ghost use Rattle.mqtt_fields.specs.Forms.{binary_data, utf8_string};
ghost use Rattle.mqtt_fields.specs.Sections.{properties};
ghost use Rattle.mqtt_fields.specs.FieldRanges.{ConnectFits, PublishFits, PubackFits, SubscribeFits, UnsubscribeFits};
ghost use Rattle.mqtt_wire.specs.Ranges.{IsDelivery, IsFiltered, IsFromClient, IsClientKind, PropertiesFit};
ghost use Rattle.mqtt_fields.specs.PropertyLists.{bytes_if};
ghost use Rattle.mqtt_wire.specs.Connacks.{refusal_code, connack_body};
ghost use Rattle.mqtt_wire.specs.Writing.{connect_flags, connect_payload, delivery_bytes, options_byte, subscription_bytes, connect_body, publish_body, puback_body, subscribe_body, unsubscribe_body, codes_body, written_body};

use crate::connack_writing::put_connack_properties;
use crate::reason_writing::{put_disconnect_reason, put_puback_reason};
use mqtt_fields::{
    put_binary, put_byte, put_bytes, put_connect_properties, put_identifier, put_no_properties,
    put_publish_properties, put_subscribe_properties, put_text, put_u16,
    put_unsubscribe_properties,
};
use mqtt_packet::{
    Binary, Connack, Connect, ConnectRefusal, Delivery, Packet, PacketIdentifier, Puback, Publish,
    QoS, ReasonCode, RetainHandling, Subscribe, Subscription, SubscriptionOptions, Text,
    Unsubscribe,
};

/// Writes the body of the packet.
pub(crate) fn put_body(out: &mut Vec<u8>, packet: &Packet)
    requires size { length (written_body packet.now) < 268435456 }
    requires room { HasRoom out.old (written_body packet.now) }
    ensures appended { Appends out.old (written_body packet.now) out.new }
    ensures fits { IsClientKind packet.now → IsFromClient packet.now × PropertiesFit packet.now }
{
    match packet {
        Packet::Connect(connect) => put_connect(out, connect),
        Packet::Connack(connack) => put_connack(out, connack),
        Packet::Publish(publish) => put_publish(out, publish),
        Packet::Puback(puback) => put_puback(out, puback),
        Packet::Subscribe(subscribe) => put_subscribe(out, subscribe),
        Packet::Suback(suback) => {
            put_codes(
                out,
                suback.packet_identifier,
                suback.reason_codes.as_slice(),
            );
        }
        Packet::Unsubscribe(unsubscribe) => put_unsubscribe(out, unsubscribe),
        Packet::Unsuback(unsuback) => {
            put_codes(
                out,
                unsuback.packet_identifier,
                unsuback.reason_codes.as_slice(),
            );
        }
        Packet::Disconnect(disconnect) => {
            put_disconnect_reason(out, disconnect.reason_code, &disconnect.properties);
        }
        Packet::OtherVersion(version) => put_bytes(out, &[0, 0, *version]),
        Packet::WithWill => put_bytes(out, &[0, 4, b'M', b'Q', b'T', b'T', 5, 4]),
        Packet::Pingreq | Packet::Pingresp | Packet::Foreign(_) => {}
    }
}

/// Writes the body of a CONNECT (section 3.1).
fn put_connect(out: &mut Vec<u8>, connect: &Connect)
    requires size { length (connect_body connect.now) < 268435456 }
    requires room { HasRoom out.old (connect_body connect.now) }
    ensures appended { Appends out.old (connect_body connect.now) out.new }
    ensures fits { IsFromClient (Packet.Connect connect.now) × ConnectFits connect.now.properties }
{
    put_bytes(out, &[0, 4, b'M', b'Q', b'T', b'T', 5]);
    put_byte(out, connect_flags(connect));
    put_u16(out, connect.keep_alive);
    put_connect_properties(out, &connect.properties);
    put_connect_payload(out, connect);
}

/// The connect flags (section 3.1.2.3).
fn connect_flags(connect: &Connect) -> u8
    ensures { result ≡ connect_flags connect.now }
{
    let clean_start = 2 * u8::from(connect.clean_start);
    let password = 64 * u8::from(connect.password.is_some());
    clean_start + password + 128 * u8::from(connect.user_name.is_some())
}

/// Writes the payload of a CONNECT (section 3.1.3).
fn put_connect_payload(out: &mut Vec<u8>, connect: &Connect)
    requires { HasRoom out.old (connect_payload connect.now) }
    ensures appended { Appends out.old (connect_payload connect.now) out.new }
    ensures fits { IsText connect.now.client_identifier × IfSome connect.now.user_name IsText × IfSome connect.now.password IsBinary }
{
    put_text(out, &connect.client_identifier);
    put_text_if(out, &connect.user_name);
    put_binary_if(out, &connect.password);
}

/// Writes a UTF-8 Encoded String where it is there.
fn put_text_if(out: &mut Vec<u8>, text: &Option<Text>)
    requires { HasRoom out.old (bytes_if utf8_string text.now) }
    ensures appended { Appends out.old (bytes_if utf8_string text.now) out.new }
    ensures fits { IfSome text.now IsText }
{
    if let Some(text) = text {
        put_text(out, text);
    }
}

/// Writes Binary Data where it is there.
fn put_binary_if(out: &mut Vec<u8>, binary: &Option<Binary>)
    requires { HasRoom out.old (bytes_if binary_data binary.now) }
    ensures appended { Appends out.old (bytes_if binary_data binary.now) out.new }
    ensures fits { IfSome binary.now IsBinary }
{
    if let Some(binary) = binary {
        put_binary(out, binary);
    }
}

/// Writes the body of a CONNACK (section 3.2).
fn put_connack(out: &mut Vec<u8>, connack: &Connack)
    requires { HasRoom out.old (connack_body connack.now) }
    ensures { Appends out.old (connack_body connack.now) out.new }
{
    match connack {
        Connack::Accepted(acceptance) => {
            put_byte(out, u8::from(acceptance.session_present));
            put_byte(out, 0);
            put_connack_properties(out, acceptance);
        }
        Connack::Refused(refusal) => {
            put_byte(out, 0);
            put_byte(out, refusal_code(*refusal));
            put_no_properties(out);
        }
    }
}

/// The Reason Code of a refusal (section 3.2.2.2).
fn refusal_code(refusal: ConnectRefusal) -> u8
    ensures { result ≡ refusal_code refusal }
{
    match refusal {
        ConnectRefusal::ProtocolError => 0x82,
        ConnectRefusal::ImplementationSpecificError => 0x83,
        ConnectRefusal::UnsupportedProtocolVersion => 0x84,
        ConnectRefusal::ClientIdentifierNotValid => 0x85,
        ConnectRefusal::BadUserNameOrPassword => 0x86,
        ConnectRefusal::ServerBusy => 0x89,
        ConnectRefusal::BadAuthenticationMethod => 0x8C,
    }
}

/// Writes the body of a PUBLISH (section 3.3).
fn put_publish(out: &mut Vec<u8>, publish: &Publish)
    requires size { length (publish_body publish.now) < 268435456 }
    requires room { HasRoom out.old (publish_body publish.now) }
    ensures appended { Appends out.old (publish_body publish.now) out.new }
    ensures fits { IsText publish.now.topic × IsDelivery publish.now.delivery × PublishFits publish.now }
{
    put_text(out, &publish.topic);
    put_delivery(out, &publish.delivery);
    put_publish_properties(out, publish);
    put_bytes(out, publish.payload.as_slice());
}

/// Writes the identifier of a PUBLISH, where there is one (section 3.3.2.2).
fn put_delivery(out: &mut Vec<u8>, delivery: &Delivery)
    requires { HasRoom out.old (delivery_bytes delivery.now) }
    ensures appended { Appends out.old (delivery_bytes delivery.now) out.new }
    ensures fits { IsDelivery delivery.now }
{
    match delivery {
        Delivery::AtMostOnce => {}
        Delivery::AtLeastOnce(identifier) => put_identifier(out, *identifier),
        Delivery::ExactlyOnce(identifier) => put_identifier(out, *identifier),
    }
}

/// Writes the body of a PUBACK (section 3.4).
fn put_puback(out: &mut Vec<u8>, puback: &Puback)
    requires size { length (puback_body puback.now) < 268435456 }
    requires room { HasRoom out.old (puback_body puback.now) }
    ensures appended { Appends out.old (puback_body puback.now) out.new }
    ensures fits { IsFromClient (Packet.Puback puback.now) × PubackFits puback.now.properties }
{
    put_identifier(out, puback.packet_identifier);
    put_puback_reason(out, puback.reason_code, &puback.properties);
}

/// Writes the body of a SUBSCRIBE (section 3.8).
fn put_subscribe(out: &mut Vec<u8>, subscribe: &Subscribe)
    requires size { length (subscribe_body subscribe.now) < 268435456 }
    requires room { HasRoom out.old (subscribe_body subscribe.now) }
    ensures appended { Appends out.old (subscribe_body subscribe.now) out.new }
    ensures fits { IsFromClient (Packet.Subscribe subscribe.now) × SubscribeFits subscribe.now.properties }
{
    put_identifier(out, subscribe.packet_identifier);
    put_subscribe_properties(out, &subscribe.properties);
    put_subscriptions(out, subscribe.subscriptions.as_slice());
}

/// Writes the entries of a SUBSCRIBE (section 3.8.3).
fn put_subscriptions(out: &mut Vec<u8>, entries: &[Subscription])
    requires { HasRoom out.old (flat_map subscription_bytes entries.now) }
    ensures appended { Appends out.old (flat_map subscription_bytes entries.now) out.new }
    ensures fits { AllByRecursion IsFiltered entries.now }
{
    for entry in entries {
        put_subscription(out, entry);
    }
}

/// Writes an entry of a SUBSCRIBE.
fn put_subscription(out: &mut Vec<u8>, entry: &Subscription)
    requires { HasRoom out.old (subscription_bytes entry.now) }
    ensures appended { Appends out.old (subscription_bytes entry.now) out.new }
    ensures fits { IsFiltered entry.now }
{
    put_text(out, &entry.filter);
    put_byte(out, byte_of(&entry.options));
}

/// The byte of subscription options (section 3.8.3.1).
fn byte_of(options: &SubscriptionOptions) -> u8
    ensures { result ≡ options_byte options.now }
{
    let qos = match options.maximum_qos {
        QoS::AtMostOnce => 0,
        QoS::AtLeastOnce => 1,
        QoS::ExactlyOnce => 2,
    };
    let handling = match options.retain_handling {
        RetainHandling::Send => 0,
        RetainHandling::SendIfNew => 16,
        RetainHandling::DoNotSend => 32,
    };
    qos + 4 * u8::from(options.no_local) + 8 * u8::from(options.retain_as_published) + handling
}

/// Writes the body of a SUBACK or an UNSUBACK: no properties, and a code for each entry (sections 3.9 and 3.11).
fn put_codes(out: &mut Vec<u8>, identifier: PacketIdentifier, codes: &[ReasonCode])
    requires { HasRoom out.old (codes_body identifier codes.now) }
    ensures { Appends out.old (codes_body identifier codes.now) out.new }
{
    put_identifier(out, identifier);
    put_no_properties(out);
    for code in codes {
        put_byte(out, code.get());
    }
}

/// Writes the body of an UNSUBSCRIBE (section 3.10).
fn put_unsubscribe(out: &mut Vec<u8>, unsubscribe: &Unsubscribe)
    requires size { length (unsubscribe_body unsubscribe.now) < 268435456 }
    requires room { HasRoom out.old (unsubscribe_body unsubscribe.now) }
    ensures appended { Appends out.old (unsubscribe_body unsubscribe.now) out.new }
    ensures fits { IsFromClient (Packet.Unsubscribe unsubscribe.now) × UnsubscribeFits unsubscribe.now.properties }
{
    put_identifier(out, unsubscribe.packet_identifier);
    put_unsubscribe_properties(out, &unsubscribe.properties);
    put_filters(out, unsubscribe.filters.as_slice());
}

/// Writes the filters of an UNSUBSCRIBE (section 3.10.3).
fn put_filters(out: &mut Vec<u8>, filters: &[Text])
    requires { HasRoom out.old (flat_map utf8_string filters.now) }
    ensures appended { Appends out.old (flat_map utf8_string filters.now) out.new }
    ensures fits { AllByRecursion IsText filters.now }
{
    for filter in filters {
        put_text(out, filter);
    }
}
