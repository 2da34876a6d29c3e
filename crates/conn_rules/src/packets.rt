//! The packets that the broker sends, and the message that it keeps of a PUBLISH (chapter 3).
ghost use Rattle.std.specs.Prelude.{◌≡◌, None, IfOk};
ghost use Rattle.conn_rules.specs.Packets.{accepting, refusing, job, puback, suback, unsuback, disconnect};
ghost use Rattle.conn_rules.specs.Publishing.{message_of};

use crate::connecting::offer;
use crate::expiring::{expiry_from, interval_left};
use crate::terms::Overrides;
use group_jobs::Message;
use mqtt_packet::{
    Acceptance, Connack, ConnectRefusal, Delivery, Disconnect, DisconnectProperties, NonEmpty,
    Packet, PacketIdentifier, Puback, PubackProperties, Publish, ReasonCode, Suback,
    SubscriptionIdentifier, Text, Unsuback,
};
use std::alloc::{AllocError, Global};

/// The CONNACK that opens a connection (section 3.2), with the identifier that was assigned to a client without one, and with what is not as the
/// client asked.
pub fn accepting(
    session_present: bool,
    assigned_client_identifier: Option<Text>,
    overrides: Overrides,
) -> Packet
    ensures { result ≡ accepting session_present assigned_client_identifier overrides }
{
    Packet::Connack(Connack::Accepted(Acceptance {
        session_present,
        session_expiry_interval: overrides.session_expiry_interval,
        assigned_client_identifier,
        server_keep_alive: overrides.keep_alive,
        offer: offer(),
    }))
}

/// The CONNACK that refuses (section 3.2.2.2).
pub fn refusing(refusal: ConnectRefusal) -> Packet
    ensures { result ≡ refusing refusal }
{
    Packet::Connack(Connack::Refused(refusal))
}

/// The PUBLISH of a job (section 3.3): QoS 1, RETAIN 0, and DUP 1 where it was sent before; with the Subscription Identifier under which it
/// is sent, if there is one (section 3.3.2.3.8), and with what is left of its Message Expiry Interval at that moment, in milliseconds (section
/// 3.3.2.3.3). It shares what the message has, and takes no memory.
///
/// # Errors
///
/// There are as many owners as can be counted of what it shares.
pub fn job(
    now: u64,
    dup: bool,
    message: &Message,
    subscription: Option<SubscriptionIdentifier>,
    identifier: PacketIdentifier,
) -> Result<Packet, AllocError>
    ensures { IfOk result (λ packet. packet ≡ job now dup message.now subscription identifier) }
{
    let topic = message.topic.try_clone()?;
    let properties = message.properties.share()?;
    let payload = message.payload.clone()?;
    Ok(Packet::Publish(Publish {
        dup,
        retain: false,
        delivery: Delivery::AtLeastOnce(identifier),
        message_expiry_interval: interval_left(now, message.expiry),
        subscription_identifier: subscription,
        topic,
        properties,
        payload,
    }))
}

/// The message of a PUBLISH that came at this moment, in milliseconds, and is offered to groups: its topic, when it expires, its properties, and its
/// payload (section 3.3.2.3). Such a PUBLISH has no Topic Alias.
pub fn message_of(now: u64, publish: Publish) -> Message
    requires { publish.properties.topic_alias ≡ None }
    ensures { result ≡ message_of now publish }
{
    Message {
        topic: publish.topic,
        expiry: expiry_from(now, publish.message_expiry_interval),
        properties: publish.properties,
        payload: publish.payload,
    }
}

/// The PUBACK with that Reason Code (section 3.4).
pub fn puback(alloc: Global, packet_identifier: PacketIdentifier, reason_code: ReasonCode) -> Packet
    ensures { result ≡ puback packet_identifier reason_code }
{
    Packet::Puback(Puback {
        packet_identifier,
        reason_code,
        properties: PubackProperties::new(alloc),
    })
}

/// The SUBACK with these Reason Codes, one for each entry (section 3.9).
pub fn suback(packet_identifier: PacketIdentifier, reason_codes: NonEmpty<ReasonCode>) -> Packet
    ensures { result ≡ suback packet_identifier reason_codes }
{
    Packet::Suback(Suback {
        packet_identifier,
        reason_codes,
    })
}

/// The UNSUBACK with these Reason Codes, one for each entry (section 3.11).
pub fn unsuback(packet_identifier: PacketIdentifier, reason_codes: NonEmpty<ReasonCode>) -> Packet
    ensures { result ≡ unsuback packet_identifier reason_codes }
{
    Packet::Unsuback(Unsuback {
        packet_identifier,
        reason_codes,
    })
}

/// The DISCONNECT with that Reason Code (section 3.14).
pub fn disconnect(alloc: Global, reason_code: ReasonCode) -> Packet
    ensures { result ≡ disconnect reason_code }
{
    Packet::Disconnect(Disconnect {
        reason_code,
        properties: DisconnectProperties::new(alloc),
    })
}
