//! The control packets (chapter 3), as plain values.

use crate::binary::Binary;
use crate::boxed::Boxed;
use crate::identifier::PacketIdentifier;
use crate::non_empty::NonEmpty;
use crate::offer::Offer;
use crate::packet_properties::{
    ConnectProperties, DisconnectProperties, PubackProperties, SubscribeProperties,
    UnsubscribeProperties,
};
use crate::rare_properties::RareProperties;
use crate::reason_code::ReasonCode;
use crate::text::Text;
use crate::values::SubscriptionIdentifier;
use bytes::Bytes;

/// Quality of service (section 4.3).
#[derive(Clone, Copy, Debug, PartialEq, Eq)]
pub enum QoS {
    /// QoS 0.
    AtMostOnce,
    /// QoS 1.
    AtLeastOnce,
    /// QoS 2.
    ExactlyOnce,
}

/// How a PUBLISH is delivered, with the identifier under which it is acknowledged (sections 3.3.1.2 and 3.3.2.2).
#[derive(Clone, Copy, Debug, PartialEq, Eq)]
pub enum Delivery {
    /// QoS 0, which is not acknowledged.
    AtMostOnce,
    /// QoS 1.
    AtLeastOnce(PacketIdentifier),
    /// QoS 2.
    ExactlyOnce(PacketIdentifier),
}

/// CONNECT (section 3.1) of version 5, without a will.
#[derive(Debug, Drop, PartialEq)]
pub struct Connect {
    /// An earlier session of the client is discarded (section 3.1.2.4).
    pub clean_start: bool,
    /// Seconds; 0 turns the keep alive off.
    pub keep_alive: u16,
    pub properties: ConnectProperties,
    /// Empty where the broker is to assign one (section 3.1.3.1).
    pub client_identifier: Text,
    /// Section 3.1.3.5.
    pub user_name: Option<Text>,
    /// It may stand without a user name (section 3.1.3.6).
    pub password: Option<Binary>,
}

/// CONNACK (section 3.2).
#[derive(Debug, Drop, PartialEq)]
pub enum Connack {
    /// The connection is accepted: Reason Code 00.
    Accepted(Acceptance),
    /// The connection is refused: the session is not present, and there are no properties.
    Refused(ConnectRefusal),
}

/// What a CONNACK that accepts says.
#[derive(Debug, Drop, PartialEq)]
pub struct Acceptance {
    /// Section 3.2.2.1.1.
    pub session_present: bool,
    /// Seconds, where it is not what the client asked for (section 3.2.2.3.2).
    pub session_expiry_interval: Option<u32>,
    /// The identifier that the server gave to a client without one (section 3.2.2.3.7).
    pub assigned_client_identifier: Option<Text>,
    /// Seconds, where it is not what the client asked for; 0 turns the keep alive off (section 3.2.2.3.14).
    pub server_keep_alive: Option<u16>,
    pub offer: Offer,
}

/// Why a CONNECT is refused (section 3.2.2.2).
#[derive(Clone, Copy, Debug, PartialEq, Eq)]
pub enum ConnectRefusal {
    /// 82.
    ProtocolError,
    /// 83.
    ImplementationSpecificError,
    /// 84.
    UnsupportedProtocolVersion,
    /// 85.
    ClientIdentifierNotValid,
    /// 86.
    BadUserNameOrPassword,
    /// 89.
    ServerBusy,
    /// 8C.
    BadAuthenticationMethod,
}

/// PUBLISH (section 3.3).
///
/// The small fields stand side by side, since a packet is moved a dozen times on its way and each move costs its size.
#[derive(Debug, Drop, PartialEq)]
pub struct Publish {
    /// It may have been sent before (section 3.3.1.1).
    pub dup: bool,
    /// It is to be retained, or was (section 3.3.1.3).
    pub retain: bool,
    pub delivery: Delivery,
    /// Seconds for which it may wait for its receivers (section 3.3.2.3.3).
    pub message_expiry_interval: Option<u32>,
    /// That of the subscription for which a server sends it (section 3.3.2.3.8). A PUBLISH that was read has none, since a client sends none.
    pub subscription_identifier: Option<SubscriptionIdentifier>,
    pub topic: Text,
    /// Its other properties.
    pub properties: RareProperties,
    /// Shared, as the bytes of a [`Text`] are.
    pub payload: Bytes,
}

/// PUBACK (section 3.4).
#[derive(Debug, Drop, PartialEq)]
pub struct Puback {
    pub packet_identifier: PacketIdentifier,
    pub reason_code: ReasonCode,
    pub properties: PubackProperties,
}

/// What is done with retained messages when a subscription is made (section 3.8.3.1).
#[derive(Clone, Copy, Debug, PartialEq, Eq)]
pub enum RetainHandling {
    /// 0: they are sent.
    Send,
    /// 1: they are sent where the subscription is new.
    SendIfNew,
    /// 2: none is sent.
    DoNotSend,
}

/// The Subscription Options (section 3.8.3.1).
#[derive(Clone, Copy, Debug, PartialEq, Eq)]
pub struct SubscriptionOptions {
    /// The highest QoS at which the broker may send.
    pub maximum_qos: QoS,
    /// What the client itself publishes is not sent to it.
    pub no_local: bool,
    /// The RETAIN flag is kept as it was published.
    pub retain_as_published: bool,
    pub retain_handling: RetainHandling,
}

/// One entry of a SUBSCRIBE (section 3.8.3).
#[derive(Debug, Drop, PartialEq)]
pub struct Subscription {
    pub filter: Text,
    pub options: SubscriptionOptions,
}

/// SUBSCRIBE (section 3.8).
#[derive(Debug, Drop, PartialEq)]
pub struct Subscribe {
    pub packet_identifier: PacketIdentifier,
    pub properties: SubscribeProperties,
    pub subscriptions: NonEmpty<Subscription>,
}

/// SUBACK (section 3.9): one code for each entry of the SUBSCRIBE, in its order.
#[derive(Debug, Drop, PartialEq)]
pub struct Suback {
    pub packet_identifier: PacketIdentifier,
    pub reason_codes: NonEmpty<ReasonCode>,
}

/// UNSUBSCRIBE (section 3.10).
#[derive(Debug, Drop, PartialEq)]
pub struct Unsubscribe {
    pub packet_identifier: PacketIdentifier,
    pub properties: UnsubscribeProperties,
    pub filters: NonEmpty<Text>,
}

/// UNSUBACK (section 3.11): one code for each filter of the UNSUBSCRIBE, in its order.
#[derive(Debug, Drop, PartialEq)]
pub struct Unsuback {
    pub packet_identifier: PacketIdentifier,
    pub reason_codes: NonEmpty<ReasonCode>,
}

/// DISCONNECT (section 3.14).
#[derive(Debug, Drop, PartialEq)]
pub struct Disconnect {
    pub reason_code: ReasonCode,
    pub properties: DisconnectProperties,
}

/// The types of packet that a client has no business to send to this broker: those that only a server sends, and those
/// of QoS 2 and of enhanced authentication (table 2-1, profile).
#[derive(Clone, Copy, Debug, PartialEq, Eq)]
pub enum ForeignKind {
    Connack,
    Pubrec,
    Pubrel,
    Pubcomp,
    Suback,
    Unsuback,
    Pingresp,
    Auth,
}

/// A control packet (section 2.1), by its type.
///
/// The last three are what reading makes of packets whose bodies are not looked at.
#[derive(Debug, Drop, PartialEq)]
pub enum Packet {
    /// It stands apart, since it is large and seldom comes.
    Connect(Boxed<Connect>),
    Connack(Connack),
    Publish(Publish),
    Puback(Puback),
    Subscribe(Subscribe),
    Suback(Suback),
    Unsubscribe(Unsubscribe),
    Unsuback(Unsuback),
    Pingreq,
    Pingresp,
    Disconnect(Disconnect),
    /// A packet of a type that a client has no business to send.
    Foreign(ForeignKind),
    /// A CONNECT of another protocol name or another version than MQTT 5.0, with its version byte.
    OtherVersion(u8),
    /// A CONNECT of version 5 with a will.
    WithWill,
}
