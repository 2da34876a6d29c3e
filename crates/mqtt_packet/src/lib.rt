//! MQTT 5.0 control packets as values.
//!
//! A contract sees a [`Packet`] as plain data: texts and payloads as their bytes, identifiers as numbers, lists as lists.
//! There is every kind of packet that a client or this broker sends, with every property that it may have. The types keep
//! the rules on their values, so that a packet that breaks one cannot be made. How a packet is read and written stands in
//! `mqtt_wire`.
//!
//! ```
//! let topic = Text::parse(bytes)?; // None: not UTF-8, with a U+0000, or longer than 65,535 bytes
//! let packet_identifier = PacketIdentifier::new(7)?; // None: 0
//! let accepted = Packet::Puback(Puback {
//!     packet_identifier,
//!     reason_code: ReasonCode::SUCCESS,
//!     properties: PubackProperties::new(alloc),
//! });
//! ```
#![tactic(auto)]

mod binary;
mod boxed;
mod identifier;
mod non_empty;
mod offer;
mod packet;
mod packet_properties;
mod rare_properties;
mod reason_code;
mod shared;
mod text;
mod user_properties;
mod values;

pub use binary::Binary;
pub use boxed::Boxed;
pub use identifier::PacketIdentifier;
pub use non_empty::NonEmpty;
pub use offer::Offer;
pub use packet::{
    Acceptance, Connack, Connect, ConnectRefusal, Delivery, Disconnect, ForeignKind, Packet,
    Puback, Publish, QoS, RetainHandling, Suback, Subscribe, Subscription, SubscriptionOptions,
    Unsuback, Unsubscribe,
};
pub use packet_properties::{
    Authentication, ConnectProperties, DisconnectProperties, PubackProperties, PublishProperties,
    SubscribeProperties, UnsubscribeProperties,
};
pub use rare_properties::RareProperties;
pub use reason_code::ReasonCode;
pub use text::Text;
pub use user_properties::{UserProperties, UserProperty};
pub use values::{MaximumPacketSize, ReceiveMaximum, SubscriptionIdentifier};
