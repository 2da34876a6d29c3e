//! The properties that a client's packets may have (section 2.2.2.2): their names, and one with its value.

ghost use Rattle.std.specs.Prelude.{◌≡◌};
ghost use Rattle.mqtt_fields.specs.Properties.{name_in, connect_names, publish_names, puback_names, subscribe_names, unsubscribe_names, disconnect_names, name_among};

use mqtt_packet::{
    Binary, MaximumPacketSize, ReceiveMaximum, SubscriptionIdentifier, Text, UserProperty,
};

/// In which packet of a client a section of properties stands.
#[derive(Clone, Copy)]
pub enum Section {
    Connect,
    Publish,
    Puback,
    Subscribe,
    Unsubscribe,
    Disconnect,
}

/// What a property is called (table 2-4).
#[derive(Clone, Copy)]
pub enum PropertyName {
    PayloadFormatIndicator,
    MessageExpiryInterval,
    ContentType,
    ResponseTopic,
    CorrelationData,
    SubscriptionIdentifier,
    SessionExpiryInterval,
    AuthenticationMethod,
    AuthenticationData,
    RequestProblemInformation,
    RequestResponseInformation,
    ReasonString,
    ReceiveMaximum,
    TopicAliasMaximum,
    TopicAlias,
    UserProperty,
    MaximumPacketSize,
}

/// A property with its value: what contracts say of a section is a list of them.
#[derive(Drop)]
pub enum Property {
    PayloadFormatIndicator(u8),
    MessageExpiryInterval(u32),
    ContentType(Text),
    ResponseTopic(Text),
    CorrelationData(Binary),
    SubscriptionIdentifier(SubscriptionIdentifier),
    SessionExpiryInterval(u32),
    AuthenticationMethod(Text),
    AuthenticationData(Binary),
    RequestProblemInformation(bool),
    RequestResponseInformation(bool),
    ReasonString(Text),
    ReceiveMaximum(ReceiveMaximum),
    TopicAliasMaximum(u16),
    TopicAlias(u16),
    UserProperty(UserProperty),
    MaximumPacketSize(MaximumPacketSize),
}

/// The name that an identifier stands for in that section; `None` where the section has no such property.
pub(crate) fn name_of(section: Section, identifier: u8) -> Option<PropertyName>
    ensures { result ≡ name_in section identifier }
{
    match section {
        Section::Connect => connect_name(identifier),
        Section::Publish => publish_name(identifier),
        Section::Puback => puback_name(identifier),
        Section::Subscribe => subscribe_name(identifier),
        Section::Unsubscribe => unsubscribe_name(identifier),
        Section::Disconnect => disconnect_name(identifier),
    }
}

/// The properties of a CONNECT (section 3.1.2.11).
fn connect_name(identifier: u8) -> Option<PropertyName>
    ensures { result ≡ name_among connect_names identifier }
{
    match identifier {
        0x11 => Some(PropertyName::SessionExpiryInterval),
        0x15 => Some(PropertyName::AuthenticationMethod),
        0x16 => Some(PropertyName::AuthenticationData),
        0x17 => Some(PropertyName::RequestProblemInformation),
        0x19 => Some(PropertyName::RequestResponseInformation),
        0x21 => Some(PropertyName::ReceiveMaximum),
        0x22 => Some(PropertyName::TopicAliasMaximum),
        0x26 => Some(PropertyName::UserProperty),
        0x27 => Some(PropertyName::MaximumPacketSize),
        _ => None,
    }
}

/// The properties of a PUBLISH (section 3.3.2.3).
fn publish_name(identifier: u8) -> Option<PropertyName>
    ensures { result ≡ name_among publish_names identifier }
{
    match identifier {
        0x01 => Some(PropertyName::PayloadFormatIndicator),
        0x02 => Some(PropertyName::MessageExpiryInterval),
        0x03 => Some(PropertyName::ContentType),
        0x08 => Some(PropertyName::ResponseTopic),
        0x09 => Some(PropertyName::CorrelationData),
        0x0B => Some(PropertyName::SubscriptionIdentifier),
        0x23 => Some(PropertyName::TopicAlias),
        0x26 => Some(PropertyName::UserProperty),
        _ => None,
    }
}

/// The properties of a PUBACK (section 3.4.2.2).
fn puback_name(identifier: u8) -> Option<PropertyName>
    ensures { result ≡ name_among puback_names identifier }
{
    match identifier {
        0x1F => Some(PropertyName::ReasonString),
        0x26 => Some(PropertyName::UserProperty),
        _ => None,
    }
}

/// The properties of a SUBSCRIBE (section 3.8.2.1).
fn subscribe_name(identifier: u8) -> Option<PropertyName>
    ensures { result ≡ name_among subscribe_names identifier }
{
    match identifier {
        0x0B => Some(PropertyName::SubscriptionIdentifier),
        0x26 => Some(PropertyName::UserProperty),
        _ => None,
    }
}

/// The properties of an UNSUBSCRIBE (section 3.10.2.1).
fn unsubscribe_name(identifier: u8) -> Option<PropertyName>
    ensures { result ≡ name_among unsubscribe_names identifier }
{
    match identifier {
        0x26 => Some(PropertyName::UserProperty),
        _ => None,
    }
}

/// The properties of a client's DISCONNECT (section 3.14.2.2).
fn disconnect_name(identifier: u8) -> Option<PropertyName>
    ensures { result ≡ name_among disconnect_names identifier }
{
    match identifier {
        0x11 => Some(PropertyName::SessionExpiryInterval),
        0x1F => Some(PropertyName::ReasonString),
        0x26 => Some(PropertyName::UserProperty),
        _ => None,
    }
}
