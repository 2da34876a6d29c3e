//! The properties of each packet (chapter 3), as plain values. What is left out is `None`.

ghost use Rattle.std.specs.Prelude.{◌≡◌, ◌↔◌, [], None, IfOk, IsTrue};
ghost use Rattle.mqtt_packet.specs.RareProperties.{no_properties};

use crate::binary::Binary;
use crate::text::Text;
use crate::user_properties::UserProperties;
use crate::values::{MaximumPacketSize, ReceiveMaximum, SubscriptionIdentifier};
use std::alloc::{AllocError, Global};

/// The properties of a CONNECT (section 3.1.2.11).
#[derive(Debug, Drop, PartialEq)]
pub struct ConnectProperties {
    /// Seconds; 4,294,967,295 is for ever.
    pub session_expiry_interval: Option<u32>,
    pub receive_maximum: Option<ReceiveMaximum>,
    pub maximum_packet_size: Option<MaximumPacketSize>,
    pub topic_alias_maximum: Option<u16>,
    pub request_response_information: Option<bool>,
    pub request_problem_information: Option<bool>,
    pub authentication: Option<Authentication>,
    pub user_properties: UserProperties,
}

impl ConnectProperties {
    /// None of them.
    pub fn new(alloc: Global) -> ConnectProperties
        ensures { result ≡ record { session_expiry_interval = None; receive_maximum = None; maximum_packet_size = None; topic_alias_maximum = None; request_response_information = None; request_problem_information = None; authentication = None; user_properties = [] } }
    {
        ConnectProperties {
            session_expiry_interval: None,
            receive_maximum: None,
            maximum_packet_size: None,
            topic_alias_maximum: None,
            request_response_information: None,
            request_problem_information: None,
            authentication: None,
            user_properties: UserProperties::new(alloc),
        }
    }
}

/// Enhanced authentication that a client asks for: data stands only beside a method (sections 3.1.2.11.9 and 3.1.2.11.10).
#[derive(Debug, Drop, PartialEq)]
pub struct Authentication {
    pub method: Text,
    pub authentication_data: Option<Binary>,
}

/// The properties of a PUBLISH (section 3.3.2.3), without those two that are fields of its own: the Message Expiry Interval and the Subscription
/// Identifier.
#[derive(Debug, Drop, PartialEq)]
pub struct PublishProperties {
    /// Any byte (profile).
    pub payload_format_indicator: Option<u8>,
    pub content_type: Option<Text>,
    /// Any text (profile).
    pub response_topic: Option<Text>,
    pub correlation_data: Option<Binary>,
    pub topic_alias: Option<u16>,
    pub user_properties: UserProperties,
}

impl PublishProperties {
    /// None of them.
    pub fn new(alloc: Global) -> PublishProperties
        ensures { result ≡ record { payload_format_indicator = None; content_type = None; response_topic = None; correlation_data = None; topic_alias = None; user_properties = [] } }
    {
        PublishProperties {
            payload_format_indicator: None,
            content_type: None,
            response_topic: None,
            correlation_data: None,
            topic_alias: None,
            user_properties: UserProperties::new(alloc),
        }
    }
}

impl PublishProperties {
    /// Whether there is none of them.
    pub fn is_none(&self) -> bool
        ensures { IsTrue result ↔ (self.now ≡ no_properties) }
    {
        let has_number = self.payload_format_indicator.is_some() || self.topic_alias.is_some();
        let has_text = self.content_type.is_some()
            || self.response_topic.is_some()
            || self.correlation_data.is_some();
        !has_number && !has_text && self.user_properties.as_slice().is_empty()
    }
}

/// The properties of a PUBACK (section 3.4.2.2).
#[derive(Debug, Drop, PartialEq)]
pub struct PubackProperties {
    pub reason_string: Option<Text>,
    pub user_properties: UserProperties,
}

impl PubackProperties {
    /// None of them.
    pub fn new(alloc: Global) -> PubackProperties
        ensures { result ≡ record { reason_string = None; user_properties = [] } }
    {
        PubackProperties {
            reason_string: None,
            user_properties: UserProperties::new(alloc),
        }
    }
}

/// The properties of a SUBSCRIBE (section 3.8.2.1).
#[derive(Debug, Drop, PartialEq)]
pub struct SubscribeProperties {
    pub subscription_identifier: Option<SubscriptionIdentifier>,
    pub user_properties: UserProperties,
}

impl SubscribeProperties {
    /// None of them.
    pub fn new(alloc: Global) -> SubscribeProperties
        ensures { result ≡ record { subscription_identifier = None; user_properties = [] } }
    {
        SubscribeProperties {
            subscription_identifier: None,
            user_properties: UserProperties::new(alloc),
        }
    }
}

/// The properties of an UNSUBSCRIBE (section 3.10.2.1).
#[derive(Debug, Drop, PartialEq)]
pub struct UnsubscribeProperties {
    pub user_properties: UserProperties,
}

impl UnsubscribeProperties {
    /// None of them.
    pub fn new(alloc: Global) -> UnsubscribeProperties
        ensures { result ≡ record { user_properties = [] } }
    {
        UnsubscribeProperties {
            user_properties: UserProperties::new(alloc),
        }
    }
}

/// The properties of a client's DISCONNECT (section 3.14.2.2).
#[derive(Debug, Drop, PartialEq)]
pub struct DisconnectProperties {
    /// Seconds, in place of those of the CONNECT.
    pub session_expiry_interval: Option<u32>,
    pub reason_string: Option<Text>,
    pub user_properties: UserProperties,
}

impl DisconnectProperties {
    /// None of them.
    pub fn new(alloc: Global) -> DisconnectProperties
        ensures { result ≡ record { session_expiry_interval = None; reason_string = None; user_properties = [] } }
    {
        DisconnectProperties {
            session_expiry_interval: None,
            reason_string: None,
            user_properties: UserProperties::new(alloc),
        }
    }
}
