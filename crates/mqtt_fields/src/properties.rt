//! The properties of a section, gathered one after another (section 2.2.2).

ghost use Rattle.std.specs.Prelude.{◌≡◌, ◌<◌, ◌↔◌, List, ℕ, length, OnOk, IfOk};
ghost use Rattle.mqtt_fields.specs.Properties.{nothing, with_property, is_there};
ghost use Rattle.mqtt_fields.specs.PropertyLists.{authentication_of, publish_of, connect_of, puback_of, subscribe_of, unsubscribe_of, disconnect_of};

use crate::fault::StreamFault;
use crate::property::{Property, PropertyName};
use mqtt_packet::{
    Authentication, Binary, ConnectProperties, DisconnectProperties, MaximumPacketSize,
    PubackProperties, PublishProperties, ReceiveMaximum, SubscribeProperties,
    SubscriptionIdentifier, Text, UnsubscribeProperties, UserProperties,
};
use std::alloc::{AllocError, Global};

/// What the properties of a section say. Which of them a packet may have is its section's matter.
#[derive(Drop)]
pub struct Properties {
    payload_format_indicator: Option<u8>,
    message_expiry_interval: Option<u32>,
    content_type: Option<Text>,
    response_topic: Option<Text>,
    correlation_data: Option<Binary>,
    subscription_identifier: Option<SubscriptionIdentifier>,
    session_expiry_interval: Option<u32>,
    authentication_method: Option<Text>,
    authentication_data: Option<Binary>,
    request_problem_information: Option<bool>,
    request_response_information: Option<bool>,
    reason_string: Option<Text>,
    receive_maximum: Option<ReceiveMaximum>,
    topic_alias_maximum: Option<u16>,
    topic_alias: Option<u16>,
    user_properties: UserProperties,
    maximum_packet_size: Option<MaximumPacketSize>,
}

impl Properties {
    /// None of them.
    pub fn nothing(alloc: Global) -> Properties
        ensures { result ≡ nothing }
    {
        Properties {
            payload_format_indicator: None,
            message_expiry_interval: None,
            content_type: None,
            response_topic: None,
            correlation_data: None,
            subscription_identifier: None,
            session_expiry_interval: None,
            authentication_method: None,
            authentication_data: None,
            request_problem_information: None,
            request_response_information: None,
            reason_string: None,
            receive_maximum: None,
            topic_alias_maximum: None,
            topic_alias: None,
            user_properties: UserProperties::new(alloc),
            maximum_packet_size: None,
        }
    }

    /// Whether a property of that name is there that may not repeat.
    pub(crate) fn has(&self, name: PropertyName) -> bool
        ensures { result ≡ is_there name self.now }
    {
        match name {
            PropertyName::PayloadFormatIndicator => self.payload_format_indicator.is_some(),
            PropertyName::MessageExpiryInterval => self.message_expiry_interval.is_some(),
            PropertyName::ContentType => self.content_type.is_some(),
            PropertyName::ResponseTopic => self.response_topic.is_some(),
            PropertyName::CorrelationData => self.correlation_data.is_some(),
            PropertyName::SubscriptionIdentifier => self.subscription_identifier.is_some(),
            PropertyName::SessionExpiryInterval => self.session_expiry_interval.is_some(),
            PropertyName::AuthenticationMethod => self.authentication_method.is_some(),
            PropertyName::AuthenticationData => self.authentication_data.is_some(),
            PropertyName::RequestProblemInformation => self.request_problem_information.is_some(),
            PropertyName::RequestResponseInformation => self.request_response_information.is_some(),
            PropertyName::ReasonString => self.reason_string.is_some(),
            PropertyName::ReceiveMaximum => self.receive_maximum.is_some(),
            PropertyName::TopicAliasMaximum => self.topic_alias_maximum.is_some(),
            PropertyName::TopicAlias => self.topic_alias.is_some(),
            PropertyName::UserProperty => false,
            PropertyName::MaximumPacketSize => self.maximum_packet_size.is_some(),
        }
    }

    /// Takes one property more.
    pub(crate) fn add(&mut self, property: Property) -> Result<(), AllocError>
        ensures { OnOk result (self.new ≡ with_property property self.old) }
    {
        match property {
            Property::PayloadFormatIndicator(value) => self.payload_format_indicator = Some(value),
            Property::MessageExpiryInterval(seconds) => self.message_expiry_interval = Some(
                seconds,
            ),
            Property::ContentType(text) => self.content_type = Some(text),
            Property::ResponseTopic(text) => self.response_topic = Some(text),
            Property::CorrelationData(bytes) => self.correlation_data = Some(bytes),
            Property::SubscriptionIdentifier(number) => self.subscription_identifier = Some(number),
            Property::SessionExpiryInterval(seconds) => self.session_expiry_interval = Some(
                seconds,
            ),
            Property::AuthenticationMethod(text) => self.authentication_method = Some(text),
            Property::AuthenticationData(bytes) => self.authentication_data = Some(bytes),
            Property::RequestProblemInformation(flag) => self.request_problem_information = Some(
                flag,
            ),
            Property::RequestResponseInformation(flag) => self.request_response_information = Some(
                flag,
            ),
            Property::ReasonString(text) => self.reason_string = Some(text),
            Property::ReceiveMaximum(number) => self.receive_maximum = Some(number),
            Property::TopicAliasMaximum(number) => self.topic_alias_maximum = Some(number),
            Property::TopicAlias(number) => self.topic_alias = Some(number),
            Property::UserProperty(pair) => self.user_properties.push(pair)?,
            Property::MaximumPacketSize(size) => self.maximum_packet_size = Some(size),
        }
        Ok(())
    }

    /// Those of a CONNECT. Refuses authentication data without a method with 102 (section 3.1.2.11.10).
    pub fn into_connect(self) -> Result<ConnectProperties, StreamFault>
        ensures { result ≡ connect_of self }
    {
        let authentication = authentication_of(
            self.authentication_method,
            self.authentication_data,
        )?;
        Ok(ConnectProperties {
            session_expiry_interval: self.session_expiry_interval,
            receive_maximum: self.receive_maximum,
            maximum_packet_size: self.maximum_packet_size,
            topic_alias_maximum: self.topic_alias_maximum,
            request_response_information: self.request_response_information,
            request_problem_information: self.request_problem_information,
            authentication,
            user_properties: self.user_properties,
        })
    }

    /// Those of a PUBLISH: its Message Expiry Interval, and the others.
    pub fn into_publish(self) -> (Option<u32>, PublishProperties)
        ensures { result ≡ (self.message_expiry_interval, publish_of self) }
    {
        let others = PublishProperties {
            payload_format_indicator: self.payload_format_indicator,
            content_type: self.content_type,
            response_topic: self.response_topic,
            correlation_data: self.correlation_data,
            topic_alias: self.topic_alias,
            user_properties: self.user_properties,
        };
        (self.message_expiry_interval, others)
    }

    /// Those of a PUBACK.
    pub fn into_puback(self) -> PubackProperties
        ensures { result ≡ puback_of self }
    {
        PubackProperties {
            reason_string: self.reason_string,
            user_properties: self.user_properties,
        }
    }

    /// Those of a SUBSCRIBE.
    pub fn into_subscribe(self) -> SubscribeProperties
        ensures { result ≡ subscribe_of self }
    {
        SubscribeProperties {
            subscription_identifier: self.subscription_identifier,
            user_properties: self.user_properties,
        }
    }

    /// Those of an UNSUBSCRIBE.
    pub fn into_unsubscribe(self) -> UnsubscribeProperties
        ensures { result ≡ unsubscribe_of self }
    {
        UnsubscribeProperties {
            user_properties: self.user_properties,
        }
    }

    /// Those of a DISCONNECT.
    pub fn into_disconnect(self) -> DisconnectProperties
        ensures { result ≡ disconnect_of self }
    {
        DisconnectProperties {
            session_expiry_interval: self.session_expiry_interval,
            reason_string: self.reason_string,
            user_properties: self.user_properties,
        }
    }
}

/// What a client says of authentication: data without a method is a protocol error.
fn authentication_of(
    method: Option<Text>,
    authentication_data: Option<Binary>,
) -> Result<Option<Authentication>, StreamFault>
    ensures { result ≡ authentication_of method authentication_data }
{
    match method {
        Some(method) => Ok(Some(Authentication {
            method,
            authentication_data,
        })),
        None => match authentication_data {
            Some(_) => Err(StreamFault::Protocol),
            None => Ok(None),
        },
    }
}
