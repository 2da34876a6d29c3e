//! Writers of the properties of each packet, in rising order of their identifiers (section 2.2.2).

ghost use Rattle.std.specs.Prelude.{◌≡◌, ◌<◌, ◌^◌, ◌∷◌, [], length, IfSome};
ghost use Rattle.mqtt_fields.specs.Buffers.{HasRoom, Appends};
ghost use Rattle.mqtt_fields.specs.Forms.{u16_bytes, u32_bytes, variable_byte_integer};
ghost use Rattle.mqtt_fields.specs.Sections.{pair_bytes, properties, IsPair};
ghost use Rattle.mqtt_fields.specs.FieldRanges.{ArePairs, AuthenticationFits, ConnectFits, PublishFits, PubackFits, SubscribeFits, UnsubscribeFits, DisconnectFits};
ghost use Rattle.mqtt_fields.specs.PropertyLists.{bytes_if, user_bytes, authentication_bytes, connect_list, publish_list, puback_list, subscribe_list, unsubscribe_list, disconnect_list};

use crate::field_writing::{put_byte, put_text, put_u16, put_u32, put_variable_byte_integer};
use crate::property_sizes::{
    connect_list_size, publish_list_size, subscribe_list_size, unsubscribe_list_size,
};
use crate::single_properties::{
    put_binary_if, put_byte_if, put_flag_if, put_text_if, put_u16_if, put_u32_if,
};
use mqtt_packet::{
    Authentication, ConnectProperties, DisconnectProperties, MaximumPacketSize, PubackProperties,
    Publish, PublishProperties, ReceiveMaximum, SubscribeProperties, SubscriptionIdentifier,
    UnsubscribeProperties, UserProperty,
};

/// Property Identifiers (table 2-4).
const PAYLOAD_FORMAT_INDICATOR: u8 = 0x01;

const MESSAGE_EXPIRY_INTERVAL: u8 = 0x02;

const CONTENT_TYPE: u8 = 0x03;

const RESPONSE_TOPIC: u8 = 0x08;

const CORRELATION_DATA: u8 = 0x09;

const SUBSCRIPTION_IDENTIFIER: u8 = 0x0B;

const SESSION_EXPIRY_INTERVAL: u8 = 0x11;

const AUTHENTICATION_METHOD: u8 = 0x15;

const AUTHENTICATION_DATA: u8 = 0x16;

const REQUEST_PROBLEM_INFORMATION: u8 = 0x17;

const REQUEST_RESPONSE_INFORMATION: u8 = 0x19;

const REASON_STRING: u8 = 0x1F;

const RECEIVE_MAXIMUM: u8 = 0x21;

const TOPIC_ALIAS_MAXIMUM: u8 = 0x22;

const TOPIC_ALIAS: u8 = 0x23;

const USER_PROPERTY: u8 = 0x26;

const MAXIMUM_PACKET_SIZE: u8 = 0x27;

/// Writes the empty section of properties (section 2.2.2).
#[tactic(auto, unfolding(crate::specs::Forms::variable_bytes))]
pub fn put_no_properties(out: &mut Vec<u8>)
    requires { HasRoom out.old (properties []) }
    ensures { Appends out.old (properties []) out.new }
{
    put_byte(out, 0);
}

/// Writes the section of a CONNECT (section 3.1.2.11).
pub fn put_connect_properties(out: &mut Vec<u8>, list: &ConnectProperties)
    requires size { length (connect_list list.now) < 268435456 }
    requires room { HasRoom out.old (properties (connect_list list.now)) }
    ensures appended { Appends out.old (properties (connect_list list.now)) out.new }
    ensures fits { ConnectFits list.now }
{
    put_variable_byte_integer(out, 3, connect_list_size(list) as u32);
    put_connect_list(out, list);
}

/// Writes the section of a PUBLISH (section 3.3.2.3).
pub fn put_publish_properties(out: &mut Vec<u8>, publish: &Publish)
    requires size { length (publish_list publish.now) < 268435456 }
    requires room { HasRoom out.old (properties (publish_list publish.now)) }
    ensures appended { Appends out.old (properties (publish_list publish.now)) out.new }
    ensures fits { PublishFits publish.now }
{
    put_variable_byte_integer(out, 3, publish_list_size(publish) as u32);
    put_publish_list(out, publish);
}

/// Writes the section of a SUBSCRIBE (section 3.8.2.1).
pub fn put_subscribe_properties(out: &mut Vec<u8>, list: &SubscribeProperties)
    requires size { length (subscribe_list list.now) < 268435456 }
    requires room { HasRoom out.old (properties (subscribe_list list.now)) }
    ensures appended { Appends out.old (properties (subscribe_list list.now)) out.new }
    ensures fits { SubscribeFits list.now }
{
    put_variable_byte_integer(out, 3, subscribe_list_size(list) as u32);
    put_subscribe_list(out, list);
}

/// Writes the section of an UNSUBSCRIBE (section 3.10.2.1).
pub fn put_unsubscribe_properties(out: &mut Vec<u8>, list: &UnsubscribeProperties)
    requires size { length (unsubscribe_list list.now) < 268435456 }
    requires room { HasRoom out.old (properties (unsubscribe_list list.now)) }
    ensures appended { Appends out.old (properties (unsubscribe_list list.now)) out.new }
    ensures fits { UnsubscribeFits list.now }
{
    put_variable_byte_integer(out, 3, unsubscribe_list_size(list) as u32);
    put_unsubscribe_list(out, list);
}

/// Writes those of a CONNECT.
fn put_connect_list(out: &mut Vec<u8>, properties: &ConnectProperties)
    requires { HasRoom out.old (connect_list properties.now) }
    ensures appended { Appends out.old (connect_list properties.now) out.new }
    ensures fits { ConnectFits properties.now }
{
    put_u32_if(
        out,
        SESSION_EXPIRY_INTERVAL,
        properties.session_expiry_interval,
    );
    put_authentication(out, &properties.authentication);
    put_flag_if(
        out,
        REQUEST_PROBLEM_INFORMATION,
        properties.request_problem_information,
    );
    put_flag_if(
        out,
        REQUEST_RESPONSE_INFORMATION,
        properties.request_response_information,
    );
    put_receive_maximum(out, properties.receive_maximum);
    put_u16_if(out, TOPIC_ALIAS_MAXIMUM, properties.topic_alias_maximum);
    put_user_properties(out, properties.user_properties.as_slice());
    put_maximum_packet_size(out, properties.maximum_packet_size);
}

/// Writes those of a PUBLISH.
fn put_publish_list(out: &mut Vec<u8>, publish: &Publish)
    requires { HasRoom out.old (publish_list publish.now) }
    ensures appended { Appends out.old (publish_list publish.now) out.new }
    ensures fits { PublishFits publish.now }
{
    match publish.properties.get() {
        Some(properties) => put_full_publish_list(out, publish, properties),
        None => {
            put_u32_if(
                out,
                MESSAGE_EXPIRY_INTERVAL,
                publish.message_expiry_interval,
            );
            put_subscription_identifier(out, publish.subscription_identifier);
        }
    }
}

/// Writes those of a PUBLISH that has properties which stand apart from it.
fn put_full_publish_list(out: &mut Vec<u8>, publish: &Publish, properties: &PublishProperties)
    requires apart { properties.now ≡ publish.now.properties }
    requires room { HasRoom out.old (publish_list publish.now) }
    ensures appended { Appends out.old (publish_list publish.now) out.new }
    ensures fits { PublishFits publish.now }
{
    put_byte_if(
        out,
        PAYLOAD_FORMAT_INDICATOR,
        properties.payload_format_indicator,
    );
    put_u32_if(
        out,
        MESSAGE_EXPIRY_INTERVAL,
        publish.message_expiry_interval,
    );
    put_text_if(out, CONTENT_TYPE, &properties.content_type);
    put_text_if(out, RESPONSE_TOPIC, &properties.response_topic);
    put_binary_if(out, CORRELATION_DATA, &properties.correlation_data);
    put_subscription_identifier(out, publish.subscription_identifier);
    put_u16_if(out, TOPIC_ALIAS, properties.topic_alias);
    put_user_properties(out, properties.user_properties.as_slice());
}

/// Writes the properties of a PUBACK, without their length in front (section 3.4.2.2).
pub fn put_puback_list(out: &mut Vec<u8>, properties: &PubackProperties)
    requires { HasRoom out.old (puback_list properties.now) }
    ensures appended { Appends out.old (puback_list properties.now) out.new }
    ensures fits { PubackFits properties.now }
{
    put_text_if(out, REASON_STRING, &properties.reason_string);
    put_user_properties(out, properties.user_properties.as_slice());
}

/// Writes those of a SUBSCRIBE.
fn put_subscribe_list(out: &mut Vec<u8>, properties: &SubscribeProperties)
    requires { HasRoom out.old (subscribe_list properties.now) }
    ensures appended { Appends out.old (subscribe_list properties.now) out.new }
    ensures fits { SubscribeFits properties.now }
{
    put_subscription_identifier(out, properties.subscription_identifier);
    put_user_properties(out, properties.user_properties.as_slice());
}

/// Writes those of an UNSUBSCRIBE.
fn put_unsubscribe_list(out: &mut Vec<u8>, properties: &UnsubscribeProperties)
    requires { HasRoom out.old (unsubscribe_list properties.now) }
    ensures appended { Appends out.old (unsubscribe_list properties.now) out.new }
    ensures fits { UnsubscribeFits properties.now }
{
    put_user_properties(out, properties.user_properties.as_slice());
}

/// Writes the properties of a DISCONNECT, without their length in front (section 3.14.2.2).
pub fn put_disconnect_list(out: &mut Vec<u8>, properties: &DisconnectProperties)
    requires { HasRoom out.old (disconnect_list properties.now) }
    ensures appended { Appends out.old (disconnect_list properties.now) out.new }
    ensures fits { DisconnectFits properties.now }
{
    put_u32_if(
        out,
        SESSION_EXPIRY_INTERVAL,
        properties.session_expiry_interval,
    );
    put_text_if(out, REASON_STRING, &properties.reason_string);
    put_user_properties(out, properties.user_properties.as_slice());
}

/// Writes the Receive Maximum, where it is there.
fn put_receive_maximum(out: &mut Vec<u8>, value: Option<ReceiveMaximum>)
    requires { HasRoom out.old (bytes_if (λ x. 0x21 ∷ u16_bytes x) value) }
    ensures appended { Appends out.old (bytes_if (λ x. 0x21 ∷ u16_bytes x) value) out.new }
    ensures fits { IfSome value (λ x. (0 < x) × (x < 2 ^ 16)) }
{
    let Some(maximum) = value else {
        return;
    };
    put_byte(out, RECEIVE_MAXIMUM);
    put_u16(out, maximum.get());
}

/// Writes the Maximum Packet Size, where it is there (section 3.2.2.3.6).
pub fn put_maximum_packet_size(out: &mut Vec<u8>, value: Option<MaximumPacketSize>)
    requires { HasRoom out.old (bytes_if (λ x. 0x27 ∷ u32_bytes x) value) }
    ensures appended { Appends out.old (bytes_if (λ x. 0x27 ∷ u32_bytes x) value) out.new }
    ensures fits { IfSome value (λ x. (0 < x) × (x < 2 ^ 32)) }
{
    let Some(maximum) = value else {
        return;
    };
    put_byte(out, MAXIMUM_PACKET_SIZE);
    put_u32(out, maximum.get());
}

/// Writes the Subscription Identifier, where it is there.
fn put_subscription_identifier(out: &mut Vec<u8>, value: Option<SubscriptionIdentifier>)
    requires { HasRoom out.old (bytes_if (λ x. 0x0B ∷ variable_byte_integer x) value) }
    ensures appended { Appends out.old (bytes_if (λ x. 0x0B ∷ variable_byte_integer x) value) out.new }
    ensures fits { IfSome value (λ x. (0 < x) × (x < 2 ^ 28)) }
{
    let Some(identifier) = value else {
        return;
    };
    put_byte(out, SUBSCRIPTION_IDENTIFIER);
    put_variable_byte_integer(out, 3, identifier.get());
}

/// Writes the authentication method and its data, where they are there.
fn put_authentication(out: &mut Vec<u8>, value: &Option<Authentication>)
    requires { HasRoom out.old (authentication_bytes value.now) }
    ensures appended { Appends out.old (authentication_bytes value.now) out.new }
    ensures fits { AuthenticationFits value.now }
{
    let Some(authentication) = value else {
        return;
    };
    put_byte(out, AUTHENTICATION_METHOD);
    put_text(out, &authentication.method);
    put_binary_if(
        out,
        AUTHENTICATION_DATA,
        &authentication.authentication_data,
    );
}

/// Writes User Properties, in their order.
fn put_user_properties(out: &mut Vec<u8>, properties: &[UserProperty])
    requires { HasRoom out.old (user_bytes properties.now) }
    ensures appended { Appends out.old (user_bytes properties.now) out.new }
    ensures fits { ArePairs properties.now }
{
    for property in properties {
        put_user_property(out, property);
    }
}

/// Writes a User Property.
fn put_user_property(out: &mut Vec<u8>, property: &UserProperty)
    requires { HasRoom out.old (0x26 ∷ pair_bytes property.now) }
    ensures appended { Appends out.old (0x26 ∷ pair_bytes property.now) out.new }
    ensures fits { IsPair property.now }
{
    put_byte(out, USER_PROPERTY);
    put_text(out, &property.name);
    put_text(out, &property.value);
}
