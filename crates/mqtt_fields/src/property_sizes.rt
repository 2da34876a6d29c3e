//! How many bytes the properties of each packet are written in, without the length in front (section 2.2.2). A size that no
//! `usize` holds is given as the greatest.

ghost use Rattle.std.specs.Prelude.{◌≡◌, ◌<◌, ◌≤◌, ◌+◌, ◌∷◌, [], ℕ, min, length, MatchOption};
ghost use Rattle.mqtt_fields.specs.Forms.{u16_bytes, u32_bytes, binary_data, utf8_string, variable_byte_integer, bit};
ghost use Rattle.mqtt_fields.specs.PropertyLists.{bytes_if, user_bytes, authentication_bytes, connect_list, publish_list, puback_list, subscribe_list, unsubscribe_list, disconnect_list};
ghost use Rattle.mqtt_fields.specs.Sizes.{greatest, rare_length};

use mqtt_packet::{
    Authentication, Binary, ConnectProperties, DisconnectProperties, MaximumPacketSize,
    PubackProperties, Publish, PublishProperties, ReceiveMaximum, SubscribeProperties,
    SubscriptionIdentifier, Text, UnsubscribeProperties, UserProperty,
};

/// How many bytes the properties of a CONNECT are written in; the greatest `usize` where they are more.
pub fn connect_list_size(properties: &ConnectProperties) -> usize
    ensures { result ≡ min (length (connect_list properties.now)) greatest }
{
    let numbers = u32_size(properties.session_expiry_interval)
        + flag_size(properties.request_problem_information)
        + flag_size(properties.request_response_information)
        + receive_maximum_size(properties.receive_maximum)
        + u16_size(properties.topic_alias_maximum)
        + maximum_packet_size_size(properties.maximum_packet_size);
    let authentication = authentication_size(&properties.authentication);
    user_properties_size(properties.user_properties.as_slice()).saturating_add(
        numbers + authentication,
    )
}

/// How many bytes the properties of a PUBLISH are written in; the greatest `usize` where they are more.
pub fn publish_list_size(publish: &Publish) -> usize
    ensures { result ≡ min (length (publish_list publish.now)) greatest }
{
    let own = u32_size(publish.message_expiry_interval)
        + subscription_identifier_size(publish.subscription_identifier);
    match publish.properties.get() {
        Some(properties) => rare_size(properties).saturating_add(own),
        None => own,
    }
}

/// Those of a PUBLISH that stand apart from it.
fn rare_size(properties: &PublishProperties) -> usize
    ensures { result ≡ min (rare_length properties.now) greatest }
{
    let numbers = byte_size(properties.payload_format_indicator) + u16_size(properties.topic_alias);
    let texts = text_size(&properties.content_type)
        + text_size(&properties.response_topic)
        + binary_size(&properties.correlation_data);
    user_properties_size(properties.user_properties.as_slice()).saturating_add(numbers + texts)
}

/// How many bytes the properties of a PUBACK are written in; the greatest `usize` where they are more.
pub fn puback_list_size(properties: &PubackProperties) -> usize
    ensures { result ≡ min (length (puback_list properties.now)) greatest }
{
    let reason = text_size(&properties.reason_string);
    user_properties_size(properties.user_properties.as_slice()).saturating_add(reason)
}

/// How many bytes the properties of a SUBSCRIBE are written in; the greatest `usize` where they are more.
pub fn subscribe_list_size(properties: &SubscribeProperties) -> usize
    ensures { result ≡ min (length (subscribe_list properties.now)) greatest }
{
    let identifier = subscription_identifier_size(properties.subscription_identifier);
    user_properties_size(properties.user_properties.as_slice()).saturating_add(identifier)
}

/// How many bytes the properties of an UNSUBSCRIBE are written in; the greatest `usize` where they are more.
pub fn unsubscribe_list_size(properties: &UnsubscribeProperties) -> usize
    ensures { result ≡ min (length (unsubscribe_list properties.now)) greatest }
{
    user_properties_size(properties.user_properties.as_slice())
}

/// How many bytes the properties of a DISCONNECT are written in; the greatest `usize` where they are more.
pub fn disconnect_list_size(properties: &DisconnectProperties) -> usize
    ensures { result ≡ min (length (disconnect_list properties.now)) greatest }
{
    let expiry = u32_size(properties.session_expiry_interval);
    let reason = text_size(&properties.reason_string);
    user_properties_size(properties.user_properties.as_slice()).saturating_add(expiry + reason)
}

/// A property that is a byte.
fn byte_size(value: Option<u8>) -> usize
    ensures value { (identifier : ℕ) → result ≡ length (bytes_if (λ x. identifier ∷ x ∷ []) value) }
    ensures small { result ≤ 2 }
{
    if value.is_some() { 2 } else { 0 }
}

/// A property that is 0 or 1.
fn flag_size(value: Option<bool>) -> usize
    ensures value { (identifier : ℕ) → result ≡ length (bytes_if (λ x. identifier ∷ bit x ∷ []) value) }
    ensures small { result ≤ 2 }
{
    if value.is_some() { 2 } else { 0 }
}

/// A property that is a Two Byte Integer.
fn u16_size(value: Option<u16>) -> usize
    ensures value { (identifier : ℕ) → result ≡ length (bytes_if (λ x. identifier ∷ u16_bytes x) value) }
    ensures small { result ≤ 3 }
{
    if value.is_some() { 3 } else { 0 }
}

/// A property that is a Four Byte Integer.
fn u32_size(value: Option<u32>) -> usize
    ensures value { (identifier : ℕ) → result ≡ length (bytes_if (λ x. identifier ∷ u32_bytes x) value) }
    ensures small { result ≤ 5 }
{
    if value.is_some() { 5 } else { 0 }
}

/// The Receive Maximum.
fn receive_maximum_size(value: Option<ReceiveMaximum>) -> usize
    ensures value { result ≡ length (bytes_if (λ x. 0x21 ∷ u16_bytes x) value) }
    ensures small { result ≤ 3 }
{
    if value.is_some() { 3 } else { 0 }
}

/// The Maximum Packet Size.
fn maximum_packet_size_size(value: Option<MaximumPacketSize>) -> usize
    ensures value { result ≡ length (bytes_if (λ x. 0x27 ∷ u32_bytes x) value) }
    ensures small { result ≤ 5 }
{
    if value.is_some() { 5 } else { 0 }
}

/// The Subscription Identifier.
fn subscription_identifier_size(value: Option<SubscriptionIdentifier>) -> usize
    ensures value { result ≡ length (bytes_if (λ x. 0x0B ∷ variable_byte_integer x) value) }
    ensures small { result ≤ 5 }
{
    match value {
        Some(identifier) => 1 + variable_size(identifier.get() as usize),
        None => 0,
    }
}

/// A property that is a UTF-8 Encoded String.
fn text_size(value: &Option<Text>) -> usize
    ensures value { (identifier : ℕ) → result ≡ length (bytes_if (λ x. identifier ∷ utf8_string x) value.now) }
    ensures small { result < 65539 }
{
    match value {
        Some(text) => 3 + text.as_bytes().len(),
        None => 0,
    }
}

/// A property that is Binary Data.
fn binary_size(value: &Option<Binary>) -> usize
    ensures value { (identifier : ℕ) → result ≡ length (bytes_if (λ x. identifier ∷ binary_data x) value.now) }
    ensures small { result < 65539 }
{
    match value {
        Some(binary) => 3 + binary.as_bytes().len(),
        None => 0,
    }
}

/// The authentication method and its data.
fn authentication_size(value: &Option<Authentication>) -> usize
    ensures value { result ≡ length (authentication_bytes value.now) }
    ensures small { result < 131078 }
{
    match value {
        Some(authentication) => {
            let method = 3 + authentication.method.as_bytes().len();
            method + binary_size(&authentication.authentication_data)
        }
        None => 0,
    }
}

/// User Properties.
fn user_properties_size(properties: &[UserProperty]) -> usize
    ensures { result ≡ min (length (user_bytes properties.now)) greatest }
{
    let mut size = 0usize;
    for property in properties {
        let pair = 5 + property.name.as_bytes().len() + property.value.as_bytes().len();
        size = size.saturating_add(pair);
    }
    size
}

/// How many bytes a section of so many bytes of properties takes, with its length in front; `None` where four bytes
/// cannot say that length.
pub fn section_size(list: usize) -> Option<usize>
    ensures { MatchOption result (268435455 < list)
        (λ size. (size ≡ length (variable_byte_integer list) + list) × (list ≤ 268435455) × (size ≤ 268435459)) }
{
    if list > 268_435_455 {
        return None;
    }
    Some(variable_size(list) + list)
}

/// How many bytes a Variable Byte Integer takes, from one to four (section 1.5.5).
pub fn variable_size(number: usize) -> usize
    requires { number < 268435456 }
    ensures value { result ≡ length (variable_byte_integer number) }
    ensures small { result ≤ 4 }
{
    if number < 128 {
        1
    } else if number < 16_384 {
        2
    } else if number < 2_097_152 {
        3
    } else {
        4
    }
}
