//! Readers of single fields, from the front of what is left of a body (section 1.5). A field that runs over the end is
//! malformed (101). What a reader leaves where it refuses no contract says.

ghost use Rattle.std.specs.Prelude.{◌≡◌, ◌<◌, ◌^◌, List, ℕ, length, IfOk, OnOk};
ghost use Rattle.mqtt_fields.specs.Faults.{ReadsField, GivesField, GivesVariable, FindsBelow};
ghost use Rattle.mqtt_fields.specs.Forms.{variable_limit};
ghost use Rattle.mqtt_fields.specs.Sections.{pair_at};
ghost use Rattle.mqtt_fields.specs.Fields.{byte_at, u16_at, u32_at, binary_at, text_at, not_zero, identifier_at, flag_at, field_if, variable_at, variable_field_at};

use crate::fault::{Fault, StreamFault};
use bytes::Bytes;
use mqtt_packet::{
    Binary, MaximumPacketSize, PacketIdentifier, ReceiveMaximum, SubscriptionIdentifier, Text,
    UserProperty,
};

/// Takes a byte. Refuses with 101 where nothing is left.
#[tactic(auto, unfolding(crate::specs::Fields::byte_at))]
pub fn read_byte(body: &mut Bytes) -> Result<u8, StreamFault>
    ensures { ReadsField result body.new (byte_at body.old) }
{
    let [byte, ..] = body.as_slice() else {
        return Err(StreamFault::Malformed);
    };
    let byte = *byte;
    body.advance(1);
    Ok(byte)
}

/// Takes a Two Byte Integer (section 1.5.2). Refuses with 101 where fewer than two bytes are left.
#[tactic(auto, unfolding(crate::specs::Fields::u16_at))]
pub fn read_u16(body: &mut Bytes) -> Result<u16, StreamFault>
    ensures { ReadsField result body.new (u16_at body.old) }
{
    let [high, low, ..] = body.as_slice() else {
        return Err(StreamFault::Malformed);
    };
    let number = u16::from_be_bytes([*high, *low]);
    body.advance(2);
    Ok(number)
}

/// Takes the length of Binary Data and the bytes that it says, which are shared with the body.
#[tactic(auto, unfolding(crate::specs::Fields::binary_at))]
fn read_data(body: &mut Bytes) -> Result<Bytes, Fault>
    ensures field { GivesField result body.new (binary_at body.old) }
    ensures short { IfOk result (λ binary. length binary < 2 ^ 16) }
{
    let size = usize::from(read_u16(body)?);
    if body.len() < size {
        return Err(Fault::Stream(StreamFault::Malformed));
    }
    Ok(body.split_to(size)?)
}

/// Takes Binary Data, which shares the bytes of the body.
pub(crate) fn read_binary(body: &mut Bytes) -> Result<Binary, Fault>
    ensures { GivesField result body.new (binary_at body.old) }
{
    match Binary::new(read_data(body)?) {
        Some(binary) => Ok(binary),
        None => Err(Fault::Stream(StreamFault::Malformed)),
    }
}

/// Takes a UTF-8 Encoded String, which shares the bytes of the body (section 1.5.4). Refuses with 101 where it runs over the
/// end or is no text, and with 104 where memory is refused.
#[tactic(auto, unfolding(crate::specs::Fields::text_at))]
pub fn read_text(body: &mut Bytes) -> Result<Text, Fault>
    ensures field { GivesField result body.new (text_at body.old) }
    ensures shorter { OnOk result (length body.new < length body.old) }
{
    match Text::parse(read_data(body)?) {
        Some(text) => Ok(text),
        None => Err(Fault::Stream(StreamFault::Malformed)),
    }
}

/// Takes a UTF-8 Encoded String where it is there, as [`read_text`] does.
pub fn read_text_if(present: bool, body: &mut Bytes) -> Result<Option<Text>, Fault>
    ensures { GivesField result body.new (field_if present text_at body.old) }
{
    if !present {
        return Ok(None);
    }
    Ok(Some(read_text(body)?))
}

/// Takes Binary Data where it is there; it shares the bytes of the body (section 1.5.6). Refuses with 101 where it runs over
/// the end, and with 104 where memory is refused.
pub fn read_binary_if(present: bool, body: &mut Bytes) -> Result<Option<Binary>, Fault>
    ensures { GivesField result body.new (field_if present binary_at body.old) }
{
    if !present {
        return Ok(None);
    }
    Ok(Some(read_binary(body)?))
}

/// Takes a Packet Identifier (section 2.2.1). Refuses with 101 where fewer than two bytes are left, and 0 with 102.
#[tactic(auto, unfolding(crate::specs::Fields::identifier_at))]
pub fn read_identifier(body: &mut Bytes) -> Result<PacketIdentifier, StreamFault>
    ensures { ReadsField result body.new (identifier_at body.old) }
{
    match PacketIdentifier::new(read_u16(body)?) {
        Some(identifier) => Ok(identifier),
        None => Err(StreamFault::Protocol),
    }
}

/// Takes a Four Byte Integer.
#[tactic(auto, unfolding(crate::specs::Fields::u32_at))]
pub(crate) fn read_u32(body: &mut Bytes) -> Result<u32, StreamFault>
    ensures { ReadsField result body.new (u32_at body.old) }
{
    let [a, b, c, d, ..] = body.as_slice() else {
        return Err(StreamFault::Malformed);
    };
    let number = u32::from_be_bytes([*a, *b, *c, *d]);
    body.advance(4);
    Ok(number)
}

/// Takes a byte that is 0 or 1.
#[tactic(auto, unfolding(crate::specs::Fields::flag_at))]
pub(crate) fn read_flag(body: &mut Bytes) -> Result<bool, StreamFault>
    ensures { ReadsField result body.new (flag_at body.old) }
{
    match read_byte(body)? {
        0 => Ok(false),
        1 => Ok(true),
        _ => Err(StreamFault::Protocol),
    }
}

/// Takes a Receive Maximum.
pub(crate) fn read_receive_maximum(body: &mut Bytes) -> Result<ReceiveMaximum, StreamFault>
    ensures { ReadsField result body.new (not_zero (u16_at body.old)) }
{
    match ReceiveMaximum::new(read_u16(body)?) {
        Some(maximum) => Ok(maximum),
        None => Err(StreamFault::Protocol),
    }
}

/// Takes a Maximum Packet Size.
pub(crate) fn read_maximum_packet_size(body: &mut Bytes) -> Result<MaximumPacketSize, StreamFault>
    ensures { ReadsField result body.new (not_zero (u32_at body.old)) }
{
    match MaximumPacketSize::new(read_u32(body)?) {
        Some(maximum) => Ok(maximum),
        None => Err(StreamFault::Protocol),
    }
}

/// Takes a Subscription Identifier.
pub(crate) fn read_subscription_identifier(
    body: &mut Bytes,
) -> Result<SubscriptionIdentifier, StreamFault>
    ensures { ReadsField result body.new (not_zero (variable_field_at body.old)) }
{
    match SubscriptionIdentifier::new(read_variable(body)?) {
        Some(identifier) => Ok(identifier),
        None => Err(StreamFault::Protocol),
    }
}

/// Takes a User Property: two UTF-8 Encoded Strings.
#[tactic(auto, unfolding(crate::specs::Sections::pair_at))]
pub(crate) fn read_pair(body: &mut Bytes) -> Result<UserProperty, Fault>
    ensures { GivesField result body.new (pair_at body.old) }
{
    let name = read_text(body)?;
    let value = read_text(body)?;
    Ok(UserProperty { name, value })
}

/// Takes a Variable Byte Integer, which has to be whole.
#[tactic(auto, unfolding(crate::specs::Fields::variable_field_at))]
pub(crate) fn read_variable(body: &mut Bytes) -> Result<u32, StreamFault>
    ensures field { ReadsField result body.new (variable_field_at body.old) }
    ensures bound { IfOk result (λ number. number < 2 ^ 28) }
{
    let bytes = body.as_slice();
    let Some((number, rest)) = variable_byte_integer(3, bytes)? else {
        return Err(StreamFault::Malformed);
    };
    let size = bytes.len() - rest.len();
    body.advance(size);
    Ok(number)
}

/// Reads a Variable Byte Integer of at most `more` bytes after its first (section 1.5.5): the number and the bytes after it,
/// or `None` where it is not whole yet. Refuses with 101 one that is longer, and one in more bytes than it needs.
#[tactic(auto, unfolding(crate::specs::Fields::variable_at))]
pub fn variable_byte_integer(more: u8, bytes: &[u8]) -> Result<Option<(u32, &[u8])>, StreamFault>
    requires { more < 4 }
    ensures found { GivesVariable result (variable_at more bytes.now) }
    ensures bound { FindsBelow (variable_limit more) result }
{
    let [byte, rest @ ..] = bytes else {
        return Ok(None);
    };
    if *byte < 128 {
        return Ok(Some((u32::from(*byte), rest)));
    }
    if more == 0 {
        return Err(StreamFault::Malformed);
    }
    match variable_byte_integer(more - 1, rest)? {
        None => Ok(None),
        Some((0, _)) => Err(StreamFault::Malformed),
        Some((high, rest)) => Ok(Some((u32::from(*byte) - 128 + 128 * high, rest))),
    }
}
