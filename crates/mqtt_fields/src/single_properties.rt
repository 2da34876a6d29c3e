//! Writers of single properties, where they are there: an identifier and a value (section 2.2.2).

ghost use Rattle.std.specs.Prelude.{◌<◌, ◌^◌, ◌∷◌, [], IfSome};
ghost use Rattle.mqtt_fields.specs.Buffers.{HasRoom, Appends};
ghost use Rattle.mqtt_packet.specs.Texts.{IsText, IsBinary};
ghost use Rattle.mqtt_fields.specs.Forms.{u16_bytes, u32_bytes, binary_data, utf8_string, bit};
ghost use Rattle.mqtt_fields.specs.PropertyLists.{bytes_if};

use crate::field_writing::{put_binary, put_byte, put_text, put_u16, put_u32};
use mqtt_packet::{Binary, Text};

/// Writes a property that is a byte, where it is there.
pub(crate) fn put_byte_if(out: &mut Vec<u8>, identifier: u8, value: Option<u8>)
    requires { HasRoom out.old (bytes_if (λ x. identifier ∷ x ∷ []) value) }
    ensures { Appends out.old (bytes_if (λ x. identifier ∷ x ∷ []) value) out.new }
{
    if let Some(byte) = value {
        put_byte(out, identifier);
        put_byte(out, byte);
    }
}

/// Writes a property that is 0 or 1, where it is there.
pub(crate) fn put_flag_if(out: &mut Vec<u8>, identifier: u8, value: Option<bool>)
    requires { HasRoom out.old (bytes_if (λ x. identifier ∷ bit x ∷ []) value) }
    ensures { Appends out.old (bytes_if (λ x. identifier ∷ bit x ∷ []) value) out.new }
{
    if let Some(flag) = value {
        put_byte(out, identifier);
        put_byte(out, u8::from(flag));
    }
}

/// Writes a property that is a Two Byte Integer, where it is there.
pub(crate) fn put_u16_if(out: &mut Vec<u8>, identifier: u8, value: Option<u16>)
    requires { HasRoom out.old (bytes_if (λ x. identifier ∷ u16_bytes x) value) }
    ensures appended { Appends out.old (bytes_if (λ x. identifier ∷ u16_bytes x) value) out.new }
    ensures fits { IfSome value (λ x. x < 2 ^ 16) }
{
    let Some(number) = value else {
        return;
    };
    put_byte(out, identifier);
    put_u16(out, number);
}

/// Writes a property that is a Four Byte Integer, where it is there.
pub(crate) fn put_u32_if(out: &mut Vec<u8>, identifier: u8, value: Option<u32>)
    requires { HasRoom out.old (bytes_if (λ x. identifier ∷ u32_bytes x) value) }
    ensures appended { Appends out.old (bytes_if (λ x. identifier ∷ u32_bytes x) value) out.new }
    ensures fits { IfSome value (λ x. x < 2 ^ 32) }
{
    let Some(number) = value else {
        return;
    };
    put_byte(out, identifier);
    put_u32(out, number);
}

/// Writes a property that is a UTF-8 Encoded String, where it is there.
pub fn put_text_if(out: &mut Vec<u8>, identifier: u8, value: &Option<Text>)
    requires { HasRoom out.old (bytes_if (λ x. identifier ∷ utf8_string x) value.now) }
    ensures appended { Appends out.old (bytes_if (λ x. identifier ∷ utf8_string x) value.now) out.new }
    ensures fits { IfSome value.now IsText }
{
    let Some(text) = value else {
        return;
    };
    put_byte(out, identifier);
    put_text(out, text);
}

/// Writes a property that is Binary Data, where it is there.
pub(crate) fn put_binary_if(out: &mut Vec<u8>, identifier: u8, value: &Option<Binary>)
    requires { HasRoom out.old (bytes_if (λ x. identifier ∷ binary_data x) value.now) }
    ensures appended { Appends out.old (bytes_if (λ x. identifier ∷ binary_data x) value.now) out.new }
    ensures fits { IfSome value.now IsBinary }
{
    let Some(binary) = value else {
        return;
    };
    put_byte(out, identifier);
    put_binary(out, binary);
}
