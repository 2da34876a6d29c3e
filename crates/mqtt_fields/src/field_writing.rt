//! Writers of single fields, after what a buffer holds (section 1.5). The buffer has room for them.

ghost use Rattle.std.specs.Prelude.{◌≡◌, ◌<◌, ◌∷◌, ◌++◌, []};
ghost use Rattle.mqtt_fields.specs.Buffers.{HasRoom, Appends};
ghost use Rattle.mqtt_packet.specs.Texts.{IsText, IsBinary};
ghost use Rattle.mqtt_fields.specs.Forms.{u16_bytes, u32_bytes, binary_data, utf8_string, variable_limit, variable_bytes};
ghost use Rattle.mqtt_fields.specs.FieldRanges.{IsIdentifier};

use mqtt_packet::{Binary, PacketIdentifier, Text};

/// Writes a byte.
pub fn put_byte(out: &mut Vec<u8>, byte: u8)
    requires { HasRoom out.old (byte ∷ []) }
    ensures { Appends out.old (byte ∷ []) out.new }
{
    out.push_reserved(byte);
}

/// Writes bytes as they are.
pub fn put_bytes(out: &mut Vec<u8>, bytes: &[u8])
    requires { HasRoom out.old bytes.now }
    ensures { Appends out.old bytes.now out.new }
{
    let _ = out.extend_from_slice(bytes);
}

/// Writes a Two Byte Integer (section 1.5.2).
pub fn put_u16(out: &mut Vec<u8>, number: u16)
    requires { HasRoom out.old (u16_bytes number) }
    ensures { Appends out.old (u16_bytes number) out.new }
{
    put_byte(out, (number / 256) as u8);
    put_byte(out, (number % 256) as u8);
}

/// Writes a Four Byte Integer (section 1.5.3).
pub(crate) fn put_u32(out: &mut Vec<u8>, number: u32)
    requires { HasRoom out.old (u32_bytes number) }
    ensures { Appends out.old (u32_bytes number) out.new }
{
    put_byte(out, (number / 16_777_216) as u8);
    put_byte(out, (number / 65_536 % 256) as u8);
    put_byte(out, (number / 256 % 256) as u8);
    put_byte(out, (number % 256) as u8);
}

/// Writes a Variable Byte Integer of at most `more` bytes after its first (section 1.5.5), in the fewest bytes.
#[tactic(auto, unfolding(crate::specs::Forms::variable_bytes))]
pub fn put_variable_byte_integer(out: &mut Vec<u8>, more: u8, number: u32)
    requires limit { number < variable_limit more }
    requires room { HasRoom out.old (variable_bytes more number) }
    ensures { Appends out.old (variable_bytes more number) out.new }
{
    if number < 128 {
        put_byte(out, number as u8);
        return;
    }
    put_byte(out, (number % 128 + 128) as u8);
    put_variable_byte_integer(out, more - 1, number / 128);
}

/// Writes a Packet Identifier (section 2.2.1).
pub fn put_identifier(out: &mut Vec<u8>, identifier: PacketIdentifier)
    requires { HasRoom out.old (u16_bytes identifier) }
    ensures appended { Appends out.old (u16_bytes identifier) out.new }
    ensures fits { IsIdentifier identifier }
{
    put_u16(out, identifier.get());
}

/// Writes a UTF-8 Encoded String (section 1.5.4).
pub fn put_text(out: &mut Vec<u8>, text: &Text)
    requires { HasRoom out.old (utf8_string text.now) }
    ensures appended { Appends out.old (utf8_string text.now) out.new }
    ensures fits { IsText text.now }
{
    let bytes = text.as_bytes();
    put_u16(out, bytes.len() as u16);
    put_bytes(out, bytes);
}

/// Writes Binary Data (section 1.5.6).
pub fn put_binary(out: &mut Vec<u8>, binary: &Binary)
    requires { HasRoom out.old (binary_data binary.now) }
    ensures appended { Appends out.old (binary_data binary.now) out.new }
    ensures fits { IsBinary binary.now }
{
    let bytes = binary.as_bytes();
    put_u16(out, bytes.len() as u16);
    put_bytes(out, bytes);
}
