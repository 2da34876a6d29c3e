//! Texts: UTF-8 Encoded Strings (section 1.5.4).

ghost use Rattle.std.specs.Prelude.{◌≡◌, ◌<◌, ◌^◌, ◌↔◌, length, IsSome, IfSome, IfOk, IsTrue, IsUtf8};
ghost use Rattle.mqtt_packet.specs.Texts.{is_text};

use bytes::{ByteStr, Bytes};
use std::alloc::AllocError;
use std::marker::Model;

/// Well-formed UTF-8 without U+0000, at most 65,535 bytes (section 1.5.4).
///
/// The bytes are shared: a copy of a `Text` counts one more owner and copies no byte.
#[derive(Debug, Drop, PartialEq, Eq, Hash)]
pub struct Text {
    text: ByteStr,
}

impl Model for Text {
    ghost use Rattle.std.specs.Prelude.{List, ℕ, IsTrue};
    ghost use Rattle.mqtt_packet.specs.Texts.{is_text};

    ghost Value = { List ℕ };

    ghost view = { λ t. t.text };

    ghost invariant = { λ t. IsTrue (is_text t.text) };

    ghost inverse = { λ bytes. record { text = bytes } };
}

impl Text {
    /// The text that the bytes are; `None` where they are none.
    pub fn parse(bytes: Bytes) -> Option<Text>
        ensures value { IfSome result (λ text. text ≡ bytes) }
        ensures found { IsSome result ↔ IsTrue (is_text bytes) }
    {
        if is_valid(bytes.as_slice()) {
            Some(Text {
                text: ByteStr::from_known_utf8(bytes),
            })
        } else {
            None
        }
    }

    /// The bytes of the text, as UTF-8.
    pub fn as_bytes(&self) -> &[u8]
        ensures value { result.now ≡ self.now }
        ensures text { IsTrue (is_text self.now) }
        ensures short { length result.now < 2 ^ 16 }
    {
        self.text.as_bytes().as_slice()
    }

    /// The bytes of the text, to be shared.
    pub fn shared_bytes(&self) -> &Bytes
        ensures { result.now ≡ self.now }
    {
        self.text.as_bytes()
    }

    /// The text.
    pub fn as_str(&self) -> &str
        ensures { result.now ≡ self.now }
    {
        self.text.as_str()
    }

    /// The same text, which shares its bytes.
    pub fn try_clone(&self) -> Result<Text, AllocError>
        ensures { IfOk result (λ text. text ≡ self.now) }
    {
        Ok(Text {
            text: self.text.clone()?,
        })
    }
}

/// Whether the bytes are a text.
#[tactic(auto, unfolding(crate::specs::Texts::is_text))]
fn is_valid(bytes: &[u8]) -> bool
    ensures text { result ≡ is_text bytes.now }
    ensures utf8 { IsTrue result → IsUtf8 bytes.now }
{
    if bytes.len() >= 65_536 {
        return false;
    }
    if bytes.contains(&0) {
        return false;
    }
    is_utf8(bytes)
}

/// Whether the bytes are well-formed UTF-8. Most texts are ASCII, which takes a short look.
fn is_utf8(bytes: &[u8]) -> bool
    ensures { IsTrue result ↔ IsUtf8 bytes.now }
{
    bytes.is_ascii() || simdutf8::is_utf8(bytes)
}
