//! Binary Data (section 1.5.6).

ghost use Rattle.std.specs.Prelude.{◌≡◌, ◌<◌, ◌^◌, ◌↔◌, length, IsSome, IfSome, IfOk};

use bytes::Bytes;
use std::alloc::AllocError;
use std::marker::Model;

/// At most 65,535 bytes, shared as those of a [`Text`](crate::Text) are (section 1.5.6).
#[derive(Debug, Drop, PartialEq, Eq, Hash)]
pub struct Binary {
    bytes: Bytes,
}

impl Model for Binary {
    ghost use Rattle.std.specs.Prelude.{List, ℕ, ◌<◌, ◌^◌, length};

    ghost Value = { List ℕ };

    ghost view = { λ binary. binary.bytes };

    ghost invariant = { λ binary. length binary.bytes < 2 ^ 16 };

    ghost inverse = { λ bytes. record { bytes = bytes } };
}

impl Binary {
    /// The bytes as Binary Data; `None` where they are more than 65,535.
    pub fn new(bytes: Bytes) -> Option<Binary>
        ensures value { IfSome result (λ binary. binary ≡ bytes) }
        ensures found { IsSome result ↔ (length bytes < 2 ^ 16) }
    {
        if bytes.len() >= 65_536 {
            return None;
        }
        Some(Binary { bytes })
    }

    /// The bytes.
    pub fn as_bytes(&self) -> &[u8]
        ensures value { result.now ≡ self.now }
        ensures short { length result.now < 2 ^ 16 }
    {
        self.bytes.as_slice()
    }

    /// The same bytes, shared.
    pub fn try_clone(&self) -> Result<Binary, AllocError>
        ensures { IfOk result (λ binary. binary ≡ self.now) }
    {
        Ok(Binary {
            bytes: self.bytes.clone()?,
        })
    }
}
