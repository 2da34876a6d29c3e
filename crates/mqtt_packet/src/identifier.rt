//! Packet Identifiers (section 2.2.1).

ghost use Rattle.std.specs.Prelude.{◌≡◌, ◌<◌, ◌↔◌, IsSome, IfSome};

use std::marker::Model;

/// A Packet Identifier: 1 to 65,535 (section 2.2.1).
#[derive(Clone, Copy, Debug, PartialEq, Eq)]
pub struct PacketIdentifier {
    value: u16,
}

impl Model for PacketIdentifier {
    ghost use Rattle.std.specs.Prelude.{ℕ, ◌<◌};

    ghost Value = { ℕ };

    ghost view = { λ identifier. identifier.value };

    ghost invariant = { λ identifier. 0 < identifier.value };

    ghost inverse = { λ number. record { value = number } };
}

impl PacketIdentifier {
    /// The identifier of that number; `None` for 0.
    pub fn new(value: u16) -> Option<PacketIdentifier>
        ensures value { IfSome result (λ identifier. identifier ≡ value) }
        ensures found { IsSome result ↔ (0 < value) }
    {
        if value == 0 {
            return None;
        }
        Some(PacketIdentifier { value })
    }

    /// Its number, from 1 on.
    pub fn get(self) -> u16
        ensures value { result ≡ self }
        ensures not_zero { 0 < result }
    {
        self.value
    }
}
