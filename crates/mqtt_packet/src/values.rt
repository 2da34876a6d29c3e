//! Values of properties that may not be 0 (section 2.2.2.2).

ghost use Rattle.std.specs.Prelude.{◌≡◌, ◌<◌, ◌^◌, ◌↔◌, IsSome, IfSome};

use std::marker::Model;

/// How many PUBLISH packets of QoS 1 a client takes unacknowledged: 1 to 65,535 (section 3.1.2.11.3).
#[derive(Clone, Copy, Debug, PartialEq, Eq)]
pub struct ReceiveMaximum {
    packets: u16,
}

impl Model for ReceiveMaximum {
    ghost use Rattle.std.specs.Prelude.{ℕ, ◌<◌};

    ghost Value = { ℕ };

    ghost view = { λ maximum. maximum.packets };

    ghost invariant = { λ maximum. 0 < maximum.packets };

    ghost inverse = { λ number. record { packets = number } };
}

impl ReceiveMaximum {
    /// The Receive Maximum of that number; `None` for 0.
    pub fn new(packets: u16) -> Option<ReceiveMaximum>
        ensures value { IfSome result (λ maximum. maximum ≡ packets) }
        ensures found { IsSome result ↔ (0 < packets) }
    {
        if packets == 0 {
            return None;
        }
        Some(ReceiveMaximum { packets })
    }

    /// Its number, from 1 on.
    pub fn get(self) -> u16
        ensures value { result ≡ self }
        ensures not_zero { 0 < result }
    {
        self.packets
    }
}

/// The longest packet that a client takes, in bytes: 1 to 4,294,967,295 (section 3.1.2.11.4).
#[derive(Clone, Copy, Debug, PartialEq, Eq)]
pub struct MaximumPacketSize {
    bytes: u32,
}

impl Model for MaximumPacketSize {
    ghost use Rattle.std.specs.Prelude.{ℕ, ◌<◌};

    ghost Value = { ℕ };

    ghost view = { λ maximum. maximum.bytes };

    ghost invariant = { λ maximum. 0 < maximum.bytes };

    ghost inverse = { λ number. record { bytes = number } };
}

impl MaximumPacketSize {
    /// The Maximum Packet Size of that number; `None` for 0.
    pub fn new(bytes: u32) -> Option<MaximumPacketSize>
        ensures value { IfSome result (λ maximum. maximum ≡ bytes) }
        ensures found { IsSome result ↔ (0 < bytes) }
    {
        if bytes == 0 {
            return None;
        }
        Some(MaximumPacketSize { bytes })
    }

    /// Its number, from 1 on.
    pub fn get(self) -> u32
        ensures value { result ≡ self }
        ensures not_zero { 0 < result }
    {
        self.bytes
    }
}

/// The identifier that a client gives to a subscription: 1 to 268,435,455 (section 3.8.2.1.2).
#[derive(Clone, Copy, Debug, PartialEq, Eq)]
pub struct SubscriptionIdentifier {
    number: u32,
}

impl Model for SubscriptionIdentifier {
    ghost use Rattle.std.specs.Prelude.{ℕ, ◌<◌, ◌^◌};

    ghost Value = { ℕ };

    ghost view = { λ identifier. identifier.number };

    ghost invariant = { λ identifier. (0 < identifier.number) × (identifier.number < 2 ^ 28) };

    ghost inverse = { λ value. record { number = value } };
}

impl SubscriptionIdentifier {
    /// The identifier of that number; `None` for 0 and from 268,435,456 on.
    pub fn new(number: u32) -> Option<SubscriptionIdentifier>
        ensures value { IfSome result (λ identifier. identifier ≡ number) }
        ensures found { IsSome result ↔ ((0 < number) × (number < 2 ^ 28)) }
    {
        if number == 0 || number >= 1 << 28 {
            return None;
        }
        Some(SubscriptionIdentifier { number })
    }

    /// Its number.
    pub fn get(self) -> u32
        ensures value { result ≡ self }
        ensures range { (0 < result) × (result < 2 ^ 28) }
    {
        self.number
    }
}
