//! What a client asks for when it connects (section 3.1.2).
ghost use Rattle.std.specs.Prelude.{◌≡◌};
ghost use Rattle.conn_rules.specs.Connecting.{is_under, expiry_in_place, keep_alive_in_place, overrides_of, terms_of, is_given_expiry, granted_expiry};

use crate::client_limits::{ClientLimits, ExpiryLimit, KeepAliveLimit};
use mqtt_packet::{Connect, MaximumPacketSize};

/// What the broker uses in place of what a client asked for, as the CONNACK tells it; `None` where it is as the client asked.
#[derive(Clone, Copy, Debug, PartialEq, Eq)]
pub struct Overrides {
    /// Seconds (section 3.2.2.3.2).
    pub session_expiry_interval: Option<u32>,
    /// Seconds (section 3.2.2.3.14).
    pub keep_alive: Option<u16>,
}

/// What a client asked for when it connected, as far as the broker gives it.
#[derive(Clone, Copy, Debug, PartialEq, Eq)]
pub struct Terms {
    /// From 1 on: what its Receive Maximum is (section 3.1.2.11.3), and no more than the broker's limit.
    pub receive_maximum: u16,
    /// Seconds. A session with 0 ends with its connection, and one with 2^32 - 1 by no time (section 3.1.2.11.2).
    pub session_expiry_interval: u32,
    /// Seconds; 0 turns the keep alive off (section 3.1.2.10).
    pub keep_alive: u16,
    /// The most bytes of a packet that it takes, if it named them: from 64 on (section 3.1.2.11.4).
    pub maximum_packet_size: Option<MaximumPacketSize>,
    /// The longest expiry that a DISCONNECT is given (section 3.14.2.2.2), if that is limited.
    pub max_expiry: Option<ExpiryLimit>,
}

impl Terms {
    /// Whether an expiry at the end is given to a session that ends with its connection, which is a Protocol Error (section
    /// 3.14.2.2.2).
    pub fn is_given_expiry(&self, expiry: u32) -> bool
        ensures { result ≡ is_given_expiry expiry self.now }
    {
        expiry > 0 && self.session_expiry_interval == 0
    }

    /// The seconds that the session is given where a DISCONNECT asks for so many (section 3.14.2.2.2).
    pub fn granted_expiry(&self, seconds: u32) -> u32
        ensures { result ≡ granted_expiry self.now seconds }
    {
        expiry_in_place(self.max_expiry, seconds).unwrap_or(seconds)
    }
}

/// What the broker uses in place of what a client asked for: its limit, where that is exceeded.
pub fn overrides_of(limits: &ClientLimits, connect: &Connect) -> Overrides
    ensures { result ≡ overrides_of limits.now connect.now }
{
    let expiry = connect.properties.session_expiry_interval.unwrap_or(0);
    Overrides {
        session_expiry_interval: expiry_in_place(limits.max_expiry, expiry),
        keep_alive: keep_alive_in_place(limits.max_keep_alive, connect.keep_alive),
    }
}

/// What a client asked for, within the limits; what it did not speak of is as the standard has it.
pub fn terms_of(limits: &ClientLimits, connect: &Connect) -> Terms
    ensures { result ≡ terms_of limits.now connect.now }
{
    let overrides = overrides_of(limits, connect);
    let properties = &connect.properties;
    let receive_maximum = match properties.receive_maximum {
        Some(maximum) => maximum.get(),
        None => u16::MAX,
    };
    let expiry = properties.session_expiry_interval.unwrap_or(0);
    Terms {
        receive_maximum: limits.max_inflight.get().min(receive_maximum),
        session_expiry_interval: overrides.session_expiry_interval.unwrap_or(expiry),
        keep_alive: overrides.keep_alive.unwrap_or(connect.keep_alive),
        maximum_packet_size: properties.maximum_packet_size,
        max_expiry: limits.max_expiry,
    }
}

/// The limit of an expiry, where there is one and the seconds are more.
fn expiry_in_place(limit: Option<ExpiryLimit>, seconds: u32) -> Option<u32>
    ensures { result ≡ expiry_in_place limit seconds }
{
    match limit {
        Some(most) if most.get() < seconds => Some(most.get()),
        _ => None,
    }
}

/// The limit of a keep alive, where there is one and the client asked for a longer one, or for none.
fn keep_alive_in_place(limit: Option<KeepAliveLimit>, seconds: u16) -> Option<u16>
    ensures { result ≡ keep_alive_in_place limit seconds }
{
    match limit {
        Some(most) if seconds == 0 || most.get() < seconds => Some(most.get()),
        _ => None,
    }
}

/// Whether the size is there and below the limit.
pub(crate) fn is_size_under(limit: u32, size: Option<MaximumPacketSize>) -> bool
    ensures { result ≡ is_under limit size }
{
    match size {
        Some(size) => size.get() < limit,
        None => false,
    }
}
