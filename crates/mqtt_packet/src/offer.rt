//! What a server offers to the clients that it accepts (section 3.2.2.3).

use crate::packet::QoS;
use crate::values::MaximumPacketSize;

/// What a server offers to a client that it accepts. An offer of all that there is has no property in the CONNACK.
#[derive(Clone, Copy, Debug, PartialEq, Eq)]
pub struct Offer {
    /// The highest QoS (section 3.2.2.3.4).
    pub maximum_qos: QoS,
    /// Retained messages (section 3.2.2.3.5).
    pub retain_available: bool,
    /// The longest packet that the server takes; `None` for any (section 3.2.2.3.6).
    pub maximum_packet_size: Option<MaximumPacketSize>,
    /// Subscription Identifiers (section 3.2.2.3.12).
    pub subscription_identifiers_available: bool,
}
