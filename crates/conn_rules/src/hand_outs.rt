//! Which messages a client is not sent (sections 3.1.2.11.4 and 3.3.2.3.3).
ghost use Rattle.std.specs.Prelude.{◌≡◌, nat_lt, false, IfOk};
ghost use Rattle.mqtt_wire.specs.Writing.{written_size};
ghost use Rattle.conn_rules.specs.HandOuts.{is_message_too_long, is_discarded};
ghost use Rattle.conn_rules.specs.Packets.{job};

use crate::expiring::is_expired;
use crate::packets::job;
use group_jobs::Message;
use mqtt_packet::{MaximumPacketSize, PacketIdentifier, SubscriptionIdentifier};
use mqtt_wire::encoded_size;
use std::alloc::AllocError;

/// What a session's client is sent its messages under.
#[derive(Clone, Copy, Debug, PartialEq, Eq)]
pub struct HandOutTerms {
    /// The moment, in milliseconds.
    pub at: u64,
    /// The Subscription Identifier of the session's subscription, if that has one (section 3.3.2.3.8).
    pub subscription: Option<SubscriptionIdentifier>,
    /// The most bytes of a packet that the client takes, if it named them (section 3.1.2.11.4).
    pub maximum_packet_size: Option<MaximumPacketSize>,
}

/// Whether a message that a client is handed is discarded, as it has expired then, or is too long for the client.
///
/// # Errors
///
/// As of [`is_message_too_long`].
#[inline(always)]
pub fn is_discarded(message: &Message, terms: &HandOutTerms) -> Result<bool, AllocError>
    ensures { IfOk result (λ discarded. discarded ≡ is_discarded terms.now message.now) }
{
    if is_expired(terms.at, message.expiry) {
        return Ok(true);
    }
    is_message_too_long(message, terms.subscription, terms.maximum_packet_size)
}

/// Whether the PUBLISH of a message under this Subscription Identifier is longer than a client of this Maximum Packet Size takes. It takes no memory.
///
/// # Errors
///
/// There are as many owners as can be counted of what a PUBLISH shares with its message.
#[inline(always)]
pub fn is_message_too_long(
    message: &Message,
    subscription: Option<SubscriptionIdentifier>,
    maximum_packet_size: Option<MaximumPacketSize>,
) -> Result<bool, AllocError>
    ensures { IfOk result (λ too_long. too_long ≡ is_message_too_long maximum_packet_size subscription message.now) }
{
    match maximum_packet_size {
        Some(maximum) => is_longer_than(maximum, message, subscription),
        None => Ok(false),
    }
}

/// Whether the PUBLISH of a message under this Subscription Identifier has more bytes than this maximum.
///
/// # Errors
///
/// As of [`is_message_too_long`].
fn is_longer_than(
    maximum: MaximumPacketSize,
    message: &Message,
    subscription: Option<SubscriptionIdentifier>,
) -> Result<bool, AllocError>
    ensures { IfOk result (λ longer. longer ≡ nat_lt maximum (written_size (job 0 false message.now subscription 1))) }
{
    let packet = job(0, false, message, subscription, first_identifier())?;
    Ok(encoded_size(&packet) > u64::from(maximum.get()))
}

/// The least Packet Identifier, 1.
fn first_identifier() -> PacketIdentifier
    ensures { result ≡ 1 }
{
    match PacketIdentifier::new(1) {
        Some(identifier) => identifier,
        None => unreachable!(),
    }
}
