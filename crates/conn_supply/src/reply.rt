//! What a connection answers to its client.
ghost use Rattle.std.specs.Prelude.{◌≡◌};
ghost use Rattle.conn_supply.specs.Replies.{going_on, closed, closing_with, acknowledging};

use conn_rules::{disconnect, puback};
use mqtt_packet::{Packet, PacketIdentifier, ReasonCode};
use std::alloc::Global;

/// What becomes of a connection after a step.
#[derive(Clone, Copy, Debug, PartialEq, Eq)]
pub enum Then {
    /// It goes on.
    Go,
    /// It is closed.
    Close,
    /// It is closed, since another connection has its session.
    Kicked,
}

/// What a connection answers to an input, before anything is handed out. The laws of its steps speak of it.
#[derive(Drop)]
pub struct Reply {
    /// The packet that is sent, if there is one.
    pub packet: Option<Packet>,
    /// What becomes of the connection.
    pub next: Then,
}

impl Reply {
    /// This packet is sent, if there is one, and the connection goes on.
    pub fn going_on(packet: Option<Packet>) -> Reply
        ensures { result ≡ going_on packet }
    {
        Reply {
            packet,
            next: Then::Go,
        }
    }

    /// This packet is sent, if there is one, and the connection is closed.
    pub fn closed(packet: Option<Packet>) -> Reply
        ensures { result ≡ closed packet }
    {
        Reply {
            packet,
            next: Then::Close,
        }
    }

    /// A DISCONNECT of this Reason Code, and the connection is closed (section 4.13).
    pub fn closing_with(alloc: Global, code: ReasonCode) -> Reply
        ensures { result ≡ closing_with code }
    {
        Reply::closed(Some(disconnect(alloc, code)))
    }

    /// A PUBACK of this Reason Code (section 3.4).
    pub fn acknowledging(alloc: Global, identifier: PacketIdentifier, code: ReasonCode) -> Reply
        ensures { result ≡ acknowledging identifier code }
    {
        Reply::going_on(Some(puback(alloc, identifier, code)))
    }
}
