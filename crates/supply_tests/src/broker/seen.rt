//! What the clients of a worker see.

use client_table::StepOutput;
use mqtt_packet::{Delivery, Packet, ReasonCode};

/// What the clients of a worker saw: how many jobs were accepted, acknowledged and refused.
#[derive(Clone, Copy, Debug, PartialEq, Eq)]
pub(crate) struct Seen {
    pub(crate) accepted: u128,
    pub(crate) acknowledged: u128,
    pub(crate) refused: u128,
}

impl Seen {
    /// Nothing yet.
    pub(crate) const NOTHING: Seen = Seen {
        accepted: 0,
        acknowledged: 0,
        refused: 0,
    };

    /// Both together.
    pub(crate) fn with(self, other: Seen) -> Seen {
        Seen {
            accepted: self.accepted.saturating_add(other.accepted),
            acknowledged: self.acknowledged.saturating_add(other.acknowledged),
            refused: self.refused.saturating_add(other.refused),
        }
    }

    /// Reads what was said: PUBACKs go to the publisher alone, PUBLISHes to the member, whose identifiers are kept.
    pub(crate) fn read(
        &mut self,
        outputs: &[StepOutput],
        identifiers: &mut Vec<u16>,
    ) -> Option<()> {
        for step in outputs {
            self.read_packets(step.packets(), identifiers)?;
        }
        Some(())
    }

    /// Reads what one step of a connection wrote.
    fn read_packets(&mut self, packets: &[Packet], identifiers: &mut Vec<u16>) -> Option<()> {
        for packet in packets {
            if is_accepted(packet) {
                self.accepted = self.accepted.saturating_add(1);
            }
            if let Some(identifier) = handed_out(packet) {
                identifiers.push(identifier).ok()?;
            }
        }
        Some(())
    }
}

/// Whether a packet says that a job is accepted.
fn is_accepted(packet: &Packet) -> bool {
    match packet {
        Packet::Puback(puback) => puback.reason_code == ReasonCode::SUCCESS,
        _ => false,
    }
}

/// The identifier of a job that a packet hands out.
fn handed_out(packet: &Packet) -> Option<u16> {
    match packet {
        Packet::Publish(publish) => match publish.delivery {
            Delivery::AtLeastOnce(identifier) => Some(identifier.get()),
            _ => None,
        },
        _ => None,
    }
}
