//! What a step of a connection wrote.
ghost use Rattle.std.specs.Prelude.{◌≡◌};

use conn_supply::Then;
use mqtt_packet::Packet;
use std::marker::Model;

/// What one step of a connection wrote, and what became of the connection.
#[derive(Drop)]
pub struct StepOutput {
    connection: u16,
    packets: Vec<Packet>,
    next: Then,
}

impl Model for StepOutput {
    ghost use Rattle.client_table.specs.Clients.{StepOutput as Output};

    ghost Value = { Output };

    ghost view = { λ s. record { connection = s.connection; packets = s.packets.items; next = s.next } };
}

impl StepOutput {
    /// What the connection with this number wrote in a step.
    pub(crate) fn new(connection: u16, packets: Vec<Packet>, next: Then) -> StepOutput
        ensures { result ≡ record { connection = connection; packets = packets.items; next = next } }
    {
        StepOutput {
            connection,
            packets,
            next,
        }
    }

    /// The number of the connection.
    pub fn connection(&self) -> u16
        ensures { result ≡ self.now.connection }
    {
        self.connection
    }

    /// The packets that it wrote, in their order.
    pub fn packets(&self) -> &[Packet]
        ensures { result.now ≡ self.now.packets }
    {
        &self.packets
    }

    /// What became of the connection.
    pub fn next(&self) -> Then
        ensures { result ≡ self.now.next }
    {
        self.next
    }
}
