//! What comes to a connection.
use mqtt_fields::StreamFault;
use mqtt_packet::Packet;

/// What comes to a connection.
#[derive(Debug, Drop)]
pub enum Input {
    /// A packet of the client.
    Packet(Packet),
    /// A fault stands in the client's stream.
    Fault(StreamFault),
    /// Time has gone on.
    Tick,
    /// The client's stream has ended.
    EndOfInput,
    /// The broker closes.
    Closing,
}
