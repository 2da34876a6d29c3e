//! What happens to a server.
use crate::number::ConnectionNumber;
use bytes::Bytes;

/// What happens to a server, or to one of its connections.
#[derive(Debug, Drop)]
pub enum ServerEvent {
    /// A connection is opened.
    Open(ConnectionNumber),
    /// A piece of a client's stream comes; it may be empty.
    Bytes(ConnectionNumber, Bytes),
    /// Time goes on for a connection.
    Tick(ConnectionNumber),
    /// A client's stream ends.
    End(ConnectionNumber),
    /// The server closes: nothing is accepted and handed out any more, and each connection ends.
    Close,
}

/// An event, and the moment at which it happens, in milliseconds.
#[derive(Debug, Drop)]
pub struct TimedEvent {
    pub moment: u64,
    pub event: ServerEvent,
}
