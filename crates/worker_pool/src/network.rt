//! What the connections of a broker come over.

use bell::Wake;
use transport::{Source, Transport};
use worker_connections::Poller;

/// What the connections of a broker come over: what carries each of them, where they come from, and where its workers wait for them. A type of which no value is made, by which these types go together
/// under one name.
pub trait Network {
    /// What carries a connection.
    type Transport: Transport + Drop;

    /// Where connections come from.
    type Source: Source<Self::Transport> + Drop;

    /// What wakes a worker.
    type Alarm: Wake + Drop;

    /// Where a worker waits for its connections.
    type Poller: Poller<Self::Transport, Alarm = Self::Alarm> + Drop;
}
