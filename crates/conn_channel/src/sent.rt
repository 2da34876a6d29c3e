//! What goes through the channel, and what comes out of it.

/// What goes through the channel.
#[derive(Drop)]
pub enum Sent<T> {
    /// A connection.
    Connection(T),
    /// No more comes after it for the worker that receives it.
    EndMark,
}

/// What a worker receives.
pub enum Received<T> {
    /// A connection, which no other worker receives.
    Connection(T),
    /// It receives nothing more.
    EndMark,
    /// The channel was empty at a moment of the call.
    Nothing,
}
