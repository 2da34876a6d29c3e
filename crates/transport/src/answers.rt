//! What the calls of an edge answer.

/// What a read gives.
#[derive(Clone, Copy, Debug, PartialEq, Eq)]
pub enum Got {
    /// So many bytes, at the front of the buffer; at least one.
    Bytes(usize),
    /// Nothing yet.
    Idle,
    /// Nothing any more: the peer has ended its stream.
    End,
    /// The transport failed.
    Failed,
}

/// What a write takes.
#[derive(Clone, Copy, Debug, PartialEq, Eq)]
pub enum Put {
    /// So many bytes, from the front of what it was given; at least one.
    Wrote(usize),
    /// Nothing yet.
    Idle,
    /// The transport failed.
    Failed,
}

/// What a source gives.
#[derive(Drop)]
pub enum Arrival<T> {
    /// This came.
    Came(T),
    /// Nothing yet.
    Idle,
    /// Nothing any more.
    End,
    /// The source failed.
    Failed,
}
