//! The forms of a run.

/// What an input spells, and what is written.
#[derive(Clone, Copy)]
pub(crate) enum Form {
    /// Events of many connections, each packet with the number of its own.
    Events,
    /// The stream of one client, and what it is sent.
    Client,
}
