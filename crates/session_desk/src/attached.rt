//! What a desk answers to a connection that asks for a session.
use crate::session::Session;

/// What a connection gets for a client.
pub enum Attached<E, P> {
    /// A new session. `ended` is the one that the client had, and that the caller is to retire.
    New {
        /// The new session.
        session: Session<E, P>,
        /// The session that the client had.
        ended: Option<Session<E, P>>,
    },
    /// The session that the client had.
    Resumed(Session<E, P>),
    /// None yet: this connection has the client's session. It is marked as kicked, and the caller waits for the session.
    Replace(u16),
    /// None: another connection waits for the client's session.
    Busy,
}
