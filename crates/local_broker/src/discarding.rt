//! Sessions and messages that nobody knows: they are let go.
use crate::place::LocalPlace;
use group_jobs::Envelope;
use session_desk::Session;

/// Lets go of a message that no group has out.
pub(crate) fn discard(envelope: Envelope) {
    let _parts = envelope.open();
}

/// Lets go of a session that the desk does not know, if there is one, with all that it holds.
pub(crate) fn release(session: Option<Session<Envelope, LocalPlace>>) {
    if let Some(session) = session {
        session.abandon_with(&discard);
    }
}
