//! What is let go: a session that the desk does not know, and all of a broker that is given up.
use broker_groups::{Broker, BrokerPlace};
use group_jobs::Envelope;
use session_desk::Session;

/// Lets go of a message that is out at a place that nobody has any more. Its group, if it ends, misses that place then, and says so.
pub(crate) fn discard(envelope: Envelope) {
    let _parts = envelope.open();
}

/// Lets go of a session that the desk does not know, if there is one, with all that it holds.
pub(crate) fn release<B: Broker>(session: Option<Session<Envelope, BrokerPlace<B>>>) {
    if let Some(session) = session {
        session.abandon_with(&discard);
    }
}
