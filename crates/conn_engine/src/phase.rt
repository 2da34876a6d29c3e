//! How far a connection has come.
ghost use Rattle.std.specs.Prelude.{◌≡◌, ◌↔◌, IsTrue};
ghost use Rattle.limits.specs.Limits.{most_unacknowledged};
ghost use Rattle.session_desk.specs.declared.session.Membership.TheVariants.{NotMember};
ghost use Rattle.conn_rules.specs.Connecting.{inflight_alone};
ghost use Rattle.conn_engine.specs.declared.phase.ConnPhase.TheVariants as phases;
ghost use Rattle.conn_engine.specs.Answering.{joining};
ghost use Rattle.conn_engine.specs.Phases.{IsConnected};
ghost use Rattle.conn_engine.specs.Step.{hand_out_terms};

use conn_rules::{ClientLimits, HandOutTerms, MaxInflight, Overrides, Terms};
use group_jobs::Envelope;
use mqtt_packet::Text;
use session_desk::{Membership, Session};
use std::mem;
use users::ClientRights;

/// What a client asked for when it connected, and when.
#[derive(Drop)]
pub(crate) struct ConnectRequest {
    /// The identifier of the client: empty where one is to be assigned (section 3.1.3.1). It has at most 128 bytes.
    pub client: Text,
    /// An earlier session of the client is discarded (section 3.1.2.4).
    pub clean_start: bool,
    /// What it asked for, within the broker's limits.
    pub terms: Terms,
    /// What of it is not as it asked.
    pub overrides: Overrides,
    /// What the client may do.
    pub rights: ClientRights,
    /// The moment at which the CONNECT came, in milliseconds.
    pub came: u64,
}

/// A connection whose client has its session. `P` is a place in a group.
pub(crate) struct ConnectedClient<P> {
    /// The session of the client.
    pub session: Session<Envelope, P>,
    /// What the client asked for, within the broker's limits.
    pub terms: Terms,
    /// What the client may do.
    pub rights: ClientRights,
    /// The moment at which its last packet came, in milliseconds.
    pub heard: u64,
}

impl<P> ConnectedClient<P> {
    /// What the client is sent its messages under at this moment, in milliseconds.
    pub(crate) fn hand_out_terms(&self, now: u64) -> HandOutTerms
        ensures { result ≡ hand_out_terms self.now now }
    {
        HandOutTerms {
            at: now,
            subscription: self.session.subscription,
            maximum_packet_size: self.terms.maximum_packet_size,
        }
    }

    /// The session of a connection that ends.
    pub(crate) fn into_session(self) -> Session<Envelope, P>
        ensures { result ≡ self.session }
    {
        let ConnectedClient {
            session,
            terms: _,
            rights,
            heard: _,
        } = self;
        drop(rights);
        session
    }

    /// Takes the membership out of the session, to be put back by [`ConnectedClient::put_membership`].
    pub(crate) fn take_membership(&mut self) -> Membership<P>
        ensures taken { result ≡ self.old.session.membership }
        ensures out { self.new ≡ joining self.old NotMember }
    {
        mem::replace(&mut self.session.membership, Membership::NotMember)
    }

    /// Puts a membership where one was taken from.
    pub(crate) fn put_membership(&mut self, membership: Membership<P>)
        requires { self.old.session.membership ≡ NotMember }
        ensures { self.new ≡ joining self.old membership }
    {
        match mem::replace(&mut self.session.membership, membership) {
            Membership::NotMember => {}
            _other => unreachable!(),
        }
    }
}

/// What a connection is opened with.
#[derive(Drop)]
pub struct Opening {
    /// The moment, in milliseconds.
    pub at: u64,
    /// What its client is granted at most, and which clients are served.
    pub limits: ClientLimits,
}

impl Opening {
    /// One at this moment in milliseconds, with the highest limit of unacknowledged messages, and no other.
    pub fn plain(at: u64) -> Opening
        ensures { result ≡ record { at = at; limits = inflight_alone most_unacknowledged } }
    {
        Opening {
            at,
            limits: ClientLimits::inflight_alone(MaxInflight::most()),
        }
    }
}

/// How far a connection has come.
pub(crate) enum ConnPhase<P> {
    /// No packet came yet.
    Unconnected {
        /// What the connection was opened with.
        opened: Opening,
    },
    /// Another connection has the session of the client, and is to give it up.
    Waiting {
        /// What the client asked for.
        request: ConnectRequest,
        /// How many Ticks found the session still lent: fewer than 100.
        ticks: u8,
    },
    /// The client has its session.
    Connected(ConnectedClient<P>),
    /// The connection has ended.
    Ended,
}

impl<P> ConnPhase<P> {
    /// Whether the client has its session.
    pub(crate) fn is_connected(&self) -> bool
        ensures { IsTrue result ↔ IsConnected self.now }
    {
        matches!(self, ConnPhase::Connected(_))
    }

    /// Puts a phase where that of a connection was taken from.
    pub(crate) fn put(&mut self, phase: ConnPhase<P>)
        requires { self.old ≡ phases.Ended }
        ensures { self.new ≡ phase }
    {
        mem::replace(self, phase).discard();
    }

    /// Lets go of the phase of a connection that has ended.
    pub(crate) fn discard(self)
        requires { self ≡ phases.Ended }
    {
        match self {
            ConnPhase::Ended => {}
            _other => unreachable!(),
        }
    }
}
