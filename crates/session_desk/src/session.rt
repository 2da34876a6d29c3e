//! A session: who it is, when it ends by time, what it was sent, and its place in a group.
ghost use Rattle.std.specs.Prelude.{◌≡◌, ◌↔◌, ◌≤◌, ℕ, IsTrue};

use bytes::Bytes;
use member_window::Window;
use mqtt_packet::SubscriptionIdentifier;
use std::marker::Model;

/// Who a session is: its number, which no other session of its desk ever has, and the identifier of its client
/// (3.1.3.1). It is made by a desk, can be neither copied nor dropped, and tells the desk which row is the session's.
pub struct Identity {
    number: u64,
    client: Bytes,
}

impl Model for Identity {
    ghost use Rattle.session_desk.specs.Sessions.{Who};

    ghost Value = { Who };

    ghost view = { λ i. record { number = i.number; client = i.client } };
}

impl Identity {
    pub(crate) fn new(number: u64, client: Bytes) -> Identity
        ensures { result ≡ record { number = number; client = client } }
    {
        Identity { number, client }
    }

    /// The number of the session: sessions are numbered from 0 on, in the order in which they were new.
    pub fn number(&self) -> u64
        ensures { result ≡ self.now.number }
    {
        self.number
    }

    /// The identifier of the session's client.
    pub fn client(&self) -> &Bytes
        ensures { result.now ≡ self.now.client }
    {
        &self.client
    }

    pub(crate) fn end(self) {
        let Identity {
            number: _,
            client: _,
        } = self;
    }
}

/// When a session ends by time (3.1.2.11.2).
#[derive(Clone, Copy, Debug, PartialEq, Eq)]
pub struct SessionExpiry {
    /// The Session Expiry Interval in seconds: with 0 the session ends with its connection, and with `u32::MAX` it never
    /// ends by time.
    pub seconds: u32,
    /// The moment in milliseconds at which a desk parked the session; `None` where it has not since a connection began with it.
    pub parked: Option<u64>,
}

impl SessionExpiry {
    ghost use Rattle.session_desk.specs.Sessions.{IsOver, parked_from};

    /// That of a session which ends with its connection and was never parked.
    pub const NONE: SessionExpiry = SessionExpiry {
        seconds: 0,
        parked: None,
    };

    /// The Session Expiry Interval of a session that never ends by time.
    pub const NEVER: u32 = u32::MAX;

    /// The moment in milliseconds at which a desk parked the session last; 0 where that was never.
    pub(crate) fn parked_from(&self) -> u64
        ensures { result ≡ parked_from self.now }
    {
        self.parked.unwrap_or(0)
    }

    /// A moment before which the session is not over by time.
    pub(crate) fn over_from(&self) -> u64
        ensures { (now : ℕ) → IsOver self.now now → result ≤ now }
    {
        match self.parked {
            Some(parked) if self.seconds != SessionExpiry::NEVER => {
                parked.saturating_add(1_000 * u64::from(self.seconds))
            }
            _ => u64::MAX,
        }
    }

    /// Whether the session is over by time at this moment, in milliseconds: e seconds are over from 1,000 e milliseconds
    /// after the session was parked last.
    pub fn is_over(&self, now: u64) -> bool
        ensures { IsTrue result ↔ IsOver self.now now }
    {
        match self.parked {
            None => false,
            Some(parked) => {
                self.seconds != SessionExpiry::NEVER
                    && now >= parked
                    && now - parked >= 1_000 * u64::from(self.seconds)
            }
        }
    }
}

/// What a session is to a shared subscription group: `P` is a place in one.
#[derive(Drop)]
pub enum Membership<P> {
    /// It is no member.
    NotMember,
    /// It is a member, in this place.
    Member(P),
    /// It is leaving this place: nothing new is handed out to it.
    Leaving(P),
}

/// A session of a client (4.1). `E` is what it was sent, and `P` is a place in a group.
///
/// It can't be dropped: a desk makes it, lends it to a connection, and takes it back.
pub struct Session<E, P> {
    /// Who it is.
    pub identity: Identity,
    /// When it ends by time.
    pub expiry: SessionExpiry,
    /// What it was sent and has not acknowledged.
    pub window: Window<E>,
    /// Its place in a group, if it has one.
    pub membership: Membership<P>,
    /// The Subscription Identifier that the client gave with its last subscription, if it gave one (section 3.8.2.1.2). What is
    /// handed out from then on goes out under it.
    pub subscription: Option<SubscriptionIdentifier>,
}

impl<E, P> Session<E, P> {
    ghost use Rattle.member_window.specs.Contents.{new_contents};
    ghost use Rattle.session_desk.specs.Books.{new_session};
    ghost use Rattle.session_desk.specs.Idle.{IsIdle};

    /// A new session: it ends with its connection, and is no member.
    pub(crate) fn new(identity: Identity, window: Window<E>) -> Session<E, P>
        requires { window ≡ new_contents }
        ensures { result ≡ new_session identity }
    {
        Session {
            identity,
            expiry: SessionExpiry::NONE,
            window,
            membership: Membership::NotMember,
            subscription: None,
        }
    }

    /// Whether it holds nothing, and has no place in a group.
    pub(crate) fn is_idle(&self) -> bool
        ensures { IsTrue result ↔ IsIdle self.now }
    {
        self.window.is_empty() && matches!(self.membership, Membership::NotMember)
    }
}
