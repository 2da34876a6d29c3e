//! A row of a desk: what is known of one session.
ghost use Rattle.std.specs.Prelude.{◌≡◌, ℕ};

use crate::session::Session;
use bytes::Bytes;
use std::mem;

/// What the desk keeps of a session from the moment when it is new until it is buried.
pub(crate) struct Row<E, P> {
    // The identifier of its client.
    pub(crate) client: Bytes,
    // The connection that may wait for it.
    pub(crate) wait: Option<u16>,
    pub(crate) held_by: Holder<E, P>,
}

/// In whose hands a session is.
pub(crate) enum Holder<E, P> {
    /// In those of this connection.
    Lent(u16),
    /// In the desk's, until its client comes back or its time is over.
    Parked(Session<E, P>),
    /// In the desk's, to be retired: it is ending.
    Kept(Session<E, P>),
    /// In a caller's, to be retired: it is ending.
    Away,
}

impl<E, P> Row<E, P> {
    ghost use Rattle.session_desk.specs.Rows.{away, new_row};

    /// The row of a new session, lent to this connection.
    pub(crate) fn lent(client: Bytes, connection: u16) -> Row<E, P>
        ensures { result ≡ new_row client connection }
    {
        Row {
            client,
            wait: None,
            held_by: Holder::Lent(connection),
        }
    }

    /// Puts the session into a caller's hands: it is ending, and nobody waits for it.
    pub(crate) fn dismiss(&mut self) -> Holder<E, P>
        ensures before { result ≡ self.old.held_by }
        ensures after { self.new ≡ away self.old.client }
    {
        self.wait = None;
        mem::replace(&mut self.held_by, Holder::Away)
    }

    /// Ends the row of a session that is in a caller's hands, and is buried.
    pub(crate) fn end(self)
        requires { self.held_by ≡ Holder.Away }
    {
        let Row {
            client: _,
            wait: _,
            held_by,
        } = self;
        held_by.end_away();
    }
}

impl<E, P> Holder<E, P> {
    ghost use Rattle.session_desk.specs.declared.session.Session.{Session};

    /// The session, which was parked.
    pub(crate) fn into_parked(self) -> Session<E, P>
        requires { (session : Session E P) × (self ≡ Holder.Parked session) }
        ensures { self ≡ Holder.Parked result }
    {
        match self {
            Holder::Parked(session) => session,
            Holder::Lent(_) => unreachable!(),
            Holder::Kept(_session) => unreachable!(),
            Holder::Away => unreachable!(),
        }
    }

    /// The session, which was kept to be retired.
    pub(crate) fn into_kept(self) -> Session<E, P>
        requires { (session : Session E P) × (self ≡ Holder.Kept session) }
        ensures { self ≡ Holder.Kept result }
    {
        match self {
            Holder::Kept(session) => session,
            Holder::Lent(_) => unreachable!(),
            Holder::Parked(_session) => unreachable!(),
            Holder::Away => unreachable!(),
        }
    }

    /// Nothing: the session was lent.
    pub(crate) fn end_lent(self)
        requires { (connection : ℕ) × (self ≡ Holder.Lent connection) }
    {
        match self {
            Holder::Lent(_) => {}
            Holder::Parked(_session) => unreachable!(),
            Holder::Kept(_session) => unreachable!(),
            Holder::Away => unreachable!(),
        }
    }

    /// Nothing: the session was in a caller's hands.
    pub(crate) fn end_away(self)
        requires { self ≡ Holder.Away }
    {
        match self {
            Holder::Away => {}
            Holder::Lent(_) => unreachable!(),
            Holder::Parked(_session) => unreachable!(),
            Holder::Kept(_session) => unreachable!(),
        }
    }
}
