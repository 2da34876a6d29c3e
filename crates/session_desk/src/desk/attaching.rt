//! What a desk answers to a connection that asks for a session.
ghost use Rattle.std.specs.Prelude.{◌≡◌, ◌≢◌, ℕ, ◌<◌, ◌≤◌, MatchBool, length};
ghost use Rattle.std.specs.FinMap as map;
ghost use Rattle.limits.specs.Limits.{most_connections, most_sessions};
ghost use Rattle.session_desk.specs.declared.error.DeskError.TheVariants.{Full, Memory, NoName};

use super::Desk;
use crate::attached::Attached;
use crate::error::DeskError;
use crate::marks::{note, waits_for};
use crate::names::assigned;
use crate::newcomers::{Newcomers, Room, room_for};
use crate::places::Place;
use crate::row::Holder;
use crate::session::Session;
use crate::sight::Sight;
use crate::table::MOST_ROWS;
use bytes::Bytes;
use member_window::Window;

impl<E, P: Place> Desk<E, P> {
    ghost use Rattle.session_desk.specs.Attaching.{Attaches, AttachesClient, AttachesUnnamed, HasNextName, IsClients, IsStale, asked};
    ghost use Rattle.session_desk.specs.Newcomers.{Begins, IsRoom};
    ghost use Rattle.session_desk.specs.Opening.{Opens, OpensOver};
    ghost use Rattle.session_desk.specs.Books.{IsWaiting, after_lend, after_replace};
    ghost use Rattle.session_desk.specs.Rows.{HasRow, NoneLivesAs};
    ghost use Rattle.session_desk.specs.declared.session.Session.{Session};
    ghost use Rattle.session_desk.specs.declared.row.Row.{Row};

    /// A session for a connection, as of this moment in milliseconds. `connection` is a number of the caller's, below
    /// [`MOST_CONNECTIONS`](limits::MOST_CONNECTIONS), that tells connections apart; `clean` is Clean Start (3.1.2.4); a client without an identifier is
    /// given a name (3.1.3.1): the least from `auto-00000001` to `auto-99999999` above all that were given before whose
    /// name no row has. For a client that has no session one begins as `newcomers` has it; a client that has one gets it, or a
    /// new one in its place, however many there are.
    ///
    /// # Errors
    ///
    /// The first of these, and nothing has changed: 704 [`DeskError::NoName`] where no name is left; 701
    /// [`DeskError::Full`] where the client has no session, and there is no room for one; 703 [`DeskError::Memory`] where
    /// a new session is wanted and there is no memory for it, or 2^64 - 1 sessions were made.
    pub fn attach(
        &mut self,
        newcomers: Newcomers,
        connection: u16,
        client: &Bytes,
        clean: bool,
        now: u64,
    ) -> Result<Attached<E, P>, DeskError>
        requires known { connection < most_connections }
        requires short { length client.now ≤ 128 }
        ensures { Attaches newcomers self.old (asked connection client.now clean now) result self.new }
    {
        if client.is_empty() {
            self.attach_unnamed(newcomers, connection)
        } else {
            self.attach_client(newcomers, connection, client, clean, now)
        }
    }

    /// A session for a client without an identifier.
    fn attach_unnamed(
        &mut self,
        newcomers: Newcomers,
        connection: u16,
    ) -> Result<Attached<E, P>, DeskError>
        ensures { AttachesUnnamed newcomers self.old connection result self.new }
    {
        let Some(number) = self.table.next_name(self.assigned) else {
            return Err(DeskError::NoName);
        };
        let room = self.room(newcomers);
        if matches!(room, Room::Nowhere) {
            return Err(DeskError::Full);
        }
        let Ok(name) = Bytes::copy_from_slice(self.alloc, &assigned(number)) else {
            return Err(DeskError::Memory);
        };
        let attached = self.begin(newcomers, room, &name, connection)?;
        self.assigned = number;
        Ok(attached)
    }

    /// A session for a client with an identifier.
    fn attach_client(
        &mut self,
        newcomers: Newcomers,
        connection: u16,
        client: &Bytes,
        clean: bool,
        now: u64,
    ) -> Result<Attached<E, P>, DeskError>
        ensures { AttachesClient newcomers self.old client.now (asked connection client.now clean now) result self.new }
    {
        let Some(number) = self.table.find(client) else {
            return self.begin_first(newcomers, connection, client, clean, now);
        };
        match self.table.look(number, clean, now) {
            Sight::Lent { wait, .. } if self.is_awaited(number, connection, wait) => Ok(
                Attached::Busy,
            ),
            Sight::Lent { holder, .. } => {
                self.replace(number, connection, holder);
                Ok(Attached::Replace(holder))
            }
            Sight::Stale => self.begin_over(newcomers, number, connection, client, clean, now),
            Sight::Fresh => Ok(Attached::Resumed(self.resume(number, connection))),
        }
    }

    /// Where there is room for a client that has no session.
    fn room(&self, newcomers: Newcomers) -> Room
        ensures { IsRoom self.now.rows newcomers result }
    {
        match newcomers {
            Newcomers::Refused => Room::Nowhere,
            Newcomers::IfRoom(most) | Newcomers::Displace(most)
                if self.table.len() < room_for(most) => { Room::Beside }
            Newcomers::IfRoom(_) => Room::Nowhere,
            Newcomers::Displace(_) => match self.table.parked_longest() {
                Some(number) => Room::InPlaceOf(number),
                None => Room::Nowhere,
            },
        }
    }

    /// A new session of a client that has none, where there is this room for it.
    fn begin(
        &mut self,
        newcomers: Newcomers,
        room: Room,
        client: &Bytes,
        connection: u16,
    ) -> Result<Attached<E, P>, DeskError>
        requires none { NoneLivesAs self.old.rows client.now }
        requires room { IsRoom self.old.rows newcomers room }
        ensures { Begins newcomers self.old client.now connection result self.new }
    {
        match room {
            Room::Beside => match self.open(client, connection) {
                Ok(session) => Ok(Attached::New {
                    session,
                    ended: None,
                }),
                Err(error) => Err(error),
            },
            Room::InPlaceOf(number) => match self.open_displacing(number, client, connection) {
                Ok((session, ended)) => Ok(Attached::New {
                    session,
                    ended: Some(ended),
                }),
                Err(error) => Err(error),
            },
            Room::Nowhere => Err(DeskError::Full),
        }
    }

    /// A new session of a client that has none, beside the others.
    fn open(&mut self, client: &Bytes, connection: u16) -> Result<Session<E, P>, DeskError>
        requires none { NoneLivesAs self.old.rows client.now }
        requires room { map.len self.old.rows < most_sessions }
        ensures { Opens self.old client.now connection result self.new }
    {
        let Ok(window) = Window::new(self.alloc) else {
            return Err(DeskError::Memory);
        };
        match self.table.begin(client, connection) {
            Ok(identity) => {
                note(&mut self.waits, connection, None);
                note(&mut self.kicked, connection, false);
                Ok(Session::new(identity, window))
            }
            Err(_) => {
                window.end();
                Err(DeskError::Memory)
            }
        }
    }

    /// A new session of a client that has none, and the parked one of another client, which ends for it.
    fn open_displacing(
        &mut self,
        number: u64,
        client: &Bytes,
        connection: u16,
    ) -> Result<(Session<E, P>, Session<E, P>), DeskError>
        requires { (row : Row E P) × (session : Session E P) × HasRow self.old.rows number row
            × (row.held_by ≡ Holder.Parked session) × NoneLivesAs self.old.rows client.now }
        ensures { (row : Row E P) → HasRow self.old.rows number row →
            OpensOver self.old client.now connection number row result self.new }
    {
        if self.table.len() >= MOST_ROWS {
            return Err(DeskError::Memory);
        }
        let Ok(window) = Window::new(self.alloc) else {
            return Err(DeskError::Memory);
        };
        match self.table.begin_displacing(number, client, connection) {
            Ok((identity, ended)) => {
                note(&mut self.waits, connection, None);
                note(&mut self.kicked, connection, false);
                Ok((Session::new(identity, window), ended))
            }
            Err(_) => {
                window.end();
                Err(DeskError::Memory)
            }
        }
    }

    /// A new session of a client that has none, for a connection that asked with these words.
    fn begin_first(
        &mut self,
        newcomers: Newcomers,
        connection: u16,
        client: &Bytes,
        clean: bool,
        now: u64,
    ) -> Result<Attached<E, P>, DeskError>
        requires { NoneLivesAs self.old.rows client.now }
        ensures { AttachesClient newcomers self.old client.now (asked connection client.now clean now) result self.new }
    {
        let room = self.room(newcomers);
        self.begin(newcomers, room, client, connection)
    }

    /// A new session of a client, and the parked one that the client had.
    fn open_over(
        &mut self,
        number: u64,
        client: &Bytes,
        connection: u16,
    ) -> Result<(Session<E, P>, Session<E, P>), DeskError>
        requires { (row : Row E P) × (session : Session E P) × HasRow self.old.rows number row
            × (row.held_by ≡ Holder.Parked session) × (row.client ≡ client.now) }
        ensures { (row : Row E P) → HasRow self.old.rows number row →
            OpensOver self.old client.now connection number row result self.new }
    {
        if self.table.len() >= MOST_ROWS {
            return Err(DeskError::Memory);
        }
        let Ok(window) = Window::new(self.alloc) else {
            return Err(DeskError::Memory);
        };
        match self.table.begin_over(number, client, connection) {
            Ok((identity, ended)) => {
                note(&mut self.waits, connection, None);
                note(&mut self.kicked, connection, false);
                Ok((Session::new(identity, window), ended))
            }
            Err(_) => {
                window.end();
                Err(DeskError::Memory)
            }
        }
    }

    /// A new session of a client in the place of its parked one, which is to end.
    fn begin_over(
        &mut self,
        newcomers: Newcomers,
        number: u64,
        connection: u16,
        client: &Bytes,
        clean: bool,
        now: u64,
    ) -> Result<Attached<E, P>, DeskError>
        requires { (row : Row E P) × (session : Session E P)
            × IsClients self.old client.now number row (Holder.Parked session) × IsStale session clean now }
        ensures { AttachesClient newcomers self.old client.now (asked connection client.now clean now) result self.new }
    {
        match self.open_over(number, client, connection) {
            Ok((session, ended)) => Ok(Attached::New {
                session,
                ended: Some(ended),
            }),
            Err(error) => Err(error),
        }
    }

    /// The connection has the client's parked session.
    fn resume(&mut self, number: u64, connection: u16) -> Session<E, P>
        requires { (row : Row E P) × (session : Session E P) × HasRow self.old.rows number row
            × (row.held_by ≡ Holder.Parked session) }
        ensures { (row : Row E P) → HasRow self.old.rows number row →
            (row.held_by ≡ Holder.Parked result) × (self.new ≡ after_lend self.old number row connection) }
    {
        note(&mut self.waits, connection, None);
        note(&mut self.kicked, connection, false);
        self.table.lend(number, connection)
    }

    /// Whether a connection other than this one waits for the session.
    fn is_awaited(&self, number: u64, connection: u16, wait: Option<u16>) -> bool
        ensures { (row : Row E P) → row.wait ≡ wait → MatchBool result
            ((other : ℕ) × IsWaiting self.now number row other × (other ≢ connection))
            ((other : ℕ) → IsWaiting self.now number row other → other ≡ connection) }
    {
        match wait {
            Some(other) => other != connection && waits_for(&self.waits, other, number),
            None => false,
        }
    }

    /// The connection waits for a session that is lent to this holder, who is kicked.
    fn replace(&mut self, number: u64, connection: u16, holder: u16)
        requires { (row : Row E P) × HasRow self.old.rows number row }
        ensures { (row : Row E P) → HasRow self.old.rows number row →
            self.new ≡ after_replace self.old number row connection holder }
    {
        note(&mut self.waits, connection, Some(number));
        note(&mut self.kicked, holder, true);
        self.table.claim(number, connection);
    }
}
