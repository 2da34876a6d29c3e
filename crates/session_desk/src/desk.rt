//! The desk.
ghost use Rattle.std.specs.Prelude.{◌≡◌, ◌↔◌, ◌<◌, ℕ, IsTrue, MatchResult, IfSome, None, false, replicate};
ghost use Rattle.std.specs.FinMap as map;
ghost use Rattle.limits.specs.Limits.{most_connections};
ghost use Rattle.session_desk.specs.declared.error.DeskError.TheVariants.{Memory};

mod attaching;

use crate::drained::All;
use crate::error::DeskError;
use crate::marks::{is_marked, no_marks, no_waits, note};
use crate::places::{CELLS, FreePlaces, Place};
use crate::session::Session;
use crate::table::Table;
use limits::MOST_UNACKNOWLEDGED;
use std::alloc::Global;
use std::marker::Model;

/// Who has which session of a broker.
pub struct Desk<E, P: Place> {
    // The rows of the sessions.
    table: Table<E, P>,
    // The session that each connection waits for.
    waits: Vec<Option<u64>>,
    // Whether each connection is kicked.
    kicked: Vec<bool>,
    // The free places.
    free: FreePlaces<P>,
    // The greatest number in a name that was given.
    assigned: u32,
    // Where new sessions are made.
    alloc: Global,
}

impl<E, P: Place> Model for Desk<E, P> {
    ghost use Rattle.std.specs.Prelude.{◌≤◌, ◌<◌};
    ghost use Rattle.std.specs.FinMap as map;
    ghost use Rattle.std.specs.Coded.{codes};
    ghost use Rattle.session_desk.specs.Books.{Books};
    ghost use Rattle.session_desk.specs.Layout.{AreFew, books_code};

    ghost Value = { Books E P };

    ghost coded = { books_code P.code (Prim.hlevel codes) };

    ghost view = { λ d. record { rows = d.table.rows; made = d.table.made; assigned = d.assigned; waits = d.waits.items; kicked = d.kicked.items; free = d.free } };

    ghost invariant = { λ d. AreFew d.table.rows d.assigned };
}

impl<E, P: Place> Desk<E, P> {
    ghost use Rattle.session_desk.specs.Books.{new_books, IsKicked, after_withdraw, with_free, with_rows};
    ghost use Rattle.session_desk.specs.Keeping.{Keeps, Parks, ParksAsIs};
    ghost use Rattle.session_desk.specs.Places.{IsOfSlot, LendsPlace};
    ghost use Rattle.session_desk.specs.Everything.{HasAll};
    ghost use Rattle.session_desk.specs.Sweeping.{Sweeps, SweepsNothing};

    /// A desk without sessions and without free places. Takes the memory for 512 rows, twice [`DEFAULT_SESSIONS`](limits::DEFAULT_SESSIONS), for
    /// a wait and a mark of each of [`MOST_CONNECTIONS`](limits::MOST_CONNECTIONS) connections, and for the free places of eight groups.
    ///
    /// # Errors
    ///
    /// 703 [`DeskError::Memory`] where there is none.
    pub fn new(alloc: Global) -> Result<Desk<E, P>, DeskError>
        ensures { MatchResult result (λ desk. desk ≡ new_books) (λ error. error ≡ Memory) }
    {
        let Ok(waits) = no_waits(alloc) else {
            return Err(DeskError::Memory);
        };
        let Ok(kicked) = no_marks(alloc) else {
            return Err(DeskError::Memory);
        };
        match Table::new(alloc) {
            Ok(table) => Desk::add_places(alloc, table, waits, kicked),
            Err(_) => Err(DeskError::Memory),
        }
    }

    /// A desk of these, with cells for free places.
    fn add_places(
        alloc: Global,
        table: Table<E, P>,
        waits: Vec<Option<u64>>,
        kicked: Vec<bool>,
    ) -> Result<Desk<E, P>, DeskError>
        requires table { table ≡ record { rows = map.empty; made = 0 } }
        requires waits { waits.items ≡ replicate most_connections None }
        requires kicked { kicked.items ≡ replicate most_connections false }
        ensures { MatchResult result (λ desk. desk ≡ new_books) (λ error. error ≡ Memory) }
    {
        match FreePlaces::new(alloc) {
            Ok(free) => Ok(Desk {
                table,
                waits,
                kicked,
                free,
                assigned: 0,
                alloc,
            }),
            Err(_) => {
                table.end();
                Err(DeskError::Memory)
            }
        }
    }

    /// The connection waits for nothing from now on.
    pub fn withdraw(&mut self, connection: u16)
        ensures { self.new ≡ after_withdraw self.old connection }
    {
        note(&mut self.waits, connection, None);
    }

    /// Whether the connection is kicked.
    pub fn kicked(&self, connection: u16) -> bool
        ensures { IsTrue result ↔ IsKicked self.now connection }
    {
        is_marked(&self.kicked, connection)
    }

    /// A session goes back to the desk, at this moment in milliseconds, when its connection has ended. It is kept until
    /// its client comes back or its time is over. Handed back are a session that ends with its connection (expiry 0):
    /// it is ending, and the caller retires it; and one that is not lent, by what the desk knows.
    ///
    /// The session may not be ending: [`Window::retired`] tells.
    pub fn park(&mut self, mut session: Session<E, P>, now: u64) -> Option<Session<E, P>>
        requires { session.window.retired ≡ false }
        ensures { Parks self.old session now result self.new }
    {
        if !self.table.is_lent(&session) {
            return Some(session);
        }
        let number = session.identity.number();
        if session.expiry.seconds == 0 {
            self.table.end_lent(number);
            return Some(session);
        }
        session.expiry.parked = Some(now);
        self.table.park(number, session);
        None
    }

    /// A session goes back to the desk as it is, whatever its expiry: its time runs on from when it was parked last.
    /// Handed back is a session that is not lent, by what the desk knows.
    ///
    /// The session may not be ending: [`Window::retired`] tells.
    pub fn park_as_is(&mut self, session: Session<E, P>) -> Option<Session<E, P>>
        requires { session.window.retired ≡ false }
        ensures { ParksAsIs self.old session result self.new }
    {
        if !self.table.is_lent(&session) {
            return Some(session);
        }
        self.table.park(session.identity.number(), session);
        None
    }

    /// A session that is ending goes back to the desk, since its retirement found no memory: a later
    /// [`Desk::sweep`] hands it out again. Handed back is a session that is not ending and in a caller's hands, by what
    /// the desk knows.
    pub fn keep(&mut self, session: Session<E, P>) -> Option<Session<E, P>>
        ensures { Keeps self.old session result self.new }
    {
        if !self.table.is_away(&session) {
            return Some(session);
        }
        self.table.keep(session.identity.number(), session);
        None
    }

    /// Hands out a session that the caller is to retire: one that is ending and that the desk keeps, else a parked one
    /// whose time is over at this moment, of several the oldest.
    pub fn sweep(&mut self, now: u64) -> Option<Session<E, P>>
        ensures { (rows : _) × Sweeps self.old.rows now result rows × (self.new ≡ with_rows self.old rows) }
    {
        self.table.sweep(now)
    }

    /// The moment in milliseconds from which on a [`Desk::sweep`] may have something to hand out; before it a sweep answers `None` and
    /// changes nothing. It may be earlier than need be, until a sweep finds nothing. Only [`Desk::park`], [`Desk::park_as_is`] and
    /// [`Desk::keep`] make it earlier.
    pub fn soonest(&self) -> u64
        ensures { (now : ℕ) → now < result → SweepsNothing self.now.rows now }
    {
        self.table.soonest()
    }

    /// Ends the desk: all places and all items that it has. A lack of memory hands the desk back.
    pub fn into_all(self) -> Result<All<E, P>, Desk<E, P>>
        ensures { MatchResult result (λ all. HasAll self all.places.items all.envelopes.items) (λ back. back ≡ self) }
    {
        let rows = self.table.len();
        let Ok(mut places) = Vec::with_capacity(self.alloc, rows + CELLS) else {
            return Err(self);
        };
        let Ok(mut envelopes) = Vec::with_capacity(self.alloc, MOST_UNACKNOWLEDGED * rows) else {
            places.destroy_empty();
            return Err(self);
        };
        let Desk {
            table,
            waits: _,
            kicked: _,
            free,
            assigned: _,
            alloc: _,
        } = self;
        table.drain(&mut places, &mut envelopes);
        free.drain(&mut places);
        Ok(All { places, envelopes })
    }

    /// Lends the least free place of the group with this slot: its slot is this one, and its number below
    /// [`MOST_MEMBERS`](limits::MOST_MEMBERS). `None` is 702 [`DeskError::NoPlace`](crate::DeskError::NoPlace).
    pub fn lend_place(&mut self, slot: u8) -> Option<P>
        ensures least { (free : _) × LendsPlace self.old.free slot result free × (self.new ≡ with_free self.old free) }
        ensures own { IfSome result (IsOfSlot P.slot_of P.number_of slot) }
    {
        self.free.lend(slot)
    }
}

impl<E, P: Place> Desk<E, P> {
    ghost use Rattle.session_desk.specs.Books.{with_free};
    ghost use Rattle.session_desk.specs.Keeping.{Buries, CanBury};
    ghost use Rattle.session_desk.specs.Places.{TakesPlace, cell_at};

    /// A place is free from now on. It is handed back where a place of the same group with the same number is free
    /// already.
    pub fn take_place(&mut self, place: P) -> Option<P>
        ensures { (free : _) × TakesPlace self.old.free (cell_at (P.slot_of place) (P.number_of place)) place result free
            × (self.new ≡ with_free self.old free) }
    {
        self.free.take(place)
    }

    /// An ending session that holds nothing any more is gone: its row is free, and its place, if it has one. Handed back
    /// is a session that is not ending and in a caller's hands, by what the desk knows; one that holds something; and one
    /// with a place of which the desk has another already.
    pub fn bury(&mut self, session: Session<E, P>) -> Option<Session<E, P>>
        ensures { Buries (λ place. cell_at (P.slot_of place) (P.number_of place)) self.old session result self.new }
    {
        if !self.can_bury(&session) {
            return Some(session);
        }
        let Session {
            identity,
            expiry: _,
            window,
            membership,
            subscription: _,
        } = session;
        self.table.bury(identity.number());
        self.free.take_back(membership);
        identity.end();
        window.end();
        None
    }

    /// Whether a session may be buried.
    fn can_bury(&self, session: &Session<E, P>) -> bool
        ensures { IsTrue result
            ↔ CanBury (λ place. cell_at (P.slot_of place) (P.number_of place)) self.now session.now }
    {
        self.table.is_away(session)
            && session.window.is_empty()
            && self.free.has_cell(&session.membership)
    }
}

impl<E, P: Place + Drop> Desk<E, P> {
    /// Ends the desk: lets go of all places, and gives each item that it has to who lets go of that. It takes no memory: for who
    /// finds none for [`Desk::into_all`].
    pub fn abandon_with<F: Fn(E)>(self, discard: &F)
        requires { F.IsAlwaysCallable discard.now }
    {
        let Desk {
            table,
            waits: _,
            kicked: _,
            free,
            assigned: _,
            alloc: _,
        } = self;
        table.abandon(discard);
        free.abandon();
    }
}

impl<E: Drop, P: Place + Drop> Desk<E, P> {
    /// Ends the desk and lets go of all places and all items that it has, as [`Desk::abandon_with`] does.
    pub fn abandon(self) {
        self.abandon_with(&|_item| {});
    }
}
