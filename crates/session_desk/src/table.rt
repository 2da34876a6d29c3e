//! The rows of a desk, by number and by client.
ghost use Rattle.std.specs.Prelude.{◌≡◌, ℕ, ◌+◌, ◌<◌, ◌≤◌, None, Some, IsTrue, ◌↔◌, IfOk, OnOk, OnErr, MatchOption, nat_eq, true, ◌*◌, length, sum_by, vec_capacity};
ghost use Rattle.limits.specs.Limits.{most_unacknowledged};
ghost use Rattle.session_desk.specs.Everything.{items_of, place_of};
ghost use Rattle.session_desk.specs.Rows.{session_in};
ghost use Rattle.std.specs.Option.{option_copied};
ghost use Rattle.std.specs.FinMap as map;
ghost use Rattle.indexmap.specs.IndexMap.{get};

use crate::abandoned::abandon_rows;
use crate::drained::drain_rows;
use crate::names::next_name;
use crate::row::{Holder, Row};
use crate::rows::{
    add, claim, dismiss, dismiss_living, exchange, forget_of, prepare, remove, set_number,
};
use crate::session::{Identity, Session};
use crate::sight::{Sight, look};
use crate::sweeping::{Due, first_idle, oldest, soonest};
use bytes::Bytes;
use indexmap::IndexMap;
use limits::{DEFAULT_SESSIONS, MOST_SESSIONS};
use std::alloc::{AllocError, Global};
use std::marker::Model;

/// How many rows there may be: those of sessions that are ending stand beside as many that are lent or parked.
pub(crate) const MOST_ROWS: usize = 2 * MOST_SESSIONS as usize;

/// For how many rows memory is taken at the start; for more it is taken as they come.
const ROOM: usize = 2 * DEFAULT_SESSIONS as usize;

/// The rows of a desk.
pub(crate) struct Table<E, P> {
    // Each row under the number of its session.
    rows: IndexMap<u64, Row<E, P>>,
    // The number of the session of each client that is lent or parked.
    living: IndexMap<Bytes, u64>,
    // How many sessions were new.
    made: u64,
    // Nothing is due before this moment; 0 where the desk keeps an ending session.
    soonest: u64,
}

impl<E, P> Model for Table<E, P> {
    ghost use Rattle.std.specs.FinMap as map;
    ghost use Rattle.session_desk.specs.Rows.{Register};
    ghost use Rattle.std.specs.Coded.{codes};
    ghost use Rattle.session_desk.specs.Layout.{AreKept, number_at, register_code};

    ghost Value = { Register E P };

    ghost coded = { register_code (Prim.hlevel codes) };

    ghost view = { λ t. record { rows = map.from_entries t.rows.entries; made = t.made } };

    ghost invariant = { λ t. AreKept (map.from_entries t.rows.entries) (number_at t.living.entries) t.made t.soonest };
}

impl<E, P> Table<E, P> {
    ghost use Rattle.session_desk.specs.Rows.{HasRow, LivesAs, NoRow, NoneLivesAs, is_living, away, begun, moved, next_who, with_holder, with_wait};
    ghost use Rattle.session_desk.specs.Sweeping.{Sweeps, SweepsNothing};
    ghost use Rattle.session_desk.specs.Idle.{IsIdleIn, IsParkedLongest};
    ghost use Rattle.session_desk.specs.Opening.{LooksAs};
    ghost use Rattle.session_desk.specs.Names.{IsNextName, NoNameLeft};
    ghost use Rattle.session_desk.specs.Rows.{IsRowOf, IsLentIn, IsAwayIn, NoRowOf};

    /// No rows. Takes the memory for 512 of them.
    pub(crate) fn new(alloc: Global) -> Result<Table<E, P>, AllocError>
        ensures { IfOk result (λ table. table ≡ record { rows = map.empty; made = 0 }) }
    {
        let living = IndexMap::with_capacity(alloc, ROOM)?;
        let rows = IndexMap::with_capacity(alloc, ROOM)?;
        Ok(Table {
            rows,
            living,
            made: 0,
            soonest: u64::MAX,
        })
    }

    /// Ends a table that has no rows.
    pub(crate) fn end(self)
        requires { self.rows ≡ map.empty }
    {
        let _len = self.rows.len();
        let Table {
            rows,
            living: _,
            made: _,
            soonest: _,
        } = self;
        rows.destroy_empty();
    }

    /// How many rows there are.
    pub(crate) fn len(&self) -> usize
        ensures { result ≡ map.len self.now.rows }
    {
        self.rows.len()
    }

    /// The number of the session of this client that is lent or parked.
    pub(crate) fn find(&self, client: &Bytes) -> Option<u64>
        ensures { MatchOption result (NoneLivesAs self.now.rows client.now)
            (λ number. (row : Row E P) × HasRow self.now.rows number row × LivesAs client.now row) }
    {
        self.living.get(client).copied()
    }

    /// The row of this session.
    pub(crate) fn get(&self, number: u64) -> Option<&Row<E, P>>
        ensures { option_copied result ≡ map.get self.now.rows number }
    {
        self.rows.get(&number)
    }

    /// Lends a parked session to a connection.
    pub(crate) fn lend(&mut self, number: u64, connection: u16) -> Session<E, P>
        requires { (row : Row E P) × (session : Session E P) × HasRow self.old.rows number row
            × (row.held_by ≡ Holder.Parked session) }
        ensures { (row : Row E P) → HasRow self.old.rows number row →
            (row.held_by ≡ Holder.Parked result)
            × (self.new ≡ moved self.old number (with_holder row (Holder.Lent connection))) }
    {
        exchange(&mut self.rows, number, Holder::Lent(connection)).into_parked()
    }

    /// Parks a session that was lent.
    pub(crate) fn park(&mut self, number: u64, session: Session<E, P>)
        requires { (row : Row E P) × (connection : ℕ) × HasRow self.old.rows number row
            × (row.held_by ≡ Holder.Lent connection)
            × (session.identity ≡ record { number = number; client = row.client }) }
        ensures { (row : Row E P) → HasRow self.old.rows number row →
            self.new ≡ moved self.old number (with_holder row (Holder.Parked session)) }
    {
        self.soonest = self.soonest.min(session.expiry.over_from());
        exchange(&mut self.rows, number, Holder::Parked(session)).end_lent();
    }

    /// Keeps a session that is ending, and was in a caller's hands.
    pub(crate) fn keep(&mut self, number: u64, session: Session<E, P>)
        requires { (row : Row E P) × HasRow self.old.rows number row × (row.held_by ≡ Holder.Away)
            × (session.identity ≡ record { number = number; client = row.client }) }
        ensures { (row : Row E P) → HasRow self.old.rows number row →
            self.new ≡ moved self.old number (with_holder row (Holder.Kept session)) }
    {
        self.soonest = 0;
        exchange(&mut self.rows, number, Holder::Kept(session)).end_away();
    }

    /// Lets a connection wait for a session.
    pub(crate) fn claim(&mut self, number: u64, connection: u16)
        requires { (row : Row E P) × HasRow self.old.rows number row }
        ensures { (row : Row E P) → HasRow self.old.rows number row →
            self.new ≡ moved self.old number (with_wait row connection) }
    {
        claim(&mut self.rows, number, connection);
    }

    /// Ends a session that was lent: it stays in the caller's hands.
    pub(crate) fn end_lent(&mut self, number: u64)
        requires { (row : Row E P) × (connection : ℕ) × HasRow self.old.rows number row
            × (row.held_by ≡ Holder.Lent connection) }
        ensures { (row : Row E P) → HasRow self.old.rows number row →
            self.new ≡ moved self.old number (away row.client) }
    {
        dismiss_living(&mut self.rows, &mut self.living, number).end_lent();
    }

    /// Ends a session that was parked, and hands it out.
    pub(crate) fn end_parked(&mut self, number: u64) -> Session<E, P>
        requires { (row : Row E P) × (session : Session E P) × HasRow self.old.rows number row
            × (row.held_by ≡ Holder.Parked session) }
        ensures { (row : Row E P) → HasRow self.old.rows number row →
            (row.held_by ≡ Holder.Parked result)
            × (self.new ≡ moved self.old number (away row.client)) }
    {
        dismiss_living(&mut self.rows, &mut self.living, number).into_parked()
    }

    /// Hands out a session that is ending and was kept.
    pub(crate) fn give(&mut self, number: u64) -> Session<E, P>
        requires { (row : Row E P) × (session : Session E P) × HasRow self.old.rows number row
            × (row.held_by ≡ Holder.Kept session) }
        ensures { (row : Row E P) → HasRow self.old.rows number row →
            (row.held_by ≡ Holder.Kept result)
            × (self.new ≡ moved self.old number (away row.client)) }
    {
        dismiss(&mut self.rows, number).into_kept()
    }

    /// Takes the row of a session away that is ending, and was in a caller's hands.
    pub(crate) fn bury(&mut self, number: u64)
        requires { (row : Row E P) × HasRow self.old.rows number row × (row.held_by ≡ Holder.Away) }
        ensures { self.new ≡ record { rows = map.remove self.old.rows number; made = self.old.made } }
    {
        remove(&mut self.rows, number);
    }

    /// Begins a session of a client that has none, lent to a connection.
    pub(crate) fn begin(&mut self, client: &Bytes, connection: u16) -> Result<Identity, AllocError>
        requires { NoneLivesAs self.old.rows client.now }
        ensures ok { IfOk result (λ identity. (identity ≡ next_who self.old client.now)
            × (self.new ≡ begun self.old client.now connection)) }
        ensures err { OnErr result (self.new ≡ self.old) }
    {
        let copies = prepare(&mut self.rows, &mut self.living, client)?;
        let number = self.made;
        let Some(made) = number.checked_add(1) else {
            return Err(AllocError);
        };
        self.made = made;
        add(&mut self.rows, number, Row::lent(copies.row, connection));
        set_number(&mut self.living, copies.key, number);
        Ok(Identity::new(number, copies.session))
    }

    /// Begins a session of a client, lent to a connection, and hands out the parked one that the client had.
    pub(crate) fn begin_over(
        &mut self,
        old: u64,
        client: &Bytes,
        connection: u16,
    ) -> Result<(Identity, Session<E, P>), AllocError>
        requires { (row : Row E P) × (session : Session E P) × HasRow self.old.rows old row
            × (row.held_by ≡ Holder.Parked session) × (row.client ≡ client.now) }
        ensures ok { IfOk result (λ both. (row : Row E P) → HasRow self.old.rows old row →
            (row.held_by ≡ Holder.Parked both.1) × (both.0 ≡ next_who self.old client.now)
            × (self.new ≡ begun (moved self.old old (away row.client)) client.now connection)) }
        ensures err { OnErr result (self.new ≡ self.old) }
    {
        let copies = prepare(&mut self.rows, &mut self.living, client)?;
        let number = self.made;
        let Some(made) = number.checked_add(1) else {
            return Err(AllocError);
        };
        let ended = dismiss(&mut self.rows, old).into_parked();
        self.made = made;
        add(&mut self.rows, number, Row::lent(copies.row, connection));
        set_number(&mut self.living, copies.key, number);
        Ok((Identity::new(number, copies.session), ended))
    }

    /// Begins a session of a client that has none, lent to a connection, and hands out a parked one of another client.
    pub(crate) fn begin_displacing(
        &mut self,
        old: u64,
        client: &Bytes,
        connection: u16,
    ) -> Result<(Identity, Session<E, P>), AllocError>
        requires { (row : Row E P) × (session : Session E P) × HasRow self.old.rows old row
            × (row.held_by ≡ Holder.Parked session) × NoneLivesAs self.old.rows client.now }
        ensures ok { IfOk result (λ both. (row : Row E P) → HasRow self.old.rows old row →
            (row.held_by ≡ Holder.Parked both.1) × (both.0 ≡ next_who self.old client.now)
            × (self.new ≡ begun (moved self.old old (away row.client)) client.now connection)) }
        ensures err { OnErr result (self.new ≡ self.old) }
    {
        let copies = prepare(&mut self.rows, &mut self.living, client)?;
        let number = self.made;
        let Some(made) = number.checked_add(1) else {
            return Err(AllocError);
        };
        let ended = dismiss(&mut self.rows, old).into_parked();
        self.made = made;
        add(&mut self.rows, number, Row::lent(copies.row, connection));
        set_number(&mut self.living, copies.key, number);
        forget_of(&self.rows, &mut self.living, old);
        Ok((Identity::new(number, copies.session), ended))
    }

    /// The number of the idle session that has been parked longest.
    pub(crate) fn parked_longest(&self) -> Option<u64>
        ensures { MatchOption result (NoRow self.now.rows IsIdleIn)
            (λ number. (row : Row E P) × (session : Session E P) × IsParkedLongest self.now.rows number row session) }
    {
        match first_idle(&self.rows) {
            Some(moment) => oldest(&self.rows, Due::IdleSince(moment)),
            None => None,
        }
    }

    /// A moment before which no session is to be retired.
    pub(crate) fn soonest(&self) -> u64
        ensures { (now : ℕ) → now < result → SweepsNothing self.now.rows now }
    {
        self.soonest
    }

    /// Hands out a session that is to be retired.
    pub(crate) fn sweep(&mut self, now: u64) -> Option<Session<E, P>>
        ensures rows { Sweeps self.old.rows now result self.new.rows }
        ensures made { self.new.made ≡ self.old.made }
    {
        if now < self.soonest {
            return None;
        }
        if let Some(number) = oldest(&self.rows, Due::Kept) {
            return Some(self.give(number));
        }
        if let Some(number) = oldest(&self.rows, Due::Over(now)) {
            return Some(self.end_parked(number));
        }
        self.soonest = soonest(&self.rows);
        None
    }

    /// Whether a session is lent, by its row.
    pub(crate) fn is_lent(&self, session: &Session<E, P>) -> bool
        ensures { IsTrue result ↔ IsLentIn self.now.rows session.now }
    {
        match self.row_of(session) {
            Some(row) => matches!(row.held_by, Holder::Lent(_)),
            None => false,
        }
    }

    /// Whether a session is ending and in a caller's hands, by its row.
    pub(crate) fn is_away(&self, session: &Session<E, P>) -> bool
        ensures { IsTrue result ↔ IsAwayIn self.now.rows session.now }
    {
        match self.row_of(session) {
            Some(row) => matches!(row.held_by, Holder::Away),
            None => false,
        }
    }

    /// The row with a session's number, where its client is the session's.
    fn row_of(&self, session: &Session<E, P>) -> Option<&Row<E, P>>
        ensures { MatchOption result (NoRowOf self.now.rows session.now)
            (λ row. IsRowOf self.now.rows session.now row.now row.now.held_by) }
    {
        let row = self.get(session.identity.number())?;
        if row.client == *session.identity.client() {
            Some(row)
        } else {
            None
        }
    }

    /// The number of the next name, above those that were given.
    pub(crate) fn next_name(&self, given: u32) -> Option<u32>
        requires { given < 100000000 }
        ensures { MatchOption result (NoNameLeft self.now.rows given) (IsNextName self.now.rows given) }
    {
        next_name(&self.rows, given)
    }

    /// A look at the row of a session that is lent or parked.
    pub(crate) fn look(&self, number: u64, clean: bool, now: u64) -> Sight
        requires { (row : Row E P) × HasRow self.now.rows number row × (is_living row.held_by ≡ true) }
        ensures { (row : Row E P) → HasRow self.now.rows number row → LooksAs row clean now result }
    {
        match self.get(number) {
            Some(row) => look(row, clean, now),
            None => unreachable!(),
        }
    }

    /// Takes everything out of the rows, and ends the table.
    pub(crate) fn drain(self, places: &mut Vec<P>, envelopes: &mut Vec<E>)
        requires places { length places.old.items + map.len self.rows ≤ vec_capacity places.old }
        requires envelopes { length envelopes.old.items + most_unacknowledged * map.len self.rows ≤ vec_capacity envelopes.old }
        ensures places { (measure : P → ℕ) → sum_by measure places.new.items
            ≡ sum_by measure places.old.items
            + sum_by (λ entry. sum_by measure (place_of (session_in entry.1.held_by))) (map.entries self.rows) }
        ensures envelopes { (measure : E → ℕ) → sum_by measure envelopes.new.items
            ≡ sum_by measure envelopes.old.items
            + sum_by (λ entry. sum_by measure (items_of (session_in entry.1.held_by))) (map.entries self.rows) }
        ensures places_room { vec_capacity places.new ≡ vec_capacity places.old }
        ensures few_places { length places.new.items ≤ length places.old.items + map.len self.rows }
    {
        let _len = self.rows.len();
        let Table {
            rows,
            living: _,
            made: _,
            soonest: _,
        } = self;
        drain_rows(rows, places, envelopes);
    }
}

impl<E, P: Drop> Table<E, P> {
    /// Lets go of everything in the rows, and ends the table.
    pub(crate) fn abandon<F: Fn(E)>(self, discard: &F)
        requires { F.IsAlwaysCallable discard.now }
    {
        let Table {
            rows,
            living: _,
            made: _,
            soonest: _,
        } = self;
        abandon_rows(rows, discard);
    }
}
