//! The connections of a worker, by their cells.
ghost use Rattle.std.specs.Prelude.{◌≡◌, ◌+◌, ◌<◌, ◌≤◌, ◌↔◌, None, true, length, replicate, slice_index_or, All, IfOk, IsTrue, MatchResult};
ghost use Rattle.limits.specs.Limits.{most_connections};
ghost use Rattle.transport.specs.Counting.{no_counts};
ghost use Rattle.worker_connections.specs.Cells.{FollowsIn, InCell, Opens, Refuses, TakesFrom, Turns, Waits, ended_by, held_in, occupied, taken};

use crate::cell;
use crate::cell::Seat;
use crate::cell_outcome::CellOutcome;
use crate::round_notes::RoundNotes;
use conn_engine::Opening;
use conn_service::{AnswerCounts, Direction, LastWord};
use conn_supply::{HoldingPlace, NoMemory, Supply};
use std::alloc::{AllocError, Global};
use std::marker::Model;
use transport::{Crossing, Transport};

/// The connections of a worker, each in a cell. `P` is a place in a group.
///
/// Contracts see it as its cells.
pub struct ServiceTable<P: HoldingPlace, T: Transport> {
    cells: Vec<Option<Seat<P, T>>>,
    alloc: Global,
    // No contract speaks of it.
    notes: RoundNotes,
}

impl<P: HoldingPlace, T: Transport> Model for ServiceTable<P, T> {
    ghost use Rattle.std.specs.Prelude.{List, Option};
    ghost use Rattle.conn_service.specs.Services.{ServiceState};

    ghost Value = { List (Option (ServiceState P T)) };

    ghost view = { λ t. t.cells.items };
}

impl<P: HoldingPlace, T: Transport> ServiceTable<P, T> {
    /// A table with so many free cells. Takes the memory for them.
    ///
    /// # Errors
    ///
    /// [`NoMemory`].
    pub fn new(alloc: Global, count: u16) -> Result<ServiceTable<P, T>, NoMemory>
        ensures free { IfOk result (λ table. table ≡ replicate count None) }
        ensures count { IfOk result (λ table. occupied table ≡ 0) }
    {
        let cells = free_cells(alloc, usize::from(count))?;
        Ok(ServiceTable {
            cells,
            alloc,
            notes: RoundNotes::NONE,
        })
    }

    /// How many cells there are.
    pub fn len(&self) -> usize
        ensures { result ≡ length self.now }
    {
        self.cells.len()
    }

    /// Opens the connection of this number in a cell, with this opening, over a transport of which nothing was asked yet.
    ///
    /// # Errors
    ///
    /// The transport, where the cell has a connection, the number is not below 1,024, or an allocation fails. Nothing has changed then.
    pub fn open(
        &mut self,
        cell: usize,
        number: usize,
        opening: Opening,
        transport: T,
    ) -> Result<(), T>
        requires cell { cell < length self.old }
        requires new { T.counts transport ≡ no_counts }
        ensures cell { InCell self.old cell (λ before after. MatchResult result (λ _. Opens number opening transport before after) (Refuses transport before after)) self.new }
        ensures len { length self.new ≡ length self.old }
        ensures known { IfOk result (λ _. number < most_connections) }
        ensures count { MatchResult result (λ _. occupied self.new ≡ occupied self.old + 1) (λ _. self.new ≡ self.old) }
    {
        let alloc = self.alloc;
        cell::open(&mut self.cells[cell], alloc, number, opening, transport)
    }

    /// The connection in a cell goes on by a round, at this moment in milliseconds: see [`Service::round`](conn_service::Service::round). Where that ends it, it
    /// leaves the cell.
    pub fn round<S: Supply<P>, X: Crossing>(
        &mut self,
        cell: usize,
        supply: &mut S,
        crossing: &X,
        worker: u32,
        now: u64,
        buffer: &mut [u8],
        direction: Direction,
    ) -> CellOutcome<T>
        requires cell { cell < length self.old }
        requires room { 0 < length buffer.old }
        ensures turns { InCell self.old cell (λ before after. Turns S.call S.begins S.ends S.visiting P.slot_of T.counts T.given T.accepted now before supply.old result after supply.new) self.new }
        ensures way { InCell self.old cell (λ before after. FollowsIn T.given T.accepted direction now before result after) self.new }
        ensures len { length self.new ≡ length self.old }
        ensures count { occupied self.old ≡ occupied self.new + ended_by result }
    {
        cell::round(
            &mut self.cells[cell],
            &mut self.notes,
            supply,
            crossing,
            worker,
            now,
            buffer,
            direction,
        )
    }

    /// How many messages the client in a cell has not acknowledged.
    pub fn held(&self, cell: usize) -> usize
        requires { cell < length self.now }
        ensures { result ≡ held_in (slice_index_or self.now cell None) }
    {
        match &self.cells[cell] {
            Some(seat) => seat.service().held(),
            None => 0,
        }
    }

    /// The slot of the group that the client in a cell would be handed a message of now: see
    /// [`Service::takes_from`](conn_service::Service::takes_from).
    pub fn takes_from(&self, cell: usize) -> Option<u8>
        requires { cell < length self.now }
        ensures { TakesFrom P.slot_of (slice_index_or self.now cell None) result }
    {
        match &self.cells[cell] {
            Some(seat) => seat.service().takes_from(),
            None => None,
        }
    }

    /// Whether the client in a cell waits for a session that another connection has: see [`Service::is_waiting`](conn_service::Service::is_waiting).
    pub fn is_waiting(&self, cell: usize) -> bool
        requires { cell < length self.now }
        ensures { IsTrue result ↔ Waits (slice_index_or self.now cell None) }
    {
        match &self.cells[cell] {
            Some(seat) => seat.service().is_waiting(),
            None => false,
        }
    }

    /// What was answered to the clients.
    pub fn answers(&self) -> &AnswerCounts {
        &self.notes.answers
    }

    /// How many clients have their session.
    pub fn connected(&self) -> u64 {
        self.notes.connected
    }

    /// The latest CONNACK or DISCONNECT to the client of the latest round, also where that round ended its connection.
    pub fn last_word(&self) -> Option<LastWord> {
        self.notes.last_word
    }

    /// The identifier of the client in a cell, where the latest round was its and gave it its session, which it has.
    pub fn newly_connected(&self, cell: usize) -> Option<&[u8]> {
        if !self.notes.got_session {
            return None;
        }
        match self.cells.get(cell) {
            Some(Some(seat)) => seat.service().client_identifier(),
            Some(None) | None => None,
        }
    }

    /// Whether all cells are free.
    pub fn is_empty(&self) -> bool
        ensures free { IsTrue result ↔ All (λ cell. cell ≡ None) self.now }
        ensures count { result ≡ true → occupied self.now ≡ 0 }
    {
        all_free(&self.cells)
    }

    /// Lets go of a table with all its connections: they end as where the broker closes, and nothing is written any more. Where there is none, nothing is asked of
    /// the supply.
    pub fn abandon<S: Supply<P>>(self, supply: &mut S, now: u64)
    where
        T: Drop,
        ensures free { occupied self ≡ 0 → supply.new ≡ supply.old }
    {
        let ServiceTable {
            cells,
            alloc: _,
            notes: _,
        } = self;
        abandon_each(cells, supply, now);
    }
}

/// So many free cells.
fn free_cells<A>(alloc: Global, count: usize) -> Result<Vec<Option<A>>, AllocError>
    ensures { IfOk result (λ cells. cells.items ≡ replicate count None) }
{
    let mut cells = Vec::with_capacity(alloc, count)?;
    for _ in 0..count {
        cells.push_reserved(None);
    }
    Ok(cells)
}

/// Whether all of these cells are free.
fn all_free<A>(cells: &[Option<A>]) -> bool
    ensures { IsTrue result ↔ All (λ cell. cell ≡ None) cells.now }
{
    cells.iter().all(|cell| cell.is_none())
}

/// Lets go of the connections in these cells, the last one first.
fn abandon_each<P: HoldingPlace, T: Transport + Drop, S: Supply<P>>(
    cells: Vec<Option<Seat<P, T>>>,
    supply: &mut S,
    now: u64,
)
    ensures { occupied cells.items ≡ 0 → supply.new ≡ supply.old }
{
    let mut cells = cells;
    match cells.pop() {
        None => cells.destroy_empty(),
        Some(cell) => {
            abandon_one(cell, supply, now);
            abandon_each(cells, supply, now);
        }
    }
}

/// Lets go of the connection in this cell, if there is one.
fn abandon_one<P: HoldingPlace, T: Transport + Drop, S: Supply<P>>(
    cell: Option<Seat<P, T>>,
    supply: &mut S,
    now: u64,
)
    ensures { taken cell ≡ 0 → supply.new ≡ supply.old }
{
    if let Some(seat) = cell {
        drop(seat.into_service().abandon(supply, now));
    }
}
