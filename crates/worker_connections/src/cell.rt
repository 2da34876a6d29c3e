//! A cell, in which a connection may be.
ghost use Rattle.std.specs.Prelude.{◌≡◌, ◌+◌, ◌<◌, None, Some, length, IfOk, MatchResult};
ghost use Rattle.limits.specs.Limits.{most_connections};
ghost use Rattle.transport.specs.Counting.{no_counts};
ghost use Rattle.worker_connections.specs.Cells.{FollowsIn, Opens, Refuses, Turns, ended_by, taken};

use crate::cell_outcome::CellOutcome;
use crate::round_notes::RoundNotes;
use conn_engine::Opening;
use conn_service::{Direction, Round, Service};
use conn_supply::{HoldingPlace, Supply};
use limits::MOST_CONNECTIONS;
use std::alloc::Global;
use std::marker::Model;
use transport::{Crossing, Transport};

/// A connection that goes on. Contracts see it as that.
pub(crate) struct Seat<P: HoldingPlace, T: Transport> {
    service: Service<P, T>,
}

impl<P: HoldingPlace, T: Transport> Model for Seat<P, T> {
    ghost use Rattle.std.specs.Prelude.{◌≡◌, None};
    ghost use Rattle.conn_service.specs.Services.{ServiceState};

    ghost Value = { ServiceState P T };

    ghost view = { λ seat. seat.service };

    ghost invariant = { λ seat. seat.service.ending ≡ None };
}

impl<P: HoldingPlace, T: Transport> Seat<P, T> {
    /// The connection in it.
    pub(crate) fn service(&self) -> &Service<P, T>
        ensures { result.now ≡ self.now }
    {
        &self.service
    }

    /// Takes the connection out.
    pub(crate) fn into_service(self) -> Service<P, T>
        ensures same { result ≡ self }
        ensures going { result.ending ≡ None }
    {
        let Seat { service } = self;
        service
    }
}

/// A seat that a connection has taken.
fn taken<P: HoldingPlace, T: Transport>(service: Service<P, T>) -> Seat<P, T>
    requires { service.ending ≡ None }
    ensures { result ≡ service }
{
    Seat { service }
}

/// The connection of this number is opened in a free cell, with this opening.
pub(crate) fn open<P: HoldingPlace, T: Transport>(
    cell: &mut Option<Seat<P, T>>,
    alloc: Global,
    number: usize,
    opening: Opening,
    transport: T,
) -> Result<(), T>
    requires new { T.counts transport ≡ no_counts }
    ensures opened { MatchResult result (λ _. Opens number opening transport cell.old cell.new) (Refuses transport cell.old cell.new) }
    ensures known { IfOk result (λ _. number < most_connections) }
{
    if cell.is_some() || number >= usize::from(MOST_CONNECTIONS) {
        return Err(transport);
    }
    match Service::open(alloc, number as u16, opening, transport) {
        Ok(service) => {
            put(cell, service);
            Ok(())
        }
        Err(transport) => Err(transport),
    }
}

/// Puts a connection into a free cell.
fn put<P: HoldingPlace, T: Transport>(cell: &mut Option<Seat<P, T>>, service: Service<P, T>)
    requires free { cell.old ≡ None }
    requires going { service.ending ≡ None }
    ensures { cell.new ≡ Some service }
{
    match cell.replace(taken(service)) {
        None => {}
        Some(_other) => unreachable!(),
    }
}

/// The connection goes on by a round, where there is one, which is noted; if it ended, it leaves the cell.
pub(crate) fn round<P: HoldingPlace, T: Transport, S: Supply<P>, X: Crossing>(
    cell: &mut Option<Seat<P, T>>,
    notes: &mut RoundNotes,
    supply: &mut S,
    crossing: &X,
    worker: u32,
    now: u64,
    buffer: &mut [u8],
    direction: Direction,
) -> CellOutcome<T>
    requires room { 0 < length buffer.old }
    ensures turns { Turns S.call S.begins S.ends S.visiting P.slot_of T.counts T.given T.accepted now cell.old supply.old result cell.new supply.new }
    ensures way { FollowsIn T.given T.accepted direction now cell.old result cell.new }
    ensures count { taken cell.old ≡ taken cell.new + ended_by result }
{
    let Some(seat) = cell.take() else {
        return CellOutcome::Vacant;
    };
    let mut service = seat.into_service();
    let had_session = service.client_identifier().is_some();
    let round = service.round(supply, crossing, worker, now, buffer, direction);
    notes.note(had_session, &mut service);
    match round {
        Round::Ended(served) => CellOutcome::Ended(served, service.end()),
        Round::More => {
            put(cell, service);
            CellOutcome::Goes(Round::More)
        }
        Round::Reading => {
            put(cell, service);
            CellOutcome::Goes(Round::Reading)
        }
        Round::Writing => {
            put(cell, service);
            CellOutcome::Goes(Round::Writing)
        }
        Round::Waiting => {
            put(cell, service);
            CellOutcome::Goes(Round::Waiting)
        }
    }
}
