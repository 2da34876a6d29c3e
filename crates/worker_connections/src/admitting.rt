//! A connection that came is opened in a cell, and one that has ended is closed.
ghost use Rattle.std.specs.Prelude.{◌≡◌, length};
ghost use Rattle.worker_connections.specs.PollerCalls.{closed_after};
ghost use Rattle.worker_connections.specs.Serving.{Admits, TakesIn, TellsCell, round_of};

use crate::admission::Admission;
use crate::arrived::Arrived;
use crate::cell_outcome::CellOutcome;
use crate::notice::Notice;
use crate::poller::Poller;
use crate::served::ServedCounts;
use crate::table::ServiceTable;
use broker_groups::{Broker, BrokerPlace};
use conn_engine::Opening;
use conn_service::{LastWord, Round, Served};
use conn_supply::HoldingPlace;
use transport::Transport;

/// Opens a connection that came, at this moment, with the number of its cell; where it can't, it closes it and counts it as ended.
pub(crate) fn take_in<B: Broker, T: Transport, Q: Poller<T>>(
    table: &mut ServiceTable<BrokerPlace<B>, T>,
    served: &mut ServedCounts,
    poller: &mut Q,
    arrived: Arrived<T>,
    first: u16,
    now: u64,
) -> Admission
    ensures taken { TakesIn T.counts T.given T.accepted first now arrived table.old served.old (Q.poller_calls poller.old) table.new served.new (Q.poller_calls poller.new) }
    ensures cell { TellsCell result table.old table.new }
    ensures len { length table.new ≡ length table.old }
{
    match admit(table, poller, arrived, first, now) {
        Some(cell) => Admission::Opened(cell),
        None => {
            served.count(Served::Memory);
            Admission::Refused
        }
    }
}

/// Opens a connection in the cell of the number under which the poller watches it; the connection in the first cell has the number `first`. That cell; `None` where it
/// was closed.
fn admit<B: Broker, T: Transport, Q: Poller<T>>(
    table: &mut ServiceTable<BrokerPlace<B>, T>,
    poller: &mut Q,
    arrived: Arrived<T>,
    first: u16,
    now: u64,
) -> Option<usize>
    ensures admits { Admits T.counts T.given T.accepted first now arrived table.old (Q.poller_calls poller.old) result table.new (Q.poller_calls poller.new) }
    ensures len { length table.new ≡ length table.old }
{
    let (mut transport, limits) = arrived.into_parts();
    let watched = poller.register(&mut transport);
    let cell = match watched {
        Some(cell) if cell < table.len() => cell,
        _ => {
            poller.close(watched, transport);
            return None;
        }
    };
    let opening = Opening { at: now, limits };
    let number = usize::from(first).saturating_add(cell);
    match table.open(cell, number, opening, transport) {
        Ok(()) => Some(cell),
        Err(transport) => {
            poller.close(watched, transport);
            None
        }
    }
}

/// What the connection in a cell waits for after the latest round, which was its; where it has ended, it is closed. `None` where there is none. The poller is told
/// that its client got its session, or that it ended.
pub(crate) fn settle<P: HoldingPlace, T: Transport, Q: Poller<T>>(
    table: &ServiceTable<P, T>,
    poller: &mut Q,
    cell: usize,
    cell_outcome: CellOutcome<T>,
) -> Option<Round>
    ensures told { result ≡ round_of cell_outcome }
    ensures poller_calls { Q.poller_calls poller.new ≡ closed_after cell cell_outcome (Q.poller_calls poller.old) }
{
    match cell_outcome {
        CellOutcome::Vacant => None,
        CellOutcome::Goes(round) => {
            tell_connected(table, poller, cell);
            Some(round)
        }
        CellOutcome::Ended(served, transport) => {
            let last = table.last_word();
            poller.notice(cell, &Notice::Ended { served, last });
            poller.close(Some(cell), transport);
            Some(Round::Ended(served))
        }
    }
}

/// Tells the poller that the client in a cell got its session, if it did in the latest round.
fn tell_connected<P: HoldingPlace, T: Transport, Q: Poller<T>>(
    table: &ServiceTable<P, T>,
    poller: &mut Q,
    cell: usize,
)
    ensures { Q.poller_calls poller.new ≡ Q.poller_calls poller.old }
{
    if let Some(client) = table.newly_connected(cell) {
        let session_present = matches!(
            table.last_word(),
            Some(LastWord::Accepted {
                session_present: true
            })
        );
        poller.notice(
            cell,
            &Notice::Connected {
                client,
                session_present,
            },
        );
    }
}
