//! What is noted of a connection after a round: whether it would be handed a job, what its client has, and whether that reads.
ghost use Rattle.std.specs.Prelude.{◌≡◌, ◌<◌, None, length, slice_set, slice_index_or};
ghost use Rattle.group_queue.specs.Places.{PlaceState};
ghost use Rattle.worker_connections.specs.Cells.{TakesFrom};
ghost use Rattle.worker_bells.specs.declared.members.Interest.{Interest as AnyInterest};

use crate::cell_outcome::CellOutcome;
use crate::table::ServiceTable;
use broker_groups::{Broker, BrokerPlace};
use conn_service::{Direction, Round};
use transport::Transport;
use worker_bells::{Interest, Members};

/// Notes what the connection in a cell would do if others did something.
pub(crate) fn note_interest<B: Broker, T: Transport>(
    table: &ServiceTable<BrokerPlace<B>, T>,
    cell: usize,
    members: &mut Members,
)
    requires cell { cell < length table.now }
    ensures { (interest : AnyInterest) × TakesFrom (λ (p : PlaceState). p.group) (slice_index_or table.now cell None) interest.takes × (members.new ≡ slice_set members.old cell interest) }
{
    let interest = Interest {
        takes: table.takes_from(cell),
        waits: table.is_waiting(cell),
    };
    members.note(cell, interest);
}

/// Notes how many messages the client in a cell has not acknowledged, and whether it reads, after a round this way.
pub(crate) fn note_held<B: Broker, T: Transport>(
    table: &ServiceTable<BrokerPlace<B>, T>,
    cell: usize,
    direction: Direction,
    cell_outcome: &CellOutcome<T>,
    members: &mut Members,
)
    requires cell { cell < length table.now }
    ensures { members.new ≡ members.old }
{
    members.note_held(cell, table.held(cell));
    match cell_outcome {
        CellOutcome::Goes(Round::Writing) => {
            if matches!(direction, Direction::Outbound) {
                members.note_blocked(cell, true);
            }
        }
        CellOutcome::Goes(_) => members.note_blocked(cell, false),
        CellOutcome::Ended(_, _) => members.note_blocked(cell, false),
        CellOutcome::Vacant => {}
    }
}
