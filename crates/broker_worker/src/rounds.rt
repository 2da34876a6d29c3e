//! The rounds of a worker's connections: which are to go on in its turn.
ghost use Rattle.std.specs.Prelude.{◌≡◌, ◌<◌, ◌+◌, true, false, length};
ghost use Rattle.worker_connections.specs.Serving.{GoesBy, Rounds, round_of};
ghost use Rattle.worker_connections.specs.declared.cell_outcome.CellOutcome.{CellOutcome as AnyOutcome};
ghost use Rattle.worker_connections.specs.Sweeping.{HasGone, IsInTime, Notes};

use crate::marks::Marks;
use crate::worker::{READ_SIZE, Worker};
use bell::Wake;
use broker_groups::Broker;
use call_history::HistoryName;
use conn_service::{Direction, Round};
use std::sync::Wait;
use transport::Transport;
use worker_bells::Mailboxes;
use worker_connections::Poller;

impl<'a, 'g, B: Broker, N: HistoryName, T: Transport + Drop, Q: Poller<T> + Drop, R: Wait> Worker<
    'a,
    'g,
    B,
    N,
    T,
    Q,
    R,
> {
    /// Connections that may be read or written are due.
    pub(crate) fn mark_ready(&mut self)
        ensures connections { self.new.connections ≡ self.old.connections }
        ensures bells { self.new.bells ≡ self.old.bells }
    {
        'ready: for _ in 0..self.connections.len() {
            match self.connections.take_ready() {
                Some(cell) => self.due.mark(cell),
                None => return,
            }
        }
    }

    /// Reads of each connection that is due, once; or of all of them, where a sweep has begun. What is to be written to them is due then.
    pub(crate) fn serve_due(&mut self, all: bool, buffer: &mut [u8; READ_SIZE])
        requires late { all ≡ true → HasGone 0 (length self.old.connections.cells) self.old.connections.sweeps }
        requires in_time { all ≡ false → IsInTime self.old.connections.sweeps }
        ensures goes { Rounds self.old.connections self.new.connections }
        ensures in_time { IsInTime self.new.connections.sweeps }
    {
        self.due.begin();
        'cells: for cell in 0..self.connections.len() {
            self.serve_if_due(cell, all, Direction::Inbound, buffer);
        }
    }

    /// Writes to each connection that is due.
    pub(crate) fn reply(&mut self, buffer: &mut [u8; READ_SIZE])
        ensures { Rounds self.old.connections self.new.connections }
    {
        if !self.due.any() {
            return;
        }
        self.due.begin();
        'cells: for cell in 0..self.connections.len() {
            self.serve_if_due(cell, false, Direction::Outbound, buffer);
        }
    }

    /// Goes on with the connection in a cell by a round this way, where it is due, or all of them are.
    fn serve_if_due(
        &mut self,
        cell: usize,
        all: bool,
        direction: Direction,
        buffer: &mut [u8; READ_SIZE],
    )
        ensures goes { Rounds self.old.connections self.new.connections }
        ensures late { all ≡ true → cell < length self.old.connections.cells → HasGone cell (length self.old.connections.cells) self.old.connections.sweeps → HasGone (cell + 1) (length self.old.connections.cells) self.new.connections.sweeps }
    {
        let due = self.due.take(cell);
        if due || all {
            let _round = self.round(cell, direction, buffer, 0);
        }
    }

    /// Goes on with the connection in a cell by a round this way, in which so many messages at most are handed to its client. What it waits for then; `None` where there is
    /// none.
    pub(crate) fn round(
        &mut self,
        cell: usize,
        direction: Direction,
        buffer: &mut [u8; READ_SIZE],
        most: u32,
    ) -> Option<Round>
        ensures goes { Rounds self.old.connections self.new.connections }
        ensures notes { cell < length self.old.connections.cells → Notes cell (length self.old.connections.cells) self.old.connections.sweeps self.new.connections.sweeps }
        ensures made { cell < length self.old.connections.cells → (cell_outcome : AnyOutcome T) × (result ≡ round_of cell_outcome) × GoesBy B.group B.Seen.Witness T.counts T.given T.accepted cell direction most cell_outcome self.old.connections self.new.connections }
    {
        let worker = u32::try_from(self.number).unwrap_or(u32::MAX);
        let round = self
            .connections
            .round(cell, worker, buffer, direction, most);
        note_went(
            &mut self.due,
            self.mailboxes,
            self.number,
            cell,
            direction,
            round,
        );
        round
    }
}

/// Notes what a round this way made of a cell: whose connection can do more at once, or has something to be written that was not tried yet, is due, and one that has
/// ended has left the worker.
fn note_went<W: Wake>(
    due: &mut Marks,
    mailboxes: &Mailboxes<W>,
    number: usize,
    cell: usize,
    direction: Direction,
    round: Option<Round>,
) {
    match round {
        Some(Round::Ended(_)) => mailboxes.leave(number),
        Some(round) if is_due_again(round, direction) => due.mark(cell),
        _ => {}
    }
}

/// Whether a connection that waits for this after a round this way can go on at once.
fn is_due_again(round: Round, direction: Direction) -> bool {
    match round {
        Round::More => true,
        Round::Writing => matches!(direction, Direction::Inbound),
        Round::Reading | Round::Waiting | Round::Ended(_) => false,
    }
}
