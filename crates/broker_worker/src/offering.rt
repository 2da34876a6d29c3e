//! What is offered to the members of each group in a sweep, whatever the others have: so no hint that is out of date lets a message wait for longer.
ghost use Rattle.std.specs.Prelude.{◌≡◌, ◌<◌, true, false, Some, length};
ghost use Rattle.limits.specs.Limits.{most_groups};
ghost use Rattle.conn_service.specs.declared.served.Round.{Round as AnyRound};
ghost use Rattle.broker_worker.specs.Offering.{GoesOn, IsAsked, IsOffered, Offers, OffersEach};
ghost use Rattle.worker_connections.specs.Serving.{Rounds};

use crate::worker::{READ_SIZE, Worker};
use broker_groups::Broker;
use call_history::HistoryName;
use conn_service::{Direction, Round};
use std::sync::Wait;
use transport::Transport;
use worker_bells::SLOTS;
use worker_connections::Poller;

impl<'a, 'g, B: Broker, N: HistoryName, T: Transport + Drop, Q: Poller<T> + Drop, R: Wait> Worker<
    'a,
    'g,
    B,
    N,
    T,
    Q,
    R,
> {
    /// In a sweep, offers a message to a member of each group.
    pub(crate) fn offer_if(&mut self, sweeps: bool, buffer: &mut [u8; READ_SIZE])
        ensures goes { Rounds self.old.connections self.new.connections }
        ensures offered { sweeps ≡ true → OffersEach B.group B.Seen.Witness T.counts T.given T.accepted self.old.connections self.new.connections }
    {
        if sweeps {
            self.offer_each(buffer);
        }
    }

    /// Offers a message to a member of each group.
    fn offer_each(&mut self, buffer: &mut [u8; READ_SIZE])
        ensures goes { Rounds self.old.connections self.new.connections }
        ensures offered { OffersEach B.group B.Seen.Witness T.counts T.given T.accepted self.old.connections self.new.connections }
    {
        'slots: for slot in 0..SLOTS {
            self.offer(slot, buffer);
        }
    }

    /// Offers a message to a member of a group that reads and has room: to the one that has the fewest, or where that does not read to another one.
    fn offer(&mut self, slot: usize, buffer: &mut [u8; READ_SIZE])
        requires { slot < most_groups }
        ensures goes { Rounds self.old.connections self.new.connections }
        ensures offered { Offers B.group B.Seen.Witness T.counts T.given T.accepted slot self.old.connections self.new.connections }
    {
        if !self.connections.members().has_taker(slot) {
            return;
        }
        let fewest = self.connections.members().cell_of_fewest(slot);
        if self.offer_to(fewest, slot, buffer) {
            return;
        }
        self.offer_to_any(slot, buffer);
    }

    /// Offers a message to a member of a group, in the order of their cells.
    fn offer_to_any(&mut self, slot: usize, buffer: &mut [u8; READ_SIZE])
        ensures goes { Rounds self.old.connections self.new.connections }
        ensures offered { Offers B.group B.Seen.Witness T.counts T.given T.accepted slot self.old.connections self.new.connections }
    {
        'cells: for cell in 0..self.connections.len() {
            if self.offer_to(cell, slot, buffer) {
                return;
            }
        }
    }

    /// Offers a message to the client in a cell, where it is a member of a group and has room. Whether it is, and neither ended nor has to wait until it reads.
    fn offer_to(&mut self, cell: usize, slot: usize, buffer: &mut [u8; READ_SIZE]) -> bool
        ensures goes { Rounds self.old.connections self.new.connections }
        ensures yes { result ≡ true → IsOffered B.group B.Seen.Witness T.counts T.given T.accepted slot self.old.connections self.new.connections }
        ensures no { result ≡ false → cell < length self.old.connections.cells → IsAsked B.group B.Seen.Witness T.counts T.given T.accepted slot cell self.old.connections self.new.connections }
    {
        if !self.connections.would_take(cell, slot) {
            return false;
        }
        let before = self.held_at(cell, slot);
        let round = self.round(cell, Direction::Outbound, buffer, 1);
        self.note_offered(cell, slot, before);
        goes_on(round)
    }
}

/// Whether a connection that waits for this has not ended, and does not have to wait until its client reads.
fn goes_on(round: Option<Round>) -> bool
    ensures { result ≡ true → (told : AnyRound) × (round ≡ Some told) × GoesOn told }
{
    match round {
        Some(Round::More | Round::Reading | Round::Waiting) => true,
        Some(Round::Writing | Round::Ended(_)) | None => false,
    }
}
