//! A worker: what it has, and its turns.
ghost use Rattle.std.specs.Prelude.{◌≡◌, ◌*◌, [], None, true, length, replicate, IfErr, IfOk};
ghost use Rattle.worker_connections.specs.Handles.{IsUnused};
ghost use Rattle.worker_connections.specs.Chains.{HasRunTo};
ghost use Rattle.worker_connections.specs.Serving.{AreCounted, AreFresh, IsDone, RetiresAll, Rounds, StaysOf, live, run_of, wakes_of};
ghost use Rattle.broker_worker.specs.Offering.{OffersEach, OffersInSweep};
ghost use Rattle.shared_supply.specs.Waking.{no_wakes};
ghost use Rattle.broker_worker.specs.Resting.{MayWait};
ghost use Rattle.broker_worker.specs.Retiring.{RetiresInSweep};
ghost use Rattle.worker_connections.specs.Sweeping.{AreTicked, IsInTime};

use crate::marks::Marks;
use crate::sharing::Sharing;
use crate::worker_parts::WorkerParts;
use bell::Wake;
use broker_groups::{Broker, BrokerPlace};
use call_history::HistoryName;
use conn_service::Direction;
use conn_supply::NoMemory;
use limits::MOST_CONNECTIONS;
use shared_supply::{SharedBroker, SharedSupply};
use std::alloc::Global;
use std::marker::Model;
use std::sync::Wait;
use transport::Transport;
use worker_bells::{Mailboxes, WorkerBells};
use worker_connections::{Admission, Connections, Poller, Returned, ServiceTable, WorkerHandle};

/// How many bytes a round reads at most.
pub(crate) const READ_SIZE: usize = 4_096;

/// For how many milliseconds a worker that is to end waits for its end mark before it looks again.
pub(crate) const END_PAUSE: u64 = 1;

/// What a worker has: its connections, with what they ask of the broker and where it waits for them, and how it calls others and is called.
///
/// Contracts see it as a `WorkerState`: its connections, and what it has of the bells.
pub struct Worker<'a, 'g, B: Broker, N: HistoryName, T: Transport + Drop, Q: Poller<T>, R: Wait> {
    pub(crate) number: usize,
    pub(crate) connections: Connections<'a, 'g, B, N, T, Q, R>,
    pub(crate) own_bells: WorkerBells<Q::Alarm>,
    pub(crate) mailboxes: &'a Mailboxes<Q::Alarm>,
    pub(crate) due: Marks,
    // The broker closes.
    pub(crate) closing: bool,
    // It is known to others that a connection of it waits for a session.
    pub(crate) waits: bool,
    pub(crate) sharing: Sharing,
}

impl<'a, 'g, B: Broker, N: HistoryName, T: Transport + Drop, Q: Poller<T>, R: Wait> Model
    for Worker<'a, 'g, B, N, T, Q, R> {
    ghost use Rattle.broker_worker.specs.Resting.{WorkerState};

    ghost Value = { WorkerState T };

    ghost view = { λ w. record { connections = w.connections; bells = w.own_bells } };
}

impl<'a, 'g, B: Broker, N: HistoryName, T: Transport + Drop, Q: Poller<T> + Drop, R: Wait> Worker<
    'a,
    'g,
    B,
    N,
    T,
    Q,
    R,
> {
    /// A worker without connections.
    ///
    /// Those that it opens have the numbers from `number * share` of its parts on, and are `share` at most. It receives them through the channel of its parts, publishes through the ports
    /// of its handle, through which nothing was published, and calls the desk as the caller of its handle, which made no call.
    ///
    /// # Errors
    ///
    /// An allocation failed: the handle comes back.
    pub fn begin(
        rt: &'a R,
        alloc: Global,
        shared_broker: &'a SharedBroker<'g, B, N>,
        handle: WorkerHandle<B, N>,
        worker_parts: WorkerParts<T, Q>,
        mailboxes: &'a Mailboxes<Q::Alarm>,
    ) -> Result<Worker<'a, 'g, B, N, T, Q, R>, WorkerHandle<B, N>>
        requires received { worker_parts.receiver.received ≡ [] }
        requires unused { IsUnused handle.ports handle.desk }
        ensures fresh { IfOk result (λ worker. AreFresh worker_parts.receiver handle.ports worker.connections) }
        ensures numbers { IfOk result (λ worker. (worker.connections.first ≡ worker_parts.number * worker_parts.share) × (length worker.connections.cells ≡ worker_parts.share)) }
        ensures routes { IfOk result (λ worker. worker.connections.supply.known.table ≡ shared_broker.now) }
        ensures desk { IfOk result (λ worker. worker.connections.supply.desk ≡ handle.desk) }
        ensures back { IfErr result (λ back. back ≡ handle) }
    {
        let Ok(known) = shared_broker.observe_routes(alloc) else {
            drop(worker_parts);
            return Err(handle);
        };
        let Ok((first, table)) = table_of::<B, T>(alloc, worker_parts.number, worker_parts.share)
        else {
            drop(worker_parts);
            drop(known);
            return Err(handle);
        };
        let WorkerParts {
            number,
            share: _,
            unused_poller,
            receiver,
            own_bells,
            due,
            members,
        } = worker_parts;
        let WorkerHandle { key, ports, desk } = handle;
        let supply = SharedSupply::new(rt, alloc, shared_broker, key, ports, known, desk);
        let poller = unused_poller.into_inner();
        let connections = Connections::new(first, receiver, table, supply, members, poller);
        Ok(Worker::of(number, connections, own_bells, due, mailboxes))
    }

    /// A worker of a number, which has these connections.
    fn of(
        number: usize,
        connections: Connections<'a, 'g, B, N, T, Q, R>,
        own_bells: WorkerBells<Q::Alarm>,
        due: Marks,
        mailboxes: &'a Mailboxes<Q::Alarm>,
    ) -> Worker<'a, 'g, B, N, T, Q, R>
        ensures { result.connections ≡ connections.entry }
    {
        Worker {
            number,
            connections,
            own_bells,
            mailboxes,
            due,
            closing: false,
            waits: false,
            sharing: Sharing::NONE,
        }
    }

    /// Serves connections until the broker has closed and the last of them has ended.
    pub fn run(&mut self, rt: &R)
        ensures same { StaysOf self.old.connections self.new.connections }
        ensures done { IsDone self.new.connections }
    {
        self.mailboxes.note_begun();
        let mut buffer = [0; READ_SIZE];
        'turns: for _ in rt.forever() {
            let pause = self.turn(&mut buffer);
            if self.connections.is_done() {
                return;
            }
            self.wait(rt, pause);
            self.mark_ready();
            self.hear();
        }
        unreachable!()
    }

    /// A turn: goes on with the connections for which there is something to do. What came is read of all of them first; then jobs are handed out and others are called
    /// for them, and only then the replies are written. For how long the worker may wait after it: only where it is at rest, and no longer than until 50 milliseconds
    /// have gone by since all went on.
    fn turn(&mut self, buffer: &mut [u8; READ_SIZE]) -> u64
        ensures same { StaysOf self.old.connections self.new.connections }
        ensures rests { MayWait result self.new }
        ensures ticked { AreTicked self.new.connections.sweeps.latest self.new.connections.cells }
        ensures told { wakes_of self.new.connections ≡ no_wakes }
        ensures retired { RetiresInSweep B.group B.Seen.Witness self.old.connections self.new.connections }
        ensures offered { OffersInSweep B.group B.Seen.Witness T.counts T.given T.accepted self.old.connections self.new.connections }
    {
        self.serve(buffer);
        self.next_wait()
    }

    /// Goes on with the connections that are due, or with all of them where a sweep begins. In a sweep the sessions end whose time is over, before anything else is done.
    fn serve(&mut self, buffer: &mut [u8; READ_SIZE])
        ensures same { StaysOf self.old.connections self.new.connections }
        ensures in_time { IsInTime self.new.connections.sweeps }
        ensures told { wakes_of self.new.connections ≡ no_wakes }
        ensures retired { RetiresInSweep B.group B.Seen.Witness self.old.connections self.new.connections }
        ensures offered { OffersInSweep B.group B.Seen.Witness T.counts T.given T.accepted self.old.connections self.new.connections }
    {
        let all = self.connections.begin_sweep();
        self.retire_if(all);
        self.serve_due(all, buffer);
        self.share_out(all, buffer);
    }

    /// Where a sweep has begun, ends the sessions whose time is over: no connection may be there that ticks. What they held, others are told of with what this turn brings.
    fn retire_if(&mut self, sweeps: bool)
        ensures goes { Rounds self.old.connections self.new.connections }
        ensures same { self.new.connections ≡ record self.old.connections { supply = self.new.connections.supply } }
        ensures retired { sweeps ≡ true → RetiresAll B.group B.Seen.Witness self.old.connections self.new.connections }
    {
        if sweeps {
            self.connections.retire_due();
        }
    }

    /// Hands out jobs, and calls others for those that are theirs; then the replies are written. In a sweep, something is offered to the members of each group.
    fn share_out(&mut self, sweeps: bool, buffer: &mut [u8; READ_SIZE])
        ensures goes { Rounds self.old.connections self.new.connections }
        ensures told { wakes_of self.new.connections ≡ no_wakes }
        ensures offered { sweeps ≡ true → OffersEach B.group B.Seen.Witness T.counts T.given T.accepted self.old.connections self.new.connections }
    {
        self.plan();
        self.tell_beyond();
        self.hand_out(buffer);
        self.offer_if(sweeps, buffer);
        self.tell();
        self.reply(buffer);
        self.tell();
    }

    /// Waits for so many milliseconds at most, and takes the connections that were sent for it.
    fn wait(&mut self, rt: &R, pause: u64)
        requires rests { MayWait pause self.old }
        requires ticked { AreTicked self.old.connections.sweeps.latest self.old.connections.cells }
        requires told { wakes_of self.old.connections ≡ no_wakes }
        ensures same { StaysOf self.old.connections self.new.connections }
        ensures begun { self.new.connections.sweeps.begun ≡ self.old.connections.sweeps.begun }
    {
        let called = self.connections.wait(rt, pause);
        if called {
            self.answer(rt);
        }
        self.receive_end(rt);
    }

    /// Receives its end mark, where the broker closes and all connections were received.
    fn receive_end(&mut self, rt: &R)
        ensures same { StaysOf self.old.connections self.new.connections }
        ensures begun { self.new.connections.sweeps.begun ≡ self.old.connections.sweeps.begun }
    {
        if self.closing && self.mailboxes.is_all_received() {
            self.receive(rt);
        }
    }

    /// Answers the call of others: takes the connections that were sent for it.
    fn answer(&mut self, rt: &R)
        ensures same { StaysOf self.old.connections self.new.connections }
        ensures begun { self.new.connections.sweeps.begun ≡ self.old.connections.sweeps.begun }
    {
        let calls = self.mailboxes.take_calls(self.number);
        'invited: for _ in 0..calls.invited {
            self.receive(rt);
        }
        if calls.closing {
            self.closing = true;
        }
        if calls.all_due || calls.closing {
            self.due.mark_all();
        }
    }

    /// Receives what comes through the channel: a connection for which this worker was invited, or its end mark once all connections were received. A connection begins with a Tick.
    fn receive(&mut self, rt: &R)
        ensures same { StaysOf self.old.connections self.new.connections }
        ensures begun { self.new.connections.sweeps.begun ≡ self.old.connections.sweeps.begun }
    {
        let came = self.connections.receive(rt);
        let opened = note_came(&mut self.due, self.mailboxes, self.number, came);
        self.tick_first(opened);
    }

    /// Has a connection that was opened in a cell, if one was, begin with a Tick. So sessions whose time is over by then end before its CONNECT is answered: without it, a table that is full
    /// of them would keep out a newcomer who comes before the next sweep.
    fn tick_first(&mut self, opened: Option<usize>)
        ensures { Rounds self.old.connections self.new.connections }
    {
        if let Some(cell) = opened {
            let mut unread = [0; READ_SIZE];
            let _round = self.round(cell, Direction::Outbound, &mut unread, 0);
        }
    }

    /// What it had of the broker and knows of its routes and its desk, its end of the channel, how its connections ended, and where it waited: these are what its run has come to. Any
    /// connection that is still open ends as where the broker closes.
    pub fn into_parts(self) -> Returned<'a, B, N, T, Q>
        ensures receiver { result.receiver ≡ self.entry.connections.receiver }
        ensures served { result.served ≡ self.entry.connections.served }
        ensures counted { live self.entry.connections ≡ 0 → AreCounted (length self.entry.connections.receiver.received) result.served }
        ensures poller_calls { Q.poller_calls result.poller ≡ self.entry.connections.poller_calls }
        ensures ran { HasRunTo B.group B.Seen.Witness T.counts T.given T.accepted (run_of self.entry.connections) }
        ensures ports { live self.entry.connections ≡ 0 → result.handle.ports ≡ self.entry.connections.supply.ports }
        ensures known { live self.entry.connections ≡ 0 → result.known ≡ self.entry.connections.supply.known }
        ensures desk { live self.entry.connections ≡ 0 → result.handle.desk ≡ self.entry.connections.supply.desk }
    {
        let Worker {
            number: _,
            connections,
            own_bells,
            mailboxes: _,
            due,
            closing: _,
            waits: _,
            sharing: _,
        } = self;
        drop(own_bells);
        drop(due);
        connections.into_parts()
    }
}

/// Notes what came through the channel: a connection that is open is due, and one that was not opened has left the worker. The cell of one that is open.
fn note_came<W: Wake>(
    due: &mut Marks,
    mailboxes: &Mailboxes<W>,
    number: usize,
    came: Admission,
) -> Option<usize> {
    match came {
        Admission::Opened(cell) => {
            mailboxes.note_received();
            due.mark(cell);
            Some(cell)
        }
        Admission::Refused => {
            mailboxes.note_received();
            mailboxes.leave(number);
            None
        }
        Admission::EndMark | Admission::Nothing => None,
    }
}

/// The number of the connection in the first cell of a worker, and its cells, all free.
fn table_of<B: Broker, T: Transport>(
    alloc: Global,
    number: usize,
    share: u16,
) -> Result<(u16, ServiceTable<BrokerPlace<B>, T>), NoMemory>
    ensures first { IfOk result (λ made. made.0 ≡ number * share) }
    ensures free { IfOk result (λ made. made.1 ≡ replicate share None) }
{
    let first = number.saturating_mul(usize::from(share));
    if first >= usize::from(MOST_CONNECTIONS) {
        return Err(NoMemory);
    }
    let table = ServiceTable::new(alloc, share)?;
    Ok((first as u16, table))
}
