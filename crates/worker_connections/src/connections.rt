//! The connections of a worker: those that it received are open, or have ended and are counted.
ghost use Rattle.std.specs.Prelude.{◌≡◌, ◌<◌, ◌≤◌, ◌+◌, ℕ, Bool, [], None, true, false, replicate, length};
ghost use Rattle.limits.specs.Limits.{most_groups};
ghost use Rattle.group_queue.specs.Places.{PlaceState};
ghost use Rattle.worker_connections.specs.Cells.{FollowsIn, InCell, Turns, ended_by, occupied};
ghost use Rattle.worker_connections.specs.declared.cell_outcome.CellOutcome.{CellOutcome as AnyOutcome};
ghost use Rattle.shared_supply.specs.Calls.{Calls};
ghost use Rattle.shared_supply.specs.Waking.{KeepsAtMost, no_wakes};
ghost use Rattle.shared_supply.specs.Workers.{Begins as BeginsVisit, Leaves as LeavesVisit, draining_if, is_visiting};
ghost use Rattle.worker_connections.specs.Chains.{HasRunTo, OwesNothing};
ghost use Rattle.worker_connections.specs.PollerCalls.{Wait as WaitCall, HasNoCalls, with_call};
ghost use Rattle.worker_connections.specs.Handles.{IsUnused};
ghost use Rattle.worker_connections.specs.Serving.{AreCounted, AreFresh, GoesBy, IsDone, RetiresAll, Rounds, StaysOf, TellsCell, live, round_of, run_of, wakes_of, with_wakes};
ghost use Rattle.worker_connections.specs.Members.{HasTaker, TakesIn as WouldTake, one_called_if};
ghost use Rattle.worker_bells.specs.Wishing.{IsWished};
ghost use Rattle.worker_connections.specs.Sweeping.{AreTicked, Begins, HasGone, IsInTime, Notes, WaitsInTime, looked, sweep_period};

use crate::admission::Admission;
use crate::admitting::{settle, take_in};
use crate::arrived::Arrived;
use crate::cell_outcome::CellOutcome;
use crate::handle::WorkerHandle;
use crate::notice::Tallies;
use crate::noting::{note_held, note_interest};
use crate::poller::Poller;
use crate::retiring::retire_in_visit;
use crate::returned::Returned;
use crate::served::ServedCounts;
use crate::sweeps::Sweeps;
use crate::table::ServiceTable;
use broker_groups::{Broker, BrokerPlace};
use call_history::HistoryName;
use conn_channel::{Received, Receiver};
use conn_service::{Direction, Round};
use shared_supply::{GroupCounts, SharedSupply, SupplyParts, Wakes};
use std::marker::Model;
use std::sync::Wait;
use transport::{Crossing, Transport};
use worker_bells::{Members, SLOTS};

/// The connections that a worker received, each in a cell of its table as long as it is open, what they ask of the broker, and where the worker waits for them.
///
/// Contracts see it as a `ConnectionsState`: what was received of the channel, which connections are open and when they went on, how many have ended in
/// which way, what they ask, and the calls of the poller. All that came of it is one run, from a supply through which nothing was published: each deed of it began at the state that the one
/// before it left, and is of one of these connections.
pub struct Connections<
    'a,
    'g,
    B: Broker,
    N: HistoryName,
    T: Transport + Drop,
    Q: Poller<T>,
    R: Wait,
> {
    // The number of the connection in the first cell, from which on those in the others have theirs.
    first: u16,
    receiver: Receiver<Arrived<T>>,
    table: ServiceTable<BrokerPlace<B>, T>,
    supply: SharedSupply<'a, 'g, B, N, R>,
    served: ServedCounts,
    sweeps: Sweeps,
    members: Members,
    poller: Q,
}

impl<'a, 'g, B: Broker, N: HistoryName, T: Transport + Drop, Q: Poller<T>, R: Wait> Model
    for Connections<'a, 'g, B, N, T, Q, R> {
    ghost use Rattle.std.specs.Prelude.{◌≡◌, length};
    ghost use Rattle.worker_connections.specs.Chains.{HasRunTo};
    ghost use Rattle.worker_connections.specs.Serving.{ConnectionsState, IsAccounted};
    ghost use Rattle.worker_connections.specs.Sweeping.{AreSwept};
    ghost use Rattle.worker_connections.specs.Members.{AreWished};

    ghost Value = { ConnectionsState T };

    ghost view = { λ c. record { first = c.first; receiver = c.receiver; cells = c.table; served = c.served; sweeps = c.sweeps; supply = c.supply; poller_calls = Q.poller_calls c.poller } };

    ghost invariant = { λ c. IsAccounted (length c.receiver.received) c.table c.served × AreSwept c.sweeps c.table
        × (length c.members ≡ length c.table) × AreWished c.table c.members
        × HasRunTo B.group (record { saw_ledger = B.Seen.saw_ledger; saw_main = B.Seen.saw_main; saw_returns = B.Seen.saw_returns }) T.counts T.given T.accepted (record { first = c.first; supply = c.supply; cells = c.table; received = c.receiver.received; served = c.served; poller_calls = Q.poller_calls c.poller; latest = c.sweeps.latest }) };
}

impl<'a, 'g, B: Broker, N: HistoryName, T: Transport + Drop, Q: Poller<T>, R: Wait> Connections<
    'a,
    'g,
    B,
    N,
    T,
    Q,
    R,
> {
    /// None yet, of those that this end of the channel will receive; this table is for them, with these numbers from the first cell's on, these are their wishes, this supply is what
    /// they ask, and at this poller their worker waits for them. Nothing was published through the supply's ports, it made no call of the desk and does not drain, and the poller was not used yet.
    pub fn new(
        first: u16,
        receiver: Receiver<Arrived<T>>,
        table: ServiceTable<BrokerPlace<B>, T>,
        supply: SharedSupply<'a, 'g, B, N, R>,
        members: Members,
        poller: Q,
    ) -> Connections<'a, 'g, B, N, T, Q, R>
        requires receiver { receiver.received ≡ [] }
        requires table { table ≡ replicate (length members) None }
        requires supply { supply.wakes ≡ no_wakes }
        requires draining { supply.draining ≡ false }
        requires unused { IsUnused supply.ports supply.desk }
        requires poller_calls { HasNoCalls (Q.poller_calls poller) }
        ensures fresh { AreFresh receiver supply.entry.ports result }
        ensures numbers { (result.first ≡ first) × (length result.cells ≡ length members) }
        ensures known { result.supply.known ≡ supply.entry.known }
        ensures desk { result.supply.desk ≡ supply.entry.desk }
    {
        Connections {
            first,
            receiver,
            table,
            supply,
            served: ServedCounts::NONE,
            sweeps: Sweeps::NEW,
            members,
            poller,
        }
    }

    /// How many cells there are.
    pub fn len(&self) -> usize
        ensures { result ≡ length self.now.cells }
    {
        self.table.len()
    }

    /// The end mark was received, and nothing more is.
    pub fn is_ended(&self) -> bool {
        self.receiver.is_ended()
    }

    /// Nothing more comes, and all that came have ended.
    pub fn is_done(&self) -> bool
        ensures { result ≡ true → IsDone self.now }
    {
        self.receiver.is_ended() && self.table.is_empty()
    }

    /// Whether each of them is to go on. Then a sweep begins, in which they do so one after the other.
    pub fn begin_sweep(&mut self) -> bool
        ensures same { self.new ≡ record self.old { sweeps = self.new.sweeps } }
        ensures begins { result ≡ true → Begins (length self.old.cells) self.old.sweeps self.new.sweeps }
        ensures late { result ≡ true → HasGone 0 (length self.new.cells) self.new.sweeps }
        ensures in_time { result ≡ false → (self.new.sweeps ≡ self.old.sweeps) × IsInTime self.new.sweeps }
    {
        if !self.sweeps.is_late() {
            return false;
        }
        self.sweeps.begin(self.table.len());
        true
    }

    /// Retires the sessions whose time is over at the worker's moment, unless the gate is shut: so they end also where no connection is there that ticks.
    pub fn retire_due(&mut self)
        ensures goes { Rounds self.old self.new }
        ensures retired { RetiresAll B.group B.Seen.Witness self.old self.new }
    {
        retire_in_visit(&mut self.supply, self.sweeps.latest);
    }

    /// For how many milliseconds at most a worker may wait until its connections are to go on.
    pub fn left(&self) -> u64
        ensures in_time { WaitsInTime result self.now.sweeps.latest self.now.sweeps.swept }
        ensures ticked { IsInTime self.now.sweeps → AreTicked self.now.sweeps.latest self.now.cells }
    {
        self.sweeps.left()
    }

    /// Which of them would be handed a job, and which wait for a session.
    pub fn members(&self) -> &Members
        ensures { (slot : ℕ) → slot < most_groups → HasTaker slot self.now.cells → IsWished slot result.now }
    {
        &self.members
    }

    /// Whether the client in a cell is a member of the group of this slot, and there is room for a job.
    pub fn would_take(&self, cell: usize, slot: usize) -> bool
        ensures yes { result ≡ true → WouldTake slot cell self.now.cells }
        ensures no { result ≡ false → ¬ WouldTake slot cell self.now.cells }
    {
        if cell >= self.table.len() {
            return false;
        }
        match self.table.takes_from(cell) {
            Some(taken) => usize::from(taken) == slot,
            None => false,
        }
    }

    /// Whether something has changed among those who would be handed a job of a group since this was asked last.
    pub fn take_changed(&mut self, slot: usize) -> bool
        ensures { self.new ≡ self.old }
    {
        self.members.take_changed(slot)
    }

    /// Notes that the client in a cell was handed a message of a group.
    pub fn note_served(&mut self, cell: usize, slot: usize)
        ensures { self.new ≡ self.old }
    {
        self.members.note_served(cell, slot);
    }

    /// What they count of the messages of the group of a slot.
    pub fn counts(&self, slot: usize) -> GroupCounts {
        self.supply.counts().of(slot)
    }

    /// How many of the messages that the latest round might have handed out it did not.
    pub fn unused(&self) -> u32 {
        self.supply.allowance()
    }

    /// Counts, where a ring was heard, that another worker called this one for a message of the group of this slot.
    pub fn count_call_if(&mut self, slot: usize, heard: bool)
        requires { slot < most_groups }
        ensures { self.new ≡ with_wakes self.old (one_called_if heard slot (wakes_of self.old)) }
    {
        if heard {
            self.supply.count_call(slot);
        }
    }

    /// For each slot, how many messages of its group they brought that others may wait for.
    pub fn messages(&self) -> [u32; SLOTS]
        ensures { result ≡ (wakes_of self.now).messages }
    {
        self.supply.wakes().messages
    }

    /// Keeps of these messages so many of each group at most, and gives back how many more there are.
    pub fn keep(&mut self, most: &[u32; SLOTS]) -> [u32; SLOTS]
        ensures kept { KeepsAtMost most.now result (wakes_of self.old) (wakes_of self.new) }
        ensures same { self.new ≡ with_wakes self.old (wakes_of self.new) }
    {
        self.supply.keep_messages(most)
    }

    /// What they did since it was last asked that others may wait for.
    pub fn take_wakes(&mut self) -> Wakes
        ensures told { result ≡ wakes_of self.old }
        ensures cleared { self.new ≡ with_wakes self.old no_wakes }
    {
        self.supply.take_wakes()
    }

    /// Waits until something may be read or written, or the worker is called, or for so many milliseconds; the worker's moment is that behind it, and from then on it
    /// drains, where the poller tells so. Whether it was called.
    pub fn wait(&mut self, rt: &R, at_most: u64) -> bool
        requires owes { OwesNothing (run_of self.old) }
        requires in_time { at_most ≤ sweep_period }
        ensures { (now : ℕ) × (drains : Bool) × (self.new ≡ record self.old { supply = draining_if drains self.old.supply; poller_calls = with_call (WaitCall at_most now drains) self.old.poller_calls; sweeps = looked now self.old.sweeps }) }
    {
        let told = Tallies {
            supply: self.supply.counts(),
            served: &self.served,
            answers: self.table.answers(),
            connected: self.table.connected(),
            routes: self.supply.known(),
        };
        let woken = self.poller.wait(rt, at_most, &told);
        self.sweeps.look(woken.now);
        self.supply.drain_if(woken.drains);
        woken.called
    }

    /// The cell of a connection that may be read or written, by the last wait.
    pub fn take_ready(&mut self) -> Option<usize>
        ensures { self.new ≡ self.old }
    {
        self.poller.take_ready()
    }

    /// Receives what comes through the channel. A connection is watched by the poller and opened at the worker's moment; where an allocation for it fails, or the
    /// system does not watch it, it is closed and has ended at once.
    pub fn receive(&mut self, rt: &R) -> Admission
        ensures same { StaysOf self.old self.new }
        ensures cell { TellsCell result self.old.cells self.new.cells }
        ensures sweeps { self.new.sweeps ≡ self.old.sweeps }
        ensures supply { self.new.supply ≡ self.old.supply }
    {
        if self.receiver.is_ended() {
            return Admission::Nothing;
        }
        let now = self.sweeps.latest;
        match self.receiver.receive(rt) {
            Received::Connection(arrived) => {
                take_in(
                    &mut self.table,
                    &mut self.served,
                    &mut self.poller,
                    arrived,
                    self.first,
                    now,
                )
            }
            Received::EndMark => Admission::EndMark,
            Received::Nothing => Admission::Nothing,
        }
    }

    /// The connection in a cell goes on by a round this way, at the worker's moment, in which so many messages at most are handed to its client for the first time. Where
    /// that ends it, it is closed. What it waits for then; `None` where the cell is free.
    pub fn round(
        &mut self,
        cell: usize,
        worker: u32,
        buffer: &mut [u8],
        direction: Direction,
        most: u32,
    ) -> Option<Round>
        requires room { 0 < length buffer.old }
        ensures goes { Rounds self.old self.new }
        ensures notes { cell < length self.old.cells → Notes cell (length self.old.cells) self.old.sweeps self.new.sweeps }
        ensures made { cell < length self.old.cells → (cell_outcome : AnyOutcome T) × (result ≡ round_of cell_outcome) × GoesBy B.group B.Seen.Witness T.counts T.given T.accepted cell direction most cell_outcome self.old self.new }
    {
        if cell >= self.table.len() {
            return None;
        }
        self.go_on(cell, worker, buffer, direction, most)
    }

    /// The same, where there is such a cell. What became of it is noted.
    fn go_on(
        &mut self,
        cell: usize,
        worker: u32,
        buffer: &mut [u8],
        direction: Direction,
        most: u32,
    ) -> Option<Round>
        requires cell { cell < length self.old.cells }
        requires room { 0 < length buffer.old }
        ensures goes { Rounds self.old self.new }
        ensures notes { Notes cell (length self.old.cells) self.old.sweeps self.new.sweeps }
        ensures made { (cell_outcome : AnyOutcome T) × (result ≡ round_of cell_outcome) × GoesBy B.group B.Seen.Witness T.counts T.given T.accepted cell direction most cell_outcome self.old self.new }
    {
        let now = self.sweeps.latest;
        self.supply.allow(most);
        let cell_outcome = make_round(
            &mut self.table,
            &mut self.supply,
            cell,
            &self.poller,
            worker,
            now,
            buffer,
            direction,
        );
        self.served.count_behind(&cell_outcome);
        self.sweeps.note(cell, self.table.len());
        note_interest(&self.table, cell, &mut self.members);
        note_held(
            &self.table,
            cell,
            direction,
            &cell_outcome,
            &mut self.members,
        );
        settle(&self.table, &mut self.poller, cell, cell_outcome)
    }

    /// What they had of the broker and know of its routes and its desk, the end of the channel, how they ended, and where their worker waited: these are what their run has
    /// come to. Any that is still open ends as where the broker closes.
    pub fn into_parts(self) -> Returned<'a, B, N, T, Q>
        ensures receiver { result.receiver ≡ self.entry.receiver }
        ensures served { result.served ≡ self.entry.served }
        ensures counted { live self.entry ≡ 0 → AreCounted (length self.entry.receiver.received) result.served }
        ensures poller_calls { Q.poller_calls result.poller ≡ self.entry.poller_calls }
        ensures ran { HasRunTo B.group B.Seen.Witness T.counts T.given T.accepted (run_of self.entry) }
        ensures ports { live self.entry ≡ 0 → result.handle.ports ≡ self.entry.supply.ports }
        ensures known { live self.entry ≡ 0 → result.known ≡ self.entry.supply.known }
        ensures desk { live self.entry ≡ 0 → result.handle.desk ≡ self.entry.supply.desk }
    {
        let Connections {
            first: _,
            receiver,
            table,
            mut supply,
            served,
            sweeps: _,
            members,
            poller,
        } = self;
        drop(members);
        abandon(table, &mut supply);
        let SupplyParts {
            key,
            ports,
            known,
            desk,
        } = supply.into_parts();
        Returned {
            handle: WorkerHandle { key, ports, desk },
            receiver,
            served,
            known,
            poller,
        }
    }
}

/// The connection in a cell goes on by a round this way, at this moment.
fn make_round<'a, 'g, B: Broker, N: HistoryName, T: Transport, R: Wait, X: Crossing>(
    table: &mut ServiceTable<BrokerPlace<B>, T>,
    supply: &mut SharedSupply<'a, 'g, B, N, R>,
    cell: usize,
    crossing: &X,
    worker: u32,
    now: u64,
    buffer: &mut [u8],
    direction: Direction,
) -> CellOutcome<T>
    requires cell { cell < length table.old }
    requires room { 0 < length buffer.old }
    ensures turns { InCell table.old cell (λ before after. Turns (Calls B.group B.Seen.Witness) BeginsVisit LeavesVisit is_visiting (λ (p : PlaceState). p.group) T.counts T.given T.accepted now before supply.old result after supply.new) table.new }
    ensures way { InCell table.old cell (λ before after. FollowsIn T.given T.accepted direction now before result after) table.new }
    ensures len { length table.new ≡ length table.old }
    ensures count { occupied table.old ≡ occupied table.new + ended_by result }
    ensures routes { supply.new.known.table ≡ supply.old.known.table }
    ensures parts { supply.new.desk.parts ≡ supply.old.desk.parts }
{
    table.round(cell, supply, crossing, worker, now, buffer, direction)
}

/// Lets go of the connections that are still open.
fn abandon<'a, 'g, B: Broker, N: HistoryName, T: Transport + Drop, R: Wait>(
    table: ServiceTable<BrokerPlace<B>, T>,
    supply: &mut SharedSupply<'a, 'g, B, N, R>,
)
    ensures { occupied table ≡ 0 → supply.new ≡ supply.old }
{
    table.abandon(supply, 0);
}
