//! A broker that is opened, and what is done with it.
ghost use Rattle.std.specs.Prelude.{◌≡◌, ◌≤◌, ◌<◌, length, IfSome};
ghost use Rattle.gate_word.specs.Seats.{AreSeatsOf};
ghost use Rattle.broker_groups.specs.Naming.{IsOfBroker};

use broker_groups::{Broker, BrokerName, BrokerPlace, Key, Named, Opened, Ports, Witnessed};
use call_history::HistoryName;
use gate_word::{Gate, GateSeat};
use group_queue::Nobody;
use limits::DEFAULT_SESSIONS;
use session_desk::Newcomers;
use shared_desk::{DeskCaller, OpenedDesk, SharedDesk};
use shared_routes::{NewShares, SharedRoutes};
use shared_supply::SharedBroker;
use std::alloc::Global;
use std::marker::Brand;
use std::sync::Wait;

/// What a worker has of a broker.
#[derive(Drop)]
pub(crate) struct WorkerHandle<B: Broker, N: HistoryName> {
    pub(crate) key: Key<B>,
    pub(crate) ports: Ports<B>,
    pub(crate) desk: DeskCaller<BrokerPlace<B>, N>,
}

/// A broker that is open: its shared broker, what each worker has, a key for who shuts the gate, and a caller of its desk for who ends it.
pub(crate) struct Built<'g, B: Broker, N: HistoryName> {
    pub(crate) shared_broker: SharedBroker<'g, B, N>,
    pub(crate) handles: Vec<WorkerHandle<B, N>>,
    pub(crate) spare: Key<B>,
    pub(crate) caller: DeskCaller<BrokerPlace<B>, N>,
}

/// What is done with a broker from its opening to its end.
pub(crate) trait Day {
    /// What is told of it.
    type Told;

    /// Does it, and ends the broker. Where an allocation failed for that, nothing is told.
    fn pass<B: Broker<Seen = Nobody>, N: HistoryName, R: Wait>(
        &mut self,
        rt: &R,
        alloc: Global,
        gate: &Gate,
        built: Built<'_, B, N>,
    ) -> Option<Self::Told>
        requires { gate.now ≡ B.gate };
}

/// Shuts the gate, and says whether it was drained then.
pub(crate) fn shut<B: Broker>(gate: &Gate, key: Key<B>) -> bool
    requires { gate.now ≡ B.gate }
{
    let mut seat = key.into_seat();
    gate.shut(&mut seat);
    gate.drained(&mut seat).is_some()
}

/// A key by the last seat.
fn take_key<B: Broker>(gate: &Gate, seats: &mut Vec<GateSeat>) -> Option<Key<B>>
    requires gate { gate.now ≡ B.gate }
    requires seats { AreSeatsOf gate.now seats.old.items }
    ensures { AreSeatsOf gate.now seats.new.items }
{
    let _ = gate;
    match seats.pop() {
        Some(seat) => Some(Key::of(seat)),
        None => None,
    }
}

/// What each worker has: a seat, ports and a caller of the desk.
fn take_ports<B: Broker, N: HistoryName>(
    alloc: Global,
    gate: &Gate,
    seats: &mut Vec<GateSeat>,
    desk: &SharedDesk<BrokerPlace<B>, N>,
    caller: &mut DeskCaller<BrokerPlace<B>, N>,
    ports: Vec<Ports<B>>,
) -> Vec<WorkerHandle<B, N>>
    requires gate { gate.now ≡ B.gate }
    requires seats { AreSeatsOf gate.now seats.old.items }
    requires parts { length ports.items < caller.old.parts }
{
    let mut handles = Vec::new(alloc);
    let mut left = ports;
    'handles: while let Some(ports) = left.pop() {
        if let Some(key) = take_key(gate, seats) {
            let desk = desk.share(caller);
            if let Err(refused) = handles.push(WorkerHandle { key, ports, desk }) {
                drop(refused);
            }
        }
    }
    handles
}

/// Names what was opened, and gives the desk its places. Where an allocation fails, the groups are given up.
pub(crate) fn build<'g, B: Broker<Seen = Nobody>, N: HistoryName, R: Wait>(
    rt: &R,
    alloc: Global,
    gate: &'g Gate,
    seats: Vec<GateSeat>,
    opened: Opened<'g>,
    desk: OpenedDesk<BrokerPlace<B>>,
    workers: u8,
) -> Option<Built<'g, B, N>>
    requires gate { gate.now ≡ B.gate }
    requires desk { desk ≡ N.history }
    requires seats { AreSeatsOf gate.now seats.items }
    requires opened { IsOfBroker B.gate B.group workers opened }
    requires workers { workers ≤ 63 }
{
    let Named {
        groups,
        ports,
        places,
    } = match opened.name::<B>(alloc, workers) {
        Ok(named) => named,
        Err(_) => {
            desk.abandon();
            return None;
        }
    };
    let mut seats = seats;
    let Some(spare) = take_key(gate, &mut seats) else {
        groups.abandon();
        desk.abandon();
        return None;
    };
    let (desk, mut caller) = desk.name::<N>();
    desk.take_places(rt, &mut caller, places);
    let handles = take_ports(alloc, gate, &mut seats, &desk, &mut caller, ports);
    let shared_broker = SharedBroker::new(
        gate,
        groups,
        desk,
        SharedRoutes::new(alloc, NewShares::Bound),
    );
    Some(Built {
        shared_broker,
        handles,
        spare,
        caller,
    })
}

/// The day of a broker with so many workers.
fn live<M: BrokerName, D: Day, R: Wait>(
    rt: &R,
    alloc: Global,
    gate: &Gate,
    seats: Vec<GateSeat>,
    opened: Opened<'_>,
    workers: u8,
    day: &mut D,
) -> Option<D::Told>
    requires gate { gate.now ≡ M.gate }
    requires seats { AreSeatsOf gate.now seats.items }
    requires opened { IsOfBroker M.gate M.group workers opened }
    requires workers { workers ≤ 63 }
{
    match OpenedDesk::open(alloc, Newcomers::Displace(DEFAULT_SESSIONS)) {
        Ok(desk) => live_with::<Witnessed<M, Nobody>, Brand, D, R>(
            rt, alloc, gate, seats, opened, desk, workers, day,
        ),
        Err(_) => {
            opened.abandon();
            None
        }
    }
}

/// The same, with a desk that is named by what it is.
fn live_with<B: Broker<Seen = Nobody>, N: HistoryName, D: Day, R: Wait>(
    rt: &R,
    alloc: Global,
    gate: &Gate,
    seats: Vec<GateSeat>,
    opened: Opened<'_>,
    desk: OpenedDesk<BrokerPlace<B>>,
    workers: u8,
    day: &mut D,
) -> Option<D::Told>
    requires gate { gate.now ≡ B.gate }
    requires seats { AreSeatsOf gate.now seats.items }
    requires opened { IsOfBroker B.gate B.group workers opened }
    requires workers { workers ≤ 63 }
    requires desk { desk ≡ N.history }
{
    match build::<B, N, R>(rt, alloc, gate, seats, opened, desk, workers) {
        Some(built) => day.pass(rt, alloc, gate, built),
        None => None,
    }
}

/// The same, of groups that are opened and named by what they are.
fn open_groups<D: Day, R: Wait>(
    rt: &R,
    alloc: Global,
    gate: &Gate,
    seats: Vec<GateSeat>,
    capacity: usize,
    workers: u8,
    day: &mut D,
) -> Option<D::Told>
    requires seats { AreSeatsOf gate.now seats.items }
    requires capacity { (1 ≤ capacity) × (capacity ≤ 65536) }
    requires workers { (1 ≤ workers) × (workers ≤ 63) }
{
    match Opened::open(alloc, gate, capacity, workers) {
        Ok(opened) => live::<Brand, D, R>(rt, alloc, gate, seats, opened, workers, day),
        Err(_) => None,
    }
}

/// A broker for so many workers, in each of whose groups so many messages may wait, lives a day.
pub(crate) fn open<D: Day, R: Wait>(
    rt: &R,
    alloc: Global,
    capacity: usize,
    workers: u8,
    day: &mut D,
) -> Option<D::Told>
    requires capacity { (1 ≤ capacity) × (capacity ≤ 65536) }
    requires workers { (1 ≤ workers) × (workers ≤ 63) }
{
    match Gate::open(alloc, usize::from(workers) + 1) {
        Ok((gate, seats)) => open_groups(rt, alloc, &gate, seats, capacity, workers, day),
        Err(_) => None,
    }
}
