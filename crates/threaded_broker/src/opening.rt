//! A broker that is open, and how it is opened.
ghost use Rattle.std.specs.Prelude.{◌≡◌, ◌+◌, ◌<◌, ◌≤◌, List, [], All, length, vec_capacity, IfOk};
ghost use Rattle.limits.specs.Limits.{most_ports};
ghost use Rattle.gate_word.specs.Seats.{AreSeatsOf};
ghost use Rattle.broker_groups.specs.Naming.{AreNewPlacesOf, AreUnsent, IsOfBroker};
ghost use Rattle.call_history.specs.Callers.{all_parts};
ghost use Rattle.group_queue.specs.Places.{PlaceState};
ghost use Rattle.worker_connections.specs.Handles.{IsUnused};
ghost use Rattle.threaded_broker.specs.Callers.{HasPutIn};

use crate::closing::take_in;
use broker_groups::{Broker, BrokerPlace, Key, Named, Opened, Ports};
use call_history::HistoryName;
use conn_supply::NoMemory;
use gate_word::{Gate, GateSeat};
use group_queue::Nobody;
use shared_desk::{DeskCaller, OpenedDesk, SharedDesk};
use shared_routes::{NewShares, SharedRoutes};
use shared_supply::{SharedBroker, StillOpen};
use std::alloc::Global;
use std::marker::Model;
use std::sync::Wait;
use worker_connections::WorkerHandle;

/// A broker that is open: what its workers share, what each of them has, and the first caller of its desk. There are 1 to 64 workers, and nobody has used what they have: nothing was
/// published through their ports, and they made no call of the desk. The first caller put new places of the groups into the desk, and did nothing else.
///
/// Contracts see it as the number of its workers, with the first caller, who together have the whole right to call the desk, and what its table of routes does with new shares.
pub struct OpenBroker<'g, B: Broker, N: HistoryName> {
    shared_broker: SharedBroker<'g, B, N>,
    handles: Vec<WorkerHandle<B, N>>,
    // Room for the ports of all workers.
    room: Vec<Ports<B>>,
    caller: DeskCaller<BrokerPlace<B>, N>,
}

impl<'g, B: Broker, N: HistoryName> Model for OpenBroker<'g, B, N> {
    ghost use Rattle.std.specs.Prelude.{◌≡◌, ◌+◌, ◌≤◌, List, [], All, length, vec_capacity};
    ghost use Rattle.limits.specs.Limits.{most_ports};
    ghost use Rattle.broker_groups.specs.Naming.{AreNewPlacesOf};
    ghost use Rattle.call_history.specs.Callers.{all_parts};
    ghost use Rattle.worker_connections.specs.Handles.{IsUnused};
    ghost use Rattle.group_queue.specs.Places.{PlaceState};
    ghost use Rattle.threaded_broker.specs.Callers.{BrokerState, HasPutIn};

    ghost Value = { BrokerState };

    ghost view = { λ b. record { workers = length b.handles.items; new_shares = b.shared_broker.new_shares; caller = b.caller } };

    ghost invariant = { λ b. (1 ≤ length b.handles.items) × (length b.handles.items ≤ most_ports) × All (λ handle. IsUnused handle.ports handle.desk) b.handles.items
        × (b.room.items ≡ []) × (length b.handles.items ≤ vec_capacity b.room) × (b.caller.parts + length b.handles.items ≡ all_parts)
        × ((places : List PlaceState) × AreNewPlacesOf B.group places × HasPutIn b.caller places) };
}

impl<'g, B: Broker<Seen = Nobody>, N: HistoryName> OpenBroker<'g, B, N> {
    /// Opens a broker over this gate with so many workers: names the groups and the desk that were opened for it, gives the desk all places, and each worker a seat, a port
    /// of each group, and a caller of the desk. No share is bound; what becomes of one that is not declared is said here. Some seats are left, for those who shut the gate.
    ///
    /// # Errors
    ///
    /// [`NoMemory`].
    pub fn open<R: Wait>(
        rt: &R,
        alloc: Global,
        gate: &'g Gate,
        seats: &mut Vec<GateSeat>,
        opened: Opened<'g>,
        desk: OpenedDesk<BrokerPlace<B>>,
        new_shares: NewShares,
        workers: u8,
    ) -> Result<OpenBroker<'g, B, N>, NoMemory>
        requires gate { gate.now ≡ B.gate }
        requires desk { desk ≡ N.history }
        requires workers { (1 ≤ workers) × (workers ≤ most_ports) }
        requires seats { AreSeatsOf gate.now seats.old.items × (workers ≤ length seats.old.items) }
        requires opened { IsOfBroker B.gate B.group workers opened }
        ensures seats { IfOk result (λ _. AreSeatsOf gate.now seats.new.items × (length seats.new.items + workers ≡ length seats.old.items)) }
        ensures workers { IfOk result (λ broker. broker.workers ≡ workers) }
        ensures shares { IfOk result (λ broker. broker.new_shares ≡ new_shares) }
    {
        let count = usize::from(workers);
        let (Ok(handles), Ok(room)) = (
            Vec::with_capacity(alloc, count),
            Vec::with_capacity(alloc, count),
        ) else {
            opened.abandon();
            desk.abandon();
            return Err(NoMemory);
        };
        let Ok(
            Named {
                groups,
                ports,
                places,
            },
        ) = opened.name::<B>(alloc, workers)
        else {
            desk.abandon();
            return Err(NoMemory);
        };
        let (desk, mut caller) = desk.name::<N>();
        desk.take_places(rt, &mut caller, places);
        let handles = take_ports(gate, seats, &desk, &mut caller, ports, handles);
        let routes = SharedRoutes::new(alloc, new_shares);
        let shared_broker = SharedBroker::new(gate, groups, desk, routes);
        Ok(OpenBroker {
            shared_broker,
            handles,
            room,
            caller,
        })
    }
}

/// What an open broker is made of.
pub(crate) struct BrokerParts<'g, B: Broker, N: HistoryName> {
    pub(crate) shared_broker: SharedBroker<'g, B, N>,
    pub(crate) handles: Vec<WorkerHandle<B, N>>,
    pub(crate) room: Vec<Ports<B>>,
    pub(crate) caller: DeskCaller<BrokerPlace<B>, N>,
}

impl<'g, B: Broker, N: HistoryName> OpenBroker<'g, B, N> {
    /// What it is made of.
    pub(crate) fn into_parts(self) -> BrokerParts<'g, B, N>
        ensures handles { length result.handles.items ≡ self.entry.workers }
        ensures workers { (1 ≤ self.entry.workers) × (self.entry.workers ≤ most_ports) }
        ensures unused { All (λ handle. IsUnused handle.ports handle.desk) result.handles.items }
        ensures room { (result.room.items ≡ []) × (self.entry.workers ≤ vec_capacity result.room) }
        ensures caller { result.caller ≡ self.entry.caller }
        ensures right { self.entry.caller.parts + self.entry.workers ≡ all_parts }
        ensures opened { (places : List PlaceState) × AreNewPlacesOf B.group places × HasPutIn self.entry.caller places }
    {
        let OpenBroker {
            shared_broker,
            handles,
            room,
            caller,
        } = self;
        BrokerParts {
            shared_broker,
            handles,
            room,
            caller,
        }
    }

    /// Gives the broker up, without a word of what became of its messages.
    pub fn abandon(self) {
        let OpenBroker {
            shared_broker,
            handles,
            room,
            mut caller,
        } = self;
        let ports = take_in(&shared_broker, &mut caller, handles, room);
        abandon(shared_broker, ports);
    }
}

/// Gives up what workers share, and ports, without a word of what became of messages.
pub(crate) fn abandon<B: Broker, N: HistoryName>(
    shared_broker: SharedBroker<'_, B, N>,
    ports: Vec<Ports<B>>,
) {
    let (groups, desk, routes) = shared_broker.into_parts();
    let left = StillOpen::Desk {
        desk: desk.into_desk(),
        groups,
        routes,
        ports,
    };
    left.abandon();
}

/// The last seat.
fn take_seat(gate: &Gate, seats: &mut Vec<GateSeat>) -> GateSeat
    requires { AreSeatsOf gate.now seats.old.items × (1 ≤ length seats.old.items) }
    ensures seat { result.gate ≡ gate.now }
    ensures others { AreSeatsOf gate.now seats.new.items × (length seats.new.items + 1 ≡ length seats.old.items) }
{
    let _ = gate;
    let Some(seat) = seats.pop() else {
        unreachable!()
    };
    seat
}

/// What each worker has: a seat, ports, and a caller of the desk, which has one part of the right to call of the one that is given. There is room for it among the handles, which
/// are empty.
fn take_ports<B: Broker, N: HistoryName>(
    gate: &Gate,
    seats: &mut Vec<GateSeat>,
    desk: &SharedDesk<BrokerPlace<B>, N>,
    caller: &mut DeskCaller<BrokerPlace<B>, N>,
    ports: Vec<Ports<B>>,
    handles: Vec<WorkerHandle<B, N>>,
) -> Vec<WorkerHandle<B, N>>
    requires gate { gate.now ≡ B.gate }
    requires seats { AreSeatsOf gate.now seats.old.items × (length ports.items ≤ length seats.old.items) }
    requires parts { length ports.items < caller.old.parts }
    requires room { (handles.items ≡ []) × (length ports.items ≤ vec_capacity handles) }
    requires unsent { All AreUnsent ports.items }
    ensures seats { AreSeatsOf gate.now seats.new.items × (length seats.new.items + length ports.items ≡ length seats.old.items) }
    ensures handles { length result.items ≡ length ports.items }
    ensures unused { All (λ handle. IsUnused handle.ports handle.desk) result.items }
    ensures caller { caller.new ≡ record caller.old { parts = caller.new.parts } }
    ensures parts { caller.new.parts + length ports.items ≡ caller.old.parts }
{
    let mut handles = handles;
    let mut left = ports;
    'handles: while let Some(ports) = left.pop() {
        let seat = take_seat(gate, seats);
        handles.push_reserved(handle_of(gate, seat, ports, desk.share(caller)));
    }
    handles
}

/// What a worker has.
fn handle_of<B: Broker, N: HistoryName>(
    gate: &Gate,
    seat: GateSeat,
    ports: Ports<B>,
    desk: DeskCaller<BrokerPlace<B>, N>,
) -> WorkerHandle<B, N>
    requires gate { gate.now ≡ B.gate }
    requires seat { seat.gate ≡ gate.now }
    ensures ports { result.ports ≡ ports }
    ensures desk { result.desk ≡ desk }
{
    let _ = gate;
    WorkerHandle {
        key: Key::of(seat),
        ports,
        desk,
    }
}
