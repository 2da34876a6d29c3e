//! A worker of a broker, and the day of one that works alone.
ghost use Rattle.std.specs.Prelude.{◌≡◌, ◌≤◌};

use crate::broker::ending::{Counts, end};
use crate::broker::opening::{Built, Day, WorkerHandle, open};
use broker_groups::{Broker, BrokerPlace, Key, Ports};
use call_history::HistoryName;
use conn_supply::Supply;
use gate_word::Gate;
use group_queue::Nobody;
use shared_supply::{SharedBroker, SharedSupply, SupplyParts};
use std::alloc::Global;
use std::sync::Wait;

/// What a worker does that works alone.
pub(crate) trait Shift {
    /// Does it over the worker's supply. There is a key for who shuts the gate.
    fn work<B: Broker, S: Supply<BrokerPlace<B>>>(
        &mut self,
        alloc: Global,
        supply: &mut S,
        gate: &Gate,
        spare: Key<B>,
    )
        requires { gate.now ≡ B.gate };
}

/// The supply of a worker. Where an allocation fails for it, its ports come back.
pub(crate) fn supply_of<'a, 'g, B: Broker, N: HistoryName, R: Wait>(
    rt: &'a R,
    alloc: Global,
    shared_broker: &'a SharedBroker<'g, B, N>,
    handle: WorkerHandle<B, N>,
) -> Result<SharedSupply<'a, 'g, B, N, R>, Ports<B>> {
    let WorkerHandle { key, ports, desk } = handle;
    match shared_broker.observe_routes(alloc) {
        Ok(known) => Ok(SharedSupply::new(rt, alloc, shared_broker, key, ports, known, desk)),
        Err(_) => Err(ports),
    }
}

/// The ports of a worker that has ended.
pub(crate) fn ports_of<B: Broker, N: HistoryName, R: Wait>(
    supply: SharedSupply<'_, '_, B, N, R>,
) -> Ports<B> {
    let SupplyParts {
        key: _,
        ports,
        known: _,
        desk: _,
    } = supply.into_parts();
    ports
}

/// A worker works; its ports come back.
fn work<B: Broker, N: HistoryName, H: Shift, R: Wait>(
    rt: &R,
    alloc: Global,
    gate: &Gate,
    shared_broker: &SharedBroker<'_, B, N>,
    handle: WorkerHandle<B, N>,
    spare: Key<B>,
    shift: &mut H,
) -> Ports<B>
    requires { gate.now ≡ B.gate }
{
    match supply_of(rt, alloc, shared_broker, handle) {
        Ok(supply) => {
            let mut supply = supply;
            shift.work(alloc, &mut supply, gate, spare);
            ports_of(supply)
        }
        Err(ports) => ports,
    }
}

/// The day of a broker whose one worker works alone.
#[derive(Drop)]
struct Alone<'h, H> {
    shift: &'h mut H,
}

impl<'h, H: Shift> Day for Alone<'h, H> {
    type Told = Vec<Counts>;

    fn pass<B: Broker<Seen = Nobody>, N: HistoryName, R: Wait>(
        &mut self,
        rt: &R,
        alloc: Global,
        gate: &Gate,
        built: Built<'_, B, N>,
    ) -> Option<Vec<Counts>> {
        let Built {
            shared_broker,
            mut handles,
            spare,
            mut caller,
        } = built;
        let mut ports = Vec::new(alloc);
        if let Some(handle) = handles.pop() {
            keep(
                &mut ports,
                work(rt, alloc, gate, &shared_broker, handle, spare, self.shift),
            );
        }
        end(rt, alloc, shared_broker, ports, &mut caller)
    }
}

/// One worker of a broker, in each of whose groups so many messages may wait, works, and the broker ends.
pub(crate) fn work_alone<H: Shift, R: Wait>(
    rt: &R,
    alloc: Global,
    capacity: usize,
    shift: &mut H,
) -> Option<Vec<Counts>>
    requires { (1 ≤ capacity) × (capacity ≤ 65536) }
{
    open(rt, alloc, capacity, 1, &mut Alone { shift })
}

/// Puts a worker's ports to the others.
pub(crate) fn keep<B: Broker>(all: &mut Vec<Ports<B>>, ports: Ports<B>) {
    if let Err(refused) = all.push(ports) {
        drop(refused);
    }
}
