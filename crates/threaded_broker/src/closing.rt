//! How the gate of a broker is closed, and what its workers had comes back.
ghost use Rattle.std.specs.Prelude.{◌≡◌, ◌≤◌, [], length, map, vec_capacity};
ghost use Rattle.threaded_broker.specs.Callers.{HasTakenIn};

use broker_groups::{Broker, BrokerPlace, Ports};
use call_history::HistoryName;
use gate_word::Drained;
use shared_desk::DeskCaller;
use shared_supply::SharedBroker;
use std::sync::Wait;
use std::thread;
use worker_connections::WorkerHandle;
use worker_pool::Closer;

/// Shuts the gate, and looks until nobody is inside.
pub(crate) fn close<B: Broker, R: Wait>(rt: &R, closer: &mut Closer<'_, B>) -> Drained
    ensures { result ≡ B.gate }
{
    closer.shut();
    'looks: for _ in rt.forever() {
        if let Some(drained) = closer.drained() {
            return drained;
        }
        thread::yield_now();
    }
    unreachable!()
}

/// The ports of all workers, in the order of their handles, and this caller of the desk takes in theirs. There is room for the ports.
pub(crate) fn take_in<B: Broker, N: HistoryName>(
    shared_broker: &SharedBroker<'_, B, N>,
    caller: &mut DeskCaller<BrokerPlace<B>, N>,
    handles: Vec<WorkerHandle<B, N>>,
    room: Vec<Ports<B>>,
) -> Vec<Ports<B>>
    requires { (room.items ≡ []) × (length handles.items ≤ vec_capacity room) }
    ensures ports { result.items ≡ map (λ handle. handle.ports) handles.items }
    ensures taken_in { HasTakenIn caller.old (map (λ handle. handle.desk) handles.items) caller.new }
{
    let mut ports = room;
    for handle in handles {
        ports.push_reserved(handle.ports);
        shared_broker.agree(caller, handle.desk);
    }
    ports
}
