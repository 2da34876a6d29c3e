//! What a worker has of a broker.
use broker_groups::{Broker, BrokerPlace, Key, Ports};
use call_history::HistoryName;
use shared_desk::DeskCaller;

/// What a worker has of a broker: a key of its gate, a port of each of its groups, and who calls its desk.
#[derive(Drop)]
pub struct WorkerHandle<B: Broker, N: HistoryName> {
    pub key: Key<B>,
    pub ports: Ports<B>,
    pub desk: DeskCaller<BrokerPlace<B>, N>,
}
