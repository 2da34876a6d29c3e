//! What the connections of a worker give back.
use crate::arrived::Arrived;
use crate::handle::WorkerHandle;
use crate::served::ServedCounts;
use broker_groups::Broker;
use call_history::HistoryName;
use conn_channel::Receiver;
use shared_routes::KnownRoutes;
use transport::Transport;

/// What the connections of a worker give back.
pub struct Returned<'a, B: Broker, N: HistoryName, T: Transport + Drop, Q> {
    /// What they had of the broker.
    pub handle: WorkerHandle<B, N>,
    /// Their end of the channel.
    pub receiver: Receiver<Arrived<T>>,
    /// How they ended.
    pub served: ServedCounts,
    /// What they know of the routes.
    pub known: KnownRoutes<'a>,
    /// Where their worker waited, and closed their transports.
    pub poller: Q,
}
