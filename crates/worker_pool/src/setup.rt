//! How a pool serves.

use crate::network::Network;
use broker_worker::UnusedPoller;
use conn_rules::ClientLimits;

/// How a pool serves: where its connections come from, what each of its workers has of the system, and what holds of each connection. The pollers and the alarms are in the order of workers: a
/// worker waits at its poller, which its alarm wakes.
#[derive(Drop)]
pub struct PoolSetup<W: Network> {
    /// Where the connections come from.
    pub source: W::Source,
    /// Where each worker waits, and what its connections cross.
    pub unused_pollers: Vec<UnusedPoller<W::Transport, W::Poller>>,
    /// What wakes each worker.
    pub alarms: Vec<W::Alarm>,
    /// What the client of a connection is granted at most, whatever it asks for, and which clients are served.
    pub limits: ClientLimits,
}
