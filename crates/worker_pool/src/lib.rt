//! A pool of workers that serve the connections of a source, each in a thread of its own.
//!
//! Who takes connections from a source sends them through a channel (`conn_channel`) and invites the worker (`broker_worker`) that has the fewest. Another thread
//! watches for what is to end the broker. [`run`] makes the workers, lets all of them do what they do, and gives back what they had of the broker.
#![tactic(auto)]

mod accepting;
mod network;
mod pool;
mod provision;
mod running;
mod setup;
mod watching;

pub use accepting::{Closer, SourceEnd, Taken};
pub use network::Network;
pub use pool::{Pooled, Unbegun, run};
pub use setup::PoolSetup;
pub use watching::Watch;
