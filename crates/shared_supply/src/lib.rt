//! What the workers of a broker share, and what each of them asks: a [`Supply`](conn_supply::Supply) for connections on many threads.
#![tactic(auto)]

mod calls;
mod counts;
mod discarding;
mod ending;
mod settling;
mod shared_broker;
mod supply;
mod wakes;

pub use counts::{GroupCounts, SessionCounts, SupplyCounts};
pub use ending::{Emptied, StillOpen, Unemptied};
pub use shared_broker::SharedBroker;
pub use supply::{SharedSupply, SupplyParts};
pub use wakes::{AskedBack, Wakes};
