//! The groups of one broker that threads share, with its ports, places and keys, named by a type.
//!
//! A [`Broker`] says which gate and which eight groups a broker has. [`BrokerGroups`] are these groups, a [`BrokerPlace`] is a
//! place in one of them, [`Ports`] are a port of each, and a [`Key`] is a seat at the gate: what `B` is in the type of belongs to
//! `B`'s gate and groups, wherever it comes from, so no call has to look.
//!
//! ```
//! let opened = Opened::open(alloc, &gate, 1_024, workers)?; // the groups, with a port for each worker and 32 places each
//! serve::<Brand, R>(rt, alloc, &gate, seats, workers, opened) // the proof of this call names the broker by what was opened
//!
//! // in `serve`, over every name `N`: the broker `B` is `Witnessed<N, Nobody>`
//! let Named { groups, ports, places } = opened.name::<B>(alloc, workers)?;
//! let stamp = ports.offer(&groups, rt, &turn, slot, message)?; // a worker's ports
//! let envelope = place.take(&groups, rt, &turn)?; // a member's place
//! let ended = groups.finish(rt, alloc, all_ports, all_places, held)?; // each group with what is its own
//! ```
#![tactic(auto)]

mod broker;
mod ending;
mod groups;
mod key;
mod naming;
mod opening;
mod place;
mod ports;
mod sorting;

pub use broker::{Broker, BrokerName, Witnessed};
pub use ending::{Ended, Unended};
pub use groups::BrokerGroups;
pub use key::Key;
pub use naming::Named;
pub use opening::Opened;
pub use place::BrokerPlace;
pub use ports::Ports;
