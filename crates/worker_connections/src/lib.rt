//! The connections of one worker of a broker: each that it received is open, or has ended and is counted by how it ended.
//!
//! [`Connections`] receives them through a channel (`conn_channel`), as each [`Arrived`], has each in a cell of its [`ServiceTable`] under the number by which
//! a [`Poller`] watches it, and goes on with one at a time by a round. It knows when each of them went on last, and which members would be handed a job. What
//! a worker has of the broker it asks by its supply, and gives back as a [`WorkerHandle`].
#![tactic(auto)]

mod admission;
mod admitting;
mod arrived;
mod cell;
mod cell_outcome;
mod connections;
mod handle;
mod laws;
mod notice;
mod noting;
mod poller;
mod retiring;
mod returned;
mod round_notes;
mod served;
mod sweeps;
mod table;

pub use admission::Admission;
pub use arrived::Arrived;
pub use cell_outcome::CellOutcome;
pub use connections::Connections;
pub use handle::WorkerHandle;
pub use laws::draining_law;
pub use notice::{Notice, Tallies};
pub use poller::{Poller, Woken};
pub use returned::Returned;
pub use served::ServedCounts;
pub use sweeps::Sweeps;
pub use table::ServiceTable;
