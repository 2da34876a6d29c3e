//! A group of a shared subscription on one thread: who has which message, and what became of it.
//!
//! ```
//! let mut group = LocalGroup::open(alloc, 0, 1_024)?; // slot 0, at most 1,024 messages wait
//! group.offer(5, message)?; // accepted through port 5
//! if let Some(envelope) = group.take(3)? {
//!     group.settle(envelope, Fate::Acknowledged); // place 3 was handed it, and acknowledges it
//! }
//! let report = group.report(alloc)?; // accepted 1, acknowledged 1
//! ```
//!
//! Every call does one step of the state machine of `dispatch_core`, and notes its event. An [`Envelope`](group_jobs::Envelope)
//! can't be dropped: its place settles it, or gives it back for another.
#![tactic(auto)]

mod error;
mod events;
mod group;
pub mod laws;
mod report;
mod waiting;

pub use error::{NotTaken, OfferError, TakeError};
pub use group::LocalGroup;
pub use waiting::Waiting;
