//! The channel by which connections come to workers: one sends, many receive.
//!
//! Who takes connections from a source has the [`Sender`]; each worker has a [`Receiver`]. After the last connection the sender sends an end mark
//! for each worker, and a worker that received one receives nothing more. Whatever the threads do, what was sent, in order, is an interleaving of what the workers
//! received, and after it what is still in the channel: so each connection is received by one worker, once, or still there. Where a worker received an
//! end mark, no connection is left in the channel ([`Sender::settle`]).
//!
//! ```
//! let (mut sender, mut receivers) = open(alloc, 2)?;
//! sender.send(rt, connection)?;
//! sender.end(rt);
//! match receivers[0].receive(rt) {
//!     Received::Connection(connection) => {}
//!     Received::EndMark => {}
//!     Received::Nothing => {} // the channel was empty at a moment of this call
//! }
//! ```
#![tactic(auto)]

mod ends;
mod queue;
mod sent;
mod view;
mod witness;

pub use ends::{Receiver, Sender, open, open_with_witness};
pub use queue::CAPACITY;
pub use sent::{Received, Sent};
pub use view::PassView;
pub use witness::{LawfulWitness, Nobody, Witness};
