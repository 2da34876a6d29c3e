//! One connection, served over any transport and any supply: what is read is stepped, and what the steps say is written.
//!
//! A [`Service`] owns its client, its transport and the bytes that are still to be written. [`Service::round`] goes on with it as far as it can
//! without waiting, and tells what it waits for: both ways, or one way alone, so that who serves many connections reads of all of them before it writes.
//! [`serve`] is a loop of such rounds, for a transport whose calls wait.
//!
//! ```
//! let opening = Opening { at: clock.now(), limits };
//! let mut service = Service::open(alloc, number, opening, transport)?;
//! match service.round(&mut supply, &crossing, worker, clock.now(), &mut buffer, Direction::Both) {
//!     Round::Reading => {} // nothing more came yet: go on once something can be read, and after 50 milliseconds at most
//!     Round::Ended(served) => { let transport = service.end(); }
//!     ..
//! }
//! ```
//!
//! No thread and no socket is in it, and no call of it waits, unless one of the transport, the supply or the crossing does.
#![tactic(auto)]

mod answers;
mod crossing;
mod edge;
pub mod laws;
mod outgoing;
mod round;
mod served;
mod service;
mod serving;
mod stepping;

pub use answers::{Answer, AnswerCounts, LastWord};
pub use served::{Direction, Round, Served};
pub use service::Service;
pub use serving::serve;
