//! What the connections of a broker on one thread share: the desk of sessions, the routes, and eight groups.
//!
//! A [`LocalSupply`] is a [`Supply`](conn_supply::Supply): each connection asks it for sessions, shares and messages. It is open
//! until [`LocalSupply::close`], and at the end it tells what became of each message.
//!
//! ```
//! let mut supply = LocalSupply::open(alloc, 1_024, Routes::new(alloc))?; // in each group at most 1,024 messages wait
//! let next = conn.step(&mut supply, now, input, &mut packets)?; // as many connections as there are, one step after the other
//! supply.close(); // nothing is accepted and handed out any more
//! let line = supply.line(alloc, 0)?; // what became of the messages of the first share
//! ```
#![tactic(auto)]

mod calls;
mod discarding;
mod groups;
pub mod laws;
mod opening;
mod place;
mod supply;

pub use place::LocalPlace;
pub use supply::LocalSupply;
