//! A server on one thread: events happen to it, one after another, and it says what is written to whom.
//!
//! ```
//! let groups = Routes::new(alloc); // clients bind the shares that they subscribe to
//! let setup = Setup { capacity, max_inflight: MaxInflight::most(), groups }; // in each group at most 1,024 messages wait
//! let mut server = Server::open(alloc, setup)?;
//! let number = ConnectionNumber::new(0)?;
//! server.happen(0, &Event::Open(number), &mut outputs)?; // a client connects, at the moment 0
//! server.happen(3, &Event::Bytes(number, piece), &mut outputs)?; // what it sent: `outputs` has the answers
//! server.happen(9, &Event::Close, &mut outputs)?; // every client is told
//! let line = server.line(alloc, 0)?; // what became of the messages of the first share
//! server.end();
//! ```
#![tactic(auto)]

mod event;
pub mod laws;
mod number;
mod server;

pub use event::{ServerEvent, TimedEvent};
pub use number::{ConnectionNumber, OutOfRange};
pub use server::Server;
