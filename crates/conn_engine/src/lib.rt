//! What a connection answers, step by step: one client's side of a broker, with no clock, socket or thread.
//!
//! A [`Conn`] takes what comes to it, one [`Input`] a step, with the moment, and gives the packets that are to be written and
//! whether it goes on. What it asks of sessions, routes and groups it asks of a [`Supply`](conn_supply::Supply), which one thread
//! or many may stand behind.
//!
//! ```
//! let opening = Opening { at: now, limits };
//! let mut conn = Conn::open(alloc, 0, opening);
//! let next = conn.step(&mut supply, now, Input::Packet(connect), &mut packets)?; // a CONNACK, and what was sent before
//! let next = conn.step(&mut supply, now, Input::Tick, &mut packets)?; // what has come for its client since
//! let next = conn.step(&mut supply, now, Input::EndOfInput, &mut packets)?; // its session is parked: Then::Close
//! conn.end();
//! ```
//!
//! Sessions whose time is over are retired by each Tick; where there is no connection to step, by [`retire_due`], which asks the supply for each of them and hands it to [`retire`].
#![tactic(auto)]

mod answering;
mod conn;
mod connecting;
mod ending;
mod input;
mod looking;
mod phase;
mod reacting;

pub use conn::Conn;
pub use ending::{retire, retire_due};
pub use input::Input;
pub use phase::Opening;
