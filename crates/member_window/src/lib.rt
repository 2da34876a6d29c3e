//! The window of one session towards its client: what the client was sent with QoS 1 and has not
//! acknowledged, under which packet identifier, and when the next PUBLISH packet may be sent.
//!
//! A [`Window`] keeps up to 256 items, in order of first sending, under identifiers from 1 to 256.
//! It outlives the session's connections: [`Window::up`] begins one with its Receive Maximum, and
//! [`Window::down`] ends it. On a connection what was sent on an earlier one is sent again first,
//! in its order and under its identifiers (OASIS MQTT 5.0, 4.4 and 4.6), and no more packets are
//! unacknowledged than the Receive Maximum (4.9).
//!
//! The items need be neither copied nor dropped. All memory is taken by [`Window::new`]; no later
//! call takes any, and none waits.
//!
//! ```
//! let mut window = Window::new(rt.alloc())?;
//! window.up(1); // a connection, with a Receive Maximum of 1
//! assert_eq!(rt; window.put(0x41), Ok(1));
//! assert_eq!(rt; window.put(0x42), Err(0x42)); // there is no room
//! assert_eq!(rt; window.ack(1), Some(0x41));
//! assert_eq!(rt; window.put(0x42), Ok(1));
//! ```
//!
//! The laws are in [`laws`]: every transcript of calls is legal, and what that means.
#![tactic(auto)]

mod entries;
mod error;
mod free;
pub mod laws;
mod window;

pub use error::WindowError;
pub use window::Window;
