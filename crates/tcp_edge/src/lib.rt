//! The edge over TCP: a transport over a stream that never waits, a reactor of many connections, and a listener.
//!
//! A worker has one [`Reactor`], registers its connections with it, and waits there until some may be read or written, or a bell
//! wakes it by the reactor's [`Alarm`]. A connection is a [`Socket`], of which each read and write is one call of the system: who
//! serves it collects what is to be written. A worker with a single connection needs no reactor: a [`Patient`] waits for it in its
//! reads and writes.
#![tactic(auto)]

mod patient;
mod reactor;
mod socket;
mod source;
mod until;
mod wire;

pub use patient::{PATIENCE, Patient};
pub use reactor::{Alarm, MOST_SOURCES, Reactor, ReactorError, Ready};
pub use socket::Socket;
pub use source::{ListenError, TcpSource, not_accepted};
pub use until::Until;
pub use wire::{IoOutcome, Wire};
