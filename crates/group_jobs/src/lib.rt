//! The values of a group's messages: what a message is, who holds it, what became of it.
//!
//! A [`SharedMessage`] that a group accepts gets a [`Stamp`]: its group, the port that it came through, and its number there. Who
//! is handed it has an [`Envelope`], which must be spent. What one place of the group has out, and what it settled, is its
//! [`Docket`]; the settled jobs of a place or of a group, by [`Fate`], are a [`Ledger`]. A [`Report`] says at the end what
//! became of each message.
//!
//! Nothing here is a queue, waits, or knows of threads. The groups themselves stand above: they differ in how a message gets
//! from a port to a place, and keep their dockets alike.
#![tactic(auto)]

mod docket;
mod envelope;
mod error;
mod fate;
pub mod laws;
mod ledger;
mod message;
mod report;
mod shared_message;
mod stamp;

pub use docket::Docket;
pub use envelope::Envelope;
pub use error::JobError;
pub use fate::Fate;
pub use ledger::Ledger;
pub use message::{Message, MessageExpiry};
pub use report::Report;
pub use shared_message::SharedMessage;
pub use stamp::Stamp;
