//! A broker on TCP: its workers, its listener, and its end.
//!
//! [`serve_at`] listens at an address and serves until its input ends; then it drains, where it is to do so, closes, and writes the report of each group whose share is bound.
#![tactic(auto)]

mod addresses;
mod attending;
mod beside;
mod client_stream;
mod drain;
mod elapsed;
mod first_packet;
mod listeners;
mod lobby;
mod logging;
mod metering;
mod network;
mod outcome;
mod reporting;
mod serving;
mod settings;
mod setup;
mod socket_poller;
mod turned_away;
mod waiting;
mod watching;

pub use client_stream::ClientStream;
pub use listeners::{ListenAt, Listeners};
pub use logging::{BrokerLog, LogPart};
pub use outcome::{Reported, report_outcome};
pub use serving::{ServingEnd, serve_at, serve_with};
pub use settings::ServeSettings;
