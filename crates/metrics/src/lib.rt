//! What a broker tells of itself while it runs: numbers in Prometheus' text format and a page that draws them, over HTTP/1.1.
//!
//! A worker puts what it has counted into its [`SharedCounts`]; a [`MetricsService`] adds them up and answers requests; a [`MetricsServer`] serves them.
#![tactic(auto)]

mod answering;
mod clients;
mod counts;
mod exposition;
mod jobs;
mod page;
mod peer;
mod reason_codes;
mod server;
mod service;
mod workers;

pub use counts::{SharedCounts, TurnedAway, WorkerCounts, shared_counts};
pub use exposition::{Kind, Label, add_family, add_sample};
pub use server::{MetricsServer, OpenError};
pub use service::MetricsService;
