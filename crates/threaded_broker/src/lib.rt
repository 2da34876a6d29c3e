//! A broker on threads, as one call: its workers serve the connections of a source until it closes, and its groups end with their reports.
//!
//! The contract of [`serve`] is what the broker promises, in every schedule of its threads.
#![tactic(auto)]

mod closing;
mod opening;
mod serving;
mod shares;

pub use opening::OpenBroker;
pub use serving::{Closed, Closers, Outcome, serve, serve_until_closed};
