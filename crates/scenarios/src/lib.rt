//! The scenarios of a server: what happens to its connections, and what is written then, worked out by hand from the standard.
#![tactic(auto)]

mod expiry;
mod identifiers;
mod jobs;
mod long_messages;
mod packets;
mod scenario;
mod sessions;

pub use scenario::{Scenario, ScenarioEvent, What};
pub use sessions::longest_wait;

/// All scenarios but the one of [`longest_wait`], by what they show: what becomes of jobs, of sessions and of single packets, Subscription
/// Identifiers, messages that are too long, and messages that expire.
pub fn all_scenarios() -> [&'static [Scenario<'static>]; 6] {
    [
        &jobs::SCENARIOS,
        &sessions::SCENARIOS,
        &packets::SCENARIOS,
        &identifiers::SCENARIOS,
        &long_messages::SCENARIOS,
        &expiry::SCENARIOS,
    ]
}
