//! Topic names, filters and shares, and the table of routes (sections 4.7 and 4.8.2).
//!
//! ```
//! let share = Share::parse(text("$share/b/job")?)?;
//! let name = share.name(); // `b`
//! let filter = share.filter(); // `job`
//! let is_routed = share.matches(&TopicName::parse(text("job")?)?); // true
//! ```
#![tactic(auto)]

mod error;
mod filter;
mod laws;
mod levels;
mod routes;
mod share;
mod slots;
mod topic_name;

pub use error::{RefusedText, TopicError};
pub use filter::Filter;
pub use laws::{
    levels_are_cut, multi_level_matches_all, multi_level_matches_the_parent,
    plain_filters_match_one_name, shares_are_spelled, single_level_matches_one_level,
};
pub use routes::Routes;
pub use share::Share;
pub use slots::{SlotIter, Slots};
pub use topic_name::TopicName;
