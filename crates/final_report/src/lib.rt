//! The end of a broker that threads shared, and what its final report then says: the headline.
#![tactic(auto)]

mod ending;

pub use ending::{end_broker, end_groups, refute};
