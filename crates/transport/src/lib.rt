//! What moves bytes between a client and a broker, apart from what the bytes mean: the traits that a serving loop stands
//! on.
//!
//! Nothing here knows of MQTT, of threads or of sockets, and no call waits.
#![tactic(auto)]

mod answers;
mod counts;
mod open_crossing;
mod traits;

pub use answers::{Arrival, Got, Put};
pub use counts::{Counts, Tally};
pub use open_crossing::OpenCrossing;
pub use traits::{Clock, Crossing, Source, Transport};
