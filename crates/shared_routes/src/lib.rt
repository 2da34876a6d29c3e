//! The table of routes that threads share: which share is bound to which slot.
//!
//! A [`SharedRoutes`] has a cell for each of eight slots, which is written once and for good. Each worker keeps what it has seen of it in a
//! [`KnownRoutes`], asks that where a topic goes, and learns what others bound in between. So a PUBLISH finds its groups without a lock, and
//! without a look at what other workers write.
//!
//! ```
//! let routes = SharedRoutes::new(alloc, NewShares::Bound);
//! let mut known = KnownRoutes::new(alloc, &routes)?;
//! let slot = known.bind(alloc, share)?; // the slot that the share is bound to, by whomever
//! known.refresh();
//! let slots = known.matching(&topic);
//! ```
#![tactic(auto)]

mod cell;
mod error;
mod known;
mod new_shares;
mod table;

pub use error::BindError;
pub use known::KnownRoutes;
pub use new_shares::NewShares;
pub use table::SharedRoutes;
