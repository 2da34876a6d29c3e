//! Who has which session of a broker: the one place that knows them all.
//!
//! A [`Desk`] lends a session to a connection that asks for one for a client ([`Desk::attach`]), and takes it back when the
//! connection has ended ([`Desk::park`]). It keeps it until the client comes back or its time is over; then
//! [`Desk::sweep`] hands it out to be retired, and [`Desk::bury`] ends it. So a session is always in one pair of hands: lent to
//! one connection, parked, ending and kept, or ending and in a caller's hands ([`laws::one_pair_of_hands`]).
//!
//! Nothing here waits, reads a clock or knows of threads. What windows hold, and places, are types of the caller's, which
//! need be neither copied nor dropped.
#![tactic(auto)]

mod abandoned;
mod attached;
mod desk;
mod drained;
mod error;
pub mod laws;
mod marks;
mod names;
mod newcomers;
mod places;
mod row;
mod rows;
mod rule;
mod session;
mod sight;
mod sweeping;
mod table;

pub use attached::Attached;
pub use desk::Desk;
pub use drained::All;
pub use error::DeskError;
pub use newcomers::Newcomers;
pub use places::Place;
pub use rule::Rule;
pub use session::{Identity, Membership, Session, SessionExpiry};
