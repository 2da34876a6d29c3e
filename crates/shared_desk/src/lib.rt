//! The desk that threads share: every session of a broker, behind a lock.
//!
//! A [`SharedDesk`] has the calls of [`Desk`](session_desk::Desk), made by reference, each under the lock for the length of that one call. Nobody
//! behind a lock knows what others did before. So what has to be known of that which comes out of the desk is kept with all that lies in it: a
//! session has out at its place just what it holds, and nothing is out at a free place.
#![tactic(auto)]

mod caller;
mod lawful;
pub mod laws;
mod shared;

pub use caller::{DeskCall, DeskCaller};
pub use shared::{OpenedDesk, SharedDesk};
