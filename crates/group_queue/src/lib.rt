//! Groups that threads share: who has which message.
//!
//! A [`SharedGroup`] accepts messages through its ports and hands each to one of its places. What waits for its first
//! hand-out stands in one lock-free queue, in the order in which it was accepted; what was given back in another, from which
//! it is handed out again. Who publishes owns a [`Port`], who takes owns a [`Place`], and each call is made by reference to
//! the group and to the own port or place, so any number of threads work at once. A message that was handed out is an
//! [`Envelope`](group_jobs::Envelope), which must be spent: by [`Place::settle`], which waits for nobody and takes no memory,
//! or by [`SharedGroup::give_back`].
//!
//! Whatever accepts or hands out asks for a [`Turn`](gate_word::Turn) at the group's gate. So nothing is accepted or handed
//! out once the gate was seen drained ([`SharedGroup::refute`]).
//!
//! The contracts say of each call what it added to what its own port or place did, and how the queue stood, as the group's
//! [`Witness`] saw it. What that means for all of them together is in [`laws`].
#![tactic(auto)]

mod checking;
mod comparing;
mod ending;
mod error;
mod finish;
mod group;
pub mod laws;
mod main_queue;
mod opening;
mod place;
mod port;
mod posted;
mod reserving;
mod returns_queue;
mod view;
mod witness;

pub use error::{FinishError, Lack, NotTaken, OfferError};
pub use finish::Unfinished;
pub use group::SharedGroup;
pub use place::Place;
pub use port::Port;
pub use posted::Posted;
pub use view::{Bag, Entry, Name, View};
pub use witness::{LawfulWitness, Nobody, Witness};
