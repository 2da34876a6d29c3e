//! How the workers of a broker call one another: by a bell for each group, and by the mailboxes of all workers.
//!
//! A [`WorkerBells`] is what one worker has of the bells: a listener at the bell of each group, where it settles before it waits, and ringers at all of them, by which it rings
//! for others. [`Members`] are what it knows of its own connections: which would be handed a job of a group, and which wait for a session. A [`Mailboxes`] tells each worker
//! what the others called it for, wakes it, and knows how many connections it has.
#![tactic(auto)]

mod bells;
mod calls;
mod hints;
mod loads;
mod members;
mod own_bells;
mod shares;

pub use calls::{Calls, Mailboxes};
pub use hints::{Hint, Hints};
pub use loads::{Average, FillLevel, HeldCounts, Load};
pub use members::{Held, Interest, Members};
pub use own_bells::{SLOTS, WorkerBells, all_own_bells};
pub use shares::share_of;
