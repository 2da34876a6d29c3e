//! A bell: who offers work wakes the workers that wait for it.
//!
//! A worker listens ([`Bell::listen`]), looks for work, and where it finds none it settles ([`Bell::settle`]): it is
//! idle from then on, and may wait where no bell rang since it listened. Who offers work rings ([`Bell::ring`]): as
//! many idle workers as are wanted are called, each by its own waker ([`Wake`]). A bell is one word, so of a ring and
//! a settling one comes first: either the worker sees that it rang, or the ringer sees that the worker is idle.
//!
//! ```
//! /// One round of a worker, which waits where there was nothing to do and no bell rang in the meantime.
//! fn round(bell: &Bell, listener: &mut Listener) -> bool
//!     requires { listener.old.bell ≡ bell.now.word }
//!     ensures { listener.new.bell ≡ bell.now.word }
//! {
//!     bell.listen(listener);
//!     if find_work() {
//!         return false;
//!     }
//!     bell.settle(listener)
//! }
//! ```
//!
//! All memory is taken by [`Bell::open`]; no other call takes any, none waits, and none has a handle. Listeners and
//! ringers have no more than a number, and may go to other threads: they are `Send`, and not `Sync`. A bell is both,
//! and is shared by reference.
#![tactic(auto)]

mod bell;
mod handles;
pub mod laws;
mod step;
mod wake;
mod word;

pub use bell::{Bell, BellError, MOST_WORKERS};
pub use handles::{Listener, Ringer};
pub use step::{BellStep, BellView};
pub use wake::{Call, Wake};
