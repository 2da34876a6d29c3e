//! One shared subscription group as a pure state machine: the events of a group, the states that they
//! lead to, and the laws that hold of every list of events.
//!
//! A group accepts jobs through ports, and hands each to one of its members (OASIS MQTT 5.0, 4.8.2).
//! A job waits in its port's queue, is held by a member, and is acknowledged, refused or discarded for
//! good, or is returned by a session that ended and handed out again. The first hand-outs of a port's
//! jobs go in their order (4.6).
//!
//! [`replay`] follows a list of events from the beginning and succeeds exactly where each may happen;
//! [`State::step`] does one event. A list of events that may happen is called a run of the group. The
//! laws are in [`laws`]: they say what holds in every state that a run leads to.
//!
//! [`Runs`] is a list of jobs for those who count what was settled. It is kept as stretches of
//! consecutive numbers, each of them a [`Run`] of numbers.
//!
//! A job that comes back from one member is handed out again to another:
//!
//! ```
//! let first = Job { port: 2, number: 0 };
//! let state = replay(
//!     alloc,
//!     &[
//!         Event::Accept { port: 2 },
//!         Event::First { member: 0, job: first },
//!         Event::Back { member: 0, job: first },
//!         Event::Again { member: 1, job: first },
//!     ],
//! )?;
//! assert_eq!(rt; state.spot(first), Some(Spot::Held(1)));
//! assert_eq!(rt; state.firsts(0), [first].as_slice());
//! ```
//!
//! Nothing here waits, reads a clock or knows of threads.
#![tactic(auto)]

mod error;
mod event;
mod history;
mod joining;
pub mod laws;
mod member;
mod merging;
mod port;
mod runs;
mod state;
mod tiers;
mod walks;

pub use error::{ReplayError, RoomError, StepError, Why};
pub use event::{Event, Job, Spot};
pub use history::replay;
pub use runs::{Run, Runs};
pub use state::State;
pub use walks::{InOrder, Jobs};
