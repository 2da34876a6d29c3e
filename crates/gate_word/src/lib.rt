//! The gate of a broker: who is inside, and when nobody can be any more.
//!
//! A [`Gate`] is one shared word. A thread goes in with a seat ([`Gate::enter`]) and comes out again
//! ([`Gate::leave`]); some thread shuts the gate ([`Gate::shut`]), after which nobody gets in; and a look
//! ([`Gate::drained`]) tells that everybody is out. What may only be done while the broker is open asks for a
//! [`Turn`], which there is only inside. Once a look gave a [`Drained`], there is no turn and there will be none
//! ([`Gate::refute`]): so nothing is handed out after the broker was closed.
//!
//! The word is twice the number of seats that are not outside, plus 1 where the gate is shut. Each call is one atomic
//! step on it, but for an `enter` that is refused, which takes off again what it added, and a look that gives a token,
//! which is made by a step of its own. All memory is taken by [`Gate::open`]; no other call takes any, and none waits.
//! Seats, turns and tokens have no bytes, and may go to other threads: they are `Send`, and not `Sync`. A gate is
//! both, and is shared by reference. A type that keeps a seat while it is outside and a turn while it is inside keeps
//! a [`Visitor`].
//!
//! ```
//! /// Goes in and comes out again, and says whether it got in.
//! fn visit(gate: &Gate, seat: GateSeat) -> (bool, GateSeat)
//!     requires { seat.gate ≡ gate.now }
//!     ensures { result.1.gate ≡ gate.now }
//! {
//!     match gate.enter(seat) {
//!         Ok(turn) => (true, gate.leave(turn)),
//!         Err(refused) => (false, refused.seat),
//!     }
//! }
//! ```
//!
//! The contracts say of each call which step it made, at a moment of some schedule of all seats' steps. The laws are
//! in [`laws`]: what the word says at every moment of every schedule, and what a seat's own steps say of the gate.
#![tactic(auto)]

mod error;
mod gate;
pub mod laws;
mod seat;
mod step;
mod visitor;
mod word;

pub use error::{GateError, Refused};
pub use gate::{Gate, MOST_SEATS};
pub use seat::{Drained, GateSeat, Turn};
pub use step::{GateStep, GateView};
pub use visitor::Visitor;
