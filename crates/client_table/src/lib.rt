//! The clients of a broker: their connections, the streams of their bytes, and a table of them.
//!
//! A [`Client`] reads what its client sent and steps its connection, packet by packet. A [`ClientTable`] has one for each number,
//! and lets go of those whose connections have ended. What each step wrote is [`StepOutput`].
//!
//! ```
//! let mut clients = ClientTable::new(alloc)?;
//! clients.open(0, Opening { at: now, limits });
//! clients.receive(&mut supply, 0, now, &piece, &mut outputs)?; // the packets in this piece, answered one by one
//! clients.tick(&mut supply, 0, now, &mut outputs)?; // what has come for this client since
//! clients.end_of_input(&mut supply, 0, now, &mut outputs)?; // its session is parked
//! ```
#![tactic(auto)]

mod cell;
mod client;
mod laws;
mod step_output;
mod table;

pub use client::Client;
pub use laws::{
    calls_law, hand_out_law, one_outcome_law, publisher_law, quota_law, returned_first_law,
    table_calls_law,
};
pub use step_output::StepOutput;
pub use table::{CLIENTS, ClientTable};
