//! `solo`, a client's run against a server of its own; and what it writes, as a function of what the client's stream is read as: a model of
//! lists, without queue, window or session, with laws of what every such model keeps.
//!
//! ```
//! let stream: &[u8] = b"100F00044D5154540502003C0000027731\n"; // a CONNECT
//! let mut output = Vec::new(alloc);
//! solo(alloc, setup, &mut &stream[..], &mut output)?; // `output` has the line of a CONNACK
//! ```
#![tactic(auto)]

mod laws;
mod run;

pub use laws::{
    every_run_is_lawful, identifier_law, membership_is_lawful, one_output_law, solo_output_law,
};
pub use run::solo;
