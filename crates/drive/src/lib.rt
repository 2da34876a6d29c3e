//! A server that is driven by lines of text: one event a line, and what is written to whom.
//!
//! A line of the input has a moment in milliseconds, below 2^64, and an event, in words with one blank between. C is the number of
//! a connection, 0 to 63. An empty line, and one that begins with `#`, is passed over.
//!
//! | Line | Event |
//! |---|---|
//! | `MOMENT open C` | a connection is opened |
//! | `MOMENT bytes C HEX` | a piece of its client's stream comes; of an empty piece the blank before HEX stays |
//! | `MOMENT tick C` | time goes on for it |
//! | `MOMENT end C` | its client's stream ends |
//! | `MOMENT close` | the server closes |
//!
//! What is written has a line `C HEX` for each packet, and `C close` or, where another connection took its session over, `C kicked`
//! where a connection ends; at the end the report of each share that is bound.
//!
//! The stream of one client, a piece of hex digits a line, is read by [`drive_client`], which writes its packets alone: see `solo` of `solo_output`.
//!
//! ```
//! let script: &[u8] = b"0 open 0\n0 bytes 0 100F00044D5154540502003C0000027731\n"; // a client connects
//! let mut output = Vec::new(alloc);
//! drive_lines(alloc, setup, &mut &script[..], &mut output)?; // `output` has the line of a CONNACK
//! ```
#![tactic(auto)]

mod digits;
mod driving;
mod form;
pub mod laws;
mod numbers;
mod script;
mod stream;
mod transcript;
mod words;

pub use driving::{drive_client, drive_lines};
