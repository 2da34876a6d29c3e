//! Transports and sources of connections that play a script, for every fault that a test may want.
#![tactic(auto)]

mod scripted;
mod scripted_source;
mod turns;

pub use scripted::Scripted;
pub use scripted_source::ScriptedSource;
pub use turns::{ReadTurn, WriteTurn};
