//! The log of a broker: lines of text on its error output, written by a thread of its own.
//!
//! Whoever has something to say says it to the [`Log`], which all threads share: the line goes into a bounded queue, and what does not fit there is counted. One
//! thread runs [`Log::run`], which writes the lines, until the log is closed.
//!
//! ```
//! if log.writes(Level::Info) {
//!     log.say(Level::Info, format!(in alloc; "connection {number} opened"));
//! }
//! ```
#![tactic(auto)]

mod level;
mod line;
mod log;
mod quoting;
mod writing;

pub use level::Level;
pub use log::Log;
pub use quoting::quoted;
