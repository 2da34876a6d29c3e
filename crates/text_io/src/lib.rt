//! What a program reads and writes: all of an input and its lines, all of an output, and why a run stops before its end.
//!
//! ```
//! let input = read_all(alloc, reader)?;
//! let (line, others) = split_line(&input); // up to the first 0A, and what follows it
//! write_all(writer, line)?;
//! ```
#![tactic(auto)]

mod error;
mod input;
pub mod laws;
mod output;
mod telling;

pub use error::{DeviceFault, RunError};
pub use input::{read_all, split_line};
pub use output::write_all;
pub use telling::tell;
