//! The program as one call: of its words, a reader, an output and an error output, to how it ends.
//!
//! ```
//! let exit = run(&rt, alloc, Ok(words), &mut reader, &mut output, &mut errors); // exit.status is 0, 2, 3, 4 or 5
//! ```
#![tactic(auto)]

mod asking;
mod ending;
mod endless;
mod hashing;
mod serving;
mod users_file;

pub use asking::{Asked, asked_by};
pub use ending::{Exit, perform, run};
