//! What the words of a command line ask for.
//!
//! ```
//! // The words are those of: share_broker drive --capacity 2 --group g:job
//! let asked = arguments(alloc, &words)?; // `Request::Drive`, with $share/g/job in slot 0
//! ```
#![tactic(auto)]

mod command;
mod groups;
mod hashing;
pub mod laws;
mod options;
mod password;
mod service;
mod serving;
mod setup;
mod texts;

pub use command::{Request, arguments};
pub use password::PasswordOptions;
pub use service::{ServeOptions, ServeUntil};
pub use texts::{FilePath, UserName};
