//! Who may connect: names of users, what is kept of their passwords, and what each of them may do.
//!
//! ```
//! let users = Users::parse(alloc, text)?; // lines `name:$7$iterations$salt$hash`, each with the lines of what the user may do after it
//! let shared = users.into_shared(alloc)?; // one table for several threads
//! let is_served = shared.admits(b"ann", b"her password") && shared.may_connect_as(b"ann", b"press-7");
//! let rights = shared.share()?.into_rights(b"ann");
//! let is_taken = rights.may_publish(&topic);
//! ```
#![tactic(auto)]

mod client_rights;
mod cutting;
mod error;
mod fields;
mod file;
mod hashing;
pub mod laws;
mod line;
mod name;
mod password;
mod right;
mod rights;
mod shared;
mod table;
mod user;

pub use client_rights::ClientRights;
pub use error::UsersError;
pub use line::user_line;
pub use name::is_user_name;
pub use shared::SharedUsers;
pub use table::Users;
