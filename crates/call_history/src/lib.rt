//! One history of calls, which one keeper writes, of which all that anybody knows is a beginning, and in which each call is one caller's own.
//!
//! The history exists in contracts alone: at run time a [`CallHistory`] is one word, and what is done with it are loads of that word.
#![tactic(auto)]

mod history;
mod names;
mod word;

pub use history::{CallHistory, Caller, HistoryError, Keeper, OpenedHistory};
pub use names::{Entries, HistoryName};
pub use word::HistoryView;
