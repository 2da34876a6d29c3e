//! Tests of windows and sessions: of the public items of `member_window`, `session_desk` and `shared_desk`, of what no clause says.
#![tactic(auto)]

#[cfg(test)]
mod asserting;
#[cfg(test)]
mod desks;
pub mod one_history;
mod rules;
#[cfg(test)]
mod shared;
pub mod spot;
#[cfg(test)]
mod windows;
