//! Tests of groups, of what no clause says: of `dispatch_core`, `local_group`, `group_jobs`, `shared_ledger` and `group_queue`.
#![tactic(auto)]

#[cfg(test)]
mod asserting;
#[cfg(test)]
mod dispatch;
#[cfg(test)]
mod local;
#[cfg(test)]
mod queue;
