//! Tests of `broker_groups`, `shared_supply` and `final_report`: brokers that threads share, from their opening to their reports.
#![tactic(auto)]

#[cfg(test)]
mod broker;
#[cfg(test)]
mod final_reports;
#[cfg(test)]
mod groups;
#[cfg(test)]
mod one_thread;
#[cfg(test)]
mod row;
#[cfg(test)]
mod threads;
