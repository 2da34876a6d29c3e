//! Tests of `threaded_broker` over transports in memory, of `tcp_server` over the loopback, both ends in one process, of `metrics`, and of what a log has.
#![tactic(auto)]

#[cfg(test)]
mod day;
#[cfg(test)]
mod in_memory;
#[cfg(test)]
mod link;
#[cfg(test)]
mod logging;
#[cfg(test)]
mod loopback;
#[cfg(test)]
mod numbers;
#[cfg(test)]
mod wrong;
