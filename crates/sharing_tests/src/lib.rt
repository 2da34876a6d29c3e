//! Tests of `bell`, `gate_word` and `shared_routes`, which threads share, and of `transport` and `tcp_edge`, at the edge: of their public items, of what no
//! clause says.
#![tactic(auto)]

#[cfg(test)]
mod asserting;
#[cfg(test)]
mod bells;
#[cfg(test)]
mod gates;
#[cfg(test)]
mod routes;
#[cfg(test)]
mod tcp;
#[cfg(test)]
mod transports;
