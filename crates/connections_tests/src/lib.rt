//! Tests of connections over a broker on one thread: of `conn_service`, over scripted transports, and of `client_table`, where memory is refused.
#![tactic(auto)]

#[cfg(test)]
mod refused;
#[cfg(test)]
mod served;
