//! Laws of a connection's steps: what holds of each, whatever it asks and is answered; and how long the packets are that a broker sends. Each is
//! the contract of a function that does nothing, stated over the definitions that the contracts of [`Conn::step`](conn_engine::Conn::step) and of
//! [`encode`](mqtt_wire::encode) cite, and over every [`Supply`](conn_supply::Supply).
#![tactic(auto)]

mod laws;
mod sizes;

pub use laws::{
    calls_law, eager_law, ended_law, identifier_law, one_step_law, publisher_law, quota_law,
    returned_first_law, transcript_law,
};
pub use sizes::{forwarded_law, packet_size_law, replies_law, short_replies_law, writable_law};
