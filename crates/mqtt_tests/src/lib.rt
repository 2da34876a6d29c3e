//! Tests of what MQTT says of packets, names and answers: of `mqtt_packet`, `mqtt_fields` and `mqtt_wire`, of `mqtt_topic`, of `users` and of `conn_rules`.
#![tactic(auto)]

#[cfg(test)]
mod asserting;
#[cfg(test)]
mod rules;
#[cfg(test)]
mod topics;
#[cfg(test)]
mod user_files;
#[cfg(test)]
mod user_rights;
#[cfg(test)]
mod wire;

#[cfg(test)]
use mqtt_fields::Fault;
#[cfg(test)]
use mqtt_packet::Packet;
#[cfg(test)]
use mqtt_wire::encode;
#[cfg(test)]
use std::alloc::Global;

/// The written form of a packet.
#[cfg(test)]
fn written(alloc: Global, packet: Packet) -> Result<Vec<u8>, Fault> {
    let bytes = encode(alloc, &packet);
    drop(packet);
    bytes
}
