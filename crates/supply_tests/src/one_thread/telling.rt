//! What is written of what was said, a line a packet.

use client_table::StepOutput;
use conn_supply::Then;
use mqtt_packet::Packet;
use mqtt_wire::encode_into;
use std::alloc::Global;

/// Adds the lines of what was said.
pub(crate) fn tell(alloc: Global, text: &mut Vec<u8>, outputs: &[StepOutput]) -> Option<()> {
    for step in outputs {
        tell_step(alloc, text, step)?;
    }
    Some(())
}

/// Adds the lines of a step.
fn tell_step(alloc: Global, text: &mut Vec<u8>, step: &StepOutput) -> Option<()> {
    let connection = step.connection();
    for packet in step.packets() {
        tell_packet(alloc, text, connection, packet)?;
    }
    match step.next() {
        Then::Go => Some(()),
        Then::Close => tell_word(alloc, text, connection, "close"),
        Then::Kicked => tell_word(alloc, text, connection, "kicked"),
    }
}

/// Adds the line of a packet.
fn tell_packet(alloc: Global, text: &mut Vec<u8>, connection: u16, packet: &Packet) -> Option<()> {
    let mut bytes = Vec::new(alloc);
    encode_into(&mut bytes, packet).ok()?;
    let digits = hex::encode(alloc, bytes.as_slice()).ok()?;
    tell_word(alloc, text, connection, digits.as_str())
}

/// Adds a line of a connection.
fn tell_word(alloc: Global, text: &mut Vec<u8>, connection: u16, word: &str) -> Option<()> {
    let line = format!(in alloc; "{connection} {word}\n").ok()?;
    text.extend_from_slice(line.as_bytes()).ok()
}
