//! Tests of `mqtt_packet`, `mqtt_fields` and `mqtt_wire`.

mod publishing;
mod reading;
mod streams;
mod values;

use crate::written;
use bytes::Bytes;
use mqtt_fields::Fault;
use mqtt_packet::Text;
use mqtt_wire::Splitter;
use std::alloc::Global;

/// The next packet in its written form; `None` where it is not whole yet.
fn next_written(alloc: Global, splitter: &mut Splitter) -> Result<Option<Vec<u8>>, Fault> {
    match splitter.next() {
        Ok(Some(packet)) => written(alloc, packet).map(Some),
        Ok(None) => Ok(None),
        Err(fault) => Err(fault),
    }
}

/// A word as a text.
fn text(word: &'static str) -> Result<Text, Fault> {
    match Text::parse(Bytes::from_static(word.as_bytes())) {
        Some(text) => Ok(text),
        None => Err(Fault::Memory),
    }
}
