//! Streams that end after each byte, and streams in which each byte is replaced: what is written is what `solo` writes.
use crate::served::acting::{STREAM, Scenario, assert_served, assert_written, serve_alone};
use conn_rules::{MaxInflight, QueueCapacity, Setup};
use conn_service::Served;
use mqtt_topic::Routes;
use solo_output::solo;
use std::alloc::{AllocError, Global};
use std::process::Abort;
use std::sync::Wait;
use std::test::Fail;
use text_io::RunError;

/// What `solo` writes of a stream: lines of hex digits, and reports.
fn solo_lines(alloc: Global, stream: &[u8]) -> Result<Vec<u8>, RunError> {
    let digits = hex::encode(alloc, stream)?;
    let Some(capacity) = QueueCapacity::new(1_024) else {
        unreachable!()
    };
    let setup = Setup {
        capacity,
        max_inflight: MaxInflight::most(),
        groups: Routes::new(alloc),
    };
    let mut output = Vec::new(alloc);
    solo(alloc, setup, &mut digits.as_bytes(), &mut output)?;
    Ok(output)
}

/// The digits of the packets in such lines, one packet after the other. The reports stand behind them.
fn digits_in(alloc: Global, lines: &[u8]) -> Result<Vec<u8>, AllocError> {
    let mut digits = Vec::new(alloc);
    for line in lines.split(|byte| *byte == b'\n') {
        if line.starts_with(b"$share") {
            break;
        }
        digits.extend_from_slice(line)?;
    }
    Ok(digits)
}

/// Of this stream, as it is served, what is written is what `solo` writes.
fn writes_as_solo<R: Abort + Wait>(rt: &R, alloc: Global, stream: &[u8]) {
    let Ok(lines) = solo_lines(alloc, stream) else {
        panic!(rt; "solo fails");
    };
    let Ok(wanted) = digits_in(alloc, &lines) else {
        panic!(rt; "out of memory");
    };
    let scenario = Scenario {
        input: stream,
        ..Scenario::whole()
    };
    let (served, transport) = serve_alone(rt, alloc, scenario);
    assert_served(rt, served, Served::Ended);
    let Ok(written) = hex::encode(alloc, transport.output()) else {
        panic!(rt; "out of memory");
    };
    assert_written(rt, written.as_bytes(), &wanted);
}

#[test]
fn every_end(rt: HostRuntime) {
    for bytes in 0..=STREAM.len() {
        writes_as_solo(&rt, rt.alloc(), &STREAM[..bytes]);
    }
}

/// The stream, with this byte in the place of the one at that place.
fn replaced(alloc: Global, place: usize, byte: u8) -> Result<Vec<u8>, AllocError> {
    let mut stream = STREAM.to_vec(alloc)?;
    if let Some(there) = stream.get_mut(place) {
        *there = byte;
    }
    Ok(stream)
}

#[test]
fn every_byte_replaced(rt: HostRuntime) -> Result<(), Fail> {
    for (place, before) in STREAM.iter().enumerate() {
        for step in 1..=255u8 {
            let stream = replaced(rt.alloc(), place, before.wrapping_add(step))?;
            writes_as_solo(&rt, rt.alloc(), &stream);
        }
    }
    Ok(())
}
