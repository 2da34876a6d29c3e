//! Servers, and what is written for the input that they are given.
use bytes::Bytes;
use conn_rules::{MaxInflight, QueueCapacity, Setup};
use drive::drive_lines;
use mqtt_packet::Text;
use mqtt_topic::{Routes, Share};
use solo_output::solo;
use std::alloc::Global;
use std::fmt::Debug;
use std::process::Abort;
use text_io::RunError;

/// A server in each of whose groups so many messages may wait, and on which these shares are bound.
pub fn setup(rt: &impl Abort, alloc: Global, capacity: u32, shares: &[&str]) -> Setup {
    limited(rt, alloc, capacity, MaxInflight::most(), shares)
}

/// The same, where a client has so many messages unacknowledged at most.
pub fn limited(
    rt: &impl Abort,
    alloc: Global,
    capacity: u32,
    max_inflight: MaxInflight,
    shares: &[&str],
) -> Setup {
    let mut groups = Routes::new(alloc);
    for share in shares {
        let bytes = Vec::from_slice(alloc, share.as_bytes())
            .ok()
            .expect(rt, "memory");
        let bytes = Bytes::from_vec(bytes).ok().expect(rt, "memory");
        let text = Text::parse(bytes).expect(rt, "a text");
        let share = Share::parse(text).ok().expect(rt, "a share");
        let _slot = groups.bind(share).ok().expect(rt, "a slot");
    }
    Setup {
        capacity: capacity_of(rt, capacity),
        max_inflight,
        groups,
    }
}

/// A queue in which so many messages may wait.
fn capacity_of(rt: &impl Abort, messages: u32) -> QueueCapacity {
    QueueCapacity::new(messages).expect(rt, "a capacity")
}

/// A server in each of whose groups 1,024 messages may wait, and on which no share is bound.
pub fn plain(alloc: Global) -> Setup {
    let Some(capacity) = QueueCapacity::new(1_024) else {
        unreachable!()
    };
    Setup {
        capacity,
        max_inflight: MaxInflight::most(),
        groups: Routes::new(alloc),
    }
}

/// What one client is sent for its lines, and the reports.
pub fn answered(alloc: Global, setup: Setup, lines: &[u8]) -> Result<Vec<u8>, RunError> {
    let mut input = lines;
    let mut output = Vec::new(alloc);
    solo(alloc, setup, &mut input, &mut output)?;
    Ok(output)
}

/// What is written of a script.
pub fn written(alloc: Global, setup: Setup, script: &str) -> Result<Vec<u8>, RunError> {
    let mut output = Vec::new(alloc);
    drive_lines(alloc, setup, &mut script.as_bytes(), &mut output)?;
    Ok(output)
}

/// Two outputs are the same.
pub fn assert_same_bytes(rt: &impl Abort, written: &[u8], wanted: &[u8], name: &str) {
    assert_eq!(rt; written, wanted, "{name}");
}

/// Two answers are the same.
pub fn assert_same<T: PartialEq + Debug>(rt: &impl Abort, found: &T, wanted: &T) {
    assert_eq!(rt; found, wanted);
}
