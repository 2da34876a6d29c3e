//! One connection: faults, silence, a peer that is read byte by byte, and a crossing that lets nobody pass.
ghost use Rattle.std.specs.Prelude.{⊤};

use crate::served::acting::{
    ANSWERS, CONNACK, CONNECT, Moments, Scenario, assert_served, broker, scripted, serves,
};
use conn_rules::{ClientLimits, MaxInflight};
use conn_service::{Served, serve};
use scripted_transport::ReadTurn;
use std::test::Fail;
use transport::Crossing;

/// What follows the CONNECT, and what is written after the CONNACK: a length of four bytes that all go on is malformed, and so is one in more bytes
/// than needed; one of more than 65,536 is too large (1.5.5, 4.13).
const FAULTS: [(&[u8], &[u8]); 4] = [
    (b"\x82\xFF\xFF\xFF", b""),
    (b"\x82\xFF\xFF\xFF\xFF", b"\xE0\x01\x81"),
    (b"\x82\xFF\xFF\xFF\x7F", b"\xE0\x01\x95"),
    (b"\x82\xFF\xFF\xFF\x00", b"\xE0\x01\x81"),
];

#[test]
fn faults(rt: HostRuntime) -> Result<(), Fail> {
    for (bytes, wanted) in FAULTS.iter() {
        let mut input = CONNECT.to_vec(rt.alloc())?;
        input.extend_from_slice(bytes)?;
        let mut written = CONNACK.to_vec(rt.alloc())?;
        written.extend_from_slice(wanted)?;
        let scenario = Scenario {
            input: &input,
            ..Scenario::whole()
        };
        serves(&rt, rt.alloc(), scenario, Served::Ended, &written);
    }
    Ok(())
}

/// The three packets in one read, one read each, and byte by byte are answered alike.
#[test]
fn every_cutting(rt: HostRuntime) -> Result<(), Fail> {
    for size in 1..=48usize {
        let reads = vec![in rt.alloc(); ReadTurn::AtMost(size); 48]?;
        let scenario = Scenario {
            reads: &reads,
            ..Scenario::whole()
        };
        serves(&rt, rt.alloc(), scenario, Served::Ended, ANSWERS);
    }
    Ok(())
}

/// A client is silent for one and a half times its Keep Alive of 60 seconds (3.1.2.10).
#[test]
fn silence(rt: HostRuntime) {
    let scenario = Scenario {
        reads: &[ReadTurn::AtMost(17), ReadTurn::Idle],
        moments: &[0, 0, 90_000],
        ..Scenario::whole()
    };
    let written = b"\x20\x0C\x00\x00\x09\x24\x01\x25\x00\x27\x00\x01\x00\x00\xE0\x01\x8D";
    serves(&rt, rt.alloc(), scenario, Served::Ended, written);
}

/// A crossing that lets nobody pass.
struct ShutCrossing;

impl Crossing for ShutCrossing {
    ghost refuses = { λ _ _ _. ⊤ };

    fn cross(&self, _worker: u32, _turn: u32) -> bool {
        false
    }
}

/// Nothing is written where no worker may pass.
#[test]
fn no_crossing(rt: HostRuntime) {
    let mut supply = broker(&rt, rt.alloc());
    let transport = scripted(&rt, rt.alloc(), Scenario::whole());
    let mut clock = Moments::of(&[0]);
    let (served, transport) = serve(
        &rt,
        rt.alloc(),
        0,
        ClientLimits::inflight_alone(MaxInflight::most()),
        transport,
        &mut supply,
        &ShutCrossing,
        0,
        &mut clock,
    );
    supply.abandon();
    assert_served(&rt, served, Served::NoCrossing);
    assert!(rt; transport.output().is_empty());
}

#[test]
fn numbers(rt: HostRuntime) {
    let rows = [
        (Served::Ended, 0),
        (Served::Read, 901),
        (Served::Write, 902),
        (Served::Memory, 903),
        (Served::NoCrossing, 904),
        (Served::Stalled, 905),
    ];
    for (served, number) in rows.iter() {
        assert_eq!(rt; served.number(), *number);
    }
}
