//! A client that floods with small packets: a round steps 64 of them.
use crate::served::acting::{CONNACK, CONNECT, Scenario, assert_written, broker, scripted};
use crate::served::together::{goes_on, open};
use conn_service::Round;
use scripted_transport::ReadTurn;
use std::alloc::{AllocError, Global};
use std::process::Abort;
use std::test::Fail;

/// A CONNECT and 99 PINGREQ packets (section 3.12): 100 packets of 215 bytes.
fn flood(alloc: Global) -> Result<Vec<u8>, AllocError> {
    let mut stream = CONNECT.to_vec(alloc)?;
    for _ in 0..99u32 {
        stream.extend_from_slice(b"\xC0\x00")?;
    }
    Ok(stream)
}

/// A CONNACK and so many PINGRESP packets (section 3.13).
fn answers(alloc: Global, pings: u32) -> Result<Vec<u8>, AllocError> {
    let mut answers = CONNACK.to_vec(alloc)?;
    for _ in 0..pings {
        answers.extend_from_slice(b"\xD0\x00")?;
    }
    Ok(answers)
}

/// A peer whose packets come in one read, and nothing after it for now.
fn floods(stream: &[u8]) -> Scenario<'_> {
    Scenario {
        input: stream,
        reads: &[ReadTurn::AtMost(215), ReadTurn::Idle],
        ..Scenario::whole()
    }
}

/// The first round steps the CONNECT and 63 of the others.
fn one_round(rt: &impl Abort, alloc: Global, stream: &[u8]) -> Result<(), AllocError> {
    let mut supply = broker(rt, alloc);
    let mut service = open(rt, alloc, 0, scripted(rt, alloc, floods(stream)));
    goes_on(rt, &mut service, &mut supply, 0, Round::More);
    let transport = service.abandon(&mut supply, 0);
    supply.abandon();
    assert_written(rt, transport.output(), &answers(alloc, 63)?);
    Ok(())
}

/// The second round steps the rest, and the third reads again.
fn three_rounds(rt: &impl Abort, alloc: Global, stream: &[u8]) -> Result<(), AllocError> {
    let mut supply = broker(rt, alloc);
    let mut service = open(rt, alloc, 0, scripted(rt, alloc, floods(stream)));
    goes_on(rt, &mut service, &mut supply, 0, Round::More);
    goes_on(rt, &mut service, &mut supply, 0, Round::More);
    goes_on(rt, &mut service, &mut supply, 0, Round::Reading);
    let transport = service.abandon(&mut supply, 0);
    supply.abandon();
    assert_written(rt, transport.output(), &answers(alloc, 99)?);
    Ok(())
}

#[test]
fn flood_of_pings(rt: HostRuntime) -> Result<(), Fail> {
    let stream = flood(rt.alloc())?;
    one_round(&rt, rt.alloc(), &stream)?;
    three_rounds(&rt, rt.alloc(), &stream)?;
    Ok(())
}
