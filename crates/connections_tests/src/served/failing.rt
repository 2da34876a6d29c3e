//! Transports that fail, and transports that take nothing.
use crate::served::acting::{
    ANSWERS, CONNACK, CONNECT, Scenario, assert_written, broker, reports, serve_over, serves,
};
use conn_service::Served;
use scripted_transport::{ReadTurn, WriteTurn};
use std::alloc::{AllocError, Global};
use std::process::Abort;
use std::sync::Wait;

/// The report of `$share/g/job`, where no job came, and where one came and is given back.
const NO_JOB: &str =
    "$share/g/job accepted 0 acknowledged 0 refused 0 held 0 queued 0 returned 0 discarded 0\n";

const ONE_JOB: &str =
    "$share/g/job accepted 1 acknowledged 0 refused 0 held 0 queued 0 returned 1 discarded 0\n";

/// What becomes of the job where the transport takes so many bytes and then fails.
fn report_at(room: usize) -> Option<&'static str> {
    match room {
        0..=13 => None,
        14..=19 => Some(NO_JOB),
        _ => Some(ONE_JOB),
    }
}

/// A transport that takes so many bytes and then fails: what is written is just these, and nothing is done after them.
#[test]
fn each_write_fails(rt: HostRuntime) {
    for room in 0..40usize {
        let mut supply = broker(&rt, rt.alloc());
        let scenario = Scenario {
            room,
            ..Scenario::whole()
        };
        let (served, transport) = serve_over(&rt, rt.alloc(), &mut supply, scenario);
        let wanted = if room < 35 {
            Served::Write
        } else {
            Served::Ended
        };
        assert_eq!(rt; served, wanted, "room for {room} bytes");
        assert_written(&rt, transport.output(), &ANSWERS[..room.min(ANSWERS.len())]);
        reports(&rt, rt.alloc(), &supply, report_at(room));
        supply.abandon();
    }
}

/// The third read fails: what was said before is written.
#[test]
fn third_read_fails(rt: HostRuntime) {
    let scenario = Scenario {
        reads: &[ReadTurn::AtMost(17), ReadTurn::AtMost(20), ReadTurn::Failed],
        ..Scenario::whole()
    };
    serves(&rt, rt.alloc(), scenario, Served::Read, &ANSWERS[..20]);
}

/// A CONNECT, and a length that is malformed after it: the connection ends (1.5.5).
const FAULTY: &[u8] = b"\x10\x0F\x00\x04MQTT\x05\x02\x00\x3C\x00\x00\x02w1\x82\xFF\xFF\xFF\xFF";

/// What is written then: a CONNACK, and a DISCONNECT: Malformed Packet.
const FAULT_TOLD: &[u8] = b"\x20\x0C\x00\x00\x09\x24\x01\x25\x00\x27\x00\x01\x00\x00\xE0\x01\x81";

/// This comes over a transport that takes nothing in so many writes, at these moments; how the connection ends, and what is written.
fn is_deaf<R: Abort + Wait>(
    rt: &R,
    alloc: Global,
    input: &[u8],
    refused: usize,
    moments: &'static [u64],
    served: Served,
    written: &[u8],
) {
    let Ok(writes) = idle_writes(alloc, refused) else {
        panic!(rt; "out of memory");
    };
    let scenario = Scenario {
        input,
        reads: &[],
        writes: &writes,
        room: 256,
        moments,
    };
    serves(rt, alloc, scenario, served, written);
}

/// So many writes that are idle.
fn idle_writes(alloc: Global, count: usize) -> Result<Vec<WriteTurn>, AllocError> {
    Ok(vec![in alloc; WriteTurn::Idle; count]?)
}

/// 600 writes in a row, of which a round makes two, are too much.
#[test]
fn writes_are_refused(rt: HostRuntime) {
    is_deaf(&rt, rt.alloc(), CONNECT, 601, &[0], Served::Stalled, b"");
    is_deaf(&rt, rt.alloc(), CONNECT, 599, &[0], Served::Ended, CONNACK);
}

/// 60 seconds are too much.
#[test]
fn writes_are_refused_for_a_minute(rt: HostRuntime) {
    let (late, in_time) = (&[0, 0, 60_000], &[0, 0, 59_999]);
    is_deaf(&rt, rt.alloc(), CONNECT, 3, late, Served::Stalled, b"");
    is_deaf(&rt, rt.alloc(), CONNECT, 3, in_time, Served::Ended, CONNACK);
}

/// Where the connection has ended, one second is too much.
#[test]
fn last_writes_are_refused_for_a_second(rt: HostRuntime) {
    let (late, in_time) = (&[0, 0, 1_000], &[0, 0, 999]);
    is_deaf(&rt, rt.alloc(), FAULTY, 3, late, Served::Stalled, b"");
    is_deaf(
        &rt,
        rt.alloc(),
        FAULTY,
        3,
        in_time,
        Served::Ended,
        FAULT_TOLD,
    );
}
