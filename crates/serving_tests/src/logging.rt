//! What the log of a broker has of its connections and its groups.

use broker_log::{Level, Log};
use conn_service::{LastWord, Served};
use mqtt_packet::{ConnectRefusal, ReasonCode};
use shared_supply::SupplyCounts;
use std::alloc::Global;
use std::net::{Ipv4Addr, SocketAddr};
use std::process::Abort;
use std::rt::Clock;
use std::test::Fail;
use tcp_server::{BrokerLog, LogPart};

/// What was written of a log that is closed.
fn written<R: Clock>(rt: &R, alloc: Global, log: &Log) -> Vec<u8> {
    let mut text = Vec::new(alloc);
    log.close();
    log.run(rt, alloc, &mut text);
    text
}

/// The log has this text.
fn assert_written<R: Clock + Abort>(rt: &R, alloc: Global, log: &Log, expected: &str) {
    let text = written(rt, alloc, log);
    let text = std::str::from_utf8(&text).unwrap_or("no text");
    assert_eq!(rt; text, expected);
}

/// What was sent last to a client that was accepted.
fn accepted() -> Option<LastWord> {
    Some(LastWord::Accepted {
        session_present: false,
    })
}

/// A connection that is opened in the third cell of the worker whose first has the number 128, and whose client is accepted and then taken over; one that is refused;
/// one whose client names itself so that it would end its line; and others that end.
#[test]
fn connections(rt: HostRuntime) -> Result<(), Fail> {
    let log = Log::open(rt.alloc(), Level::Info)?;
    let broker = BrokerLog::of(&log, rt.alloc());
    let part = LogPart::of(&broker, 128);
    let peer = SocketAddr::from((Ipv4Addr::LOCALHOST, 50_000));
    part.opened(Some(2), Some(peer));
    part.connected(2, b"w1", false);
    part.opened(Some(3), None);
    part.connected(3, b"w1\ninfo: \"\\\xff", true);
    part.ended(
        2,
        Served::Ended,
        Some(LastWord::Disconnected(ReasonCode::SESSION_TAKEN_OVER)),
    );
    part.ended(
        3,
        Served::Ended,
        Some(LastWord::Disconnected(ReasonCode::KEEP_ALIVE_TIMEOUT)),
    );
    part.ended(
        4,
        Served::Ended,
        Some(LastWord::Refused(ConnectRefusal::ClientIdentifierNotValid)),
    );
    part.ended(5, Served::Ended, accepted());
    part.ended(6, Served::Ended, None);
    part.ended(7, Served::Read, accepted());
    part.opened(None, Some(peer));
    let text = "\
info: connection 130 opened from 127.0.0.1:50000
info: connection 130 accepted: client \"w1\", with a new session
info: connection 131 opened
info: connection 131 accepted: client \"w1\\ninfo: \\\"\\\\\\xff\", with the session that it had
info: connection 130 taken over: DISCONNECT 0x8E Session taken over
info: connection 131 ended: DISCONNECT 0x8D Keep Alive timeout
info: connection 132 refused: CONNACK 0x85 Client Identifier not valid
info: connection 133 ended: by its client
info: connection 134 ended: without a CONNACK
info: connection 135 ended: its transport failed at a read
info: a connection from 127.0.0.1:50000 was closed: there is no room
";
    assert_written(&rt, rt.alloc(), &log, text);
    Ok(())
}

/// Two workers see that the queue of a group is full, and one of them that a message is accepted again: at once, and a second after the last refusal.
#[test]
fn full_queue(rt: HostRuntime) -> Result<(), Fail> {
    let log = Log::open(rt.alloc(), Level::Info)?;
    let broker = BrokerLog::of(&log, rt.alloc());
    broker.bound(1, b"$share/g/job");
    broker.bound(1, b"$share/g/job");
    let mut first = LogPart::of(&broker, 0);
    let mut second = LogPart::of(&broker, 512);
    let mut counts = SupplyCounts::NONE;
    counts.groups[1].full = 1;
    first.look(&counts, 10);
    second.look(&counts, 20);
    counts.groups[1].accepted = 1;
    first.look(&counts, 30);
    counts.groups[1].accepted = 2;
    first.look(&counts, 1_019);
    counts.groups[1].accepted = 3;
    first.look(&counts, 1_020);
    let text = "\
info: the share \"$share/g/job\" is bound to slot 1
info: the queue of slot 1 is full: its publishers are answered PUBACK 0x97
info: the queue of slot 1 is full no more
";
    assert_written(&rt, rt.alloc(), &log, text);
    Ok(())
}

/// Of 1,030 lines six do not fit; a control character does not end its line; and a log has no line above its level, but at each level that the input was at its end.
#[test]
fn lines(rt: HostRuntime) -> Result<(), Fail> {
    let full = Log::open(rt.alloc(), Level::Error)?;
    for _ in 0..1_030 {
        full.say(Level::Error, String::from_str(rt.alloc(), "a\nb"));
    }
    full.say(Level::Info, String::from_str(rt.alloc(), "c"));
    let text = written(&rt, rt.alloc(), &full);
    assert_eq!(rt; text.len(), 1_024 * 11 + 39);
    assert!(rt; text.starts_with(b"error: a?b\nerror: a?b\n"));
    assert!(rt; text.ends_with(b"error: a?b\nerror: 6 lines of the log were dropped\n"));
    let off = Log::open(rt.alloc(), Level::Off)?;
    off.say(Level::Error, String::from_str(rt.alloc(), "a"));
    off.say_input_ended();
    let text =
        "error: standard input is at its end already, so the broker closes; --until killed serves until it is killed\n";
    assert_written(&rt, rt.alloc(), &off, text);
    Ok(())
}
