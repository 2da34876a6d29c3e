//! Connections that are served to their ends, and what they wrote.
ghost use Rattle.std.specs.Prelude.{◌≡◌};
ghost use Rattle.transport.specs.Counting.{no_counts};

use conn_rules::{ClientLimits, MaxInflight};
use conn_service::{Served, serve};
use local_broker::LocalSupply;
use mqtt_topic::Routes;
use scripted_transport::{ReadTurn, Scripted, WriteTurn};
use std::alloc::Global;
use std::process::Abort;
use std::sync::Wait;
use transport::{Clock, OpenCrossing};

/// A CONNECT of client `w1`, a SUBSCRIBE to `$share/g/job` and a PUBLISH to `job`: 17, 20 and 11 bytes.
pub(crate) const STREAM: &[u8] =
    b"\x10\x0F\x00\x04MQTT\x05\x02\x00\x3C\x00\x00\x02w1\x82\x12\x00\x01\x00\x00\x0C$share/g/job\x01\x32\x09\x00\x03job\x00\x07\x00A";

/// A CONNACK, a SUBACK, a PUBACK and a PUBLISH: 14, 6, 4 and 11 bytes.
pub(crate) const ANSWERS: &[u8] =
    b"\x20\x0C\x00\x00\x09\x24\x01\x25\x00\x27\x00\x01\x00\x00\x90\x04\x00\x01\x00\x01\x40\x02\x00\x07\x32\x09\x00\x03job\x00\x01\x00A";

/// The CONNECT alone.
pub(crate) const CONNECT: &[u8] = b"\x10\x0F\x00\x04MQTT\x05\x02\x00\x3C\x00\x00\x02w1";

/// The CONNACK alone.
pub(crate) const CONNACK: &[u8] = b"\x20\x0C\x00\x00\x09\x24\x01\x25\x00\x27\x00\x01\x00\x00";

/// One read of each packet.
pub(crate) const PACKETS: &[ReadTurn] = &[
    ReadTurn::AtMost(17),
    ReadTurn::AtMost(20),
    ReadTurn::AtMost(11),
];

/// A clock that tells these moments, one after the other, and from then on the last of them.
#[derive(Drop)]
pub(crate) struct Moments {
    list: &'static [u64],
    told: usize,
    last: u64,
}

impl Moments {
    /// One that told nothing yet.
    pub(crate) fn of(list: &'static [u64]) -> Moments {
        Moments {
            list,
            told: 0,
            last: 0,
        }
    }
}

impl Clock for Moments {
    fn now(&mut self) -> u64 {
        if let Some(moment) = self.list.get(self.told) {
            self.told += 1;
            self.last = *moment;
        }
        self.last
    }
}

/// What comes over a connection, how its transport answers, for how many bytes it has room, and when.
#[derive(Clone, Copy)]
pub(crate) struct Scenario<'a> {
    pub(crate) input: &'a [u8],
    pub(crate) reads: &'a [ReadTurn],
    pub(crate) writes: &'a [WriteTurn],
    pub(crate) room: usize,
    pub(crate) moments: &'static [u64],
}

impl Scenario<'static> {
    /// A transport that gives the bytes of three packets, one with each read, and takes what it is given, all at the moment 0.
    pub(crate) fn whole() -> Scenario<'static> {
        Scenario {
            input: STREAM,
            reads: PACKETS,
            writes: &[],
            room: 256,
            moments: &[0],
        }
    }
}

/// A scripted transport.
pub(crate) fn scripted(rt: &impl Abort, alloc: Global, scenario: Scenario<'_>) -> Scripted
    ensures { result.counts ≡ no_counts }
{
    let (Ok(input), Ok(reads), Ok(writes)) = (
        scenario.input.to_vec(alloc),
        scenario.reads.to_vec(alloc),
        scenario.writes.to_vec(alloc),
    ) else {
        panic!(rt; "out of memory");
    };
    match Scripted::new(alloc, input, reads, writes, scenario.room) {
        Ok(scripted) => scripted,
        Err(_) => panic!(rt; "out of memory"),
    }
}

/// A broker in each of whose groups 1,024 messages may wait, and on which no share is bound.
pub(crate) fn broker(rt: &impl Abort, alloc: Global) -> LocalSupply {
    match LocalSupply::open(alloc, 1_024, Routes::new(alloc)) {
        Ok(supply) => supply,
        Err(_) => panic!(rt; "out of memory"),
    }
}

/// The broker reports this of its first share, or has none.
pub(crate) fn reports(rt: &impl Abort, alloc: Global, supply: &LocalSupply, report: Option<&str>) {
    let Ok(line) = supply.line(alloc, 0) else {
        panic!(rt; "out of memory");
    };
    match (line, report) {
        (None, None) => {}
        (Some(line), Some(report)) => assert_written(rt, &line, report.as_bytes()),
        (Some(_), None) => panic!(rt; "a share is bound"),
        (None, Some(_)) => panic!(rt; "no share is bound"),
    }
}

/// Serves the connection of a scenario over this broker; how it ended, and its transport.
pub(crate) fn serve_over<R: Abort + Wait>(
    rt: &R,
    alloc: Global,
    supply: &mut LocalSupply,
    scenario: Scenario<'_>,
) -> (Served, Scripted) {
    let mut clock = Moments::of(scenario.moments);
    let transport = scripted(rt, alloc, scenario);
    serve(
        rt,
        alloc,
        0,
        ClientLimits::inflight_alone(MaxInflight::most()),
        transport,
        supply,
        &OpenCrossing,
        0,
        &mut clock,
    )
}

/// Serves the connection of a scenario over a broker of its own; how it ended, and its transport.
pub(crate) fn serve_alone<R: Abort + Wait>(
    rt: &R,
    alloc: Global,
    scenario: Scenario<'_>,
) -> (Served, Scripted) {
    let mut supply = broker(rt, alloc);
    let (served, transport) = serve_over(rt, alloc, &mut supply, scenario);
    supply.abandon();
    (served, transport)
}

/// Bytes that were written are these.
pub(crate) fn assert_written(rt: &impl Abort, written: &[u8], wanted: &[u8]) {
    assert_eq!(rt; written, wanted);
}

/// A connection ended so.
pub(crate) fn assert_served(rt: &impl Abort, served: Served, wanted: Served) {
    assert_eq!(rt; served, wanted);
}

/// A scenario ends so, and these bytes are written, one part after the other.
pub(crate) fn serves<R: Abort + Wait>(
    rt: &R,
    alloc: Global,
    scenario: Scenario<'_>,
    served: Served,
    written: &[u8],
) {
    let (how, transport) = serve_alone(rt, alloc, scenario);
    assert_served(rt, how, served);
    assert_written(rt, transport.output(), written);
}
