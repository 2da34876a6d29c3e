//! Connections beside each other on one broker, and its close, round by round.
ghost use Rattle.std.specs.Prelude.{◌≡◌, ◌<◌, None};
ghost use Rattle.transport.specs.Counting.{no_counts};

use crate::served::acting::{
    ANSWERS, CONNECT, Scenario, assert_served, assert_written, broker, reports, scripted,
};
use crate::served::noting::Noting;
use conn_engine::Opening;
use conn_service::{Direction, Round, Served, Service};
use local_broker::{LocalPlace, LocalSupply};
use scripted_transport::{ReadTurn, Scripted, WriteTurn};
use std::alloc::{AllocError, Global};
use std::process::Abort;
use std::test::Fail;
use transport::{OpenCrossing, Transport};

/// A connection of this number, opened at the moment 0.
pub(crate) fn open<T: Transport + Drop>(
    rt: &impl Abort,
    alloc: Global,
    number: u16,
    transport: T,
) -> Service<LocalPlace, T>
    requires number { number < 1024 }
    requires new { T.counts transport ≡ no_counts }
    ensures { result.ending ≡ None }
{
    match Service::open(alloc, number, Opening::plain(0), transport) {
        Ok(service) => service,
        Err(_) => panic!(rt; "out of memory"),
    }
}

/// One round, after which the connection waits so.
pub(crate) fn goes_on<T: Transport>(
    rt: &impl Abort,
    service: &mut Service<LocalPlace, T>,
    supply: &mut LocalSupply,
    now: u64,
    wanted: Round,
)
    requires { service.old.ending ≡ None }
    ensures { service.new.ending ≡ None }
{
    goes(rt, service, supply, now, Direction::Both, wanted);
}

/// One round this way, after which the connection waits so.
fn goes<T: Transport>(
    rt: &impl Abort,
    service: &mut Service<LocalPlace, T>,
    supply: &mut LocalSupply,
    now: u64,
    direction: Direction,
    wanted: Round,
)
    requires { service.old.ending ≡ None }
    ensures { service.new.ending ≡ None }
{
    let mut buffer = [0; 65_536];
    let round = service.round(supply, &OpenCrossing, 0, now, &mut buffer, direction);
    assert_eq!(rt; round, wanted);
    if let Round::Ended(_) = round {
        panic!(rt; "it has ended");
    }
}

/// Two rounds, after each of which the connection waits so.
fn goes_on_twice<T: Transport>(
    rt: &impl Abort,
    service: &mut Service<LocalPlace, T>,
    supply: &mut LocalSupply,
    now: u64,
    wanted: Round,
)
    requires { service.old.ending ≡ None }
    ensures { service.new.ending ≡ None }
{
    goes_on(rt, service, supply, now, wanted);
    goes_on(rt, service, supply, now, wanted);
}

/// One round, in which the connection ends so.
fn ends<T: Transport>(
    rt: &impl Abort,
    mut service: Service<LocalPlace, T>,
    supply: &mut LocalSupply,
    now: u64,
    wanted: Served,
) -> T
    requires { service.ending ≡ None }
{
    let mut buffer = [0; 4_096];
    match service.round(supply, &OpenCrossing, 0, now, &mut buffer, Direction::Both) {
        Round::Ended(served) => {
            assert_served(rt, served, wanted);
            service.end()
        }
        Round::More | Round::Reading | Round::Writing | Round::Waiting => {
            panic!(rt; "it goes on")
        }
    }
}

/// A CONNECT, and after it nothing for now.
fn connects() -> Scenario<'static> {
    Scenario {
        input: CONNECT,
        reads: &[ReadTurn::AtMost(17), ReadTurn::Idle, ReadTurn::Idle],
        ..Scenario::whole()
    }
}

/// The CONNACK, and a DISCONNECT: Server shutting down, and Session taken over (3.14.2.1).
const CLOSED: &[u8] = b"\x20\x0C\x00\x00\x09\x24\x01\x25\x00\x27\x00\x01\x00\x00\xE0\x01\x8B";

const TAKEN_OVER: &[u8] = b"\x20\x0C\x00\x00\x09\x24\x01\x25\x00\x27\x00\x01\x00\x00\xE0\x01\x8E";

#[test]
fn close(rt: HostRuntime) {
    let mut supply = broker(&rt, rt.alloc());
    let transport = scripted(&rt, rt.alloc(), connects());
    let mut service = open(&rt, rt.alloc(), 0, transport);
    goes_on(&rt, &mut service, &mut supply, 0, Round::Reading);
    supply.close();
    let transport = ends(&rt, service, &mut supply, 0, Served::Ended);
    supply.abandon();
    assert_written(&rt, transport.output(), CLOSED);
}

/// Outbound, nothing is read; inbound, the CONNACK waits; and outbound, it is written.
#[test]
fn one_way(rt: HostRuntime) {
    let mut supply = broker(&rt, rt.alloc());
    let transport = scripted(&rt, rt.alloc(), connects());
    let mut service = open(&rt, rt.alloc(), 0, transport);
    goes(
        &rt,
        &mut service,
        &mut supply,
        0,
        Direction::Outbound,
        Round::More,
    );
    goes(
        &rt,
        &mut service,
        &mut supply,
        0,
        Direction::Inbound,
        Round::Writing,
    );
    goes(
        &rt,
        &mut service,
        &mut supply,
        0,
        Direction::Outbound,
        Round::Reading,
    );
    supply.close();
    let transport = ends(&rt, service, &mut supply, 0, Served::Ended);
    supply.abandon();
    assert_written(&rt, transport.output(), CLOSED);
}

/// A second connection of the same client: the first one is told at its next round, and then the second one has its session.
#[test]
fn takeover(rt: HostRuntime) {
    let mut supply = broker(&rt, rt.alloc());
    let transport = scripted(&rt, rt.alloc(), connects());
    let mut first = open(&rt, rt.alloc(), 0, transport);
    let transport = scripted(&rt, rt.alloc(), connects());
    let mut second = open(&rt, rt.alloc(), 1, transport);
    goes_on(&rt, &mut first, &mut supply, 0, Round::Reading);
    goes_on(&rt, &mut second, &mut supply, 0, Round::Reading);
    let transport = ends(&rt, first, &mut supply, 0, Served::Ended);
    assert_written(&rt, transport.output(), TAKEN_OVER);
    goes_on(&rt, &mut second, &mut supply, 0, Round::Reading);
    supply.close();
    let transport = ends(&rt, second, &mut supply, 0, Served::Ended);
    assert_written(&rt, transport.output(), CLOSED);
    supply.abandon();
}

/// How many bytes a job of a payload of 60,000 bytes has.
const JOB_SIZE: usize = 60_012;

/// A CONNECT of client `p`, and four such jobs.
fn large_jobs(alloc: Global) -> Result<Vec<u8>, AllocError> {
    let mut stream = b"\x10\x0E\x00\x04MQTT\x05\x02\x00\x3C\x00\x00\x01p".to_vec(alloc)?;
    let payload = vec![in alloc; b'A'; 60_000]?;
    for _ in 0..4u32 {
        stream.extend_from_slice(b"\x32\xE8\xD4\x03\x00\x03job\x00\x07\x00")?;
        stream.extend_from_slice(&payload)?;
    }
    Ok(stream)
}

/// The publisher of these jobs: it reads its CONNECT, and then a job at each turn.
const PUBLISHES: &[ReadTurn] = &[
    ReadTurn::AtMost(16),
    ReadTurn::AtMost(JOB_SIZE),
    ReadTurn::AtMost(JOB_SIZE),
    ReadTurn::AtMost(JOB_SIZE),
    ReadTurn::AtMost(JOB_SIZE),
];

/// What is left of them: two that were handed out are given back.
const LEFT: &str =
    "$share/g/job accepted 4 acknowledged 0 refused 0 held 0 queued 2 returned 2 discarded 0\n";

/// A CONNECT of client `w1` with a Receive Maximum of 256, a SUBSCRIBE and a PINGREQ, which is never read.
const MEMBER: &[u8] =
    b"\x10\x12\x00\x04MQTT\x05\x02\x00\x3C\x03\x21\x01\x00\x00\x02w1\x82\x12\x00\x01\x00\x00\x0C$share/g/job\x01\xC0\x00";

/// Two jobs are handed to a member whose transport takes nothing of them: two more change nothing, and in the end it is given up. Its transport.
fn hold_up(
    rt: &impl Abort,
    alloc: Global,
    member: Noting<Scripted>,
    jobs: Scripted,
) -> Noting<Scripted>
    requires member { member.inner.counts ≡ no_counts }
    requires jobs { jobs.counts ≡ no_counts }
{
    let mut supply = broker(rt, alloc);
    let mut member = open(rt, alloc, 0, member);
    let mut publisher = open(rt, alloc, 1, jobs);
    goes_on_twice(rt, &mut member, &mut supply, 0, Round::Reading);
    goes_on(rt, &mut publisher, &mut supply, 0, Round::Reading);
    goes_on_twice(rt, &mut publisher, &mut supply, 0, Round::Reading);
    goes_on(rt, &mut member, &mut supply, 100, Round::Writing);
    goes_on_twice(rt, &mut publisher, &mut supply, 100, Round::Reading);
    goes_on_twice(rt, &mut member, &mut supply, 100, Round::Writing);
    goes_on_twice(rt, &mut member, &mut supply, 200, Round::Writing);
    let transport = ends(rt, member, &mut supply, 60_100, Served::Stalled);
    let jobs = ends(rt, publisher, &mut supply, 60_100, Served::Ended);
    assert_eq!(rt; jobs.output().len(), 30);
    reports(rt, alloc, &supply, Some(LEFT));
    supply.abandon();
    transport
}

/// A member whose transport takes nothing more while jobs come: what waits for it stays what one step said, and it is not read.
#[test]
fn deaf_member(rt: HostRuntime) -> Result<(), Fail> {
    let mut writes = vec![in rt.alloc(); WriteTurn::Idle; 100]?;
    writes[0] = WriteTurn::AtMost(14);
    writes[1] = WriteTurn::AtMost(6);
    let scenario = Scenario {
        input: MEMBER,
        reads: &[ReadTurn::AtMost(20), ReadTurn::AtMost(20)],
        writes: &writes,
        ..Scenario::whole()
    };
    let transport = scripted(&rt, rt.alloc(), scenario);
    let stream = large_jobs(rt.alloc())?;
    let scenario = Scenario {
        input: &stream,
        reads: PUBLISHES,
        ..Scenario::whole()
    };
    let jobs = scripted(&rt, rt.alloc(), scenario);
    let member = hold_up(&rt, rt.alloc(), Noting::over(transport), jobs);
    assert_eq!(rt; (member.reads, member.most), (2, 2 * JOB_SIZE));
    assert_written(&rt, member.inner.output(), &ANSWERS[..20]);
    Ok(())
}
