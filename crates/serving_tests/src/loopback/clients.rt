//! Clients at a broker, from their CONNECT to the close.
use crate::day::{Counts, Day, Listener, live};
use crate::link::{ends, gets, open, say, send};
use crate::loopback::frames;
use crate::wrong::Wrong;
use broker_log::{Level, Log};
use conn_rules::{ClientLimits, MaxInflight};
use limits::DEFAULT_SESSIONS;
use mqtt_topic::Routes;
use session_desk::Newcomers;
use shared_routes::NewShares;
use std::alloc::Global;
use std::io::Read;
use std::net::{Ipv4Addr, Net, SocketAddr, TcpListener, TcpStream};
use std::process::Abort;
use std::rt::Clock;
use std::sync::Wait;
use std::sync::atomic::{AtomicBool, Ordering};
use std::thread::Threads;
use std::time::Duration;
use tcp_server::{ListenAt, ServeSettings, serve_at};
use text_io::{DeviceFault, RunError};

/// What clients saw that published so many jobs, of which so many were acknowledged and so many are held.
pub(crate) fn counts_of(accepted: u64, acknowledged: u64, held: u64) -> Counts {
    Counts {
        accepted,
        acknowledged,
        held,
    }
}

/// A client joins the group, publishes a job, and is handed it.
pub(crate) fn be_handed_a_job(
    stream: &mut TcpStream,
    alloc: Global,
    connect: &[u8],
) -> Result<(), Wrong> {
    say(stream, alloc, connect, &frames::CONNACK)?;
    say(stream, alloc, &frames::SUBSCRIBE, &frames::SUBACK)?;
    say(stream, alloc, &frames::PUBLISH, &frames::PUBACK)?;
    gets(stream, alloc, &frames::JOB)
}

/// A job is published, taken, acknowledged; a PINGREQ is answered; and then the broker closes.
#[derive(Drop)]
struct OneJob;

/// What its client says and is told.
fn one_job_of(stream: &mut TcpStream, alloc: Global, closes: &AtomicBool) -> Result<(), Wrong> {
    be_handed_a_job(stream, alloc, &frames::connect(b'1'))?;
    send(stream, b"\x40\x02\x00\x01")?;
    say(stream, alloc, b"\xC0\x00", b"\xD0\x00")?;
    closes.store(true, Ordering::SeqCst);
    gets(stream, alloc, &frames::CLOSED)?;
    ends(stream)
}

impl Day for OneJob {
    fn broker(&self) -> Listener {
        Listener::at(18_830, 2)
    }

    fn pass<R: Net<Listener = TcpListener, Stream = TcpStream> + Clock>(
        &self,
        rt: &R,
        alloc: Global,
        closes: &AtomicBool,
    ) -> Result<Counts, Wrong> {
        let mut stream = open(rt, 18_830)?;
        one_job_of(&mut stream, alloc, closes)?;
        Ok(counts_of(1, 1, 0))
    }
}

/// A client connects again while it is connected, and its older connection is told so and ends.
#[derive(Drop)]
struct TakingOver;

/// What the client's connections are told.
fn taken_over(older: &mut TcpStream, newer: &mut TcpStream, alloc: Global) -> Result<(), Wrong> {
    send(newer, &frames::connect(b'1'))?;
    gets(older, alloc, &frames::TAKEN_OVER)?;
    ends(older)?;
    gets(newer, alloc, &frames::CONNACK)
}

impl Day for TakingOver {
    fn broker(&self) -> Listener {
        Listener::at(18_831, 2)
    }

    fn pass<R: Net<Listener = TcpListener, Stream = TcpStream> + Clock>(
        &self,
        rt: &R,
        alloc: Global,
        _closes: &AtomicBool,
    ) -> Result<Counts, Wrong> {
        let mut older = open(rt, 18_831)?;
        say(&mut older, alloc, &frames::connect(b'1'), &frames::CONNACK)?;
        let mut newer = open(rt, 18_831)?;
        taken_over(&mut older, &mut newer, alloc)?;
        Ok(counts_of(0, 0, 0))
    }
}

/// A member goes without a word while it holds a job, comes back, and is sent it again; and holds it at the close.
#[derive(Drop)]
struct Resuming;

impl Day for Resuming {
    fn broker(&self) -> Listener {
        Listener::at(18_832, 2)
    }

    fn pass<R: Net<Listener = TcpListener, Stream = TcpStream> + Clock>(
        &self,
        rt: &R,
        alloc: Global,
        closes: &AtomicBool,
    ) -> Result<Counts, Wrong> {
        let mut first = open(rt, 18_832)?;
        be_handed_a_job(&mut first, alloc, &frames::CONNECT_FOR_AN_HOUR)?;
        drop(first);
        let mut second = open(rt, 18_832)?;
        come_back(&mut second, alloc, closes)?;
        Ok(counts_of(1, 0, 1))
    }
}

/// A member comes back, and is sent its job again.
fn come_back(stream: &mut TcpStream, alloc: Global, closes: &AtomicBool) -> Result<(), Wrong> {
    say(
        stream,
        alloc,
        &frames::CONNECT_FOR_AN_HOUR,
        &frames::RESUMED,
    )?;
    gets(stream, alloc, &frames::JOB_AGAIN)?;
    closes.store(true, Ordering::SeqCst);
    gets(stream, alloc, &frames::CLOSED)
}

/// How many clients of each kind there are at once: publishers, members, some that send half a packet and then nothing, and some that send garbage.
const EACH: u8 = 9;

/// All kinds of clients at once; each job that was accepted is acknowledged.
#[derive(Drop)]
struct Crowd;

impl Day for Crowd {
    fn broker(&self) -> Listener {
        Listener::at(18_833, 4)
    }

    fn pass<R: Net<Listener = TcpListener, Stream = TcpStream> + Clock>(
        &self,
        rt: &R,
        alloc: Global,
        _closes: &AtomicBool,
    ) -> Result<Counts, Wrong> {
        let mut members = Vec::new(alloc);
        let mut dead = Vec::new(alloc);
        all_come(rt, alloc, &mut members, &mut dead)?;
        for digit in 0..EACH {
            publish_two(rt, alloc, digit)?;
        }
        take_all(&mut members, u32::from(EACH) * 2)?;
        Ok(counts_of(18, 18, 0))
    }
}

/// Members come, and beside each of them one that sends half a packet and then nothing, and one that sends garbage.
fn all_come<R: Net<Listener = TcpListener, Stream = TcpStream> + Clock>(
    rt: &R,
    alloc: Global,
    members: &mut Vec<TcpStream>,
    dead: &mut Vec<TcpStream>,
) -> Result<(), Wrong> {
    for digit in 0..EACH {
        members
            .push(new_member(rt, alloc, digit)?)
            .ok()
            .ok_or(Wrong::Memory)?;
        dead.push(half_dead(rt)?).ok().ok_or(Wrong::Memory)?;
        send_garbage(rt)?;
    }
    Ok(())
}

/// A member of the group.
fn new_member<R: Net<Listener = TcpListener, Stream = TcpStream> + Clock>(
    rt: &R,
    alloc: Global,
    digit: u8,
) -> Result<TcpStream, Wrong> {
    let mut stream = open(rt, 18_833)?;
    enter(&mut stream, alloc, digit)?;
    Ok(stream)
}

/// A client joins the group.
fn enter(stream: &mut TcpStream, alloc: Global, digit: u8) -> Result<(), Wrong> {
    let connect = frames::connect(b'a'.saturating_add(digit));
    say(stream, alloc, &connect, &frames::CONNACK)?;
    say(stream, alloc, &frames::SUBSCRIBE, &frames::SUBACK)
}

/// One that sends half a packet.
fn half_dead<R: Net<Listener = TcpListener, Stream = TcpStream> + Clock>(
    rt: &R,
) -> Result<TcpStream, Wrong> {
    let mut stream = open(rt, 18_833)?;
    send(&mut stream, b"\x10\x0F\x00")?;
    Ok(stream)
}

/// One that sends garbage, and whose stream ends.
fn send_garbage<R: Net<Listener = TcpListener, Stream = TcpStream> + Clock>(
    rt: &R,
) -> Result<(), Wrong> {
    let mut stream = open(rt, 18_833)?;
    send(&mut stream, b"GET / HTTP/1.1\r\n\r\n")?;
    ends(&mut stream)
}

/// A publisher comes, and publishes two jobs.
fn publish_two<R: Net<Listener = TcpListener, Stream = TcpStream> + Clock>(
    rt: &R,
    alloc: Global,
    digit: u8,
) -> Result<(), Wrong> {
    let mut stream = open(rt, 18_833)?;
    two_jobs(&mut stream, alloc, digit)
}

/// What a publisher says and is told.
fn two_jobs(stream: &mut TcpStream, alloc: Global, digit: u8) -> Result<(), Wrong> {
    let connect = frames::connect(b'A'.saturating_add(digit));
    say(stream, alloc, &connect, &frames::CONNACK)?;
    say(stream, alloc, &frames::PUBLISH, &frames::PUBACK)?;
    say(stream, alloc, &frames::PUBLISH, &frames::PUBACK)?;
    send(stream, b"\xE0\x00")
}

/// Members take so many jobs in all, and acknowledge each.
fn take_all(members: &mut Vec<TcpStream>, count: u32) -> Result<(), Wrong> {
    let mut left = count;
    for member in members {
        member
            .set_read_timeout(Some(Duration::from_millis(300)))
            .ok()
            .ok_or(Wrong::Connects)?;
        for _ in 0..count {
            let mut job = [0; 11];
            if member.read_exact(&mut job).is_err() {
                break;
            }
            let [_, _, _, _, _, _, _, high, low, _, _] = job;
            send(member, &[0x40, 2, high, low])?;
            left = left.checked_sub(1).ok_or(Wrong::Job)?;
        }
    }
    if left == 0 { Ok(()) } else { Err(Wrong::Waits) }
}

/// All comes as it should on a day, and this is written.
fn compare<R, D: Day>(rt: &R, alloc: Global, day: &D, text: &[u8])
where
    R: Threads + Wait + Abort + Net<Listener = TcpListener, Stream = TcpStream> + Clock + Sync,
{
    let night = live(rt, alloc, day);
    assert_eq!(rt; night.is_as_seen(alloc), Ok(()));
    assert!(rt; night.output.as_slice() == text);
}

#[test]
fn one_job(rt: HostRuntime) {
    let text =
        b"listening 18830\n$share/g/job accepted 1 acknowledged 1 refused 0 held 0 queued 0 returned 0 discarded 0\n";
    compare(&rt, rt.alloc(), &OneJob, text);
}

#[test]
fn takeover(rt: HostRuntime) {
    let night = live(&rt, rt.alloc(), &TakingOver);
    assert!(rt; night.saw.is_ok());
    assert!(rt; night.ended.is_ok());
    assert!(rt; night.output.as_slice() == b"listening 18831\n".as_slice());
}

#[test]
fn resume(rt: HostRuntime) {
    let text =
        b"listening 18832\n$share/g/job accepted 1 acknowledged 0 refused 0 held 1 queued 0 returned 0 discarded 0\n";
    compare(&rt, rt.alloc(), &Resuming, text);
}

#[test]
fn a_crowd(rt: HostRuntime) {
    let text =
        b"listening 18833\n$share/g/job accepted 18 acknowledged 18 refused 0 held 0 queued 0 returned 0 discarded 0\n";
    compare(&rt, rt.alloc(), &Crowd, text);
}

/// How serving ends at a port that is listened to.
fn served_twice<R: Threads + Wait + Net<Listener = TcpListener, Stream = TcpStream> + Clock + Sync>(
    rt: &R,
    alloc: Global,
) -> Option<Result<(), RunError>> {
    let address = SocketAddr::from((Ipv4Addr::LOCALHOST, 18_834));
    let _listener = TcpListener::bind(rt, address).ok()?;
    let mut input: &[u8] = b"";
    let mut output = Vec::new(alloc);
    let log = Log::open(alloc, Level::Off).ok()?;
    let ended = serve_at(
        rt,
        alloc,
        ServeSettings {
            capacity: 1_024,
            workers: 1,
            limits: ClientLimits::inflight_alone(MaxInflight::most()),
            drain: 0,
            newcomers: Newcomers::Displace(DEFAULT_SESSIONS),
            new_shares: NewShares::Bound,
            per_address: 0,
        },
        &Routes::new(alloc),
        ListenAt {
            address: Ipv4Addr::LOCALHOST,
            port: 18_834,
            metrics: 0,
        },
        &log,
        &mut input,
        &mut output,
    );
    if output.is_empty() { Some(ended) } else { None }
}

#[test]
fn a_port_in_use(rt: HostRuntime) {
    assert!(rt;
        matches!(
            served_twice(&rt, rt.alloc()),
            Some(Err(RunError::Network(DeviceFault::PortInUse)))
        )
    );
}
