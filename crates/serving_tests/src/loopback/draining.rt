//! A broker that drains once its input has ended.
use crate::day::{Counts, Day, Listener, live};
use crate::link::{ends, gets, open, say, send, wanted};
use crate::loopback::clients::counts_of;
use crate::loopback::frames;
use crate::wrong::Wrong;
use std::alloc::Global;
use std::net::{Net, TcpListener, TcpStream};
use std::rt::Clock;
use std::sync::atomic::{AtomicBool, Ordering};
use std::thread;
use std::time::Duration;

const PORT: u16 = 18_835;

/// How many jobs are published at most until one is not accepted: fewer than the group's queue takes.
const MOST_JOBS: u64 = 60;

/// How many milliseconds lie between two of them.
const PAUSE: u64 = 5;

/// Jobs wait when the input ends, since their member is away. From soon after that on a job is not accepted, and neither is a client that has no session; the member comes back
/// to its session and is handed those that wait; then the broker closes.
#[derive(Drop)]
struct Draining;

impl Day for Draining {
    fn broker(&self) -> Listener {
        Listener {
            drain: 60,
            ..Listener::at(PORT, 2)
        }
    }

    fn pass<R: Net<Listener = TcpListener, Stream = TcpStream> + Clock>(
        &self,
        rt: &R,
        alloc: Global,
        closes: &AtomicBool,
    ) -> Result<Counts, Wrong> {
        let mut leaving = open(rt, PORT)?;
        say(
            &mut leaving,
            alloc,
            &frames::CONNECT_FOR_AN_HOUR,
            &frames::CONNACK,
        )?;
        say(&mut leaving, alloc, &frames::SUBSCRIBE, &frames::SUBACK)?;
        send(&mut leaving, b"\xE0\x00")?;
        ends(&mut leaving)?;
        let mut publisher = open(rt, PORT)?;
        let accepted = publish_until_drained(rt, &mut publisher, alloc, closes)?;
        let mut stranger = open(rt, PORT)?;
        say(
            &mut stranger,
            alloc,
            &frames::connect(b'2'),
            &frames::SERVER_BUSY,
        )?;
        let mut member = open(rt, PORT)?;
        say(
            &mut member,
            alloc,
            &frames::CONNECT_FOR_AN_HOUR,
            &frames::RESUMED,
        )?;
        take_each(&mut member, alloc, accepted)?;
        gets(&mut publisher, alloc, &frames::CLOSED)?;
        Ok(counts_of(accepted, accepted, 0))
    }
}

/// A publisher comes, the input ends, and the publisher goes on until a job is answered by Quota exceeded. How many were accepted.
fn publish_until_drained<R: Clock>(
    rt: &R,
    stream: &mut TcpStream,
    alloc: Global,
    closes: &AtomicBool,
) -> Result<u64, Wrong> {
    say(stream, alloc, &frames::connect(b'3'), &frames::CONNACK)?;
    say(stream, alloc, &frames::PUBLISH, &frames::PUBACK)?;
    closes.store(true, Ordering::SeqCst);
    for accepted in 1..MOST_JOBS {
        send(stream, &frames::PUBLISH)?;
        if !is_accepted(stream, alloc)? {
            return Ok(accepted);
        }
        thread::sleep(rt, Duration::from_millis(PAUSE));
    }
    Err(Wrong::Puback)
}

/// Whether a PUBACK that comes says that the job was accepted; else it says Quota exceeded.
fn is_accepted(stream: &mut TcpStream, alloc: Global) -> Result<bool, Wrong> {
    let puback = wanted(stream, alloc, 0x40)?;
    match puback.as_slice() {
        b"\x00\x07" => Ok(true),
        b"\x00\x07\x97" => Ok(false),
        _ => Err(Wrong::Puback),
    }
}

/// A member is handed so many jobs and acknowledges each; then the broker closes.
fn take_each(stream: &mut TcpStream, alloc: Global, count: u64) -> Result<(), Wrong> {
    for _ in 0..count {
        let job = wanted(stream, alloc, 0x32)?;
        let [_, _, _, _, _, high, low, _, _] = *job.as_slice() else {
            return Err(Wrong::Bytes);
        };
        send(stream, &[0x40, 2, high, low])?;
    }
    gets(stream, alloc, &frames::CLOSED)
}

#[test]
fn a_drain_ends_once_all_is_settled(rt: HostRuntime) {
    let night = live(&rt, rt.alloc(), &Draining);
    assert_eq!(&rt; night.is_as_seen(rt.alloc()), Ok(()));
}
