//! Sessions that are over by time while nobody is connected.
use crate::day::{Counts, Day, Listener, live};
use crate::link::{open, say};
use crate::loopback::clients::{be_handed_a_job, counts_of};
use crate::loopback::frames;
use crate::wrong::Wrong;
use std::alloc::Global;
use std::net::{Net, TcpListener, TcpStream};
use std::rt::Clock;
use std::sync::atomic::AtomicBool;
use std::thread;
use std::time::Duration;

const PORT: u16 = 18_838;

/// As many groups as there are, and as many members as a group has: together as many sessions as are kept.
const GROUPS: u8 = 8;

const MEMBERS: u8 = 32;

/// In so many milliseconds each session is over.
const OVER: u64 = 2_500;

/// A CONNECT of a member, whose session lives for two seconds after its connection.
fn connect(group: u8, member: u8) -> [u8; 22] {
    let mut bytes = *b"\x10\x14\x00\x04MQTT\x05\x00\x00\x3C\x05\x11\x00\x00\x00\x02\x00\x02Aa";
    bytes[20] = b'A'.wrapping_add(member);
    bytes[21] = b'a'.wrapping_add(group);
    bytes
}

/// A SUBSCRIBE to the share of a group.
fn subscribe(group: u8) -> [u8; 18] {
    let mut bytes = *b"\x82\x10\x00\x01\x00\x00\x0A$share/a/x\x01";
    bytes[14] = b'a'.wrapping_add(group);
    bytes
}

/// Every session has a place in a group, so it goes for no newcomer before its time. Once the time of all is over, the first client that comes is served, though nobody was connected
/// meanwhile.
#[derive(Drop)]
struct Over;

impl Day for Over {
    fn broker(&self) -> Listener {
        Listener::at(PORT, 2)
    }

    fn pass<R: Net<Listener = TcpListener, Stream = TcpStream> + Clock>(
        &self,
        rt: &R,
        alloc: Global,
        _closes: &AtomicBool,
    ) -> Result<Counts, Wrong> {
        for group in 0..GROUPS {
            fill(rt, alloc, group)?;
        }
        thread::sleep(rt, Duration::from_millis(OVER));
        let mut newcomer = open(rt, PORT)?;
        say(
            &mut newcomer,
            alloc,
            &frames::connect(b'1'),
            &frames::CONNACK,
        )?;
        Ok(counts_of(0, 0, 0))
    }
}

/// The members of a group join it, one after the other, and each goes without a word.
fn fill<R: Net<Listener = TcpListener, Stream = TcpStream> + Clock>(
    rt: &R,
    alloc: Global,
    group: u8,
) -> Result<(), Wrong> {
    for member in 0..MEMBERS {
        let mut stream = open(rt, PORT)?;
        say(
            &mut stream,
            alloc,
            &connect(group, member),
            &frames::CONNACK,
        )?;
        say(&mut stream, alloc, &subscribe(group), &frames::SUBACK)?;
    }
    Ok(())
}

/// A CONNECT of a member, whose session lives for a second after its connection; and how many milliseconds go by then.
const CONNECT_FOR_A_SECOND: [u8; 22] =
    *b"\x10\x14\x00\x04MQTT\x05\x00\x00\x3C\x05\x11\x00\x00\x00\x01\x00\x02w1";

const ALONE: u64 = 1_500;

const PORT_ALONE: u16 = 18_841;

/// A member goes without a word while it holds a job, and nobody comes any more. Its session ends in its time all the same: the broker reports the job as given back, and not as held.
#[derive(Drop)]
struct Alone;

impl Day for Alone {
    fn broker(&self) -> Listener {
        Listener::at(PORT_ALONE, 2)
    }

    fn pass<R: Net<Listener = TcpListener, Stream = TcpStream> + Clock>(
        &self,
        rt: &R,
        alloc: Global,
        _closes: &AtomicBool,
    ) -> Result<Counts, Wrong> {
        let mut member = open(rt, PORT_ALONE)?;
        be_handed_a_job(&mut member, alloc, &CONNECT_FOR_A_SECOND)?;
        drop(member);
        thread::sleep(rt, Duration::from_millis(ALONE));
        Ok(counts_of(1, 0, 0))
    }
}

#[test]
fn a_job_is_given_back_while_nobody_is_connected(rt: HostRuntime) {
    let night = live(&rt, rt.alloc(), &Alone);
    assert_eq!(&rt; night.is_as_seen(rt.alloc()), Ok(()));
}

#[test]
fn sessions_that_are_over_keep_nobody_out(rt: HostRuntime) {
    let night = live(&rt, rt.alloc(), &Over);
    assert_eq!(&rt; night.saw.map(|_| ()), Ok(()));
    assert!(rt; night.ended.is_ok());
}
